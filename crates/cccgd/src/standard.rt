ghost use Rattle.std.specs.Prelude.{◌≡◌, None};

use std::io::{Read, Write};
use trace_base::{Faults, ReadAnswer, Sink, Source, WriteAnswer};

/// A reader of the system as a source. What it has left isn't told. An interrupted read counts as a fault,
/// like any other error.
#[derive(Drop)]
pub struct StandardInput<R: Read> {
    reader: R,
    faults: u64,
}

impl<R: Read> StandardInput<R> {
    /// A source over this reader, without faults.
    pub fn new(reader: R) -> StandardInput<R>
        ensures { result.faults ≡ 0 }
    {
        StandardInput { reader, faults: 0 }
    }
}

impl<R: Read> Faults for StandardInput<R> {
    ghost faults = { λ s. s.faults };

    fn faults(&self) -> u64 {
        self.faults
    }
}

impl<R: Read> Source for StandardInput<R> {
    ghost use Rattle.std.specs.Prelude.{None};

    ghost left = { λ _. None };

    fn read(&mut self, into: &mut [u8]) -> ReadAnswer {
        match self.reader.read(into) {
            Ok(0) => ReadAnswer::End,
            Ok(n) => ReadAnswer::Got(n),
            Err(_) => {
                self.faults = self.faults.saturating_add(1);
                ReadAnswer::Failed
            }
        }
    }
}

/// A writer of the system as a sink. What it holds isn't told. A write that takes nothing, or is interrupted,
/// is a fault.
#[derive(Drop)]
pub struct StandardOutput<W: Write> {
    writer: W,
    faults: u64,
}

impl<W: Write> StandardOutput<W> {
    /// A sink over this writer, without faults.
    pub fn new(writer: W) -> StandardOutput<W>
        ensures { result.faults ≡ 0 }
    {
        StandardOutput { writer, faults: 0 }
    }
}

impl<W: Write> Faults for StandardOutput<W> {
    ghost faults = { λ s. s.faults };

    fn faults(&self) -> u64 {
        self.faults
    }
}

impl<W: Write> Sink for StandardOutput<W> {
    ghost use Rattle.std.specs.Prelude.{None};

    ghost held = { λ _. None };

    fn write(&mut self, bytes: &[u8]) -> WriteAnswer {
        match self.writer.write(bytes) {
            Ok(0) | Err(_) => {
                self.faults = self.faults.saturating_add(1);
                WriteAnswer::Failed
            }
            Ok(n) => WriteAnswer::Took(n),
        }
    }
}
