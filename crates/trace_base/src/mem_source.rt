ghost use Rattle.std.specs.Prelude.{◌≡◌, ◌<◌, ◌≤◌, length, drop, Some};
ghost use Rattle.trace_base.specs.Outside.{Rose, one_more};
ghost use Rattle.trace_base.specs.Source.{Reads};

use crate::faults::Faults;
use crate::seq::Seq;
use crate::source::{ReadAnswer, Source};

/// A source over bytes in memory. Chosen reads fail.
#[derive(Debug, Drop)]
pub struct MemSource {
    bytes: Seq<u8>,
    given: usize,
    fails: Seq<u64>,
    calls: u64,
    faults: u64,
}

impl MemSource {
    ghost use Rattle.trace_base.specs.MemSource.{bytes_left, reads_so_far, failing_reads, source_faults};

    /// A source that gives these bytes. The reads whose numbers, counted from 0, stand in `fails` fail, and
    /// no others.
    pub fn new(bytes: Seq<u8>, fails: Seq<u64>) -> MemSource
        ensures left { bytes_left result ≡ bytes }
        ensures reads { reads_so_far result ≡ 0 }
        ensures fails { failing_reads result ≡ fails }
        ensures faults { source_faults result ≡ 0 }
    {
        MemSource {
            bytes,
            given: 0,
            fails,
            calls: 0,
            faults: 0,
        }
    }
}

impl Faults for MemSource {
    ghost use Rattle.trace_base.specs.MemSource.{source_faults};

    ghost faults = { source_faults };

    fn faults(&self) -> u64 {
        self.faults
    }
}

impl Source for MemSource {
    ghost use Rattle.trace_base.specs.MemSource.{bytes_left, reads_so_far, failing_reads, source_faults};
    ghost use Rattle.trace_base.specs.MemSource.{read_answer, bytes_given, faults_after_read};
    ghost use Rattle.trace_base.specs.declared.source.ReadAnswer.TheVariants.{Failed};

    ghost left = { λ s. Some (bytes_left s) };

    /// Gives as much as is left and has room, unless this read is one of those that fail.
    fn read(&mut self, into: &mut [u8]) -> ReadAnswer
        requires { 0 < length into.old }
        ensures read { Reads (Some (bytes_left self.old)) (Some (bytes_left self.new)) into.new result }
        ensures later { source_faults self.old ≤ source_faults self.new }
        ensures cause { result ≡ Failed → Rose (source_faults self.old) (source_faults self.new) }
        ensures answer { result ≡ read_answer self.old (length into.old) }
        ensures behind { drop (bytes_given result) into.new ≡ drop (bytes_given result) into.old }
        ensures reads { reads_so_far self.new ≡ one_more (reads_so_far self.old) }
        ensures fails { failing_reads self.new ≡ failing_reads self.old }
        ensures faults { source_faults self.new ≡ faults_after_read result (source_faults self.old) }
    {
        let call = self.calls;
        self.calls = call.saturating_add(1);
        if self.fails.as_slice().contains(&call) {
            self.faults = self.faults.saturating_add(1);
            return ReadAnswer::Failed;
        }
        let bytes = self.bytes.as_slice();
        let rest = bytes.len().saturating_sub(self.given);
        if rest == 0 {
            return ReadAnswer::End;
        }
        let n = rest.min(into.len());
        into[..n].copy_from_slice(&bytes[self.given..self.given + n]);
        self.given += n;
        ReadAnswer::Got(n)
    }
}
