ghost use Rattle.std.specs.Prelude.{◌≡◌, ◌<◌, ◌≤◌, [], length, Some};
ghost use Rattle.trace_base.specs.Outside.{Rose, one_more};
ghost use Rattle.trace_base.specs.Sink.{Writes};

use crate::faults::Faults;
use crate::seq::Seq;
use crate::sink::{Sink, WriteAnswer};
use std::alloc::Global;

/// A sink in memory. It takes at most `step` bytes a write, and chosen writes fail.
#[derive(Debug, Drop)]
pub struct MemSink {
    written: Vec<u8>,
    step: usize,
    fails: Seq<u64>,
    calls: u64,
    faults: u64,
    ghost takes_some: { 1 ≤ step },
}

impl MemSink {
    ghost use Rattle.trace_base.specs.MemSink.{bytes_held, writes_so_far, failing_writes, step_of};
    ghost use Rattle.trace_base.specs.MemSink.{sink_faults};

    /// An empty sink. A write takes no more than `step` bytes. The writes whose numbers, counted from 0,
    /// stand in `fails` fail, and so does one that finds no memory for its bytes.
    pub fn new(alloc: Global, step: usize, fails: Seq<u64>) -> MemSink
        requires { 1 ≤ step }
        ensures held { bytes_held result ≡ [] }
        ensures writes { writes_so_far result ≡ 0 }
        ensures fails { failing_writes result ≡ fails }
        ensures step { step_of result ≡ step }
        ensures faults { sink_faults result ≡ 0 }
    {
        MemSink {
            written: Vec::new(alloc),
            step,
            fails,
            calls: 0,
            faults: 0,
        }
    }

    /// What it holds.
    pub fn written(&self) -> &[u8]
        ensures { result.now ≡ bytes_held self.now }
    {
        self.written.as_slice()
    }
}

impl Faults for MemSink {
    ghost use Rattle.trace_base.specs.MemSink.{sink_faults};

    ghost faults = { sink_faults };

    fn faults(&self) -> u64 {
        self.faults
    }
}

impl Sink for MemSink {
    ghost use Rattle.trace_base.specs.MemSink.{bytes_held, writes_so_far, failing_writes, step_of};
    ghost use Rattle.trace_base.specs.MemSink.{sink_faults, AnswersWrite, faults_after_write};
    ghost use Rattle.trace_base.specs.declared.sink.WriteAnswer.TheVariants.{Failed};

    ghost held = { λ s. Some (bytes_held s) };

    /// Takes the first `step` bytes, or all of fewer, unless this write is one of those that fail or no
    /// memory was found for them.
    fn write(&mut self, bytes: &[u8]) -> WriteAnswer
        requires { 0 < length bytes.now }
        ensures written { Writes (Some (bytes_held self.old)) (Some (bytes_held self.new)) bytes.now result }
        ensures later { sink_faults self.old ≤ sink_faults self.new }
        ensures cause { result ≡ Failed → Rose (sink_faults self.old) (sink_faults self.new) }
        ensures answer { AnswersWrite self.old (length bytes.now) result }
        ensures writes { writes_so_far self.new ≡ one_more (writes_so_far self.old) }
        ensures fails { failing_writes self.new ≡ failing_writes self.old }
        ensures step { step_of self.new ≡ step_of self.old }
        ensures faults { sink_faults self.new ≡ faults_after_write result (sink_faults self.old) }
    {
        let call = self.calls;
        self.calls = call.saturating_add(1);
        let n = bytes.len().min(self.step);
        if self.fails.as_slice().contains(&call) {
            self.faults = self.faults.saturating_add(1);
            return WriteAnswer::Failed;
        }
        match self.written.extend_from_slice(&bytes[..n]) {
            Ok(()) => WriteAnswer::Took(n),
            Err(_) => {
                self.faults = self.faults.saturating_add(1);
                WriteAnswer::Failed
            }
        }
    }
}
