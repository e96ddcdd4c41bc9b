use std::alloc::Global;
use std::marker::Model;
use trace_base::{Memory, ReadAnswer, Source};

/// How many bytes are asked of the source at once, at most.
const CHUNK: usize = 65_536;

/// What comes next of the bytes that wait and those of the source.
#[derive(Clone, Copy, Debug, PartialEq, Eq)]
pub enum NextByte {
    /// A byte.
    Byte(u8),
    /// The source ended.
    End,
    /// The source failed.
    Failed,
}

/// Bytes that a source gave and that wait to be taken. They lie in a chunk of memory that is taken once.
/// Contracts see them as the list of the bytes that wait.
#[derive(Debug, Drop)]
pub struct Pending {
    chunk: Vec<u8>,
    start: usize,
    end: usize,
}

impl Model for Pending {
    ghost use Rattle.std.specs.Prelude.{ℕ, ◌<◌, ◌≤◌, List, length, take, drop};

    ghost Value = { List ℕ };

    ghost view = { λ p. drop p.start (take p.end p.chunk.items) };

    ghost invariant = { λ p. (0 < length p.chunk.items) × (p.end ≤ length p.chunk.items) };
}

impl Pending {
    ghost use Rattle.std.specs.Prelude.{◌≡◌, ◌+◌, ◌≤◌, ℕ, List, [], ◌∷◌, IfOk, MatchOption, vec_len};
    ghost use Rattle.std.specs.Prelude.{vec_capacity};
    ghost use Rattle.trace_base.specs.Outside.{Rose};
    ghost use Rattle.trace_base.specs.declared.source.ReadAnswer.TheVariants as answer;
    ghost use Rattle.request_reader.specs.Incoming.{left_to_read};
    ghost use Rattle.request_reader.specs.Reading.{Fills, GivesByte, LeavesNone, Moves};
    ghost use Rattle.request_reader.specs.declared.pending.NextByte.TheVariants as byte;

    /// A chunk in which no byte waits.
    pub fn new(alloc: Global) -> Result<Pending, Memory>
        ensures { IfOk result (λ p. p ≡ []) }
    {
        let chunk = vec![in alloc; 0u8; CHUNK]?;
        Ok(Pending {
            chunk,
            start: 0,
            end: 0,
        })
    }

    /// Drops the bytes that wait.
    pub fn clear(&mut self)
        ensures { self.new ≡ [] }
    {
        self.start = 0;
        self.end = 0;
    }

    // Takes the first byte that waits.
    fn pop(&mut self) -> Option<u8>
        ensures { MatchOption result ((self.old ≡ []) × (self.new ≡ [])) (λ b. self.old ≡ b ∷ self.new) }
    {
        if self.start >= self.end {
            return None;
        }
        let byte = self.chunk[self.start];
        self.start += 1;
        Some(byte)
    }

    /// Adds bytes that wait to the text: all of them, but at most this many. It takes no memory.
    pub fn move_into(&mut self, text: &mut Vec<u8>, most: usize)
        requires room { vec_len text.old + most ≤ vec_capacity text.old }
        ensures moved { Moves most self.old self.new text.old.items text.new.items }
        ensures room { vec_capacity text.old ≤ vec_capacity text.new }
    {
        if self.start >= self.end {
            return;
        }
        let waiting = &self.chunk[self.start..self.end];
        let count = most.min(waiting.len());
        match text.extend_from_slice(&waiting[..count]) {
            Ok(()) => {}
            Err(_) => unreachable!(),
        }
        self.start += count;
    }

    // Reads a chunk from the source, in place of what waits.
    fn fill<I: Source>(&mut self, input: &mut I) -> ReadAnswer
        ensures fills { Fills (I.left input.old) (I.left input.new) self.new result }
        ensures later { I.faults input.old ≤ I.faults input.new }
        ensures cause { result ≡ answer.Failed → Rose (I.faults input.old) (I.faults input.new) }
    {
        self.start = 0;
        self.end = 0;
        let answer = input.read(self.chunk.as_mut_slice());
        if let ReadAnswer::Got(n) = answer {
            self.end = n;
        }
        answer
    }

    /// Takes the next byte: the first that waits, or else the first of what the source gives, which is asked
    /// only where none waits.
    pub fn next_byte<I: Source>(&mut self, input: &mut I) -> NextByte
        ensures gives { GivesByte (left_to_read self.old (I.left input.old))
            (left_to_read self.new (I.left input.new)) result }
        ensures empties { LeavesNone result self.new }
        ensures unasked { (first : ℕ) (rest : List ℕ) → self.old ≡ first ∷ rest
            → (result ≡ byte.Byte first) × (self.new ≡ rest) × (input.new ≡ input.old) }
        ensures later { I.faults input.old ≤ I.faults input.new }
        ensures cause { result ≡ byte.Failed → Rose (I.faults input.old) (I.faults input.new) }
    {
        if let Some(byte) = self.pop() {
            return NextByte::Byte(byte);
        }
        match self.fill(input) {
            ReadAnswer::Got(_) => match self.pop() {
                Some(byte) => NextByte::Byte(byte),
                None => unreachable!(),
            },
            ReadAnswer::End => NextByte::End,
            ReadAnswer::Failed => NextByte::Failed,
        }
    }
}
