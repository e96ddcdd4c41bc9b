//! That the adapters tell the answers of the system's reader and writer as they are, and count each fault;
//! and what the program's words come to.
use crate::standard::{StandardInput, StandardOutput};
use crate::words::{NoWords, without_words, words};
use std::env::{Env, FillError};
use std::io::{self, ErrorKind, Read, Write};
use std::test::Fail;
use trace_base::{Faults, ReadAnswer, Sink, Source, WriteAnswer};

// What a fake does at a call.
#[derive(Clone, Copy, Debug)]
enum Step {
    Bytes(usize),
    Error(ErrorKind),
}

// A reader whose calls answer by these steps in order, and with no bytes after the last. It leaves the buffer
// as it is.
#[derive(Drop)]
struct FakeReader {
    steps: Vec<Step>,
    calls: usize,
}

impl Read for FakeReader {
    fn read(&mut self, buf: &mut [u8]) -> io::Result<usize> {
        let step = self.steps.as_slice().get(self.calls).copied();
        self.calls = self.calls.saturating_add(1);
        match step {
            Some(Step::Bytes(n)) => Ok(n.min(buf.len())),
            Some(Step::Error(kind)) => Err(io::Error::from(kind)),
            None => Ok(0),
        }
    }
}

// A writer whose calls answer by these steps in order, and take no bytes after the last.
#[derive(Drop)]
struct FakeWriter {
    steps: Vec<Step>,
    calls: usize,
}

impl Write for FakeWriter {
    fn write(&mut self, buf: &[u8]) -> io::Result<usize> {
        let step = self.steps.as_slice().get(self.calls).copied();
        self.calls = self.calls.saturating_add(1);
        match step {
            Some(Step::Bytes(n)) => Ok(n.min(buf.len())),
            Some(Step::Error(kind)) => Err(io::Error::from(kind)),
            None => Ok(0),
        }
    }

    fn flush(&mut self) -> io::Result<()> {
        Ok(())
    }
}

#[test]
fn input_tells_each_answer_of_its_reader(rt: HostRuntime) -> Result<(), Fail> {
    let answers = [
        (Step::Bytes(3), ReadAnswer::Got(3), 0),
        (Step::Error(ErrorKind::Other), ReadAnswer::Failed, 1),
        (Step::Bytes(4), ReadAnswer::Got(4), 1),
        (Step::Error(ErrorKind::Interrupted), ReadAnswer::Failed, 2),
        (Step::Error(ErrorKind::WouldBlock), ReadAnswer::Failed, 3),
        (Step::Bytes(1), ReadAnswer::Got(1), 3),
        (Step::Bytes(0), ReadAnswer::End, 3),
        (Step::Bytes(2), ReadAnswer::Got(2), 3),
        (Step::Bytes(0), ReadAnswer::End, 3),
    ];
    let mut steps = Vec::new(rt.alloc());
    steps.extend(answers.iter().map(|(step, _, _)| *step))?;
    let mut input = StandardInput::new(FakeReader { steps, calls: 0 });
    assert_eq!(rt; input.faults(), 0);
    for (step, answer, faults) in answers {
        let mut into = [b'-'; 4];
        assert_eq!(rt; input.read(&mut into), answer, "at {step:?}");
        assert_eq!(rt; input.faults(), faults, "at {step:?}");
    }
    Ok(())
}

#[test]
fn input_gives_the_bytes_of_its_reader(rt: HostRuntime) {
    let mut input = StandardInput::new(b"abcde".as_slice());
    let mut into = [b'-'; 3];
    assert_eq!(rt; input.read(&mut into), ReadAnswer::Got(3));
    assert_eq!(rt; into.as_slice(), b"abc".as_slice());
    assert_eq!(rt; input.read(&mut into), ReadAnswer::Got(2));
    assert_eq!(rt; into.as_slice(), b"dec".as_slice());
    assert_eq!(rt; input.read(&mut into), ReadAnswer::End);
    assert_eq!(rt; input.faults(), 0);
}

#[test]
fn output_tells_each_answer_of_its_writer(rt: HostRuntime) -> Result<(), Fail> {
    let answers = [
        (Step::Bytes(3), WriteAnswer::Took(3), 0),
        (Step::Bytes(0), WriteAnswer::Failed, 1),
        (Step::Bytes(4), WriteAnswer::Took(4), 1),
        (Step::Error(ErrorKind::BrokenPipe), WriteAnswer::Failed, 2),
        (Step::Error(ErrorKind::Interrupted), WriteAnswer::Failed, 3),
        (Step::Bytes(1), WriteAnswer::Took(1), 3),
        (Step::Bytes(0), WriteAnswer::Failed, 4),
    ];
    let mut steps = Vec::new(rt.alloc());
    steps.extend(answers.iter().map(|(step, _, _)| *step))?;
    let mut output = StandardOutput::new(FakeWriter { steps, calls: 0 });
    assert_eq!(rt; output.faults(), 0);
    for (step, answer, faults) in answers {
        assert_eq!(rt; output.write(b"four"), answer, "at {step:?}");
        assert_eq!(rt; output.faults(), faults, "at {step:?}");
    }
    Ok(())
}

#[test]
fn output_hands_the_bytes_to_its_writer(rt: HostRuntime) {
    let mut room = [b'-'; 5];
    let mut output = StandardOutput::new(room.as_mut_slice());
    assert_eq!(rt; output.write(b"abc"), WriteAnswer::Took(3));
    assert_eq!(rt; output.write(b"def"), WriteAnswer::Took(2));
    assert_eq!(rt; output.write(b"f"), WriteAnswer::Failed);
    assert_eq!(rt; output.faults(), 1);
    assert_eq!(rt; room.as_slice(), b"abcde".as_slice());
}

// An environment with these arguments, and no variables.
#[derive(Drop)]
struct FakeArguments<'a> {
    arguments: &'a [&'a [u8]],
}

impl Env for FakeArguments<'_> {
    fn arg(&self, i: usize, buf: &mut [u8]) -> Result<usize, FillError> {
        let Some(argument) = self.arguments.get(i) else {
            return Err(FillError::NotPresent);
        };
        let Some(into) = buf.get_mut(..argument.len()) else {
            return Err(FillError::TooLong);
        };
        into.copy_from_slice(argument);
        Ok(argument.len())
    }

    fn var(&self, _name: &str, _buf: &mut [u8]) -> Result<usize, FillError> {
        Err(FillError::NotPresent)
    }

    fn var_at(&self, _i: usize, _buf: &mut [u8]) -> Result<usize, FillError> {
        Err(FillError::NotPresent)
    }
}

#[test]
fn words_are_those_behind_the_name(rt: HostRuntime) -> Result<(), Fail> {
    let arguments = [b"cccgd".as_slice(), b"batch".as_slice(), "é".as_bytes()];
    let given = (
        FakeArguments {
            arguments: &arguments,
        },
        rt.alloc(),
    );
    match words(&given) {
        Ok(words) => {
            assert_eq!(rt; words.len(), 2);
            assert_eq!(rt; words[0].as_str(), "batch");
            assert_eq!(rt; words[1].as_str(), "é");
        }
        Err(why) => assert!(rt; false, "no words: {why:?}"),
    }
    Ok(())
}

#[test]
fn a_word_of_other_bytes_is_no_text(rt: HostRuntime) {
    let arguments = [b"cccgd".as_slice(), b"batch".as_slice(), b"\xff".as_slice()];
    let given = (
        FakeArguments {
            arguments: &arguments,
        },
        rt.alloc(),
    );
    assert!(rt; matches!(words(&given), Err(NoWords::NotText)));
}

#[test]
fn without_text_the_usage_line_is_written(rt: HostRuntime) {
    let mut room = [b'-'; 100];
    let mut input = StandardInput::new(b"QUIT\n".as_slice());
    let mut output = StandardOutput::new(room.as_mut_slice());
    let status = without_words(&rt, rt.alloc(), NoWords::NotText, &mut input, &mut output);
    assert_eq!(rt; status, 2);
    assert_eq!(rt; &room[..14], b"usage: cccgd b".as_slice());
}

#[test]
fn without_memory_nothing_is_written(rt: HostRuntime) {
    let mut room = [b'-'; 4];
    let mut input = StandardInput::new(b"QUIT\n".as_slice());
    let mut output = StandardOutput::new(room.as_mut_slice());
    let status = without_words(&rt, rt.alloc(), NoWords::Memory, &mut input, &mut output);
    assert_eq!(rt; status, 5);
    assert_eq!(rt; room.as_slice(), b"----".as_slice());
}
