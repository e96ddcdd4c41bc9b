//! What no clause says: that requests come at all, and where a session's bytes are cut.
use request_reader::{Incoming, InputBuf, InputEnd, next_request};
use session_proto::{Request, Sel};
use std::alloc::Global;
use std::process::Abort;
use std::sync::Wait;
use std::test::Fail;
use trace_base::{MemSource, Memory, Seq};

/// What comes, or how the input ends.
type Came = Result<Incoming, InputEnd>;

const LOAD: Came = Ok(Incoming::Load);

const FLAT: Came = Ok(Incoming::Line(Request::Flat {
    id: 7,
    sel: Sel::All,
    a: 0,
    b: 1,
}));

const QUIT: Came = Ok(Incoming::Line(Request::Quit));

const UNREADABLE: Came = Ok(Incoming::Unreadable);

const END: Came = Err(InputEnd::End);

const CUT: Came = Err(InputEnd::Cut);

const FAILED: Came = Err(InputEnd::Failed);

/// What comes of these bytes, up to the end of the source or its first failure. `fails` lists the calls that
/// fail.
fn incoming_of(
    rt: &impl Wait,
    alloc: Global,
    bytes: &[u8],
    fails: &[u64],
) -> Result<Vec<Came>, Fail> {
    let mut input = MemSource::new(
        Seq::from_slice(alloc, bytes)?,
        Seq::from_slice(alloc, fails)?,
    );
    let mut buf = InputBuf::new(alloc)?;
    let mut all = Vec::new(alloc);
    for _ in 0..100 {
        let next = next_request(rt, &mut input, &mut buf);
        all.push(next)?;
        if next.is_err() {
            break;
        }
    }
    Ok(all)
}

// Asserts that this comes of the bytes, up to the end of the source or its first failure.
fn assert_comes(
    rt: &(impl Wait + Abort),
    alloc: Global,
    bytes: &[u8],
    fails: &[u64],
    want: &[Came],
) -> Result<(), Fail> {
    let got = incoming_of(rt, alloc, bytes, fails)?;
    assert_eq!(rt; (bytes, got.as_slice()), (bytes, want));
    Ok(())
}

#[test]
fn requests_and_ends(rt: HostRuntime) -> Result<(), Fail> {
    let rows: [(&[u8], &[Came]); 13] = [
        (b"", &[END]),
        (b"\n", &[UNREADABLE, END]),
        (b"QUIT", &[CUT]),
        (b"QUIT\n", &[QUIT, END]),
        (
            b"PUT 5\nQUIT\nFLAT 7 * 0 1\nLIST\nQUIT\nmore",
            &[LOAD, FLAT, UNREADABLE, QUIT, CUT],
        ),
        (b"PUT 9\nshort", &[CUT]),
        (b"PUT 9\n", &[CUT]),
        (b"PUT 0\n", &[LOAD, END]),
        (b"PUT 67108865\nFLAT 7 * 0 1\n", &[CUT]),
        (b"PUT 18446744073709551615\nQUIT\n", &[CUT]),
        (
            b"PUT 18446744073709551616\nFLAT 7 * 0 1\n",
            &[UNREADABLE, FLAT, END],
        ),
        (
            b"FLAT 01 * 0 5\nLIST \nFLAT 7 * 1 1\nQUIT\n",
            &[UNREADABLE, UNREADABLE, UNREADABLE, QUIT, END],
        ),
        (b"PUT 2\n\n\n\n", &[LOAD, UNREADABLE, END]),
    ];
    for (bytes, want) in rows {
        assert_comes(&rt, rt.alloc(), bytes, &[], want)?;
    }
    Ok(())
}

// A row has the first and the last number of bytes behind which the session is cut with the same end.
#[test]
fn cut_at_every_byte(rt: HostRuntime) -> Result<(), Fail> {
    let bytes = b"PUT 3\nabcFLAT 7 * 0 1\nQUIT\n".as_slice();
    let rows: [(usize, usize, &[Came]); 7] = [
        (0, 0, &[END]),
        (1, 8, &[CUT]),
        (9, 9, &[LOAD, END]),
        (10, 21, &[LOAD, CUT]),
        (22, 22, &[LOAD, FLAT, END]),
        (23, 26, &[LOAD, FLAT, CUT]),
        (27, 27, &[LOAD, FLAT, QUIT, END]),
    ];
    for (first, last, want) in rows {
        for cut in first..=last {
            assert_comes(&rt, rt.alloc(), &bytes[..cut.min(27)], &[], want)?;
        }
    }
    Ok(())
}

#[test]
fn failed_reads(rt: HostRuntime) -> Result<(), Fail> {
    let rows: [(&[u8], &[u64], &[Came]); 4] = [
        (b"QUIT\n", &[0], &[FAILED]),
        (b"QUIT\n", &[1], &[QUIT, FAILED]),
        (b"FLAT 7 * 0", &[1], &[FAILED]),
        (b"PUT 9\nshort", &[1], &[FAILED]),
    ];
    for (bytes, fails, want) in rows {
        assert_comes(&rt, rt.alloc(), bytes, fails, want)?;
    }
    Ok(())
}

/// Lines of many lengths, each with a request behind it, which the end of a chunk may cut in two.
#[test]
fn long_lines(rt: HostRuntime) -> Result<(), Fail> {
    for len in [4_095, 4_096, 4_097, 65_526, 65_535, 65_536, 1_000_000] {
        let mut bytes = vec![in rt.alloc(); b'x'; len]?;
        assert_comes(&rt, rt.alloc(), bytes.as_slice(), &[], &[CUT])?;
        bytes.extend_from_slice(b"\nFLAT 7 * 0 1\n")?;
        assert_comes(
            &rt,
            rt.alloc(),
            bytes.as_slice(),
            &[],
            &[UNREADABLE, FLAT, END],
        )?;
    }
    Ok(())
}

// Asserts that the next request is a load of this text.
fn assert_loads(rt: &(impl Wait + Abort), input: &mut MemSource, buf: &mut InputBuf, text: &[u8]) {
    assert!(rt; next_request(rt, input, buf) == LOAD);
    assert!(rt; buf.text.as_slice() == text);
}

// So many bytes, and another one.
fn text_of(alloc: Global, len: usize) -> Result<Vec<u8>, Memory> {
    let mut text = vec![in alloc; b'x'; len]?;
    text.push(b'y')?;
    Ok(text)
}

// A PUT of this text of 65,536 bytes, one of a shorter one, and QUIT.
fn two_loads(alloc: Global, text: &[u8]) -> Result<Vec<u8>, Memory> {
    let mut bytes = Vec::from_slice(alloc, b"PUT 65536\n".as_slice())?;
    bytes.extend_from_slice(text)?;
    bytes.extend_from_slice(b"PUT 3\nabcQUIT\n")?;
    Ok(bytes)
}

/// A text over the end of a chunk, and a shorter one in its place.
#[test]
fn texts(rt: HostRuntime) -> Result<(), Fail> {
    let text = text_of(rt.alloc(), 65_535)?;
    let bytes = two_loads(rt.alloc(), text.as_slice())?;
    let mut input = MemSource::new(Seq::from_vec(bytes), Seq::new(rt.alloc()));
    let mut buf = InputBuf::new(rt.alloc())?;
    assert_loads(&rt, &mut input, &mut buf, text.as_slice());
    assert_loads(&rt, &mut input, &mut buf, b"abc");
    buf.clear();
    assert!(rt; next_request(&rt, &mut input, &mut buf) == END);
    Ok(())
}
