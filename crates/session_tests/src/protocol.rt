//! What the clauses leave to their definitions: which lines are requests, and what each reply's text is. Both
//! are worked by hand from docs/PROTOCOL.md.
use session_proto::{NamedRow, No, Reply, Request, Sel, parse_request, write_reply};
use std::alloc::Global;
use std::process::Abort;
use std::test::Fail;
use trace_base::{Memory, Name, Row, Seq};

const fn flat(id: u64, a: u64, b: u64) -> Request {
    Request::Flat {
        id,
        sel: Sel::All,
        a,
        b,
    }
}

#[test]
fn each_request_is_read_up_to_its_greatest_numbers(rt: HostRuntime) {
    let rows: [(&[u8], Request); 11] = [
        (b"PUT 0", Request::Put(0)),
        (b"PUT 697", Request::Put(697)),
        (b"PUT 67108865", Request::Put(67_108_865)),
        (
            b"PUT 18446744073709551615",
            Request::Put(18_446_744_073_709_551_615),
        ),
        (b"FLAT 1 * 0 500000000", flat(1, 0, 500_000_000)),
        (b"FLAT 0 * 0 1", flat(0, 0, 1)),
        (b"FLAT 10 * 203 204", flat(10, 203, 204)),
        (
            b"FLAT 1 * 0 4611686018427387904",
            flat(1, 0, 4_611_686_018_427_387_904),
        ),
        (
            b"FLAT 1 * 4611686018427387903 4611686018427387904",
            flat(1, 4_611_686_018_427_387_903, 4_611_686_018_427_387_904),
        ),
        (
            b"FLAT 18446744073709551615 * 0 5",
            flat(18_446_744_073_709_551_615, 0, 5),
        ),
        (b"QUIT", Request::Quit),
    ];
    for (line, want) in rows {
        assert!(rt; parse_request(line) == Some(want));
    }
}

// Asserts that none of these lines is a request.
fn assert_none(rt: &impl Abort, lines: &[&[u8]]) {
    for line in lines {
        assert_eq!(rt; (line, parse_request(line)), (line, None));
    }
}

#[test]
fn a_put_that_misses_the_grammar_by_one_thing_is_none(rt: HostRuntime) {
    let numbers: [&[u8]; 10] = [
        b"PUT 01",
        b"PUT 00",
        b"PUT +1",
        b"PUT -1",
        b"PUT -0",
        b"PUT 1.0",
        b"PUT 1_0",
        b"PUT 0x1",
        b"PUT 18446744073709551616",
        b"PUT 18446744073709551617",
    ];
    assert_none(&rt, &numbers);
    let words: [&[u8]; 13] = [
        b"PUT", b"PUT ", b"PUT1", b"put 1", b"PU 1", b"PUTS 1", b" PUT 1", b"PUT  1", b"PUT 1 ",
        b"PUT 1 1", b"PUT\t1", b"PUT 1\r", b"PUT 1\n",
    ];
    assert_none(&rt, &words);
}

#[test]
fn a_flat_with_a_number_off_by_one_thing_is_none(rt: HostRuntime) {
    let lines: [&[u8]; 16] = [
        b"FLAT 1 * 5 5",
        b"FLAT 1 * 5 4",
        b"FLAT 1 * 0 0",
        b"FLAT 1 * 0 4611686018427387905",
        b"FLAT 1 * 4611686018427387904 4611686018427387904",
        b"FLAT 1 * 0 18446744073709551615",
        b"FLAT 1 * 0 18446744073709551617",
        b"FLAT 1 * 18446744073709551616 5",
        b"FLAT 01 * 0 5",
        b"FLAT 1 * 00 5",
        b"FLAT 1 * 0 05",
        b"FLAT +1 * 0 5",
        b"FLAT 1 * -0 5",
        b"FLAT 1 * 0 +5",
        b"FLAT x * 0 5",
        b"FLAT 1 * 0 5x",
    ];
    assert_none(&rt, &lines);
}

#[test]
fn a_flat_with_other_words_is_none(rt: HostRuntime) {
    let lines: [&[u8]; 20] = [
        b"FLAT",
        b"FLAT ",
        b"FLAT 1",
        b"FLAT 1 *",
        b"FLAT 1 * 0",
        b"FLAT 1 * 0 ",
        b"FLAT 1 * 0 5 ",
        b"FLAT 1 * 0 5 6",
        b"FLAT 1 0 5",
        b"FLAT 1 1 0 5",
        b"FLAT 1 ** 0 5",
        b"FLAT 1 all 0 5",
        b" FLAT 1 * 0 5",
        b"FLAT  1 * 0 5",
        b"FLAT 1  * 0 5",
        b"FLAT 1 *  0 5",
        b"FLAT 1 * 0  5",
        b"FLAT 1 *\t0 5",
        b"flat 1 * 0 5",
        b"FLATS 1 * 0 5",
    ];
    assert_none(&rt, &lines);
}

// The first is 2^64, and the third the least that is too great before its last digit is added.
#[test]
fn a_number_from_two_to_the_64_on_is_none(rt: HostRuntime) {
    let lines: [&[u8]; 6] = [
        b"FLAT 18446744073709551616 * 0 5",
        b"FLAT 18446744073709551619 * 0 5",
        b"FLAT 18446744073709551620 * 0 5",
        b"FLAT 18446744073709551700 * 0 5",
        b"FLAT 99999999999999999999 * 0 5",
        b"FLAT 184467440737095516150 * 0 5",
    ];
    assert_none(&rt, &lines);
}

#[test]
fn a_line_that_is_nearly_quit_or_of_another_verb_is_none(rt: HostRuntime) {
    let lines: [&[u8]; 14] = [
        b"", b" ", b"QUIT ", b" QUIT", b"QUIT 1", b"quit", b"QUI", b"QUITS", b"QUIT\r", b"QUIT\n",
        b"QUIT\0", b"LIST", b"LIST ", b"1",
    ];
    assert_none(&rt, &lines);
}

// Whether the line that begins so, with zeros behind it up to this length, is no request.
fn is_none_with_zeros(alloc: Global, start: &[u8], len: usize) -> Result<bool, Memory> {
    let mut line = Vec::from_slice(alloc, start)?;
    line.resize(len, b'0')?;
    Ok(parse_request(line.as_slice()).is_none())
}

#[test]
fn a_line_as_long_as_one_may_be_or_longer_is_none(rt: HostRuntime) -> Result<(), Fail> {
    let starts: [&[u8]; 3] = [b"PUT 1", b"FLAT 1 * 0 1", b"QUIT"];
    for start in starts {
        assert!(rt; is_none_with_zeros(rt.alloc(), start, 4_096)?);
        assert!(rt; is_none_with_zeros(rt.alloc(), start, 4_097)?);
    }
    Ok(())
}

// Adds the text of a reply.
fn add(out: &mut Vec<u8>, reply: Reply) -> Result<(), Memory> {
    write_reply(&reply, out)
}

/// The texts of the refusals that the test below has, in order.
const REFUSALS: &str =
    "NO 10\nNO 20 37 EmptyPop\nNO 20 4294967295 MissingField\nNO 21\nNO 30 7 @12\nNO 30 0 @1\nNO 30 18446744073709551615 @18446744073709551614\nNO 36 1024 @2050\nNO 40 1048576\nNO 40 0\nNO 41\n";

#[test]
fn the_text_of_each_refusal(rt: HostRuntime) -> Result<(), Fail> {
    let all = [
        No::Grammar,
        No::Text(37, "EmptyPop"),
        No::Text(4_294_967_295, "MissingField"),
        No::Large,
        No::Unknown { id: 7, place: 12 },
        No::Unknown { id: 0, place: 1 },
        No::Unknown {
            id: 18_446_744_073_709_551_615,
            place: 18_446_744_073_709_551_614,
        },
        No::Full(2_050),
        No::Spent(1_048_576),
        No::Spent(0),
        No::Memory,
    ];
    let mut out = Vec::new(rt.alloc());
    for no in all {
        add(&mut out, Reply::No(no))?;
    }
    assert!(rt; out.as_slice() == REFUSALS.as_bytes());
    Ok(())
}

// The reply to a PUT with these numbers, in the order of its line.
fn put(numbers: [u64; 5]) -> Reply {
    let [id, tracks, functions, messages, place] = numbers;
    Reply::Put {
        id,
        tracks,
        functions,
        messages,
        place,
    }
}

/// The greatest numbers of such a reply, no two of them the same.
const GREATEST: [u64; 5] = [
    18_446_744_073_709_551_615,
    18_446_744_073_709_551_614,
    18_446_744_073_709_551_613,
    18_446_744_073_709_551_612,
    18_446_744_073_709_551_611,
];

#[test]
fn the_text_of_put_and_quit(rt: HostRuntime) -> Result<(), Fail> {
    let mut out = Vec::new(rt.alloc());
    add(&mut out, put([1, 20, 303, 0, 45]))?;
    add(&mut out, put(GREATEST))?;
    add(&mut out, Reply::Quit)?;
    let want =
        b"OK PUT 1 20 303 0 @45\nOK PUT 18446744073709551615 18446744073709551614 18446744073709551613 18446744073709551612 @18446744073709551611\nOK QUIT\n";
    assert!(rt; out.as_slice() == want.as_slice());
    Ok(())
}

const fn row(func: u32, calls: u64, incl: u128, excl: u128) -> Row {
    Row {
        func,
        calls,
        incl,
        excl,
    }
}

// A row with a name of these bytes.
fn named_row(alloc: Global, row: Row, name: &[u8]) -> Result<NamedRow, Memory> {
    Ok(NamedRow {
        row,
        name: Name::from_bytes(alloc, name)?,
    })
}

// Adds the text of a profile over so many tracks, with this bare time and these rows.
fn add_profile(
    alloc: Global,
    out: &mut Vec<u8>,
    over: u32,
    bare: u128,
    place: u64,
    rows: &[(Row, &[u8])],
) -> Result<(), Memory> {
    let mut named = Seq::new(alloc);
    for (row, name) in rows {
        named.push(named_row(alloc, *row, name)?)?;
    }
    let reply = Reply::Flat {
        over,
        bare,
        rows: named,
        place,
    };
    add(out, reply)
}

#[test]
fn the_text_of_a_profile_has_a_line_for_each_row(rt: HostRuntime) -> Result<(), Fail> {
    let three: [(Row, &[u8]); 3] = [
        (row(1, 0, 500, 300), b"main"),
        (row(20, 7, 200, 0), b"a name of words"),
        (row(3, 1, 0, 0), b"\xff\x80"),
    ];
    let mut out = Vec::new(rt.alloc());
    add_profile(rt.alloc(), &mut out, 3, 1_000, 9, &[])?;
    add_profile(rt.alloc(), &mut out, 3, 1_000, 9, &three)?;
    let want =
        b"OK FLAT 0 3 1000 @9\nOK FLAT 3 3 1000 @9\n1 0 500 300 main\n20 7 200 0 a name of words\n3 1 0 0 \xff\x80\n";
    assert!(rt; out.as_slice() == want.as_slice());
    Ok(())
}

#[test]
fn the_text_of_a_profile_with_the_greatest_numbers(rt: HostRuntime) -> Result<(), Fail> {
    let incl = 340_282_366_920_938_463_463_374_607_431_768_211_455;
    let excl = 340_282_366_920_938_463_463_374_607_431_768_211_454;
    let bare = 340_282_366_920_938_463_463_374_607_431_768_211_453;
    let place = 18_446_744_073_709_551_614;
    let rows: [(Row, &[u8]); 1] = [(
        row(4_294_967_295, 18_446_744_073_709_551_615, incl, excl),
        b"",
    )];
    let mut out = Vec::new(rt.alloc());
    add_profile(rt.alloc(), &mut out, 4_294_967_294, bare, place, &rows)?;
    let want =
        b"OK FLAT 1 4294967294 340282366920938463463374607431768211453 @18446744073709551614\n4294967295 18446744073709551615 340282366920938463463374607431768211455 340282366920938463463374607431768211454 \n";
    assert!(rt; out.as_slice() == want.as_slice());
    Ok(())
}

#[test]
fn each_text_is_added_behind_what_is_there(rt: HostRuntime) -> Result<(), Fail> {
    let rows: [(Row, &[u8]); 1] = [(row(1, 2, 40, 30), b"main")];
    let mut out = Vec::from_slice(rt.alloc(), b"not \na reply")?;
    add(&mut out, put([5, 1, 2, 3, 8]))?;
    add_profile(rt.alloc(), &mut out, 3, 1_000, 9, &rows)?;
    add(&mut out, Reply::No(No::Grammar))?;
    add(&mut out, Reply::No(No::Full(10)))?;
    add(&mut out, Reply::Quit)?;
    let want =
        b"not \na replyOK PUT 5 1 2 3 @8\nOK FLAT 1 3 1000 @9\n1 2 40 30 main\nNO 10\nNO 36 1024 @10\nOK QUIT\n";
    assert!(rt; out.as_slice() == want.as_slice());
    Ok(())
}

// No word of this crate's own is so long.
#[test]
fn a_word_of_many_bytes_is_told_whole(rt: HostRuntime) -> Result<(), Fail> {
    let word =
        "aWordThatIsLongerThanAHundredBytesSoThatTheRoomOfAShortReplyDoesNotSufficeForItAndMoreHasToBeFoundForTheLineThatTellsIt";
    let mut out = Vec::new(rt.alloc());
    add(&mut out, Reply::No(No::Text(1, word)))?;
    let want = format!(in rt.alloc(); "NO 20 1 {word}\n")?;
    assert!(rt; out.as_slice() == want.as_bytes());
    Ok(())
}
