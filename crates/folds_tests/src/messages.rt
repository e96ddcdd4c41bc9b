use message_lists::match_links;
use std::alloc::Global;
use std::test::Fail;
use trace_base::{LinkEvent, Memory, Message, Name};

/// A link event, whose key is borrowed.
#[derive(Clone, Copy)]
struct Link<'a> {
    starts: bool,
    kind: u32,
    key: &'a [u8],
    container: u32,
    time: u64,
    size: u64,
}

fn start(kind: u32, key: &[u8], container: u32, time: u64, size: u64) -> Link<'_> {
    Link {
        starts: true,
        kind,
        key,
        container,
        time,
        size,
    }
}

fn end(kind: u32, key: &[u8], container: u32, time: u64) -> Link<'_> {
    Link {
        starts: false,
        kind,
        key,
        container,
        time,
        size: 0,
    }
}

fn link_events(alloc: Global, links: &[Link<'_>]) -> Result<Vec<LinkEvent>, Memory> {
    let mut events = Vec::new(alloc);
    for link in links {
        events.push(LinkEvent {
            starts: link.starts,
            kind: link.kind,
            key: Name::from_bytes(alloc, link.key)?,
            container: link.container,
            time: link.time,
            size: link.size,
        })?;
    }
    Ok(events)
}

/// Whether the link events make these messages, and so many of them are no end of one.
fn messages_are(
    alloc: Global,
    links: &[Link<'_>],
    messages: &[Message],
    unmatched: u64,
) -> Result<bool, Memory> {
    let events = link_events(alloc, links)?;
    let table = match_links(alloc, events.as_slice())?;
    Ok(table.messages.as_slice() == messages && table.unmatched == unmatched)
}

fn message(from: u32, to: u32, send: u64, receive: u64, size: u64) -> Message {
    Message {
        from,
        to,
        send,
        receive,
        size,
    }
}

#[test]
fn messages_of_three_starts(rt: HostRuntime) -> Result<(), Fail> {
    let links = [
        start(0, b"k1", 1, 1_000_000_000, 100),
        start(0, b"k1", 1, 2_000_000_000, 50),
        end(0, b"k1", 2, 1_500_000_000),
        start(0, b"k2", 2, 3_000_000_000, 7),
        end(0, b"k2", 1, 2_500_000_000),
    ];
    let want = [
        message(1, 2, 1_000_000_000, 1_500_000_000, 100),
        message(2, 1, 3_000_000_000, 2_500_000_000, 7),
    ];
    assert!(rt; messages_are(rt.alloc(), &links, &want, 1)?);
    Ok(())
}

#[test]
fn messages_of_crossed_links(rt: HostRuntime) -> Result<(), Fail> {
    let links = [
        start(0, b"k", 3, 10, 0),
        start(0, b"k", 3, 5, 2),
        end(0, b"k", 4, 20),
        start(1, b"k", 3, 5, 4),
        end(0, b"k", 4, 30),
        end(1, b"k", 4, 6),
    ];
    let want = [
        message(3, 4, 5, 30, 2),
        message(3, 4, 5, 6, 4),
        message(3, 4, 10, 20, 0),
    ];
    assert!(rt; messages_are(rt.alloc(), &links, &want, 0)?);
    Ok(())
}
