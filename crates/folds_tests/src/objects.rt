//! What no clause says: that calls find memory, and the text of the one error.
use std::test::Fail;
use trace_base::{
    Faults, MemSink, MemSource, Memory, Name, ReadAnswer, Seq, Sink, Source, WriteAnswer,
};

#[test]
fn a_list_grows_and_is_cleared(rt: HostRuntime) -> Result<(), Fail> {
    let mut list = Seq::from_slice(rt.alloc(), &[1u32, 2])?;
    list.push(3)?;
    assert!(rt; list.as_slice() == [1, 2, 3].as_slice());
    list.clear();
    assert!(rt; list.is_empty());
    Ok(())
}

#[test]
fn a_name_has_its_bytes(rt: HostRuntime) -> Result<(), Fail> {
    let name = Name::from_bytes(rt.alloc(), b"main")?;
    assert!(rt; name.as_bytes() == b"main".as_slice());
    Ok(())
}

#[test]
fn a_source_fails_at_the_chosen_call(rt: HostRuntime) -> Result<(), Fail> {
    let bytes = Seq::from_slice(rt.alloc(), b"abc")?;
    let fails = Seq::from_slice(rt.alloc(), &[1])?;
    let mut source = MemSource::new(bytes, fails);
    let mut into = [0; 2];
    let rows: [(ReadAnswer, &[u8], u64); 4] = [
        (ReadAnswer::Got(2), b"ab", 0),
        (ReadAnswer::Failed, b"ab", 1),
        (ReadAnswer::Got(1), b"cb", 1),
        (ReadAnswer::End, b"cb", 1),
    ];
    for (answer, held, faults) in rows {
        assert!(rt; source.read(&mut into) == answer);
        assert!(rt; into.as_slice() == held);
        assert!(rt; source.faults() == faults);
    }
    Ok(())
}

#[test]
fn a_sink_takes_a_step_and_fails_at_the_chosen_call(rt: HostRuntime) -> Result<(), Fail> {
    let fails = Seq::from_slice(rt.alloc(), &[1])?;
    let mut sink = MemSink::new(rt.alloc(), 2, fails);
    assert!(rt; sink.write(b"abc") == WriteAnswer::Took(2));
    assert!(rt; sink.write(b"c") == WriteAnswer::Failed);
    assert!(rt; sink.faults() == 1);
    assert!(rt; sink.write(b"c") == WriteAnswer::Took(1));
    assert!(rt; sink.written() == b"abc".as_slice());
    Ok(())
}

#[test]
fn the_text_of_no_memory(rt: HostRuntime) -> Result<(), Fail> {
    assert_eq!(rt;
        format!(in rt.alloc(); "{}", Memory)?.as_str(),
        "out of memory"
    );
    Ok(())
}
