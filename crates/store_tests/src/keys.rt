use node_key::{CallTree, NodeKey, room_of_key, room_of_number};
use std::test::Fail;
use trace_base::Seq;

#[test]
fn a_leaf_tells_its_parts_and_so_does_its_copy(rt: HostRuntime) -> Result<(), Fail> {
    let alloc = rt.alloc();
    let leaf = CallTree::new(alloc, 2, 13, 15, Seq::new(alloc))?;
    let copy = leaf.copy()?;
    assert_eq!(rt;
        (leaf.func(), leaf.dur(), leaf.height(), leaf.len()),
        (2, 2, 0, 0)
    );
    assert_eq!(rt;
        (copy.func(), copy.dur(), copy.height(), copy.len()),
        (2, 2, 0, 0)
    );
    assert!(rt; copy.is_empty());
    Ok(())
}

#[test]
fn rooms_of_keys_and_numbers(rt: HostRuntime) -> Result<(), Fail> {
    assert_eq!(rt; room_of_key(&NodeKey::leaf(3, 0)), 3);
    assert_eq!(rt; room_of_number(17_592_186_044_403), 3);
    Ok(())
}
