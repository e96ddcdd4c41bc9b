//! What keys are answered, which nodes are read, and what becomes of their numbers.
use crate::keys::Key;
use crate::turns::{Act, F, INNER, MAIN, ON_INNER, OUTER, Told, Turn, play};
use node_key::MAX_NUMBERS;
use std::test::Fail;

const GIVEN_ONCE: [Turn; 6] = [
    Turn::Make(
        &[(0, INNER), (0, ON_INNER), (0, INNER)],
        &[Told::New(3), Told::Removed(Key::Inner), Told::New(19)],
    ),
    Turn::Nodes(1),
    Turn::Count(3, 0),
    Turn::Count(19, 1),
    Turn::MayNot(&[(0, Act::Read(3))], 0),
    Turn::MayNot(&[(0, ON_INNER)], 0),
];

#[test]
fn a_number_is_given_once(rt: HostRuntime) -> Result<(), Fail> {
    play(&rt, rt.alloc(), 0, &GIVEN_ONCE)
}

const READ_FROM_ABOVE: [Turn; 6] = [
    Turn::Make(
        &[(0, Act::Split), (0, INNER), (0, OUTER)],
        &[Told::Split, Told::New(3), Told::New(13)],
    ),
    Turn::Make(
        &[(0, Act::Read(3)), (0, Act::Read(13))],
        &[Told::Node(Key::Inner), Told::Node(Key::Outer)],
    ),
    Turn::MayNot(&[(1, Act::Read(3))], 0),
    Turn::MayNot(&[(0, Act::Read(19))], 0),
    Turn::Make(
        &[(1, INNER), (1, Act::Read(3))],
        &[Told::Known(3), Told::Node(Key::Inner)],
    ),
    Turn::MayNot(&[(1, Act::Read(13))], 0),
];

#[test]
fn nodes_are_read_from_above(rt: HostRuntime) -> Result<(), Fail> {
    play(&rt, rt.alloc(), 0, &READ_FROM_ABOVE)
}

/// A key is entered where the seat has a stake for each of its kids, on a tree of that span, and where it is
/// one higher than these.
const OVER_OTHER_STAKES: [Turn; 8] = [
    Turn::MayNot(&[(0, F), (0, MAIN)], 1),
    Turn::Make(
        &[(0, INNER), (0, F), (0, MAIN)],
        &[Told::New(3), Told::Known(0), Told::New(12)],
    ),
    Turn::Stakes(0, &[3, 12]),
    Turn::MayNot(&[(0, MAIN)], 0),
    Turn::MayNot(&[(0, Act::Intern(Key::OuterOfThree))], 0),
    Turn::MayNot(&[(0, Act::Intern(Key::HigherOuter))], 0),
    Turn::MayNot(&[(0, Act::Intern(Key::OuterOfNothing))], 0),
    Turn::Stakes(0, &[3, 12]),
];

#[test]
fn keys_over_other_stakes(rt: HostRuntime) -> Result<(), Fail> {
    play(&rt, rt.alloc(), 0, &OVER_OTHER_STAKES)
}

const USED_UP: [Turn; 3] = [
    Turn::Make(&[(0, INNER)], &[Told::Spent(1_099_511_627_776)]),
    Turn::Nodes(0),
    Turn::Stakes(0, &[]),
];

#[test]
fn all_numbers_are_used_up(rt: HostRuntime) -> Result<(), Fail> {
    play(&rt, rt.alloc(), MAX_NUMBERS, &USED_UP)
}
