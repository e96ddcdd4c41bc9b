//! Seats that are split and joined, and whose stakes are whose.
use crate::keys::Key;
use crate::turns::{Act, INNER, ON_INNER, ON_OUTER, OUTER, Told, Turn, play};
use std::test::Fail;

/// The second seat made the node of the outer call, and the first gives the last stake on it back.
const TAKEN_OVER: [Turn; 11] = [
    Turn::Make(
        &[
            (0, Act::Split),
            (1, INNER),
            (1, OUTER),
            (0, INNER),
            (0, OUTER),
        ],
        &[
            Told::Split,
            Told::New(3),
            Told::New(13),
            Told::Known(3),
            Told::Known(13),
        ],
    ),
    Turn::Nodes(2),
    Turn::Count(3, 2),
    Turn::Count(13, 2),
    Turn::Stakes(1, &[13]),
    Turn::Stakes(0, &[3, 13]),
    Turn::Make(
        &[(1, ON_OUTER), (0, ON_OUTER)],
        &[Told::Kept, Told::Removed(Key::Outer)],
    ),
    Turn::Nodes(1),
    Turn::Count(3, 2),
    Turn::Stakes(0, &[3, 3]),
    Turn::Stakes(1, &[]),
];

#[test]
fn kids_go_to_the_seat_that_takes_their_node(rt: HostRuntime) -> Result<(), Fail> {
    play(&rt, rt.alloc(), 0, &TAKEN_OVER)
}

/// A seat that has ended may make no event, and may not be joined again.
const SPLIT_AND_JOINED: [Turn; 15] = [
    Turn::Make(
        &[(0, Act::Split), (1, INNER), (1, OUTER), (0, INNER)],
        &[Told::Split, Told::New(3), Told::New(13), Told::Known(3)],
    ),
    Turn::Make(&[(0, Act::Join(1))], &[Told::Joined]),
    Turn::Stakes(0, &[3, 13]),
    Turn::Stakes(1, &[]),
    Turn::Count(3, 2),
    Turn::Count(13, 1),
    Turn::MayNot(&[(1, INNER)], 0),
    Turn::MayNot(&[(1, Act::Read(3))], 0),
    Turn::MayNot(&[(1, ON_INNER)], 0),
    Turn::MayNot(&[(1, Act::Split)], 0),
    Turn::MayNot(&[(1, Act::Join(0))], 0),
    Turn::MayNot(&[(0, Act::Join(1))], 0),
    Turn::Make(
        &[(0, Act::Split), (2, INNER)],
        &[Told::Split, Told::Known(3)],
    ),
    Turn::Seats(3),
    Turn::Stakes(2, &[3]),
];

#[test]
fn a_seat_is_split_and_joined(rt: HostRuntime) -> Result<(), Fail> {
    play(&rt, rt.alloc(), 0, &SPLIT_AND_JOINED)
}

const NOT_JOINED: [Turn; 5] = [
    Turn::MayNot(&[(0, Act::Join(0))], 0),
    Turn::MayNot(&[(0, Act::Join(1))], 0),
    Turn::MayNot(&[(1, Act::Split)], 0),
    Turn::MayNot(&[(0, Act::SplitPass)], 0),
    Turn::Seats(1),
];

#[test]
fn seats_that_may_not_be_joined(rt: HostRuntime) -> Result<(), Fail> {
    play(&rt, rt.alloc(), 0, &NOT_JOINED)
}

const WITHOUT_A_STAKE: [Turn; 6] = [
    Turn::MayNot(
        &[(0, Act::Split), (0, INNER), (1, ON_INNER), (0, ON_INNER)],
        2,
    ),
    Turn::Seats(2),
    Turn::Nodes(1),
    Turn::Count(3, 1),
    Turn::Stakes(0, &[3]),
    Turn::Stakes(1, &[]),
];

#[test]
fn a_run_ends_where_a_seat_has_no_stake(rt: HostRuntime) -> Result<(), Fail> {
    play(&rt, rt.alloc(), 0, &WITHOUT_A_STAKE)
}
