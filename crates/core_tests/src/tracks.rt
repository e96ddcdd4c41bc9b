//! Two seats intern a whole track and take it apart.
use crate::keys::Key;
use crate::turns::{Act, F, MAIN, SPLIT, TRACK, Told, Turn, play};
use std::test::Fail;

const ON_F: Act = Act::Drop(0);

const ON_MAIN: Act = Act::Drop(12);

const ON_TRACK: Act = Act::Drop(4);

/// What two seats are answered that intern the nodes of the track, both of them each node before the next.
const ON_NODES: [Told; 8] = [
    Told::New(0),
    Told::Known(0),
    Told::Known(0),
    Told::Known(0),
    Told::New(12),
    Told::Known(12),
    Told::New(4),
    Told::Known(4),
];

const FOUR_KEPT: [Told; 4] = [Told::Kept, Told::Kept, Told::Kept, Told::Kept];

/// Both seats intern the track in turn, and the first makes all its nodes. The second seat gives all its
/// stakes back, and then the first takes the track apart.
const IN_TURN: [Turn; 17] = [
    SPLIT,
    Turn::Make(
        &[
            (0, F),
            (1, F),
            (0, F),
            (1, F),
            (0, MAIN),
            (1, MAIN),
            (0, TRACK),
            (1, TRACK),
        ],
        &ON_NODES,
    ),
    Turn::Nodes(3),
    Turn::Count(0, 4),
    Turn::Count(12, 2),
    Turn::Count(4, 2),
    Turn::Stakes(0, &[4]),
    Turn::Stakes(1, &[0, 0, 12, 4]),
    Turn::Make(
        &[(1, ON_TRACK), (1, ON_MAIN), (1, ON_F), (1, ON_F)],
        &FOUR_KEPT,
    ),
    Turn::Nodes(3),
    Turn::Count(0, 2),
    Turn::Count(12, 1),
    Turn::Count(4, 1),
    Turn::Make(
        &[(0, ON_TRACK), (0, ON_MAIN), (0, ON_F), (0, ON_F)],
        &[
            Told::Removed(Key::Track),
            Told::Removed(Key::Main),
            Told::Kept,
            Told::Removed(Key::F),
        ],
    ),
    Turn::Nodes(0),
    Turn::Stakes(0, &[]),
    Turn::Stakes(1, &[]),
];

#[test]
fn a_track_in_turn(rt: HostRuntime) -> Result<(), Fail> {
    play(&rt, rt.alloc(), 0, &IN_TURN)
}

/// Both seats intern the track: the first makes the node of main, the second that of the track. The second
/// takes the track's node, whose kid it has a stake on from then on; the first takes main's.
const IN_HALVES: [Turn; 18] = [
    SPLIT,
    Turn::Make(
        &[
            (0, F),
            (0, F),
            (1, F),
            (1, F),
            (0, MAIN),
            (1, MAIN),
            (1, TRACK),
            (0, TRACK),
        ],
        &ON_NODES,
    ),
    Turn::Nodes(3),
    Turn::Count(0, 4),
    Turn::Count(12, 2),
    Turn::Count(4, 2),
    Turn::Stakes(0, &[12, 4]),
    Turn::Stakes(1, &[0, 0, 4]),
    Turn::Make(
        &[(0, ON_TRACK), (1, ON_TRACK)],
        &[Told::Kept, Told::Removed(Key::Track)],
    ),
    Turn::Stakes(0, &[12]),
    Turn::Stakes(1, &[0, 0, 12]),
    Turn::Make(
        &[(1, ON_MAIN), (0, ON_MAIN)],
        &[Told::Kept, Told::Removed(Key::Main)],
    ),
    Turn::Stakes(0, &[0, 0]),
    Turn::Stakes(1, &[0, 0]),
    Turn::Make(
        &[(0, ON_F), (1, ON_F), (0, ON_F), (1, ON_F)],
        &[Told::Kept, Told::Kept, Told::Kept, Told::Removed(Key::F)],
    ),
    Turn::Nodes(0),
    Turn::Stakes(0, &[]),
    Turn::Stakes(1, &[]),
];

#[test]
fn a_track_in_halves(rt: HostRuntime) -> Result<(), Fail> {
    play(&rt, rt.alloc(), 0, &IN_HALVES)
}
