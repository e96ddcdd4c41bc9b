//! Two seats intern one tree and give it back, in each order.
ghost use Rattle.std.specs.Prelude.{OnOk};
ghost use Rattle.hall_core.specs.World.{IsGood};

use crate::keys::Key;
use crate::turns::{
    Act, INNER, ON_INNER, ON_OUTER, OUTER, SPLIT, Told, Turn, make, new_hall, take, take_all,
};
use hall_core::World;
use std::alloc::Global;
use std::process::Abort;
use std::test::Fail;

/// One of two seats: the one that is first to intern the outer call of the recursion, and the other one.
#[derive(Clone, Copy)]
enum Who {
    First,
    Other,
}

/// What the two do, and are told.
#[derive(Clone, Copy)]
struct Way {
    list: [(Who, Act); 4],
    told: [Told; 4],
}

/// The orders in which they intern both calls.
const UP: [Way; 3] = [
    Way {
        list: [
            (Who::First, INNER),
            (Who::First, OUTER),
            (Who::Other, INNER),
            (Who::Other, OUTER),
        ],
        told: [Told::New(3), Told::New(13), Told::Known(3), Told::Known(13)],
    },
    Way {
        list: [
            (Who::First, INNER),
            (Who::Other, INNER),
            (Who::First, OUTER),
            (Who::Other, OUTER),
        ],
        told: [Told::New(3), Told::Known(3), Told::New(13), Told::Known(13)],
    },
    Way {
        list: [
            (Who::Other, INNER),
            (Who::First, INNER),
            (Who::First, OUTER),
            (Who::Other, OUTER),
        ],
        told: [Told::New(3), Told::Known(3), Told::New(13), Told::Known(13)],
    },
];

/// The outer call goes with the second stake that is given back.
const EARLY: [Told; 4] = [
    Told::Kept,
    Told::Removed(Key::Outer),
    Told::Kept,
    Told::Removed(Key::Inner),
];

/// It goes with the third.
const LATE: [Told; 4] = [
    Told::Kept,
    Told::Kept,
    Told::Removed(Key::Outer),
    Told::Removed(Key::Inner),
];

/// The orders in which they give their stakes back.
const DOWN: [Way; 5] = [
    Way {
        list: [
            (Who::First, ON_OUTER),
            (Who::Other, ON_OUTER),
            (Who::Other, ON_INNER),
            (Who::Other, ON_INNER),
        ],
        told: EARLY,
    },
    Way {
        list: [
            (Who::Other, ON_INNER),
            (Who::Other, ON_OUTER),
            (Who::First, ON_OUTER),
            (Who::First, ON_INNER),
        ],
        told: LATE,
    },
    Way {
        list: [
            (Who::Other, ON_OUTER),
            (Who::First, ON_OUTER),
            (Who::First, ON_INNER),
            (Who::Other, ON_INNER),
        ],
        told: EARLY,
    },
    Way {
        list: [
            (Who::Other, ON_OUTER),
            (Who::Other, ON_INNER),
            (Who::First, ON_OUTER),
            (Who::First, ON_INNER),
        ],
        told: LATE,
    },
    Way {
        list: [
            (Who::First, ON_OUTER),
            (Who::Other, ON_INNER),
            (Who::Other, ON_OUTER),
            (Who::Other, ON_INNER),
        ],
        told: LATE,
    },
];

// The two, of which the first has this index, do it.
fn make_way<R: Abort>(
    rt: &R,
    alloc: Global,
    w: &mut World,
    first: usize,
    way: &Way,
) -> Result<(), Fail>
    requires { IsGood w.old }
    ensures { OnOk result (IsGood w.new) }
{
    let mut list = Vec::new(alloc);
    for (who, act) in &way.list {
        let actor = match who {
            Who::First => first,
            Who::Other => usize::from(first == 0),
        };
        list.push((actor, *act))?;
    }
    make(rt, alloc, w, &list, &way.told);
    Ok(())
}

/// Seat 0 was first to intern the outer call: it has a stake on that alone, and seat 1 on the inner call too.
const BOTH_HAVE_IT: [Turn; 5] = [
    Turn::Nodes(2),
    Turn::Count(3, 2),
    Turn::Count(13, 2),
    Turn::Stakes(0, &[13]),
    Turn::Stakes(1, &[3, 13]),
];

/// Seat 1 was first.
const BOTH_HAVE_IT_TURNED: [Turn; 5] = [
    Turn::Nodes(2),
    Turn::Count(3, 2),
    Turn::Count(13, 2),
    Turn::Stakes(1, &[13]),
    Turn::Stakes(0, &[3, 13]),
];

fn both_have_it<R: Abort>(rt: &R, alloc: Global, w: &mut World, first: usize)
    requires { IsGood w.old }
    ensures { IsGood w.new }
{
    if first == 0 {
        take_all(rt, alloc, w, &BOTH_HAVE_IT);
    } else {
        take_all(rt, alloc, w, &BOTH_HAVE_IT_TURNED);
    }
}

/// Nothing is stored, and neither of the two seats has a stake.
const NOTHING_IS_LEFT: [Turn; 3] = [Turn::Nodes(0), Turn::Stakes(0, &[]), Turn::Stakes(1, &[])];

// Two seats intern a recursion, of which the first to intern the outer call has this index, and all goes.
fn up_and_down<R: Abort>(
    rt: &R,
    alloc: Global,
    first: usize,
    up: &Way,
    down: &Way,
) -> Result<(), Fail> {
    let mut w = new_hall(alloc, 0)?;
    up_and_down_in(rt, alloc, &mut w, first, up, down)
}

fn up_and_down_in<R: Abort>(
    rt: &R,
    alloc: Global,
    w: &mut World,
    first: usize,
    up: &Way,
    down: &Way,
) -> Result<(), Fail>
    requires { IsGood w.old }
{
    take(rt, alloc, w, SPLIT);
    make_way(rt, alloc, w, first, up)?;
    both_have_it(rt, alloc, w, first);
    make_way(rt, alloc, w, first, down)?;
    take_all(rt, alloc, w, &NOTHING_IS_LEFT);
    Ok(())
}

#[test]
fn one_tree_by_two_seats_in_each_order(rt: HostRuntime) -> Result<(), Fail> {
    for first in 0..2 {
        for up in &UP {
            for down in &DOWN {
                up_and_down(&rt, rt.alloc(), first, up, down)?;
            }
        }
    }
    Ok(())
}
