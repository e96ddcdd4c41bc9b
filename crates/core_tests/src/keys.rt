//! The keys of the tests of steps.
ghost use Rattle.std.specs.Prelude.{◌≤◌};

use node_key::{Kid, NodeKey};

// A call of 10 ns over one call, which lasts so long and lies 2 ns in.
fn call_over(kid: u64, span: u64, height: u16) -> NodeKey
    requires within { span ≤ 8 }
    requires higher { 1 ≤ height }
{
    let kid = Kid {
        gap: 2,
        span,
        node: kid,
    };
    NodeKey::over(1, 10, height, &[kid])
}

// Main runs for half a second and calls f twice, which has number 0: room 12.
fn main_over_f() -> NodeKey {
    let call = Kid {
        gap: 100_000_000,
        span: 100_000_000,
        node: 0,
    };
    NodeKey::over(1, 500_000_000, 1, &[call, call])
}

// The track over main, which has number 12: room 4.
fn track() -> NodeKey {
    let main = Kid {
        gap: 0,
        span: 500_000_000,
        node: 12,
    };
    NodeKey::over(0, 500_000_000, 2, &[main])
}

/// The keys of the tests.
#[derive(Clone, Copy)]
pub(crate) enum Key {
    /// The inner call of a recursion lasts 2 ns: room 3.
    Inner,
    /// The outer call of the recursion: room 13, where the inner one has number 3.
    Outer,
    /// An outer call whose inner one lasts longer than it does.
    OuterOfThree,
    /// An outer call that is too high for its inner one.
    HigherOuter,
    /// An outer call over a number that isn't there.
    OuterOfNothing,
    /// f runs for a tenth of a second: room 0.
    F,
    Main,
    Track,
}

pub(crate) fn key_of(key: Key) -> NodeKey {
    match key {
        Key::Inner => NodeKey::leaf(1, 2),
        Key::Outer => call_over(3, 2, 1),
        Key::OuterOfThree => call_over(3, 3, 1),
        Key::HigherOuter => call_over(3, 2, 2),
        Key::OuterOfNothing => call_over(19, 2, 1),
        Key::F => NodeKey::leaf(2, 100_000_000),
        Key::Main => main_over_f(),
        Key::Track => track(),
    }
}
