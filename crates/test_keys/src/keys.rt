//! The keys of two tracks of half a second: main calls f twice on one of them, and nothing on the other.
ghost use Rattle.std.specs.Prelude.{[], ◌∷◌};
ghost use Rattle.node_key.specs.Examples.{half, tenth, track_of_half};
ghost use Rattle.node_key.specs.Stakes.{IsOverStakes, stake};
ghost use Rattle.test_keys.specs.Examples.{lone_main, track_of_lone_main};

use node_key::{Kid, NodeKey};

/// The leaf of f, which runs for a tenth of a second: a key of room 0.
pub fn key_of_f() -> NodeKey
    ensures { IsOverStakes tenth [] result }
{
    NodeKey::leaf(2, 100_000_000)
}

/// main runs for half a second and calls f twice: room 12, where f has number 0.
pub fn key_of_main(f: u64, again: u64) -> NodeKey
    ensures { IsOverStakes half (stake f tenth ∷ stake again tenth ∷ []) result }
{
    let first = Kid {
        gap: 100_000_000,
        span: 100_000_000,
        node: f,
    };
    let second = Kid {
        node: again,
        ..first
    };
    NodeKey::over(1, 500_000_000, 1, &[first, second])
}

/// The track over main: room 4, where main has number 12.
pub fn key_of_track(main: u64) -> NodeKey
    ensures { IsOverStakes track_of_half (stake main half ∷ []) result }
{
    let call = Kid {
        gap: 0,
        span: 500_000_000,
        node: main,
    };
    NodeKey::over(0, 500_000_000, 2, &[call])
}

/// main runs for half a second and calls nothing: a key of room 7.
pub fn key_of_lone_main() -> NodeKey
    ensures { IsOverStakes lone_main [] result }
{
    NodeKey::leaf(1, 500_000_000)
}

/// The track over main that calls nothing: room 12, where main has number 7.
pub fn key_of_lone_track(main: u64) -> NodeKey
    ensures { IsOverStakes track_of_lone_main (stake main lone_main ∷ []) result }
{
    let call = Kid {
        gap: 0,
        span: 500_000_000,
        node: main,
    };
    NodeKey::over(0, 500_000_000, 1, &[call])
}
