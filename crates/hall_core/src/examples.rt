//! The definitions, computed on a world of two seats and four nodes, and on worlds that break one rule each.
//! Each clause is the equation or the relation; the bodies are empty.
ghost use Rattle.std.specs.Prelude.{◌≡◌, ◌∷◌, [], ℕ, None, Some, slice_get};
ghost use Rattle.node_key.specs.Examples.{half, half_key, tenth, tenth_key, track_of_half};
ghost use Rattle.node_key.specs.Stakes.{stake};
ghost use Rattle.node_key.specs.Stands.{Stands};
ghost use Rattle.shard_core.specs.Room.{IsSound, Room};
ghost use Rattle.store_laws.specs.Counted.{IsCounted, kid_places, stakes_on};
ghost use Rattle.store_laws.specs.Store.{IsCanonic, IsWellPlaced, key_in, node_in};
ghost use Rattle.hall_core.specs.Allowed.{Allows};
ghost use Rattle.hall_core.specs.Examples.{counted_too_high, counted_too_low, good_world, in_another_room};
ghost use Rattle.hall_core.specs.Examples.{on_another_tree, other, three_seats, under_two_numbers, without_f};
ghost use Rattle.hall_core.specs.World.{IsGood, all_stakes};
ghost use Rattle.hall_core.specs.declared.events.HallEvent.{HallEvent};
ghost use Rattle.hall_core.specs.declared.events.HallEvent.TheVariants as event;
ghost use Rattle.hall_core.specs.declared.events.ReadOf.TheVariants.{Node};

/// A good world: what its seats have, and what its numbers find.
pub fn a_good_world()
    ensures good { IsGood good_world }
    ensures stakes { all_stakes good_world.seats
        ≡ stake 4 track_of_half ∷ stake 12 half ∷ stake 3 other ∷ [] }
    ensures f { node_in good_world.state.shards 0 ≡ Some (record { key = tenth_key; count = 2 }) }
    ensures main { key_in good_world.state.shards 12 ≡ Some half_key }
    ensures nothing { node_in good_world.state.shards 16 ≡ None }
    ensures kid_twice { kid_places good_world.state.shards 0 ≡ 2 }
    ensures kid_once { kid_places good_world.state.shards 12 ≡ 1 }
    ensures staked_once { stakes_on 12 (all_stakes good_world.seats) ≡ 1 }
{}

/// A count that is higher than the stakes and kids that name its node.
pub fn a_count_too_high()
    ensures rooms { IsCanonic counted_too_high.state.shards }
    ensures counts { ¬ IsCounted counted_too_high.state.shards (all_stakes counted_too_high.seats) }
    ensures good { ¬ IsGood counted_too_high }
{}

/// A count that is lower: two kids of one node are two.
pub fn a_count_too_low()
    ensures rooms { IsCanonic counted_too_low.state.shards }
    ensures counts { ¬ IsCounted counted_too_low.state.shards (all_stakes counted_too_low.seats) }
    ensures good { ¬ IsGood counted_too_low }
{}

/// A kid whose node is gone.
pub fn a_kid_that_is_not_stored()
    ensures placed { ¬ IsWellPlaced without_f.state.shards half_key }
    ensures rooms { ¬ IsCanonic without_f.state.shards }
    ensures good { ¬ IsGood without_f }
{}

/// A key in a room that isn't its own.
pub fn a_key_in_another_room()
    ensures counts { IsCounted in_another_room.state.shards (all_stakes in_another_room.seats) }
    ensures room { (r : Room) → slice_get in_another_room.state.shards 5 ≡ Some r → ¬ IsSound r }
    ensures rooms { ¬ IsCanonic in_another_room.state.shards }
    ensures good { ¬ IsGood in_another_room }
{}

/// One key that has two numbers.
pub fn a_key_under_two_numbers()
    ensures counts { IsCounted under_two_numbers.state.shards (all_stakes under_two_numbers.seats) }
    ensures room { (r : Room) → slice_get under_two_numbers.state.shards 0 ≡ Some r → ¬ IsSound r }
    ensures rooms { ¬ IsCanonic under_two_numbers.state.shards }
    ensures good { ¬ IsGood under_two_numbers }
{}

/// A stake whose number stands for another tree.
pub fn a_stake_on_another_tree()
    ensures rooms { IsCanonic on_another_tree.state.shards }
    ensures stands { ¬ Stands (key_in on_another_tree.state.shards) 3 tenth }
    ensures counts { ¬ IsCounted on_another_tree.state.shards (all_stakes on_another_tree.seats) }
    ensures good { ¬ IsGood on_another_tree }
{}

/// A key is entered over stakes, one for each kid, and a stake is dropped that the seat has.
pub fn seats_that_have_stakes()
    ensures good { IsGood three_seats }
    ensures leaf { Allows three_seats 1 (event.Intern tenth_key) }
    ensures kids { Allows three_seats 0 (event.Intern half_key) }
    ensures too_few { ¬ Allows three_seats 1 (event.Intern half_key) }
    ensures drops { Allows three_seats 1 (event.Drop 0) }
    ensures not_staked { ¬ Allows three_seats 1 (event.Drop 12) }
{}

/// What is below a stake may be read, and nothing else.
pub fn seats_that_read()
    ensures staked { Allows good_world 0 (event.Read (Node 4)) }
    ensures below { Allows good_world 0 (event.Read (Node 0)) }
    ensures beside { ¬ Allows good_world 0 (event.Read (Node 3)) }
    ensures not_above { ¬ Allows good_world 1 (event.Read (Node 4)) }
{}

/// A seat makes others, and joins one that isn't itself and hasn't ended. One that has ended does nothing.
pub fn seats_and_others()
    ensures splits { Allows three_seats 0 (event.Split None) }
    ensures no_pass { (part : ℕ × ℕ) → ¬ Allows three_seats 0 (event.Split (Some part)) }
    ensures joins { Allows three_seats 0 (event.Join 1) }
    ensures itself { ¬ Allows three_seats 0 (event.Join 0) }
    ensures ended { ¬ Allows three_seats 0 (event.Join 2) }
    ensures no_seat { ¬ Allows three_seats 0 (event.Join 3) }
    ensures idle { (e : HallEvent) → ¬ Allows three_seats 2 e }
{}
