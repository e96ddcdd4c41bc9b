//! Why a hall stays good, over plain values. The statements are the clauses; the bodies are empty.
ghost use Rattle.std.specs.Prelude.{◌≡◌, ◌≢◌, ◌≤◌, ◌∷◌, ◌++◌, [], ℕ, List, Option, Some, slice_get, slice_set};
ghost use Rattle.hall_history.specs.History.{Entry};
ghost use Rattle.hall_world.specs.Calls.{Answers, RoomCall, RoomValue, call_of, room_asked, room_at};
ghost use Rattle.hall_world.specs.Good.{IsGood};
ghost use Rattle.hall_world.specs.Past.{Past, up_to, with_entries};
ghost use Rattle.hall_world.specs.Seats.{anything, Changes, Joins, MayJoin, MayMake, Splits};
ghost use Rattle.hall_world.specs.Steps.{with_changes};
ghost use Rattle.hall_world.specs.World.{IsActive, ended_seat, new_world};
ghost use Rattle.hall_world.specs.declared.events.HallEvent.{HallEvent};
ghost use Rattle.hall_world.specs.declared.events.HallEvent.TheVariants as event;
ghost use Rattle.hall_world.specs.declared.events.StepAnswer.{StepAnswer};
ghost use Rattle.hall_world.specs.declared.world.SeatView.{SeatView};
ghost use Rattle.hall_world.specs.declared.world.World.{World};
ghost use Rattle.node_key.specs.declared.limits.TheConstants.{MAX_NUMBERS};

/// A new hall with one seat is good for no entries.
pub fn new_halls_are_good()
    ensures { (first : ℕ) → first ≤ MAX_NUMBERS
        → IsGood (record { first = 0; entries = [] }) (new_world first) }
{}

/// The event of one seat on one room, whatever the seat reaches. What the room answers, and what becomes of the seat with this answer,
/// keep a good world good, for the entries that are made; and there is what becomes of the seat.
pub fn one_event()
    ensures kept { (past : Past) (w : World) (actor : ℕ) (seat : SeatView) (e : HallEvent)
        (a : StepAnswer) (call : RoomCall) (x y : RoomValue) (entries : List Entry)
        (after : SeatView) → IsGood past w → IsActive w actor seat
        → MayMake anything (up_to past seat.seen) seat e → call_of seat e ≡ Some call
        → room_at w.state (room_asked call) ≡ Some x → Answers call a x y
        → Changes past seat e a entries after
        → IsGood (with_entries past entries) (with_changes w (room_asked call) y actor after) }
    ensures made { (past : Past) (w : World) (actor : ℕ) (seat : SeatView) (e : HallEvent)
        (a : StepAnswer) (call : RoomCall) (x y : RoomValue) → IsGood past w
        → IsActive w actor seat → MayMake anything (up_to past seat.seen) seat e → call_of seat e ≡ Some call
        → room_at w.state (room_asked call) ≡ Some x → Answers call a x y
        → (entries : List Entry) × (after : SeatView) × Changes past seat e a entries after }
{}

/// A seat that makes another one, and one that another seat is joined to.
pub fn seats_keep_worlds_good()
    ensures split { (past : Past) (w : World) (actor : ℕ) (seat left right : SeatView)
        (part : Option (ℕ × ℕ)) → IsGood past w → IsActive w actor seat
        → MayMake anything (up_to past seat.seen) seat (event.Split part) → Splits seat part left right
        → IsGood past (record w { seats = slice_set w.seats actor left ++ right ∷ [] }) }
    ensures join { (past : Past) (w : World) (actor other : ℕ) (seat joined after : SeatView)
        → IsGood past w → IsActive w actor seat → IsActive w other joined → other ≢ actor
        → MayJoin seat joined → Joins seat joined after
        → IsGood past (record w { seats = slice_set (slice_set w.seats other ended_seat) actor after }) }
{}
