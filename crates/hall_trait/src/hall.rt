ghost use Rattle.std.specs.Prelude.{◌≡◌, ◌↔◌, ℕ, ◌<◌, List, [], ◌∷◌, Option, Some, take};
ghost use Rattle.std.specs.Prelude.{Contains, IfOk, IfErr, IsTrue};
ghost use Rattle.std.specs.Arc.{arc_value};
ghost use Rattle.std.specs.Bool.{OnTrue};
ghost use Rattle.trace_base.specs.Info.{IsLegalInfo};
ghost use Rattle.trace_base.specs.declared.stream.TrackStream.{TrackStream};
ghost use Rattle.hall_history.specs.declared.asks.PassState.TheVariants.{Whole};
ghost use Rattle.hall_history.specs.History.{Sealed, Dropped, IsLegalHistory, info_of, tracks_of};
ghost use Rattle.hall_history.specs.Seat.{ExchangesStakes, MakesNoEntry, Removes};
ghost use Rattle.node_key.specs.Stakes.{HasStakes, IsOverStakes, stake};
ghost use Rattle.node_key.specs.declared.stake.Stake.{Stake};
ghost use Rattle.node_key.specs.Tree.{Tree};
ghost use Rattle.whole_profiles.specs.Whole.{whole_profile};
ghost use Rattle.hall_trait.specs.Answers.{Admits, Asks, Closes, CoversAll, HasRoom, HaveSameFunctions};
ghost use Rattle.hall_trait.specs.Answers.{IsRootOf, Lists, MakesLoadEntry, PublishesTree};
ghost use Rattle.hall_trait.specs.Answers.{after_admit, after_ask, after_close, after_list};
ghost use Rattle.hall_trait.specs.Memo.{FillsIn, LooksIn, TellsProfile, after_look};
ghost use Rattle.hall_trait.specs.Nodes.{InternTells, ReadsNode, StakesNode, TellsTrack, after_intern};
ghost use Rattle.hall_trait.specs.Pass.{pass_view, advanced, IsNext};
ghost use Rattle.hall_trait.specs.Pin.{pin_view};
ghost use Rattle.hall_history.specs.Asks.{id_at};
ghost use Rattle.hall_trait.specs.Reach.{FromPin, FromStake, KeepsReach, Source};
ghost use Rattle.hall_trait.specs.View.{GoesOn, HallView, KeepsSeat, with_account, with_fill, with_memo};
ghost use Rattle.hall_trait.specs.View.{with_read};
ghost use Rattle.hall_trait.specs.declared.answers.HallFault.TheVariants.{Memory};

use crate::answers::{AskAnswer, CloseAnswer, HallFault};
use crate::pass::LoadPass;
use crate::pin::Pin;
use hall_history::{AskIds, Listing, Published};
use node_key::NodeKey;
use shard_core::Interned;
use std::alloc::Global;
use std::sync::{Arc, Wait};
use trace_base::TraceInfo;
use whole_profiles::{Entry, MemoKind};

/// A seat of a hall, which keeps the open traces as nodes, equal subtrees once. All seats of a hall share one
/// history. Between two calls of this seat others may act, so what it has seen begins what it sees next.
///
/// Each call tells by `answer` what it does to the seat, by `rest` what it makes of all else that the hall
/// tells, and by `reach` that what is reached by a stake or a pin, which the seat has after it, is reached by
/// it still.
pub trait Hall {
    /// What the hall tells to this seat.
    ghost view: { Self → HallView };

    /// Whether the seat reaches the node of a number by this stake or pin, which leads to this tree.
    ghost reaches: { Self → Source → ℕ → Tree → Type 0 };

    /// Gives a stake on the node of this key, for one on each of its kids. Of faults it answers `Spent`,
    /// where the numbers of the key's room or the references to the node are used up, and `Memory`; then the
    /// seat has the stakes on the kids as before.
    fn intern<R: Wait>(&mut self, rt: &R, key: NodeKey) -> Result<Interned, HallFault>
        requires { (t : Tree) × (kids : List Stake) × IsOverStakes t kids key
            × HasStakes (view self.old).seat.stakes kids }
        ensures answer { (t : Tree) (kids : List Stake) → IsOverStakes t kids key
            → HasStakes (view self.old).seat.stakes kids
            → StakesNode (view self.old).seat (view self.new).seat t kids result }
        ensures tells { InternTells (view self.old).rooms key result }
        ensures rest { GoesOn (with_account (after_intern result) (view self.old)) (view self.new) }
        ensures reach { KeepsReach (view self.new).seat (reaches self.old) (reaches self.new) };

    /// The key of a node that the seat reaches, whose kids it reaches by the same stake or pin from then on.
    /// It makes no entry, and takes no memory.
    fn read<R: Wait>(&mut self, rt: &R, n: u64) -> NodeKey
        requires { (by_what : Source) × (t : Tree) × reaches self.old by_what n t }
        ensures answer { (by_what : Source) (t : Tree) → reaches self.old by_what n t
            → ReadsNode (reaches self.new by_what) t result }
        ensures rest { KeepsSeat (with_account with_read (view self.old)) (view self.new) }
        ensures reach { KeepsReach (view self.new).seat (reaches self.old) (reaches self.new) };

    /// Gives a stake back. It makes no entry, and takes no memory.
    fn release<R: Wait>(&mut self, rt: &R, n: u64)
        requires { (t : Tree) × HasStakes (view self.old).seat.stakes (stake n t ∷ []) }
        ensures answer { (t : Tree) → HasStakes (view self.old).seat.stakes (stake n t ∷ [])
            → ExchangesStakes (view self.old).seat (view self.new).seat (stake n t ∷ []) [] }
        ensures rest { GoesOn (view self.old) (view self.new) }
        ensures reach { KeepsReach (view self.new).seat (reaches self.old) (reaches self.new) };

    /// Opens a trace, which is loading from then on. The places of all its entries are promised to it.
    /// `Spent` where they don't fit any more, else `Full` where the most traces are open, and `Memory` where
    /// none was found.
    fn admit<R: Wait>(
        &mut self,
        rt: &R,
        info: Arc<TraceInfo, Global>,
    ) -> Result<LoadPass, HallFault>
        requires { IsLegalInfo (arc_value info) }
        ensures answer { Admits (view self.old).alone (view self.old).seat (view self.new).seat
            (arc_value info) result }
        ensures rest { GoesOn (with_account (after_admit (arc_value info) result) (view self.old)) (view self.new) }
        ensures reach { KeepsReach (view self.new).seat (reaches self.old) (reaches self.new) };

    /// Publishes the tree of the node `root` as the next track of a pass, which starts at `start`, in
    /// nanoseconds. It takes a stake on the node, answers the place, and takes no memory.
    fn publish<R: Wait>(&mut self, rt: &R, pass: &mut LoadPass, start: u64, root: u64) -> u64
        requires has { Contains (view self.old).seat.passes (pass_view pass.old) }
        requires root { (track : ℕ) × (s : TrackStream) × IsNext pass.old track
            × IsRootOf (view self.old).seat pass.old.id track start root s }
        ensures answer { (track : ℕ) (s : TrackStream) → IsNext pass.old track
            → IsRootOf (view self.old).seat pass.old.id track start root s
            → PublishesTree (view self.old).alone (view self.old).seat (view self.new).seat pass.old track
            root s result }
        ensures pass { pass.new ≡ advanced pass.old }
        ensures rest { GoesOn (view self.old) (view self.new) }
        ensures reach { KeepsReach (view self.new).seat (reaches self.old) (reaches self.new) };

    /// Ends the load of a trace all of whose tracks are published. It answers the place, and takes no memory.
    fn seal<R: Wait>(&mut self, rt: &R, pass: LoadPass) -> u64
        requires has { Contains (view self.old).seat.passes (pass_view pass) }
        requires covers { CoversAll (view self.old).seat.seen pass }
        requires whole { pass.state ≡ Whole }
        ensures answer { MakesLoadEntry (view self.old).alone (view self.old).seat (view self.new).seat pass
            (Sealed pass.id) result }
        ensures stakes { (view self.new).seat.stakes ≡ (view self.old).seat.stakes }
        ensures rest { GoesOn (view self.old) (view self.new) }
        ensures reach { KeepsReach (view self.new).seat (reaches self.old) (reaches self.new) };

    /// Gives up the load of a trace, which is gone then, with the nodes that nothing else needs. It answers
    /// the place, and takes no memory.
    fn abandon<R: Wait>(&mut self, rt: &R, pass: LoadPass) -> u64
        requires has { Contains (view self.old).seat.passes (pass_view pass) }
        requires covers { CoversAll (view self.old).seat.seen pass }
        ensures answer { MakesLoadEntry (view self.old).alone (view self.old).seat (view self.new).seat pass
            (Dropped pass.id) result }
        ensures stakes { (view self.new).seat.stakes ≡ (view self.old).seat.stakes }
        ensures rest { GoesOn (view self.old) (view self.new) }
        ensures reach { KeepsReach (view self.new).seat (reaches self.old) (reaches self.new) };

    /// Asks for one or two traces. It takes no memory.
    fn ask<R: Wait>(&mut self, rt: &R, ids: AskIds) -> AskAnswer
        requires { (view self.old).seat.pins ≡ [] }
        ensures answer { Asks (view self.old).alone (view self.old).seat (view self.new).seat ids result }
        ensures rest { GoesOn (with_account (after_ask result) (view self.old)) (view self.new) }
        ensures reach { KeepsReach (view self.new).seat (reaches self.old) (reaches self.new) };

    /// Where a track, counted from 0, of a pinned trace begins, and the number of its tree, which the seat
    /// reaches by the pin from then on: of the first trace for 0, of the second for 1. `NotYet` exactly where
    /// the track isn't published at the pin's place. It makes no entry, and takes no memory.
    fn published<R: Wait>(&mut self, rt: &R, pin: &Pin, which: u8, track: u32) -> Published
        requires has { Contains (view self.old).seat.pins (pin_view pin.now) }
        requires which { which < 2 }
        requires within { track < tracks_of (take pin.now.place (view self.old).seat.seen)
            (id_at pin.now.ids which) }
        ensures answer { TellsTrack (take pin.now.place (view self.old).seat.seen) (id_at pin.now.ids which)
            track (reaches self.new (FromPin (pin_view pin.now))) result }
        ensures rest { KeepsSeat (view self.old) (view self.new) }
        ensures reach { KeepsReach (view self.new).seat (reaches self.old) (reaches self.new) };

    /// What the hall keeps of a pinned trace beside its events: of the first for 0, of the second for 1.
    /// `Memory` is its one fault.
    fn info<R: Wait>(
        &mut self,
        rt: &R,
        pin: &Pin,
        which: u8,
    ) -> Result<Arc<TraceInfo, Global>, HallFault>
        requires has { Contains (view self.old).seat.pins (pin_view pin.now) }
        requires which { which < 2 }
        ensures answer { IfOk result (λ info. info_of (take pin.now.place (view self.old).seat.seen)
            (id_at pin.now.ids which) ≡ Some (arc_value info)) }
        ensures memory { IfErr result (λ e. e ≡ Memory) }
        ensures rest { KeepsSeat (view self.old) (view self.new) }
        ensures reach { KeepsReach (view self.new).seat (reaches self.old) (reaches self.new) };

    /// Whether two numbers that the seat reaches by a pin lead to the same tree. It makes no entry, and takes
    /// no memory.
    fn same<R: Wait>(&mut self, rt: &R, pin: &Pin, a: u64, b: u64) -> bool
        requires has { Contains (view self.old).seat.pins (pin_view pin.now) }
        requires first { (t : Tree) × reaches self.old (FromPin (pin_view pin.now)) a t }
        requires second { (t : Tree) × reaches self.old (FromPin (pin_view pin.now)) b t }
        ensures answer { (t u : Tree) → reaches self.old (FromPin (pin_view pin.now)) a t
            → reaches self.old (FromPin (pin_view pin.now)) b u → IsTrue result ↔ (t ≡ u) }
        ensures rest { KeepsSeat (view self.old) (view self.new) }
        ensures reach { KeepsReach (view self.new).seat (reaches self.old) (reaches self.new) };

    /// Whether both traces of a pin have the same names of functions, in the same order. It makes no entry,
    /// and takes no memory.
    fn same_names<R: Wait>(&mut self, rt: &R, pin: &Pin) -> bool
        requires { Contains (view self.old).seat.pins (pin_view pin.now) }
        ensures answer { IsTrue result
            ↔ HaveSameFunctions (take pin.now.place (view self.old).seat.seen) pin.now.ids }
        ensures rest { KeepsSeat (view self.old) (view self.new) }
        ensures reach { KeepsReach (view self.new).seat (reaches self.old) (reaches self.new) };

    /// Gives a pin back. It makes no entry, and takes no memory.
    fn unpin<R: Wait>(&mut self, rt: &R, pin: Pin)
        requires { Contains (view self.old).seat.pins (pin_view pin) }
        ensures gone { Removes (view self.old).seat.pins (view self.new).seat.pins (pin_view pin) }
        ensures passes { (view self.new).seat.passes ≡ (view self.old).seat.passes }
        ensures stakes { (view self.new).seat.stakes ≡ (view self.old).seat.stakes }
        ensures entries { MakesNoEntry (view self.old).seat (view self.new).seat }
        ensures rest { GoesOn (view self.old) (view self.new) }
        ensures reach { KeepsReach (view self.new).seat (reaches self.old) (reaches self.new) };

    /// Closes a trace that isn't loading; what pins see of it stays until they are given back. It takes no
    /// memory.
    fn close<R: Wait>(&mut self, rt: &R, id: u64) -> CloseAnswer
        ensures answer { Closes (view self.old).alone (view self.old).seat (view self.new).seat id result }
        ensures rest { GoesOn (with_account (after_close result) (view self.old)) (view self.new) }
        ensures reach { KeepsReach (view self.new).seat (reaches self.old) (reaches self.new) };

    /// Lists the open traces, loading ones among them. `Spent` where no place is left, and `Memory` where
    /// none was found.
    fn list<R: Wait>(&mut self, rt: &R) -> Result<Listing, HallFault>
        ensures answer { Lists (view self.old).alone (view self.old).seat (view self.new).seat result }
        ensures rest { GoesOn (with_account (after_list result) (view self.old)) (view self.new) }
        ensures reach { KeepsReach (view self.new).seat (reaches self.old) (reaches self.new) };

    /// The whole profile of this kind of a node that the seat reaches, where it is kept. It makes no entry,
    /// and `Memory` is its one fault.
    fn memo_look<R: Wait>(
        &mut self,
        rt: &R,
        n: u64,
        kind: MemoKind,
    ) -> Result<Option<Entry>, HallFault>
        requires { (by_what : Source) × (t : Tree) × reaches self.old by_what n t }
        ensures answer { (by_what : Source) (t : Tree) → reaches self.old by_what n t
            → TellsProfile kind t result }
        ensures found { LooksIn (view self.old).memo n kind result }
        ensures rest { KeepsSeat (with_account (after_look result) (view self.old)) (view self.new) }
        ensures reach { KeepsReach (view self.new).seat (reaches self.old) (reaches self.new) };

    /// Keeps the whole profile of this kind of a node that the seat reaches, or doesn't; others may have to go
    /// for it. It makes no entry, and takes no memory.
    fn memo_fill<R: Wait>(&mut self, rt: &R, n: u64, kind: MemoKind, entry: Entry)
        requires { (by_what : Source) × (t : Tree) × reaches self.old by_what n t
            × (entry ≡ whole_profile kind t) }
        ensures answer { FillsIn (view self.old).memo (view self.new).memo n kind entry }
        ensures rest { KeepsSeat (with_memo (view self.new).memo (with_account with_fill (view self.old)))
            (view self.new) }
        ensures reach { KeepsReach (view self.new).seat (reaches self.old) (reaches self.new) };

    /// The history is legal.
    ghost legal: { (h : Self) → IsLegalHistory (view h).seat.seen };

    /// Where the seat is alone, the places of all entries fit, with the promised ones.
    ghost room: { (h : Self) → OnTrue (view h).alone (HasRoom (view h).seat.seen 0) };

    /// The seat reaches by each of its stakes what the stake is on.
    ghost staked: { (h : Self) (x : Stake) → Contains (view h).seat.stakes x
        → reaches h (FromStake x) x.number x.tree };
}
