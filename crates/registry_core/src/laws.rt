//! The tie between a registry and the history of its hall, for whoever keeps one: a law for each call, over a
//! registry that stands for the entries so far. The statements are the clauses; the bodies are empty.
ghost use Rattle.std.specs.Prelude.{◌≡◌, ◌+◌, ◌-◌, ◌≤◌, [], ◌∷◌, ◌++◌, ℕ, List, Ok, Err, None, Some, length};
ghost use Rattle.std.specs.Prelude.{take};
ghost use Rattle.trace_base.specs.Info.{IsLegalInfo};
ghost use Rattle.hall_history.specs.declared.asks.AskIds.{AskIds};
ghost use Rattle.trace_base.specs.declared.limits.TheConstants.{MAX_PLACES};
ghost use Rattle.hall_history.specs.declared.listing.Listing.{Listing};
ghost use Rattle.trace_base.specs.declared.names.TraceInfo.{TraceInfo};
ghost use Rattle.hall_history.specs.declared.published.Published.TheVariants as told;
ghost use Rattle.hall_history.specs.History.{Asked, Closed, Dropped, Entry, Opened, Published, PublishedTree};
ghost use Rattle.hall_history.specs.History.{IsTrackTree, MayFollow, Sealed, open_ids, published_of};
ghost use Rattle.hall_history.specs.Listing.{listed_rows};
ghost use Rattle.node_key.specs.Stands.{KeyAt, Stands};
ghost use Rattle.node_key.specs.Tree.{Tree};
ghost use Rattle.registry_core.specs.Asking.{AreUsed, AsksIn, after_unpin};
ghost use Rattle.registry_core.specs.Closing.{ClosesIn, IsSealedTrace, ListsIn, rows_of};
ghost use Rattle.registry_core.specs.Loading.{AdmitsIn, AwaitsSeal, AwaitsTrack, EndsIn, IsLoadingTrace};
ghost use Rattle.registry_core.specs.Loading.{with_published, with_sealed};
ghost use Rattle.registry_core.specs.Registry.{RegistryValue, kept_trace, new_registry, open_count};
ghost use Rattle.registry_core.specs.Standing.{AreTrees, StandsFor, Start};
ghost use Rattle.registry_core.specs.Trace.{Trace, published_by};
ghost use Rattle.registry_core.specs.declared.answers.Opened.{Opened as OpenedTrace};
ghost use Rattle.registry_core.specs.declared.answers.RegAsk.TheVariants as ask;
ghost use Rattle.registry_core.specs.declared.answers.RegClose.TheVariants as close;
ghost use Rattle.registry_core.specs.declared.answers.RegEnd.{RegEnd};
ghost use Rattle.registry_core.specs.declared.answers.RegFault.TheVariants.{Full};

/// A registry that was just started stands for the history without entries.
pub fn starting()
    ensures { (key_at : KeyAt) (place id : ℕ) → place ≤ MAX_PLACES → 1 ≤ id → id ≤ place + 1
        → StandsFor (AreTrees key_at) (record { place = place; id = id }) (new_registry place id) [] }
{}

/// A trace that is opened has its entry, and the refusal that too many are open is a question.
pub fn admitting()
    ensures opened { (key_at : KeyAt) (start : Start) (old new : RegistryValue) (entries : List Entry)
        (info : TraceInfo) (o : OpenedTrace) → StandsFor (AreTrees key_at) start old entries
        → IsLegalInfo info → AdmitsIn old info (Ok o) new
        → StandsFor (AreTrees key_at) start new (entries ++ Opened o.id info ∷ []) }
    ensures full { (key_at : KeyAt) (start : Start) (old new : RegistryValue) (entries : List Entry)
        (info : TraceInfo) (place : ℕ) → StandsFor (AreTrees key_at) start old entries
        → AdmitsIn old info (Err (Full place)) new
        → StandsFor (AreTrees key_at) start new (entries ++ Asked ∷ []) }
{}

/// A track is published whose root stands for its tree.
pub fn publishing()
    ensures { (key_at : KeyAt) (start : Start) (old : RegistryValue) (entries : List Entry)
        (id track root : ℕ) (p : PublishedTree) → StandsFor (AreTrees key_at) start old entries
        → AwaitsTrack old id track → Stands key_at root p.tree
        → StandsFor (AreTrees key_at) start (with_published old id track p.start root)
        (entries ++ Published id track p ∷ []) }
{}

/// A load has ended with all its tracks published.
pub fn sealing()
    ensures { (key_at : KeyAt) (start : Start) (old : RegistryValue) (entries : List Entry) (id : ℕ)
        → StandsFor (AreTrees key_at) start old entries → AwaitsSeal old id
        → StandsFor (AreTrees key_at) start (with_sealed old id) (entries ++ Sealed id ∷ []) }
{}

/// A load is given up, whether its trace is kept for its users or gone.
pub fn abandoning()
    ensures { (key_at : KeyAt) (start : Start) (old new : RegistryValue) (entries : List Entry) (id : ℕ)
        (end : RegEnd) → StandsFor (AreTrees key_at) start old entries → IsLoadingTrace old id
        → EndsIn old id end new
        → StandsFor (AreTrees key_at) start new (entries ++ Dropped id ∷ []) }
{}

/// A question for traces has its entry, whether they are open or not.
pub fn asking()
    ensures pinned { (key_at : KeyAt) (start : Start) (old new : RegistryValue) (entries : List Entry)
        (ids : AskIds) (place : ℕ) → StandsFor (AreTrees key_at) start old entries
        → AsksIn old ids (ask.Pinned place) new
        → StandsFor (AreTrees key_at) start new (entries ++ Asked ∷ []) }
    ensures unknown { (key_at : KeyAt) (start : Start) (old new : RegistryValue) (entries : List Entry)
        (ids : AskIds) (id next place : ℕ) → StandsFor (AreTrees key_at) start old entries
        → AsksIn old ids (ask.Unknown id next place) new
        → StandsFor (AreTrees key_at) start new (entries ++ Asked ∷ []) }
{}

/// Traces that are given back make no entry.
pub fn giving_back()
    ensures { (key_at : KeyAt) (start : Start) (old : RegistryValue) (entries : List Entry) (ids : AskIds)
        → StandsFor (AreTrees key_at) start old entries → AreUsed old ids
        → StandsFor (AreTrees key_at) start (after_unpin old ids) entries }
{}

/// A trace that is closed has its entry, whether it is kept for its users or gone; each refusal but `Spent`
/// is a question.
pub fn closing()
    ensures ended { (key_at : KeyAt) (start : Start) (old new : RegistryValue) (entries : List Entry)
        (id place : ℕ) (roots : List ℕ) → StandsFor (AreTrees key_at) start old entries
        → ClosesIn old id (close.Ended place roots) new
        → StandsFor (AreTrees key_at) start new (entries ++ Closed id ∷ []) }
    ensures kept { (key_at : KeyAt) (start : Start) (old new : RegistryValue) (entries : List Entry)
        (id place : ℕ) → StandsFor (AreTrees key_at) start old entries
        → ClosesIn old id (close.Kept place) new
        → StandsFor (AreTrees key_at) start new (entries ++ Closed id ∷ []) }
    ensures loading { (key_at : KeyAt) (start : Start) (old new : RegistryValue) (entries : List Entry)
        (id place : ℕ) → StandsFor (AreTrees key_at) start old entries
        → ClosesIn old id (close.Loading place) new
        → StandsFor (AreTrees key_at) start new (entries ++ Asked ∷ []) }
    ensures unknown { (key_at : KeyAt) (start : Start) (old new : RegistryValue) (entries : List Entry)
        (id next place : ℕ) → StandsFor (AreTrees key_at) start old entries
        → ClosesIn old id (close.Unknown next place) new
        → StandsFor (AreTrees key_at) start new (entries ++ Asked ∷ []) }
{}

/// A listing is a question.
pub fn listing()
    ensures { (key_at : KeyAt) (start : Start) (old new : RegistryValue) (entries : List Entry)
        (listing : Listing) → StandsFor (AreTrees key_at) start old entries → ListsIn old (Ok listing) new
        → StandsFor (AreTrees key_at) start new (entries ++ Asked ∷ []) }
{}

/// What the registry tells is what the history tells: the traces that are open, with their rows, and what was
/// published of a kept trace's track by a place.
pub fn telling()
    ensures rows { (key_at : KeyAt) (start : Start) (r : RegistryValue) (entries : List Entry)
        → StandsFor (AreTrees key_at) start r entries → rows_of r ≡ listed_rows entries }
    ensures open_traces { (key_at : KeyAt) (start : Start) (r : RegistryValue) (entries : List Entry)
        → StandsFor (AreTrees key_at) start r entries → open_count r.traces ≡ length (open_ids entries) }
    ensures published { (key_at : KeyAt) (start : Start) (r : RegistryValue) (entries : List Entry)
        (id place track from root : ℕ) (t : Trace) → StandsFor (AreTrees key_at) start r entries
        → kept_trace r.traces id ≡ Some t → published_by t place track ≡ told.Root from root
        → (p : PublishedTree)
        × (published_of (take (place - start.place) entries) id track ≡ Some p)
        × AreTrees key_at from root p }
    ensures not_yet { (key_at : KeyAt) (start : Start) (r : RegistryValue) (entries : List Entry)
        (id place track : ℕ) (t : Trace) → StandsFor (AreTrees key_at) start r entries
        → kept_trace r.traces id ≡ Some t → published_by t place track ≡ told.NotYet
        → published_of (take (place - start.place) entries) id track ≡ None }
{}

/// What the registry is ready for may follow in the history, if its traces got the ids from 1 on.
pub fn following()
    ensures opened { (key_at : KeyAt) (place : ℕ) (old new : RegistryValue) (entries : List Entry)
        (info : TraceInfo) (o : OpenedTrace)
        → StandsFor (AreTrees key_at) (record { place = place; id = 1 }) old entries → IsLegalInfo info
        → AdmitsIn old info (Ok o) new → MayFollow entries (Opened o.id info) }
    ensures published { (key_at : KeyAt) (start : Start) (r : RegistryValue) (entries : List Entry)
        (id track : ℕ) (p : PublishedTree) → StandsFor (AreTrees key_at) start r entries
        → AwaitsTrack r id track → IsTrackTree entries id track p
        → MayFollow entries (Published id track p) }
    ensures sealed { (key_at : KeyAt) (start : Start) (r : RegistryValue) (entries : List Entry) (id : ℕ)
        → StandsFor (AreTrees key_at) start r entries → AwaitsSeal r id → MayFollow entries (Sealed id) }
    ensures dropped { (key_at : KeyAt) (start : Start) (r : RegistryValue) (entries : List Entry) (id : ℕ)
        → StandsFor (AreTrees key_at) start r entries → IsLoadingTrace r id
        → MayFollow entries (Dropped id) }
    ensures closed { (key_at : KeyAt) (start : Start) (r : RegistryValue) (entries : List Entry) (id : ℕ)
        (t : Trace) → StandsFor (AreTrees key_at) start r entries → IsSealedTrace r id t
        → MayFollow entries (Closed id) }
{}

/// A registry stands for the history as well where more keys are found.
pub fn more_keys()
    ensures { (key_at others : KeyAt) (start : Start) (r : RegistryValue) (entries : List Entry)
        → StandsFor (AreTrees key_at) start r entries
        → ((n : ℕ) (t : Tree) → Stands key_at n t → Stands others n t)
        → StandsFor (AreTrees others) start r entries }
{}
