//! What a registry told of the tracks of a query's traces is what it tells until the query gives them back,
//! whatever other calls come between. The statements are the clauses; the bodies are empty.
ghost use Rattle.std.specs.Prelude.{◌≡◌, ◌∷◌, ℕ, Contains, List, Result, Some};
ghost use Rattle.trace_base.specs.declared.names.TraceInfo.{TraceInfo};
ghost use Rattle.hall_history.specs.declared.asks.AskIds.{AskIds};
ghost use Rattle.hall_history.specs.declared.listing.Listing.{Listing};
ghost use Rattle.hall_history.specs.declared.published.Published.TheVariants as told;
ghost use Rattle.registry_core.specs.Asking.{AsksIn, after_unpin};
ghost use Rattle.registry_core.specs.Closing.{ClosesIn, ListsIn};
ghost use Rattle.registry_core.specs.Loading.{AdmitsIn, AwaitsTrack, EndsIn, with_published, with_sealed};
ghost use Rattle.registry_core.specs.Registry.{IsSoundRegistry, RegistryValue, kept_trace};
ghost use Rattle.registry_core.specs.Roots.{roots_kept};
ghost use Rattle.registry_core.specs.Staying.{KeepsTold};
ghost use Rattle.registry_core.specs.Trace.{Trace, published_by};
ghost use Rattle.registry_core.specs.UsedBy.{AreUsedBy};
ghost use Rattle.registry_core.specs.declared.answers.Opened.{Opened};
ghost use Rattle.registry_core.specs.declared.answers.RegAsk.{RegAsk};
ghost use Rattle.registry_core.specs.declared.answers.RegClose.{RegClose};
ghost use Rattle.registry_core.specs.declared.answers.RegEnd.{RegEnd};
ghost use Rattle.registry_core.specs.declared.answers.RegFault.{RegFault};

/// The calls of a load keep what was told, whatever they answer: a publication fills a slot that was free,
/// and a trace that is given up stays for the queries that run.
pub fn told_beside_loads()
    ensures admitted { (old new : RegistryValue) (info : TraceInfo) (answer : Result Opened RegFault)
        (ids : AskIds) (place : ℕ) → AdmitsIn old info answer new → KeepsTold old new ids place }
    ensures published { (r : RegistryValue) (id track start root : ℕ) (ids : AskIds) (place : ℕ)
        → AwaitsTrack r id track → KeepsTold r (with_published r id track start root) ids place }
    ensures sealed { (r : RegistryValue) (id : ℕ) (ids : AskIds) (place : ℕ)
        → KeepsTold r (with_sealed r id) ids place }
    ensures ended { (old new : RegistryValue) (id : ℕ) (answer : RegEnd) (queries : List AskIds)
        (ids : AskIds) (place : ℕ) → AreUsedBy old.traces queries → Contains queries ids
        → EndsIn old id answer new → KeepsTold old new ids place }
{}

/// A trace that is closed stays for the queries that run, and a refusal changes none.
pub fn told_beside_closing()
    ensures { (old new : RegistryValue) (id : ℕ) (answer : RegClose) (queries : List AskIds) (ids : AskIds)
        (place : ℕ) → IsSoundRegistry old → AreUsedBy old.traces queries → Contains queries ids
        → ClosesIn old id answer new → KeepsTold old new ids place }
{}

/// Questions and listings change no roots. Traces that a query gives back stay for those that still run.
pub fn told_beside_queries()
    ensures asked { (old new : RegistryValue) (others : AskIds) (answer : RegAsk) (ids : AskIds) (place : ℕ)
        → AsksIn old others answer new → KeepsTold old new ids place }
    ensures listed { (old new : RegistryValue) (answer : Result Listing RegFault) (ids : AskIds) (place : ℕ)
        → ListsIn old answer new → KeepsTold old new ids place }
    ensures given_back { (r : RegistryValue) (others : AskIds) (queries : List AskIds) (ids : AskIds)
        (place : ℕ) → IsSoundRegistry r → AreUsedBy r.traces (others ∷ queries) → Contains queries ids
        → KeepsTold r (after_unpin r others) ids place }
{}

/// What each call keeps any number of them keep.
pub fn told_over_calls()
    ensures none { (r : RegistryValue) (ids : AskIds) (place : ℕ) → KeepsTold r r ids place }
    ensures more { (first mid last : RegistryValue) (ids : AskIds) (place : ℕ)
        → KeepsTold first mid ids place → KeepsTold mid last ids place → KeepsTold first last ids place }
{}

/// A root that is told of a track is among the roots that the registry keeps.
pub fn told_roots_are_kept()
    ensures { (r : RegistryValue) (id place track start root : ℕ) (t : Trace)
        → kept_trace r.traces id ≡ Some t → published_by t place track ≡ told.Root start root
        → Contains (roots_kept r.traces) root }
{}
