//! Whose users the users of a registry's traces are, for whoever keeps the queries that run. The statements
//! are the clauses; the bodies are empty.
ghost use Rattle.std.specs.Prelude.{◌∷◌, [], ℕ, List};
ghost use Rattle.trace_base.specs.declared.names.TraceInfo.{TraceInfo};
ghost use Rattle.hall_history.specs.declared.asks.AskIds.{AskIds};
ghost use Rattle.registry_core.specs.Asking.{AreUsed, AsksIn, after_unpin};
ghost use Rattle.registry_core.specs.Closing.{ClosesIn};
ghost use Rattle.registry_core.specs.Loading.{EndsIn, with_opened, with_published, with_sealed};
ghost use Rattle.registry_core.specs.Registry.{IsSoundRegistry, RegistryValue};
ghost use Rattle.registry_core.specs.UsedBy.{AreUsedBy};
ghost use Rattle.registry_core.specs.declared.answers.RegAsk.TheVariants as ask;
ghost use Rattle.registry_core.specs.declared.answers.RegClose.TheVariants as close;
ghost use Rattle.registry_core.specs.declared.answers.RegEnd.{RegEnd};

/// The entries of a load leave the users as they are.
pub fn users_of_loads()
    ensures opened { (r : RegistryValue) (info : TraceInfo) (queries : List AskIds) → IsSoundRegistry r
        → AreUsedBy r.traces queries → AreUsedBy (with_opened r info).traces queries }
    ensures published { (r : RegistryValue) (id track start root : ℕ) (queries : List AskIds)
        → AreUsedBy r.traces queries → AreUsedBy (with_published r id track start root).traces queries }
    ensures sealed { (r : RegistryValue) (id : ℕ) (queries : List AskIds) → AreUsedBy r.traces queries
        → AreUsedBy (with_sealed r id).traces queries }
    ensures ended { (old new : RegistryValue) (id : ℕ) (end : RegEnd) (queries : List AskIds)
        → EndsIn old id end new → AreUsedBy old.traces queries → AreUsedBy new.traces queries }
{}

/// So does the end of a trace that is closed.
pub fn users_of_closed()
    ensures ended { (old new : RegistryValue) (id place : ℕ) (roots : List ℕ) (queries : List AskIds)
        → ClosesIn old id (close.Ended place roots) new → AreUsedBy old.traces queries
        → AreUsedBy new.traces queries }
    ensures kept { (old new : RegistryValue) (id place : ℕ) (queries : List AskIds)
        → ClosesIn old id (close.Kept place) new → AreUsedBy old.traces queries
        → AreUsedBy new.traces queries }
{}

/// A query that asked is a user until it gives its traces back, which are in use until then. At first there
/// are no users.
pub fn users_of_questions()
    ensures none { AreUsedBy [] [] }
    ensures asked { (old new : RegistryValue) (ids : AskIds) (place : ℕ) (queries : List AskIds)
        → IsSoundRegistry old → AsksIn old ids (ask.Pinned place) new → AreUsedBy old.traces queries
        → AreUsedBy new.traces (ids ∷ queries) }
    ensures in_use { (r : RegistryValue) (ids : AskIds) (queries : List AskIds)
        → AreUsedBy r.traces (ids ∷ queries) → AreUsed r ids }
    ensures given_back { (r : RegistryValue) (ids : AskIds) (queries : List AskIds) → IsSoundRegistry r
        → AreUsedBy r.traces (ids ∷ queries) → AreUsedBy (after_unpin r ids).traces queries }
{}
