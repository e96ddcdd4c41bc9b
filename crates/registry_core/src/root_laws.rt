//! What each call does to the roots that a registry keeps, for whoever counts them in a store. The
//! statements are the clauses; the bodies are empty.
ghost use Rattle.std.specs.Prelude.{◌≡◌, ◌∷◌, [], ℕ, List};
ghost use Rattle.trace_base.specs.declared.names.TraceInfo.{TraceInfo};
ghost use Rattle.hall_history.specs.declared.asks.AskIds.{AskIds};
ghost use Rattle.registry_core.specs.Asking.{after_unpin, unpinned, with_users};
ghost use Rattle.registry_core.specs.Closing.{ClosesIn};
ghost use Rattle.registry_core.specs.Loading.{AwaitsTrack, EndsIn, with_opened, with_published, with_sealed};
ghost use Rattle.registry_core.specs.Registry.{IsSoundRegistry, RegistryValue};
ghost use Rattle.registry_core.specs.Roots.{ExchangesRoots, roots_freed_by, roots_kept};
ghost use Rattle.registry_core.specs.Trace.{Trace};
ghost use Rattle.registry_core.specs.declared.answers.RegClose.TheVariants as close;
ghost use Rattle.registry_core.specs.declared.answers.RegEnd.TheVariants as end;

/// In a load a publication adds its root. A trace that is given up takes its roots along, unless it is kept
/// for its users.
pub fn roots_of_loads()
    ensures opened { (r : RegistryValue) (info : TraceInfo)
        → roots_kept (with_opened r info).traces ≡ roots_kept r.traces }
    ensures published { (r : RegistryValue) (id track start root : ℕ) → IsSoundRegistry r
        → AwaitsTrack r id track → ExchangesRoots (roots_kept r.traces)
        (roots_kept (with_published r id track start root).traces) [] (root ∷ []) }
    ensures sealed { (r : RegistryValue) (id : ℕ)
        → roots_kept (with_sealed r id).traces ≡ roots_kept r.traces }
    ensures ended { (old new : RegistryValue) (id place : ℕ) (roots : List ℕ) → IsSoundRegistry old
        → EndsIn old id (end.Ended place roots) new
        → ExchangesRoots (roots_kept old.traces) (roots_kept new.traces) roots [] }
    ensures kept { (old new : RegistryValue) (id place : ℕ) → EndsIn old id (end.Kept place) new
        → roots_kept new.traces ≡ roots_kept old.traces }
{}

/// A trace that is closed takes its roots along, unless it is kept for its users.
pub fn roots_of_closed()
    ensures ended { (old new : RegistryValue) (id place : ℕ) (roots : List ℕ) → IsSoundRegistry old
        → ClosesIn old id (close.Ended place roots) new
        → ExchangesRoots (roots_kept old.traces) (roots_kept new.traces) roots [] }
    ensures kept { (old new : RegistryValue) (id place : ℕ) → ClosesIn old id (close.Kept place) new
        → roots_kept new.traces ≡ roots_kept old.traces }
{}

/// A question changes no roots. Traces that are given back take the roots along that come free.
pub fn roots_of_questions()
    ensures asked { (ids : AskIds) (traces : List Trace)
        → roots_kept (with_users ids traces) ≡ roots_kept traces }
    ensures given_back { (r : RegistryValue) (ids : AskIds) → IsSoundRegistry r
        → ExchangesRoots (roots_kept r.traces) (roots_kept (after_unpin r ids).traces)
        (roots_freed_by (unpinned ids r.traces)) [] }
{}
