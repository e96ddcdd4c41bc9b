//! What the definitions give on small traces. The statements are the clauses; the bodies are empty.
ghost use Rattle.std.specs.Prelude.{◌≡◌, [], ◌∷◌, map, codes, Some, None, true, false};
ghost use Rattle.trace_base.specs.Examples.{two_calls};
ghost use Rattle.trace_base.specs.declared.stream.Event.TheVariants.{Enter, Leave};
ghost use Rattle.paje_lines.specs.Found.{distinct_by, rooted};
ghost use Rattle.paje_lines.specs.Types.{kind_named, link_kind_named, kinds_in};
ghost use Rattle.paje_lines.specs.Containers.{container_named, containers_in, greatest};
ghost use Rattle.paje_lines.specs.Values.{value_text, values_in};
ghost use Rattle.paje_lines.specs.States.{functions_entered};
ghost use Rattle.paje_lines.specs.Text.{text_said, links_of};
ghost use Rattle.paje_lines.specs.Reasons.{event_refusal};
ghost use Rattle.paje_lines.specs.Examples.{effects, refused_number, reasons};
ghost use Rattle.paje_lines.specs.Examples.{two_calls_lines, open_call_lines, empty_pop_lines};
ghost use Rattle.paje_lines.specs.Examples.{blank_name_lines, double_alias_lines, message_lines};
ghost use Rattle.paje_lines.specs.Examples.{twin_types, twin_and_alias, twin_containers, twins_and_alias};
ghost use Rattle.paje_lines.specs.Examples.{valued, event_values, entered_values};
ghost use Rattle.paje_lines.specs.Examples.{stack_lines, track_lines, two_link_types};

use crate::effect::Effect;
use crate::model_fault::ModelFault;

/// Main calls f twice, and its container is destroyed.
pub fn two_calls_example()
    ensures effects { effects two_calls_lines ≡
        Effect.Declared ∷ Effect.Declared ∷ Effect.Declared ∷
        Effect.Entered ∷ Effect.Entered ∷ Effect.Left 1 ∷
        Effect.Entered ∷ Effect.Left 1 ∷ Effect.Left 1 ∷ Effect.Left 0 ∷ [] }
    ensures refused { event_refusal two_calls_lines ≡ None }
    ensures said { text_said two_calls_lines ≡ record {
      names = record {
        end = 500000000;
        containers = record { name = codes "0"; start = 0; end = 500000000 }
            ∷ record { name = codes "rank 0"; start = 0; end = 500000000 } ∷ [];
        kinds = codes "State" ∷ [];
        link_kinds = [];
        tracks = record { container = 1; kind = 0 } ∷ [];
        functions = codes "main" ∷ codes "f" ∷ [];
      };
      tracks = two_calls ∷ [];
      links = [];
    } }
{}

/// A call that no line leaves ends at the greatest time, as do containers that aren't destroyed.
pub fn open_call_example()
    ensures effects { effects open_call_lines ≡ Effect.Declared ∷ Effect.Declared ∷ Effect.Declared
        ∷ Effect.Declared ∷ Effect.Entered ∷ Effect.Declared ∷ [] }
    ensures refused { event_refusal open_call_lines ≡ None }
    ensures said { text_said open_call_lines ≡ record {
      names = record {
        end = 2000000000;
        containers = record { name = codes "0"; start = 0; end = 2000000000 }
            ∷ record { name = codes "a"; start = 0; end = 2000000000 }
            ∷ record { name = codes "b"; start = 0; end = 2000000000 }
            ∷ record { name = codes "c"; start = 2000000000; end = 2000000000 } ∷ [];
        kinds = codes "State" ∷ [];
        link_kinds = [];
        tracks = record { container = 1; kind = 0 } ∷ [];
        functions = codes "main" ∷ [];
      };
      tracks = record { start = 0; end = 2000000000; events = Enter 1 0 ∷ Leave 2000000000 ∷ [] } ∷ [];
      links = [];
    } }
{}

/// The first refused line, and why.
pub fn refused_examples()
    ensures empty_pop { event_refusal empty_pop_lines ≡ Some ModelFault.EmptyPop }
    ensures empty_pop_line { refused_number empty_pop_lines ≡ Some 37 }
    ensures double_alias { event_refusal double_alias_lines ≡ Some (ModelFault.DoubleAlias 36) }
    ensures double_alias_line { refused_number double_alias_lines ≡ Some 38 }
    ensures blank_name { event_refusal blank_name_lines ≡ None }
    ensures blank_name_said { functions_entered blank_name_lines ≡ codes "my func" ∷ [] }
{}

/// The ends of messages, in the order of their lines.
pub fn message_example()
    ensures effects { effects message_lines ≡ Effect.Declared ∷ Effect.Declared ∷ Effect.Declared
        ∷ Effect.Declared ∷ Effect.Linked ∷ Effect.Linked ∷ Effect.Linked ∷ Effect.Linked ∷ Effect.Linked
        ∷ [] }
    ensures refused { event_refusal message_lines ≡ None }
    ensures said { text_said message_lines ≡ record {
      names = record {
        end = 3000000000;
        containers = record { name = codes "0"; start = 0; end = 3000000000 }
            ∷ record { name = codes "a"; start = 0; end = 3000000000 }
            ∷ record { name = codes "b"; start = 0; end = 3000000000 } ∷ [];
        kinds = [];
        link_kinds = codes "Msg" ∷ [];
        tracks = [];
        functions = [];
      };
      tracks = [];
      links =
          record { starts = true; kind = 0; key = codes "k1"; container = 1; time = 1000000000; size = 100 }
          ∷ record { starts = true; kind = 0; key = codes "k1"; container = 1; time = 2000000000; size = 50 }
          ∷ record { starts = false; kind = 0; key = codes "k1"; container = 2; time = 1500000000; size = 0 }
          ∷ record { starts = true; kind = 0; key = codes "k2"; container = 2; time = 3000000000; size = 7 }
          ∷ record { starts = false; kind = 0; key = codes "k2"; container = 1; time = 2500000000; size = 0 }
          ∷ [];
    } }
{}

/// Link events of two link types with one key; types and containers named by `0`, by `/` and by their names.
pub fn link_type_example()
    ensures refused { event_refusal two_link_types ≡ None }
    ensures links { links_of two_link_types ≡
        record { starts = true; kind = 1; key = codes "k"; container = 1; time = 1; size = 5 }
        ∷ record { starts = true; kind = 0; key = codes "k"; container = 0; time = 2; size = 6 }
        ∷ record { starts = false; kind = 1; key = codes "k"; container = 0; time = 3; size = 0 } ∷ [] }
{}

/// What a text finds: an alias comes before a name, and of a name the first.
pub fn found_examples()
    ensures types { map (kind_named twin_types) (codes "S1" ∷ codes "S2" ∷ codes "State" ∷ codes "P"
        ∷ codes "Other" ∷ []) ≡ Some 0 ∷ Some 1 ∷ Some 0 ∷ None ∷ None ∷ [] }
    ensures alias_of_a_type { map (kind_named twin_and_alias) (codes "S1" ∷ codes "S2" ∷ codes "State"
        ∷ codes "Other" ∷ []) ≡ Some 0 ∷ Some 1 ∷ Some 2 ∷ Some 2 ∷ [] }
    ensures containers { map (container_named twin_containers) (codes "p0" ∷ codes "p1" ∷ codes "rank 0"
        ∷ codes "0" ∷ codes "/" ∷ codes "p2" ∷ []) ≡ Some 1 ∷ Some 2 ∷ Some 1 ∷ Some 0 ∷ Some 0 ∷ None ∷ [] }
    ensures alias_of_a_container { map (container_named twins_and_alias) (codes "rank 0" ∷ codes "x" ∷ [])
        ≡ Some 3 ∷ Some 3 ∷ [] }
    ensures values { map (value_text valued 0) (codes "v" ∷ codes "w" ∷ codes "one" ∷ codes "four"
        ∷ codes "two" ∷ codes "three" ∷ []) ≡ codes "one" ∷ codes "one" ∷ codes "four" ∷ codes "four"
        ∷ codes "two" ∷ codes "three" ∷ [] }
    ensures values_of_the_other { map (value_text valued 1) (codes "v" ∷ codes "w" ∷ codes "two"
        ∷ codes "three" ∷ []) ≡ codes "two" ∷ codes "w" ∷ codes "two" ∷ codes "three" ∷ [] }
    ensures none_refused { map event_refusal (twin_types ∷ twin_and_alias ∷ twin_containers ∷ twins_and_alias
        ∷ valued ∷ event_values ∷ []) ≡ None ∷ None ∷ None ∷ None ∷ None ∷ None ∷ [] }
{}

/// Values of other types are dropped. Equal texts are one function, whether declared or not.
pub fn value_examples()
    ensures dropped { effects event_values ≡ Effect.Declared ∷ Effect.Declared ∷ Effect.Dropped
        ∷ Effect.Dropped ∷ [] }
    ensures not_declared { values_in event_values ≡ [] }
    ensures entered { functions_entered entered_values ≡ codes "v" ∷ codes "one" ∷ codes "two" ∷ [] }
    ensures refused { event_refusal entered_values ≡ None }
{}

/// Each kind of line that leaves calls, and those that are open at the end.
pub fn stack_example()
    ensures effects { effects stack_lines ≡ Effect.Declared ∷ Effect.Declared ∷ Effect.Declared
        ∷ Effect.Entered ∷ Effect.Entered ∷ Effect.Entered ∷ Effect.Entered ∷ Effect.Left 1 ∷ Effect.Left 0
        ∷ Effect.Entered ∷ Effect.Entered ∷ Effect.Entered ∷ Effect.Dropped ∷ Effect.Left 1 ∷ Effect.Entered
        ∷ [] }
    ensures refused { event_refusal stack_lines ≡ None }
    ensures greatest { greatest stack_lines ≡ 20 }
    ensures events { map (λ s. s.events) (text_said stack_lines).tracks ≡ (
        Enter 1 1 ∷ Enter 2 2 ∷ Enter 1 3 ∷ Leave 4 ∷ Leave 4 ∷ Leave 4 ∷ Enter 3 4 ∷ Leave 5 ∷ Enter 4 6
        ∷ Leave 7 ∷ Enter 1 7 ∷ Enter 2 8 ∷ Leave 9 ∷ Enter 3 9 ∷ Leave 20 ∷ Leave 20 ∷ []) ∷ [] }
{}

/// Tracks are numbered by their first lines, functions by their first use; a destroyed container leaves the
/// calls of all its tracks.
pub fn track_example()
    ensures effects { effects track_lines ≡ Effect.Declared ∷ Effect.Declared ∷ Effect.Declared
        ∷ Effect.Declared ∷ Effect.Declared ∷ Effect.Entered ∷ Effect.Entered ∷ Effect.Entered
        ∷ Effect.Entered ∷ Effect.Left 1 ∷ Effect.Left 3 ∷ Effect.Dropped ∷ [] }
    ensures refused { event_refusal track_lines ≡ None }
    ensures said { text_said track_lines ≡ record {
      names = record {
        end = 9;
        containers = record { name = codes "0"; start = 0; end = 9 }
            ∷ record { name = codes "rank 0"; start = 0; end = 8 }
            ∷ record { name = codes "rank 1"; start = 1; end = 9 } ∷ [];
        kinds = codes "State" ∷ codes "Phase" ∷ [];
        link_kinds = [];
        tracks = record { container = 2; kind = 0 } ∷ record { container = 1; kind = 1 }
            ∷ record { container = 1; kind = 0 } ∷ [];
        functions = codes "f" ∷ codes "g" ∷ [];
      };
      tracks =
          record { start = 1; end = 9; events = Enter 1 2 ∷ Leave 6 ∷ [] }
          ∷ record { start = 0; end = 8; events = Enter 2 3 ∷ Enter 1 5 ∷ Leave 8 ∷ Leave 8 ∷ [] }
          ∷ record { start = 0; end = 8; events = Enter 1 4 ∷ Leave 8 ∷ [] } ∷ [];
      links = [];
    } }
{}
