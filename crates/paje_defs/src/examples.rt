//! What the definitions give on lines whose meaning is known.

ghost use Rattle.std.specs.Prelude.{◌≡◌, [], ◌∷◌, ◌++◌, map, codes, Some, None, Ok, Err};
ghost use Rattle.paje_defs.specs.EventName.{all_events, event_name_of, event_text};
ghost use Rattle.paje_defs.specs.FieldName.{all_fields, field_name_of, field_text};
ghost use Rattle.paje_defs.specs.FieldType.{all_types, type_of, type_text};
ghost use Rattle.paje_defs.specs.Definition.{missing, place_of};
ghost use Rattle.paje_defs.specs.Numbers.{size_of, event_number_of};
ghost use Rattle.paje_defs.specs.Examples.{defined, definitions_in, field_as, event_definitions};
ghost use Rattle.paje_defs.specs.Examples.{refused_line};
ghost use Rattle.paje_defs.specs.Examples.{told_of};

use crate::def_fault::DefFault;
use crate::event_fault::EventFault;
use crate::event_name::EventName;
use crate::field_name::FieldName;
use crate::field_type::FieldType;
use crate::role::Role;
use paje_lex::DateFault;

/// Each name is read as what it is written for, and no other is.
pub fn name_examples()
    ensures events { map (λ e. event_name_of (event_text e)) all_events ≡ map (λ e. Some e) all_events }
    ensures fields { map (λ f. field_name_of (field_text f)) all_fields ≡ all_fields }
    ensures types { map (λ t. type_of (type_text t)) all_types ≡ map (λ t. Some t) all_types }
    ensures other_events { map event_name_of (codes "PajeStrange" ∷ codes "PushState" ∷ codes "pajepushstate"
        ∷ codes "PajePushState2" ∷ [] ∷ []) ≡ None ∷ None ∷ None ∷ None ∷ None ∷ [] }
    ensures other_fields { map field_name_of (codes "Line" ∷ codes "time" ∷ [] ∷ []) ≡ FieldName.Other
        ∷ FieldName.Other ∷ FieldName.Other ∷ [] }
    ensures other_types { map type_of (codes "Date" ∷ codes "time" ∷ [] ∷ []) ≡ None ∷ None ∷ None ∷ [] }
{}

/// Six definitions, one after another: none is left open and no line is refused.
pub fn definition_examples()
    ensures { definitions_in (
        codes "%EventDef PajeDefineContainerType 0" ∷ codes "% Alias string" ∷ codes "% Type string" ∷
        codes "% Name string" ∷ codes "%EndEventDef" ∷ codes "%EventDef PajeDefineStateType 1" ∷
        codes "% Alias string" ∷ codes "% Type string" ∷ codes "% Name string" ∷ codes "%EndEventDef" ∷
        codes "%EventDef PajeCreateContainer 2" ∷ codes "% Time date" ∷ codes "% Alias string" ∷
        codes "% Type string" ∷ codes "% Container string" ∷ codes "% Name string" ∷ codes "%EndEventDef" ∷
        codes "%EventDef PajeDestroyContainer 3" ∷ codes "% Time date" ∷ codes "% Type string" ∷
        codes "% Name string" ∷ codes "%EndEventDef" ∷ codes "%EventDef PajePushState 4" ∷
        codes "% Time date" ∷ codes "% Type string" ∷ codes "% Container string" ∷ codes "% Value string" ∷
        codes "%EndEventDef" ∷ codes "%EventDef PajePopState 5" ∷ codes "% Time date" ∷
        codes "% Type string" ∷ codes "% Container string" ∷ codes "%EndEventDef" ∷ [])
        ≡ record {
          begun = None;
          fault = None;
          complete = defined 0 1 EventName.DefineContainerType (field_as FieldName.Alias FieldType.String
              ∷ field_as FieldName.Type FieldType.String ∷ field_as FieldName.Name FieldType.String ∷ [])
              ∷ defined 1 6 EventName.DefineStateType (field_as FieldName.Alias FieldType.String
              ∷ field_as FieldName.Type FieldType.String ∷ field_as FieldName.Name FieldType.String ∷ [])
              ∷ defined 2 11 EventName.CreateContainer (field_as FieldName.Time FieldType.Date
              ∷ field_as FieldName.Alias FieldType.String ∷ field_as FieldName.Type FieldType.String
              ∷ field_as FieldName.Container FieldType.String ∷ field_as FieldName.Name FieldType.String ∷ [])
              ∷ defined 3 18 EventName.DestroyContainer (field_as FieldName.Time FieldType.Date
              ∷ field_as FieldName.Type FieldType.String ∷ field_as FieldName.Name FieldType.String ∷ [])
              ∷ defined 4 23 EventName.PushState (field_as FieldName.Time FieldType.Date
              ∷ field_as FieldName.Type FieldType.String ∷ field_as FieldName.Container FieldType.String
              ∷ field_as FieldName.Value FieldType.String ∷ [])
              ∷ defined 5 29 EventName.PopState (field_as FieldName.Time FieldType.Date
              ∷ field_as FieldName.Type FieldType.String ∷ field_as FieldName.Container FieldType.String ∷ [])
              ∷ [];
        } }
{}

/// The first missing role of each event without fields, with some fields, and with the other names of fields.
pub fn missing_examples()
    ensures none { map (λ e. missing e []) all_events ≡
        Some Role.Kind ∷ Some Role.Kind ∷ Some Role.Kind ∷ Some Role.Kind ∷ Some Role.Kind ∷
        Some Role.Kind ∷ Some Role.Time ∷ Some Role.Time ∷ Some Role.Time ∷ Some Role.Time ∷
        Some Role.Time ∷ Some Role.Time ∷ Some Role.Time ∷ Some Role.Time ∷ Some Role.Time ∷
        Some Role.Time ∷ Some Role.Time ∷ Some Role.Time ∷ [] }
    ensures typed { map (λ e. missing e (field_as FieldName.Time FieldType.Date
        ∷ field_as FieldName.Type FieldType.String ∷ [])) all_events ≡
        Some Role.Name ∷ Some Role.Name ∷ Some Role.Name ∷ Some Role.Name ∷ Some Role.FromKind ∷
        Some Role.Name ∷ Some Role.Holder ∷ Some Role.Name ∷ Some Role.Holder ∷ Some Role.Holder ∷
        Some Role.Holder ∷ Some Role.Holder ∷ Some Role.From ∷ Some Role.To ∷ None ∷
        None ∷ None ∷ None ∷ [] }
    ensures placed { map (λ e. missing e (field_as FieldName.Time FieldType.Date
        ∷ field_as FieldName.Type FieldType.String ∷ field_as FieldName.Container FieldType.String
        ∷ field_as FieldName.StartContainerType FieldType.String
        ∷ field_as FieldName.StartContainer FieldType.String
        ∷ field_as FieldName.EndContainer FieldType.String ∷ [])) all_events ≡
        Some Role.Name ∷ Some Role.Name ∷ Some Role.Name ∷ Some Role.Name ∷ Some Role.ToKind ∷
        Some Role.Name ∷ Some Role.Name ∷ None ∷ Some Role.Value ∷ Some Role.Value ∷
        None ∷ None ∷ Some Role.Key ∷ Some Role.Key ∷ None ∷
        None ∷ None ∷ None ∷ [] }
    ensures untimed { map (λ e. missing e (field_as FieldName.Type FieldType.String
        ∷ field_as FieldName.Container FieldType.String ∷ field_as FieldName.Name FieldType.String
        ∷ field_as FieldName.Value FieldType.String ∷ field_as FieldName.Key FieldType.String
        ∷ field_as FieldName.StartContainer FieldType.String
        ∷ field_as FieldName.EndContainer FieldType.String ∷ [])) all_events ≡
        None ∷ None ∷ None ∷ None ∷ Some Role.FromKind ∷
        None ∷ Some Role.Time ∷ Some Role.Time ∷ Some Role.Time ∷ Some Role.Time ∷
        Some Role.Time ∷ Some Role.Time ∷ Some Role.Time ∷ Some Role.Time ∷ Some Role.Time ∷
        Some Role.Time ∷ Some Role.Time ∷ Some Role.Time ∷ [] }
    ensures by_container_type { map (λ e. missing e (field_as FieldName.Time FieldType.Date
        ∷ field_as FieldName.ContainerType FieldType.String ∷ field_as FieldName.Name FieldType.String
        ∷ field_as FieldName.Container FieldType.String ∷ field_as FieldName.Value FieldType.String
        ∷ field_as FieldName.Key FieldType.String ∷ [])) all_events ≡
        None ∷ None ∷ None ∷ None ∷ Some Role.FromKind ∷
        Some Role.Kind ∷ Some Role.Kind ∷ None ∷ Some Role.Kind ∷ Some Role.Kind ∷
        Some Role.Kind ∷ Some Role.Kind ∷ Some Role.Kind ∷ Some Role.Kind ∷ None ∷
        None ∷ None ∷ None ∷ [] }
    ensures by_second_names { map (λ e. missing e (field_as FieldName.Time FieldType.Date
        ∷ field_as FieldName.Type FieldType.String ∷ field_as FieldName.Name FieldType.String
        ∷ field_as FieldName.Key FieldType.String ∷ field_as FieldName.SourceContainerType FieldType.String
        ∷ field_as FieldName.DestContainerType FieldType.String
        ∷ field_as FieldName.SourceContainer FieldType.String
        ∷ field_as FieldName.DestContainer FieldType.String ∷ [])) all_events ≡
        None ∷ None ∷ None ∷ None ∷ None ∷
        None ∷ Some Role.Holder ∷ None ∷ Some Role.Holder ∷ Some Role.Holder ∷
        Some Role.Holder ∷ Some Role.Holder ∷ None ∷ None ∷ None ∷
        None ∷ None ∷ None ∷ [] }
    ensures some { missing EventName.DefineLinkType (field_as FieldName.ContainerType FieldType.String
        ∷ field_as FieldName.SourceContainerType FieldType.String ∷ field_as FieldName.Name FieldType.String
        ∷ []) ≡ Some Role.ToKind }
    ensures container { missing EventName.DestroyContainer (field_as FieldName.Time FieldType.Date
        ∷ field_as FieldName.Container FieldType.String ∷ []) ≡ None }
    ensures value { missing EventName.PushState (field_as FieldName.Time FieldType.Date
        ∷ field_as FieldName.Type FieldType.String ∷ field_as FieldName.Container FieldType.String ∷ []) ≡
        Some Role.Value }
{}

/// Which field has a role.
pub fn place_examples()
    ensures doubled { place_of EventName.PopState (field_as FieldName.Time FieldType.Date
        ∷ field_as FieldName.Type FieldType.String ∷ field_as FieldName.Time FieldType.Date ∷ []) Role.Time ≡
        Some 0 }
    ensures preferred { place_of EventName.StartLink (field_as FieldName.SourceContainer FieldType.String
        ∷ field_as FieldName.StartContainer FieldType.String ∷ []) Role.From ≡ Some 1 }
    ensures preferred_to { place_of EventName.EndLink (field_as FieldName.DestContainer FieldType.String
        ∷ field_as FieldName.EndContainer FieldType.String ∷ []) Role.To ≡ Some 1 }
    ensures preferred_from_kind { place_of EventName.DefineLinkType
        (field_as FieldName.SourceContainerType FieldType.String
        ∷ field_as FieldName.StartContainerType FieldType.String ∷ []) Role.FromKind ≡ Some 1 }
    ensures preferred_to_kind { place_of EventName.DefineLinkType
        (field_as FieldName.DestContainerType FieldType.String
        ∷ field_as FieldName.EndContainerType FieldType.String ∷ []) Role.ToKind ≡ Some 1 }
    ensures preferred_kind { place_of EventName.DefineStateType
        (field_as FieldName.ContainerType FieldType.String ∷ field_as FieldName.Type FieldType.String ∷ [])
        Role.Kind ≡ Some 1 }
    ensures container_type { place_of EventName.DefineStateType (field_as FieldName.Name FieldType.String
        ∷ field_as FieldName.ContainerType FieldType.String ∷ []) Role.Kind ≡ Some 1 }
    ensures no_container_type { place_of EventName.PushState
        (field_as FieldName.ContainerType FieldType.String ∷ []) Role.Kind ≡ None }
    ensures unnamed { place_of EventName.DestroyContainer (field_as FieldName.Time FieldType.Date
        ∷ field_as FieldName.Container FieldType.String ∷ []) Role.Name ≡ Some 1 }
    ensures named { place_of EventName.DestroyContainer (field_as FieldName.Container FieldType.String
        ∷ field_as FieldName.Name FieldType.String ∷ []) Role.Name ≡ Some 1 }
    ensures additional { place_of EventName.PopState (field_as FieldName.Other FieldType.Hex
        ∷ field_as FieldName.Container FieldType.String ∷ []) Role.Holder ≡ Some 1 }
{}

/// Lines that are refused, and some that aren't.
pub fn refusal_examples()
    ensures { map (λ lines. (definitions_in lines).fault) ((codes "%" ∷ [])
        ∷ (codes "% Time" ∷ [])
        ∷ (codes "% Time date" ∷ [])
        ∷ (codes "%EventDef PajePopState" ∷ [])
        ∷ (codes "%EventDef PajePopState x" ∷ [])
        ∷ (codes "%EventDef PajePopState 12345678901" ∷ [])
        ∷ (codes "%EventDef PajePopState 4294967296" ∷ [])
        ∷ (codes "%EventDef PajePopState 4294967295" ∷ [])
        ∷ (codes "%EventDef PajePopState 1" ∷ codes "%EventDef Paje 2" ∷ [])
        ∷ (codes "%EventDef PajeStrange 1" ∷ [])
        ∷ (codes "%EventDef PajeNewEvent 1" ∷ codes "% Time date" ∷ codes "%EndEventDef"
        ∷ codes "%EventDef PajePopState 1" ∷ [])
        ∷ (codes "%EventDef PajePopState 1" ∷ codes "% Time" ∷ codes "%EndEventDef" ∷ [])
        ∷ (codes "%EventDef PajePopState 1" ∷ codes "% Time time" ∷ [])
        ∷ (codes "%EndEventDef" ∷ [])
        ∷ (codes "%EventDef PajePopState 1" ∷ codes "% Time string" ∷ codes "% Type string"
        ∷ codes "%EndEventDef" ∷ []) ∷ [])
        ≡ Some DefFault.Shape ∷ Some DefFault.Shape ∷ Some DefFault.Shape ∷ Some DefFault.Shape ∷
        Some DefFault.Shape ∷ Some DefFault.Shape ∷ Some DefFault.Shape ∷ None ∷ Some DefFault.Nested ∷
        Some DefFault.UnknownName ∷ (Some (DefFault.DoubleNumber 1)) ∷ Some DefFault.Shape ∷
        Some DefFault.UnknownType ∷ Some DefFault.Shape ∷ (Some (DefFault.MissingField Role.Holder)) ∷ [] }
{}

/// Which refusal comes first, and which line a doubled number tells.
pub fn order_examples()
    ensures second_line { (definitions_in (codes "%EventDef PajeNewEvent 1" ∷ codes "% Time date"
        ∷ codes "%EndEventDef" ∷ codes "%EventDef PajeNewEvent 2" ∷ codes "% Time date" ∷ codes "%EndEventDef"
        ∷ codes "%EventDef PajePopState 2" ∷ [])).fault ≡ Some (DefFault.DoubleNumber 4) }
    ensures shape_before_nested { (definitions_in (codes "%EventDef PajePopState 1"
        ∷ codes "%EventDef PajePopState x" ∷ [])).fault ≡
        Some DefFault.Shape }
    ensures shape_before_name { (definitions_in (codes "%EventDef PajeStrange x" ∷ [])).fault ≡ Some
        DefFault.Shape }
    ensures nested_before_number { (definitions_in (codes "%EventDef PajeNewEvent 1" ∷ codes "% Time date"
        ∷ codes "%EndEventDef" ∷ codes "%EventDef PajeNewEvent 2" ∷ codes "%EventDef PajeNewEvent 1"
        ∷ [])).fault ≡ Some DefFault.Nested }
    ensures name_before_number { (definitions_in (codes "%EventDef PajeNewEvent 1" ∷ codes "% Time date"
        ∷ codes "%EndEventDef" ∷ codes "%EventDef PajeStrange 1" ∷ [])).fault ≡ Some DefFault.UnknownName }
    ensures outside_before_type { (definitions_in (codes "% Time time" ∷ [])).fault ≡ Some DefFault.Shape }
    ensures first_missing { (definitions_in (codes "%EventDef PajePushState 1" ∷ codes "% Value string"
        ∷ codes "%EndEventDef" ∷ [])).fault ≡ Some (DefFault.MissingField Role.Time) }
{}

/// Which line is refused first, and that the lines behind it add nothing.
pub fn first_refused_examples()
    ensures none { refused_line event_definitions ≡ None }
    ensures first { refused_line (codes "%EventDef PajeNewEvent 1" ∷ codes "% Time strange"
        ∷ codes "%EventDef PajeStrange 2" ∷ []) ≡ Some 2 }
    ensures behind { definitions_in (codes "%EventDef PajeNewEvent 1" ∷ codes "% Time date"
        ∷ codes "%EndEventDef" ∷ codes "%" ∷ codes "%EventDef PajeNewEvent 2" ∷ codes "% Time date"
        ∷ codes "%EndEventDef" ∷ []) ≡ record {
          complete = defined 1 1 EventName.NewEvent (field_as FieldName.Time FieldType.Date ∷ []) ∷ [];
          begun = None;
          fault = Some DefFault.Shape;
        } }
    ensures inside { definitions_in (codes "%EventDef PajeNewEvent 1" ∷ codes "% Time strange"
        ∷ codes "%EndEventDef" ∷ []) ≡ record {
          complete = [];
          begun =
              Some (record {
                number = 1;
                definition = record {
                  line = 1;
                  event = EventName.NewEvent;
                  fields = [];
                };
              });
          fault = Some DefFault.UnknownType;
        } }
{}

/// A definition that is begun and not ended, and tokens that are dropped.
pub fn begun_examples()
    ensures begun { definitions_in (codes "%EventDef PajePopState 5" ∷ codes "% Time date"
        ∷ codes "% Weight color" ∷ []) ≡ record {
          complete = [];
          begun =
              Some (record {
                number = 5;
                definition = record {
                  line = 1;
                  event = EventName.PopState;
                  fields = field_as FieldName.Time FieldType.Date ∷ field_as FieldName.Other FieldType.Color
                      ∷ [];
                };
              });
          fault = None;
        } }
    ensures ended { definitions_in (codes "%EventDef PajeNewEvent 5 more" ∷ codes "% Time date more"
        ∷ codes "%EndEventDef more" ∷ []) ≡ record {
          complete = defined 5 1 EventName.NewEvent (field_as FieldName.Time FieldType.Date ∷ []) ∷ [];
          begun = None;
          fault = None;
        } }
    ensures unusable { told_of (codes "%EventDef PajeNewEvent 5" ∷ codes "% Time date" ∷ []) [] (codes "5 1")
        ≡ Err EventFault.UnknownNumber }
{}

/// Event lines under a few definitions.
pub fn event_examples()
    ensures link { told_of event_definitions (Role.Time ∷ Role.Kind ∷ Role.From ∷ Role.Key ∷ Role.Value ∷ [])
        (codes "7 1 ff K a b k +50") ≡ Ok (
          1000000000,
          50,
          Some (codes "1") ∷ Some (codes "K")
              ∷ Some (codes "b") ∷ Some (codes "k") ∷ None ∷ [],
        ) }
    ensures other_order { told_of event_definitions (Role.Size ∷ Role.Key ∷ []) (codes "8 k K 50 a .5") ≡ Ok
        (500000000, 0, Some (codes "50") ∷ Some (codes "k") ∷ []) }
    ensures destroyed { told_of event_definitions (Role.Name ∷ Role.Holder ∷ []) (codes "9 c 2 n more") ≡ Ok
        (2000000000, 0, Some (codes "n") ∷ Some (codes "c") ∷ []) }
    ensures unnamed { told_of event_definitions (Role.Name ∷ Role.Holder ∷ []) (codes "10 c 2") ≡ Ok
        (2000000000, 0, Some (codes "c") ∷ Some (codes "c") ∷ []) }
    ensures timeless { told_of event_definitions (Role.Kind ∷ Role.Name ∷ Role.Time ∷ Role.Alias ∷ [])
        (codes "11 n T") ≡ Ok (0, 0, Some (codes "T") ∷ Some (codes "n") ∷ None ∷ None ∷ []) }
    ensures below { told_of event_definitions [] (codes "7 1 ff K a b k -50") ≡ Ok (1000000000, 0, []) }
    ensures empty { told_of event_definitions [] [] ≡ Err EventFault.NoNumber }
    ensures no_number { told_of event_definitions [] (codes "x") ≡ Err EventFault.NoNumber }
    ensures long_number { told_of event_definitions [] (codes "12345678901 1") ≡ Err EventFault.NoNumber }
    ensures unknown { told_of event_definitions [] (codes "6 1") ≡ Err EventFault.UnknownNumber }
    ensures too_few { told_of event_definitions [] (codes "9 c 2") ≡ Err EventFault.TooFew }
    ensures too_few_first { told_of event_definitions [] (codes "7 x") ≡ Err EventFault.TooFew }
    ensures big { told_of event_definitions [] (codes "9 c 5e9 n") ≡ Err (EventFault.Date DateFault.Big) }
    ensures negative { told_of event_definitions [] (codes "9 c -2 n") ≡ Err
        (EventFault.Date DateFault.Negative) }
    ensures shape { told_of event_definitions [] (codes "7 x ff K a b k 1") ≡ Err
        (EventFault.Date DateFault.Shape) }
{}

/// Sizes and numbers.
pub fn number_examples()
    ensures sizes { map size_of (codes "7" ∷ codes "+7" ∷ codes "-7" ∷ [] ∷ codes "+"
        ∷ codes "9223372036854775807"
        ∷ codes "9223372036854775808" ∷ codes "00000000000000000001" ∷ codes "0000000000000000001"
        ∷ codes "1e3" ∷ [])
        ≡ 7 ∷ 7 ∷ 0 ∷ 0 ∷ 0 ∷ 9223372036854775807 ∷ 0 ∷ 0 ∷ 1 ∷ 0 ∷ [] }
    ensures numbers { map event_number_of (codes "0" ∷ codes "4294967295" ∷ codes "0000000001" ∷ codes "+1"
        ∷ [] ∷ [])
        ≡ Some 0 ∷ Some 4294967295 ∷ Some 1 ∷ None ∷ None ∷ [] }
{}
