//! The definitions of a trace, and what its event lines mean under them.
#![tactic(auto)]

mod begun;
mod complete;
mod def_fault;
mod definition;
mod event;
mod event_fault;
mod event_name;
mod examples;
mod field;
mod field_name;
mod field_type;
mod fields;
mod numbers;
mod places;
mod role;
mod table;
mod texts;
mod words;

pub use def_fault::DefFault;
pub use event_fault::EventFault;
pub use event_name::EventName;
pub use examples::{
    begun_examples, definition_examples, event_examples, first_refused_examples, missing_examples,
    name_examples, number_examples, order_examples, place_examples, refusal_examples,
};
pub use fields::Fields;
pub use role::Role;
pub use table::DefTable;
