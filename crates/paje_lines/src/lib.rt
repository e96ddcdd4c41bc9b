//! What the event lines of a trace mean: what they declare, why one is refused by the lines before it, what
//! it does, and the trace that they say.
#![tactic(auto)]

mod effect;
mod examples;
mod model_fault;
mod reason_examples;
mod type_sort;
mod what;

pub use effect::Effect;
pub use examples::{
    found_examples, link_type_example, message_example, open_call_example, refused_examples,
    stack_example, track_example, two_calls_example, value_examples,
};
pub use model_fault::ModelFault;
pub use reason_examples::{
    container_reasons, event_reasons, limit_reasons, met_reasons, open_examples, type_reasons,
};
pub use type_sort::TypeSort;
pub use what::What;
