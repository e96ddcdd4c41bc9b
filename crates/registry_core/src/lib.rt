//! The registry of a hall as a value: which traces are open or still in use, what is published of each, and
//! the places of the hall's history that are taken or promised.
#![tactic(auto)]

mod answers;
mod examples;
mod kept_trace;
mod laws;
mod registry;
mod root_laws;
mod roots;
mod same_names;
mod staying_laws;
mod traces;
mod track_root;
mod user_laws;

pub use answers::{Opened, RegAsk, RegClose, RegEnd, RegFault, RegUnpin};
pub use examples::{
    close_with_two_users, first_that_is_unknown, load_beside_a_query, loads_given_up, named_twice,
    names_compared, roots_between_gaps, roots_that_are_kept, the_last_places, told_by_places,
    told_or_lost, users_by_queries,
};
pub use laws::{
    abandoning, admitting, asking, closing, following, giving_back, listing, more_keys, publishing,
    sealing, starting, telling,
};
pub use registry::Registry;
pub use root_laws::{roots_of_closed, roots_of_loads, roots_of_questions};
pub use roots::Roots;
pub use staying_laws::{
    told_beside_closing, told_beside_loads, told_beside_queries, told_over_calls,
    told_roots_are_kept,
};
pub use track_root::TrackRoot;
pub use user_laws::{users_of_closed, users_of_loads, users_of_questions};
