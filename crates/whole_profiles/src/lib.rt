//! The profiles of a whole tree, which a memo keeps under the number of its node: of which kinds they are, and
//! what each has. No profile is computed here.
#![tactic(auto)]

mod entry;
mod examples;
mod memo_kind;

pub use entry::Entry;
pub use examples::{
    whole_profile_of_a_leaf, whole_profiles_of_a_recursion, whole_profiles_to_the_end,
};
pub use memo_kind::MemoKind;
