//! The entities of a trace behind its event lines so far, found by their texts.
#![tactic(auto)]

mod container_table;
mod create;
mod declare_type;
mod declare_value;
mod destroy;
mod drop_event;
mod entities;
mod entity_table;
mod finish;
mod finished_tracks;
mod found;
mod found_track;
mod function_place;
mod function_table;
mod known;
mod link_event;
mod new_type;
mod open_track;
mod room;
mod state_event;
mod state_met;
mod state_spot;
mod take;
mod track_table;
mod type_table;
mod value_table;

pub use entities::Entities;
