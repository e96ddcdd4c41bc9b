//! The data that the trace server speaks of, its limits, the plain folds over raw events as
//! definitions (`specs/`), and the objects of the outside with their forms in memory.
#![tactic(auto)]

mod examples;
mod faults;
mod fold_examples;
mod laws;
mod legal_examples;
mod limits;
mod matrix;
mod mem_sink;
mod mem_source;
mod memory;
mod messages;
mod name;
mod names;
mod profile;
mod seq;
mod sink;
mod source;
mod stream;
mod text;

pub use faults::Faults;
pub use limits::{
    MAX_CONTAINERS, MAX_FUNCTIONS, MAX_LINK_EVENTS, MAX_OPEN_CALLS, MAX_OPEN_TRACES, MAX_PIXELS,
    MAX_PLACES, MAX_REQUEST_LINE, MAX_STATE_EVENTS, MAX_TEXT, MAX_TIME, MAX_TRACE_LINE, MAX_TRACKS,
    MAX_TYPES, MAX_VALUES,
};
pub use matrix::{Matrix, MatrixRow};
pub use mem_sink::MemSink;
pub use mem_source::MemSource;
pub use memory::Memory;
pub use messages::{LinkEvent, Message, MsgTable};
pub use name::Name;
pub use names::{Container, TraceInfo, TraceNames, Track};
pub use profile::{PathProfile, PathRow, Profile, Row};
pub use seq::Seq;
pub use sink::{Sink, WriteAnswer};
pub use source::{ReadAnswer, Source};
pub use stream::{Event, TrackStream};
pub use text::TraceText;
