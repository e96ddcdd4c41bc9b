//! What is known of the lines of a trace so far.
ghost use Rattle.std.specs.Prelude.{[], IfOk};

use crate::container_table::ContainerTable;
use crate::function_table::FunctionTable;
use crate::track_table::TrackTable;
use crate::type_table::TypeTable;
use crate::value_table::ValueTable;
use std::alloc::Global;
use trace_base::{LinkEvent, Memory, Seq};

/// The entities that the lines declare, their tracks with the events so far, and the link events.
#[derive(Drop)]
pub struct Known {
    pub alloc: Global,
    pub types: TypeTable,
    pub containers: ContainerTable,
    pub values: ValueTable,
    pub functions: FunctionTable,
    pub tracks: TrackTable,
    pub links: Seq<LinkEvent>,
    /// How many state events there were.
    pub states: u32,
}

impl Known {
    ghost use Rattle.paje_model.specs.Known.{IsKnown};

    /// The root container and the root type; `Memory` where none was found for them.
    pub fn new(alloc: Global) -> Result<Known, Memory>
        ensures { IfOk result (IsKnown []) }
    {
        let types = TypeTable::new(alloc)?;
        let containers = ContainerTable::new(alloc)?;
        Ok(Known {
            alloc,
            types,
            containers,
            values: ValueTable::new(alloc),
            functions: FunctionTable::new(alloc),
            tracks: TrackTable::new(alloc),
            links: Seq::new(alloc),
            states: 0,
        })
    }
}
