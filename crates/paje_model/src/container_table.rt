//! The containers of a trace, found by alias or name.
ghost use Rattle.std.specs.Prelude.{◌≡◌, ◌<◌, ◌^◌, [], ◌∷◌, ◌++◌, length, find, slice_get, None, OnOk, IfOk};
ghost use Rattle.std.specs.Prelude.{Some};
ghost use Rattle.std.specs.Prelude.{map};
ghost use Rattle.std.specs.Option.{option_map, option_copied};
ghost use Rattle.paje_lines.specs.Found.{has_alias, entity_place, rooted};

use crate::entity_table::EntityTable;
use crate::type_table::rooted;
use std::alloc::Global;
use trace_base::{Container, Memory, Name, Seq};

/// On which line and when (nanoseconds) a container was destroyed.
#[derive(Clone, Copy, Debug, PartialEq, Eq)]
pub struct Destruction {
    pub line: u32,
    pub time: u64,
}

/// A container: its name, when it was created, the greatest of that and the last times of its tracks
/// (nanoseconds), its destruction, and the places of its tracks.
#[derive(Debug, Drop)]
pub struct Existing {
    pub name: Name,
    pub start: u64,
    pub latest: u64,
    pub destruction: Option<Destruction>,
    pub tracks: Seq<u32>,
}

/// The containers, in order; the root comes first.
#[derive(Drop)]
pub struct ContainerTable {
    alloc: Global,
    entities: EntityTable,
    list: Vec<Existing>,
}

impl ContainerTable {
    ghost use Rattle.paje_model.specs.EntityTable.{IsNamed, entities_in};
    ghost use Rattle.paje_model.specs.ContainerTable.{IsRootContainer, TakesContainer, ChangesContainer};
    ghost use Rattle.paje_model.specs.ContainerTable.{destroyed_by, touched_at, with_track};
    ghost use Rattle.paje_model.specs.Finished.{lasting_until};

    /// The root alone.
    pub fn new(alloc: Global) -> Result<ContainerTable, Memory>
        ensures { IfOk result IsRootContainer }
    {
        let mut table = ContainerTable {
            alloc,
            entities: EntityTable::new(alloc),
            list: Vec::new(alloc),
        };
        table.add(b"0", b"0", 0, 0)?;
        Ok(table)
    }

    /// The place of the container that a text finds, counted from 0, which is the root.
    pub fn place(&self, text: &[u8]) -> Option<usize>
        requires { IsNamed self.now.entities }
        ensures { result ≡ entity_place (entities_in self.now.entities) (rooted text.now) }
    {
        self.entities.place(rooted(text))
    }

    /// The line of the container that has the alias.
    pub fn line(&self, alias: &[u8]) -> Option<u32>
        ensures { result ≡ option_map (λ e. e.line) (find (has_alias (rooted alias.now))
            (entities_in self.now.entities)) }
    {
        self.entities.line(rooted(alias))
    }

    /// How many containers there are, the root among them.
    pub fn len(&self) -> usize
        ensures { result ≡ length self.now.list.items }
    {
        self.list.len()
    }

    /// The container at a place, counted from 0.
    pub fn get(&self, place: usize) -> Option<&Existing>
        ensures { option_copied result ≡ slice_get self.now.list.items place }
    {
        self.list.get(place)
    }

    /// The container at a place, counted from 0, where there is one.
    pub fn at(&self, place: usize) -> &Existing
        requires { place < length self.now.list.items }
        ensures { slice_get self.now.list.items place ≡ Some result.now }
    {
        &self.list[place]
    }

    /// Adds a container behind the others. After `Memory` the table may only be dropped.
    pub fn add(&mut self, alias: &[u8], name: &[u8], line: u32, start: u64) -> Result<(), Memory>
        requires named { IsNamed self.old.entities }
        requires new { find (has_alias (rooted alias.now)) (entities_in self.old.entities) ≡ None }
        requires room { length (entities_in self.old.entities) < 2 ^ 32 }
        ensures { OnOk result (TakesContainer self.old self.new
            (record { alias = rooted alias.now; name = name.now; line = line }) start) }
    {
        let existing = Existing {
            name: Name::from_bytes(self.alloc, name)?,
            start,
            latest: start,
            destruction: None,
            tracks: Seq::new(self.alloc),
        };
        self.list.push(existing)?;
        self.entities.add(rooted(alias), name, line)
    }

    /// Notes the end of the container at a place, and the line that told it.
    pub fn destroy(&mut self, place: usize, line: u32, time: u64)
        requires { place < length self.old.list.items }
        ensures { ChangesContainer self.old self.new place (destroyed_by line time) }
    {
        self.list[place].destruction = Some(Destruction { line, time });
    }

    /// Notes the time of an event on a track of the container at a place.
    pub fn touch(&mut self, place: usize, time: u64)
        requires { place < length self.old.list.items }
        ensures { ChangesContainer self.old self.new place (touched_at time) }
    {
        self.list[place].latest = self.list[place].latest.max(time);
    }

    /// Adds the place of a track to those of the container at a place. After `Memory` the table may only be
    /// dropped.
    pub fn add_track(&mut self, place: usize, track: u32) -> Result<(), Memory>
        requires { place < length self.old.list.items }
        ensures { OnOk result (ChangesContainer self.old self.new place (with_track track)) }
    {
        self.list[place].tracks.push(track)
    }

    /// The containers, in order. One that wasn't destroyed ends at this time (nanoseconds).
    pub fn into_containers(self, end: u64) -> Result<Seq<Container>, Memory>
        ensures { IfOk result (λ containers. containers ≡ map (lasting_until end) self.list.items) }
    {
        let ContainerTable { alloc, list, .. } = self;
        let containers: Vec<Container> = list
            .into_iter()
            .map(|existing| existing.finish(end))
            .collect(alloc)?;
        Ok(Seq::from_vec(containers))
    }
}

impl Existing {
    ghost use Rattle.paje_model.specs.Finished.{lasting_until};

    /// The container, which ends at this time (nanoseconds) if it wasn't destroyed.
    fn finish(self, end: u64) -> Container
        ensures { result ≡ lasting_until end self }
    {
        let Existing {
            name,
            start,
            destruction,
            ..
        } = self;
        Container {
            name,
            start,
            end: destruction.map_or(end, |destruction| destruction.time),
        }
    }
}
