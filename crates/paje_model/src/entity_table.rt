//! What was declared with an alias and a name, found by its texts.
ghost use Rattle.std.specs.Prelude.{◌≡◌, ℕ, ◌<◌, ◌^◌, List, [], ◌∷◌, ◌++◌, length, find, Some, None, OnOk};
ghost use Rattle.std.specs.Prelude.{option_map, option_copied, slice_get, if◌then◌else◌};
ghost use Rattle.std.specs.Option.{option_or};
ghost use Rattle.std.specs.Str.{bytes_eq};
ghost use Rattle.paje_model.specs.Noted.{place_noted};

use indexmap::IndexMap;
use std::alloc::Global;
use trace_base::{Memory, Name};

/// The name of what was declared, and the line that did so.
#[derive(Debug, Drop)]
pub struct Declaration {
    pub name: Name,
    pub line: u32,
}

/// What was declared, in order. Aliases differ.
#[derive(Drop)]
pub struct EntityTable {
    alloc: Global,
    by_alias: IndexMap<Vec<u8>, Declaration>,
    /// The place of the first of each name.
    by_name: IndexMap<Vec<u8>, u32>,
}

/// Notes the place of a name, if none has it yet.
fn note(
    alloc: Global,
    places: &mut IndexMap<Vec<u8>, u32>,
    name: &[u8],
    place: u32,
) -> Result<(), Memory>
    ensures { OnOk result ((text : List ℕ) → place_noted places.new text
        ≡ option_or (place_noted places.old text) (if bytes_eq text name.now then Some place else None)) }
{
    match places.get(name) {
        Some(_) => Ok(()),
        None => {
            let name = Vec::from_slice(alloc, name)?;
            places.insert(name, place)?;
            Ok(())
        }
    }
}

impl EntityTable {
    ghost use Rattle.paje_lines.specs.Found.{has_alias, entity_place};
    ghost use Rattle.paje_lines.specs.Values.{text_among};
    ghost use Rattle.paje_model.specs.EntityTable.{IsNamed, entities_in};

    /// Nothing is declared. It takes no memory.
    pub fn new(alloc: Global) -> EntityTable
        ensures empty { entities_in result ≡ [] }
        ensures named { IsNamed result }
    {
        EntityTable {
            alloc,
            by_alias: IndexMap::new(alloc),
            by_name: IndexMap::new(alloc),
        }
    }

    /// How many entities there are.
    pub fn len(&self) -> usize
        ensures { result ≡ length (entities_in self.now) }
    {
        self.by_alias.len()
    }

    /// The place of the entity of an alias, else of the first of a name; counted from 0.
    pub fn place(&self, text: &[u8]) -> Option<usize>
        requires { IsNamed self.now }
        ensures { result ≡ entity_place (entities_in self.now) text.now }
    {
        match self.by_alias.get_index_of(text) {
            Some(place) => Some(place),
            None => match self.by_name.get(text) {
                Some(place) => Some(*place as usize),
                None => None,
            },
        }
    }

    /// The line of the entity that has the alias.
    pub fn line(&self, alias: &[u8]) -> Option<u32>
        ensures { result ≡ option_map (λ e. e.line) (find (has_alias alias.now) (entities_in self.now)) }
    {
        match self.by_alias.get(alias) {
            Some(declaration) => Some(declaration.line),
            None => None,
        }
    }

    /// The name of the entity at a place, counted from 0.
    pub fn name(&self, place: usize) -> Option<&[u8]>
        ensures { option_copied result ≡ option_map (λ e. e.name) (slice_get (entities_in self.now) place) }
    {
        match self.by_alias.get_index(place) {
            Some((_, declaration)) => Some(declaration.name.as_bytes()),
            None => None,
        }
    }

    /// The name of the entity that a text finds, else the text itself.
    pub fn text<'a>(&'a self, text: &'a [u8]) -> &'a [u8]
        requires { IsNamed self.now }
        ensures { result.now ≡ text_among (entities_in self.now) text.now }
    {
        // Most traces declare no values; then the text isn't hashed.
        if self.by_alias.is_empty() {
            return text;
        }
        match self.place(text) {
            Some(place) => match self.name(place) {
                Some(name) => name,
                None => text,
            },
            None => text,
        }
    }

    /// Adds an entity behind the others. After `Memory` the table may only be dropped.
    pub fn add(&mut self, alias: &[u8], name: &[u8], line: u32) -> Result<(), Memory>
        requires named { IsNamed self.old }
        requires new { find (has_alias alias.now) (entities_in self.old) ≡ None }
        requires room { length (entities_in self.old) < 2 ^ 32 }
        ensures entities { OnOk result (entities_in self.new ≡ entities_in self.old
            ++ record { alias = alias.now; name = name.now; line = line } ∷ []) }
        ensures named { OnOk result (IsNamed self.new) }
    {
        let place = self.by_alias.len() as u32;
        note(self.alloc, &mut self.by_name, name, place)?;
        let alias = Vec::from_slice(self.alloc, alias)?;
        let name = Name::from_bytes(self.alloc, name)?;
        self.by_alias.insert(alias, Declaration { name, line })?;
        Ok(())
    }
}
