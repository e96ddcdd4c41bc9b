//! The types of a trace, found by alias or name.
ghost use Rattle.std.specs.Prelude.{◌≡◌, ◌<◌, ◌^◌, [], ◌∷◌, ◌++◌, length, find, slice_get, None, OnOk, IfOk};
ghost use Rattle.std.specs.Prelude.{is_some, if◌then◌else◌, codes};
ghost use Rattle.std.specs.Option.{option_map, option_and_then};
ghost use Rattle.paje_lines.specs.declared.type_sort.TypeSort.TheVariants.{Container};
ghost use Rattle.paje_lines.specs.Found.{has_alias, entity_place, root, rooted};
ghost use Rattle.paje_lines.specs.Types.{state_number, link_number};

use crate::entity_table::EntityTable;
use paje_lines::TypeSort;
use std::alloc::Global;
use trace_base::{Memory, Name, Seq};

/// The text under which the root is found: `/` is another way to write `0`.
pub fn rooted(text: &[u8]) -> &[u8]
    ensures { result.now ≡ rooted text.now }
{
    if text == b"/".as_slice() { b"0" } else { text }
}

fn is_state(sort: TypeSort) -> bool
    ensures { result ≡ is_some (state_number sort) }
{
    match sort {
        TypeSort::State(_) => true,
        _ => false,
    }
}

fn is_link(sort: TypeSort) -> bool
    ensures { result ≡ is_some (link_number sort) }
{
    match sort {
        TypeSort::Link(_) => true,
        _ => false,
    }
}

/// Adds a name to a list that takes it.
fn note(alloc: Global, names: &mut Vec<Name>, takes: bool, name: &[u8]) -> Result<(), Memory>
    ensures { OnOk result (names.new.items ≡ names.old.items ++ (if takes then name.now ∷ [] else [])) }
{
    if takes {
        let name = Name::from_bytes(alloc, name)?;
        names.push(name)?;
    }
    Ok(())
}

/// The types, in order; the root type, of containers, comes first. Beside them the names of the state types
/// and of the link types.
#[derive(Drop)]
pub struct TypeTable {
    alloc: Global,
    entities: EntityTable,
    sorts: Vec<TypeSort>,
    kinds: Vec<Name>,
    link_kinds: Vec<Name>,
}

impl TypeTable {
    ghost use Rattle.paje_model.specs.EntityTable.{IsNamed, entities_in};
    ghost use Rattle.paje_model.specs.TypeTable.{AreTypes, TakesType};

    /// The root type alone.
    pub fn new(alloc: Global) -> Result<TypeTable, Memory>
        ensures { IfOk result (AreTypes []) }
    {
        let mut entities = EntityTable::new(alloc);
        entities.add(b"0", b"0", 0)?;
        let mut sorts = Vec::new(alloc);
        sorts.push(TypeSort::Container)?;
        Ok(TypeTable {
            alloc,
            entities,
            sorts,
            kinds: Vec::new(alloc),
            link_kinds: Vec::new(alloc),
        })
    }

    /// The sort of the type that a text finds.
    pub fn sort(&self, text: &[u8]) -> Option<TypeSort>
        requires { IsNamed self.now.entities }
        ensures { result ≡ option_and_then (slice_get self.now.sorts.items)
            (entity_place (entities_in self.now.entities) (rooted text.now)) }
    {
        match self.entities.place(rooted(text)) {
            Some(place) => self.sorts.get(place).copied(),
            None => None,
        }
    }

    /// The line of the type that has the alias.
    pub fn line(&self, alias: &[u8]) -> Option<u32>
        ensures { result ≡ option_map (λ e. e.line) (find (has_alias (rooted alias.now))
            (entities_in self.now.entities)) }
    {
        self.entities.line(rooted(alias))
    }

    /// How many types there are, the root type among them.
    pub fn len(&self) -> usize
        ensures { result ≡ length self.now.sorts.items }
    {
        self.sorts.len()
    }

    /// How many state types there are.
    pub fn kinds(&self) -> usize
        ensures { result ≡ length self.now.kinds.items }
    {
        self.kinds.len()
    }

    /// How many link types there are.
    pub fn link_kinds(&self) -> usize
        ensures { result ≡ length self.now.link_kinds.items }
    {
        self.link_kinds.len()
    }

    /// Adds a type behind the others. After `Memory` the table may only be dropped.
    pub fn add(
        &mut self,
        alias: &[u8],
        name: &[u8],
        line: u32,
        sort: TypeSort,
    ) -> Result<(), Memory>
        requires named { IsNamed self.old.entities }
        requires new { find (has_alias (rooted alias.now)) (entities_in self.old.entities) ≡ None }
        requires room { length (entities_in self.old.entities) < 2 ^ 32 }
        ensures { OnOk result (TakesType self.old self.new
            (record { alias = rooted alias.now; name = name.now; line = line }) sort) }
    {
        note(self.alloc, &mut self.kinds, is_state(sort), name)?;
        note(self.alloc, &mut self.link_kinds, is_link(sort), name)?;
        self.sorts.push(sort)?;
        self.entities.add(rooted(alias), name, line)
    }

    /// The names of the state types and of the link types, in order. It takes no memory.
    pub fn into_kinds(self) -> (Seq<Name>, Seq<Name>)
        ensures { result ≡ (self.kinds.items, self.link_kinds.items) }
    {
        let TypeTable {
            kinds,
            link_kinds,
            ..
        } = self;
        (Seq::from_vec(kinds), Seq::from_vec(link_kinds))
    }
}
