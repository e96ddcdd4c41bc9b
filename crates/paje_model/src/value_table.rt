//! The declared values of the state types of a trace.
ghost use Rattle.std.specs.Prelude.{◌≡◌, ◌<◌, ◌^◌, ◌+◌, [], ◌∷◌, ◌++◌, length, find, slice_set, None, OnOk};
ghost use Rattle.std.specs.Prelude.{IfSome};
ghost use Rattle.std.specs.Option.{option_map, option_and_then, option_copied};
ghost use Rattle.paje_lines.specs.Found.{has_alias};
ghost use Rattle.paje_lines.specs.Values.{text_among};

use crate::entity_table::EntityTable;
use std::alloc::Global;
use trace_base::Memory;

/// The values of each state type, in order.
#[derive(Drop)]
pub struct ValueTable {
    alloc: Global,
    of_kinds: Vec<EntityTable>,
    /// How many values there are, over all state types.
    count: u32,
}

impl ValueTable {
    ghost use Rattle.paje_model.specs.ValueTable.{AreNamed, values_at, values_kept};

    /// No values, of no state types. It takes no memory.
    pub fn new(alloc: Global) -> ValueTable
        ensures values { values_kept result ≡ [] }
        ensures named { AreNamed result }
        ensures count { result.count ≡ 0 }
    {
        ValueTable {
            alloc,
            of_kinds: Vec::new(alloc),
            count: 0,
        }
    }

    /// One state type more, without values.
    pub fn add_kind(&mut self) -> Result<(), Memory>
        requires { AreNamed self.old }
        ensures values { OnOk result (values_kept self.new ≡ values_kept self.old ++ [] ∷ []) }
        ensures named { OnOk result (AreNamed self.new) }
        ensures count { self.new.count ≡ self.old.count }
    {
        self.of_kinds.push(EntityTable::new(self.alloc))?;
        Ok(())
    }

    /// How many values there are, over all state types.
    pub fn len(&self) -> u32
        ensures { result ≡ self.now.count }
    {
        self.count
    }

    /// The line of the value of a state type that has the alias.
    pub fn line(&self, kind: usize, alias: &[u8]) -> Option<u32>
        ensures { result ≡ option_map (λ e. e.line) (find (has_alias alias.now) (values_at self.now kind)) }
    {
        match self.of_kinds.get(kind) {
            Some(values) => values.line(alias),
            None => None,
        }
    }

    /// The name of the value of a state type that a text finds, else the text itself.
    pub fn text<'a>(&'a self, kind: usize, text: &'a [u8]) -> &'a [u8]
        requires { AreNamed self.now }
        ensures { result.now ≡ text_among (values_at self.now kind) text.now }
    {
        match self.of_kinds.get(kind) {
            Some(values) => values.text(text),
            None => text,
        }
    }

    /// Adds a value of a state type behind its others. After `Memory` the table may only be dropped.
    pub fn add(&mut self, kind: usize, alias: &[u8], name: &[u8], line: u32) -> Result<(), Memory>
        requires kind { kind < length (values_kept self.old) }
        requires named { AreNamed self.old }
        requires new { find (has_alias alias.now) (values_at self.old kind) ≡ None }
        requires room { length (values_at self.old kind) < 2 ^ 32 }
        requires count { self.old.count + 1 < 2 ^ 32 }
        ensures values { OnOk result (values_kept self.new ≡ slice_set (values_kept self.old) kind
            (values_at self.old kind ++ record { alias = alias.now; name = name.now; line = line } ∷ [])) }
        ensures named { OnOk result (AreNamed self.new) }
        ensures count { self.new.count ≡ self.old.count + 1 }
    {
        self.count += 1;
        self.of_kinds[kind].add(alias, name, line)
    }
}
