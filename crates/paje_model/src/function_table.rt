//! The functions of a trace, by their texts.
ghost use Rattle.std.specs.Prelude.{◌≡◌, ◌+◌, ◌<◌, ◌^◌, Some, None, [], ◌∷◌, ◌++◌, length, OnOk, IfOk};
ghost use Rattle.std.specs.Prelude.{position};
ghost use Rattle.std.specs.Prelude.{if◌then◌else◌};
ghost use Rattle.std.specs.Option.{option_map_or};
ghost use Rattle.std.specs.Str.{bytes_eq};

use crate::function_place::FunctionPlace;
use crate::value_table::ValueTable;
use indexmap::IndexMap;
use std::alloc::Global;
use trace_base::{Memory, Name, Seq};

/// The different texts of functions, in the order of their first use.
#[derive(Drop)]
pub struct FunctionTable {
    alloc: Global,
    texts: IndexMap<Vec<u8>, ()>,
}

impl FunctionTable {
    ghost use Rattle.paje_lines.specs.States.{function_number};
    ghost use Rattle.paje_lines.specs.Values.{text_among};
    ghost use Rattle.paje_model.specs.ValueTable.{AreNamed, values_at};
    ghost use Rattle.paje_model.specs.FunctionPlace.{function_place, text_entered, with_function};
    ghost use Rattle.paje_model.specs.FunctionTable.{functions_kept};

    /// No function. It takes no memory.
    pub fn new(alloc: Global) -> FunctionTable
        ensures { functions_kept result ≡ [] }
    {
        FunctionTable {
            alloc,
            texts: IndexMap::new(alloc),
        }
    }

    /// How many functions there are.
    pub fn len(&self) -> usize
        ensures { result ≡ length (functions_kept self.now) }
    {
        self.texts.len()
    }

    /// The place of a function, counted from 0.
    pub fn place(&self, text: &[u8]) -> Option<usize>
        ensures { result ≡ position (bytes_eq text.now) (functions_kept self.now) }
    {
        self.texts.get_index_of(text)
    }

    /// Adds a function that isn't there.
    pub fn add(&mut self, text: &[u8]) -> Result<(), Memory>
        requires { position (bytes_eq text.now) (functions_kept self.old) ≡ None }
        ensures { OnOk result (functions_kept self.new ≡ functions_kept self.old ++ text.now ∷ []) }
    {
        let text = Vec::from_slice(self.alloc, text)?;
        self.texts.insert(text, ())?;
        Ok(())
    }

    /// Where the function of a text stands, if an event enters one.
    pub fn find(&self, enters: bool, text: &[u8]) -> FunctionPlace
        ensures { result ≡ function_place (functions_kept self.now) (if enters then Some text.now else None) }
    {
        if !enters {
            return FunctionPlace::NoCall;
        }
        match self.place(text) {
            Some(place) => FunctionPlace::At(place),
            None => FunctionPlace::New,
        }
    }

    /// The number of the function that was found at this place, counted from 1; a new one, of a value of a
    /// state type, is added. It is 0 where none is entered. After `Memory` the table may only be dropped.
    pub fn number(
        &mut self,
        place: FunctionPlace,
        values: &ValueTable,
        kind: u32,
        value: &[u8],
    ) -> Result<u32, Memory>
        requires named { AreNamed values.now }
        requires found { place ≡ function_place (functions_kept self.old)
            (text_entered place (text_among (values_at values.now kind) value.now)) }
        requires room { length (functions_kept self.old) + 1 < 2 ^ 32 }
        ensures functions { OnOk result (functions_kept self.new ≡ with_function (functions_kept self.old)
            (text_entered place (text_among (values_at values.now kind) value.now))) }
        ensures number { IfOk result (λ n. n ≡ option_map_or (function_number (functions_kept self.new))
            (text_entered place (text_among (values_at values.now kind) value.now)) 0) }
    {
        match place {
            FunctionPlace::NoCall => Ok(0),
            FunctionPlace::At(place) => Ok(place as u32 + 1),
            FunctionPlace::New => {
                self.add(values.text(kind as usize, value))?;
                Ok(self.len() as u32)
            }
        }
    }

    /// The functions' names, in order.
    pub fn into_names(self) -> Result<Seq<Name>, Memory>
        ensures { IfOk result (λ names. names ≡ functions_kept self) }
    {
        let FunctionTable { alloc, texts } = self;
        let names: Vec<Name> = texts
            .into_keys()
            .map(|text| Name::from_vec(text))
            .collect(alloc)?;
        Ok(Seq::from_vec(names))
    }
}
