//! The names that were declared, with their places.

ghost use Rattle.std.specs.Prelude.{◌≡◌, ◌-◌, ◌∷◌, [], length, true, OnOk};
ghost use Rattle.std.specs.Option.{option_map};
ghost use Rattle.source_meaning.specs.Names.{declared, known, forgotten};
ghost use Rattle.source_names.specs.Entries.{thing_of, kept_of, named_of};

use crate::entry::{Entry, Kept, Thing, forget};
use indexmap::IndexMap;
use lang_tree::Name;
use std::alloc::{AllocError, Global};
use std::marker::Model;

// Names that were declared, the last one first, with the place of the last declaration of each text.
#[derive(Drop)]
pub(crate) struct Table {
    alloc: Global,
    places: IndexMap<Vec<u8>, u32>,
    list: Vec<Entry>,
}

impl Model for Table {
    ghost use Rattle.std.specs.Prelude.{List, ◌<◌, ◌^◌, length};
    ghost use Rattle.source_meaning.specs.Names.{Named};
    ghost use Rattle.source_names.specs.Entries.{names_in, HavePlaces};

    ghost Value = { List Named };

    ghost view = { λ t. names_in t.list.items };

    ghost invariant = { λ t. HavePlaces t.places.entries (names_in t.list.items) × (length t.list.items < 2 ^ 32) };
}

impl Table {
    pub fn new(alloc: Global) -> Self
        ensures { result ≡ [] }
    {
        Table {
            alloc,
            places: IndexMap::new(alloc),
            list: Vec::new(alloc),
        }
    }

    pub fn len(&self) -> usize
        ensures { result ≡ length self.now }
    {
        self.list.len()
    }

    // The last declaration of the name with this text.
    pub fn find(&self, name: &[u8]) -> Option<&Entry>
        ensures { option_map (λ e. named_of e.now) result ≡ declared name.now self.now }
    {
        let place = *self.places.get(name)?;
        self.list.get(place as usize)
    }

    // What a name is that is known.
    pub fn known(&self, name: &[u8]) -> Option<Thing<'_>>
        ensures { option_map thing_of result ≡ known name.now self.now }
    {
        match self.find(name) {
            Some(entry) if entry.is_known => Some(entry.kept.thing()),
            _ => None,
        }
    }

    // One declaration more.
    pub fn add(&mut self, name: &Name, kept: Kept) -> Result<(), AllocError>
        ensures { OnOk result (self.new ≡ (record { name = name.now; thing = kept_of kept; is_known = true }) ∷ self.old) }
    {
        if self.list.len() >= u32::MAX as usize {
            return Err(AllocError);
        }
        let key = Vec::from_slice(self.alloc, name.bytes())?;
        let place = self.list.len() as u32;
        self.list.push(Entry {
            name: name.again(),
            kept,
            is_known: true,
        })?;
        match self.places.insert(key, place) {
            Ok(_) => Ok(()),
            Err(_) => {
                self.list.pop();
                Err(AllocError)
            }
        }
    }

    // The names from this place on are known no longer.
    pub fn forget(&mut self, before: usize)
        ensures { self.new ≡ forgotten (length self.old - before) self.old }
    {
        forget(&mut self.list, before);
    }
}
