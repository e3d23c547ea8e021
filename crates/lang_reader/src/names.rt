//! Names in the order in which they are declared.

ghost use Rattle.std.specs.Prelude.{◌≡◌, ◌++◌, ◌∷◌, [], ◌<◌, ◌^◌, length, OnOk};
ghost use Rattle.lang_meaning.specs.Names.{place_of};

use indexmap::IndexMap;
use lang_tree::{Name, Names};
use std::alloc::{AllocError, Global};
use std::marker::Model;

/// Names, numbered from 0; where a name stands twice, its first place is its number.
#[derive(Drop)]
pub struct NameTable {
    alloc: Global,
    places: IndexMap<Vec<u8>, u32>,
    list: Vec<Name>,
}

impl Model for NameTable {
    ghost use Rattle.std.specs.Prelude.{◌<◌, ◌^◌, List, ℕ, length};
    ghost use Rattle.lang_reader.specs.Names.{HavePlaces};

    ghost Value = { List (List ℕ) };

    ghost view = { λ t. t.list.items };

    ghost invariant = { λ t. HavePlaces t.places.entries t.list.items × (length t.list.items < 2 ^ 32) };
}

impl NameTable {
    pub fn new(alloc: Global) -> Self
        ensures { result ≡ [] }
    {
        NameTable {
            alloc,
            places: IndexMap::new(alloc),
            list: Vec::new(alloc),
        }
    }

    pub fn len(&self) -> usize
        ensures { result ≡ length self.now }
    {
        self.list.len()
    }

    /// The number of a name.
    pub fn place(&self, name: &Name) -> Option<u32>
        ensures { result ≡ place_of name.now self.now }
    {
        self.places.get(name.bytes()).copied()
    }

    /// Puts a name at the end.
    pub fn add(&mut self, name: &Name) -> Result<(), AllocError>
        ensures { OnOk result (self.new ≡ self.old ++ name.now ∷ []) }
    {
        if self.list.len() >= u32::MAX as usize {
            return Err(AllocError);
        }
        if self.place(name).is_some() {
            self.list.push(name.again())?;
            return Ok(());
        }
        let key = Vec::from_slice(self.alloc, name.bytes())?;
        let place = self.list.len() as u32;
        self.list.push(name.again())?;
        match self.places.insert(key, place) {
            Ok(_) => Ok(()),
            Err(_) => {
                self.list.pop();
                Err(AllocError)
            }
        }
    }

    /// The names in order.
    pub fn into_names(self) -> Names
        ensures { result ≡ self }
    {
        Names::new(self.list)
    }
}
