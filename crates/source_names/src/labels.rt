//! The labels that were met.

ghost use Rattle.std.specs.Prelude.{◌≡◌, ◌∷◌, [], false, OnOk};
ghost use Rattle.std.specs.List.{list_any};
ghost use Rattle.std.specs.Str.{bytes_eq};

use indexmap::IndexMap;
use std::alloc::{AllocError, Global};
use std::marker::Model;

// Labels, no two with one text, the last one first.
#[derive(Drop)]
pub(crate) struct Labels {
    alloc: Global,
    texts: IndexMap<Vec<u8>, ()>,
}

impl Model for Labels {
    ghost use Rattle.std.specs.Prelude.{List, ℕ};
    ghost use Rattle.source_names.specs.Entries.{texts_in};

    ghost Value = { List (List ℕ) };

    ghost view = { λ l. texts_in l.texts.entries };
}

impl Labels {
    pub fn new(alloc: Global) -> Self
        ensures { result ≡ [] }
    {
        Labels {
            alloc,
            texts: IndexMap::new(alloc),
        }
    }

    pub fn contains(&self, name: &[u8]) -> bool
        ensures { result ≡ list_any (bytes_eq name.now) self.now }
    {
        self.texts.contains_key(name)
    }

    // One label more, which has not been met.
    pub fn add(&mut self, name: &[u8]) -> Result<(), AllocError>
        requires { list_any (bytes_eq name.now) self.old ≡ false }
        ensures { OnOk result (self.new ≡ name.now ∷ self.old) }
    {
        let key = Vec::from_slice(self.alloc, name)?;
        match self.texts.insert(key, ()) {
            Ok(_) => Ok(()),
            Err(_) => Err(AllocError),
        }
    }
}
