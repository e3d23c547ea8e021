//! What a shelf keeps of its loads.

ghost use Rattle.std.specs.Prelude.{◌≡◌, [], IfOk};
ghost use Rattle.base_files.specs.Loads.{LogsLoad, loaded_files, newest_bytes};

use std::alloc::{AllocError, Global};
use std::marker::Model;

/// A file that was loaded: its name, and the bytes that the load gave.
#[derive(Drop)]
pub struct Load {
    pub name: String,
    pub bytes: Vec<u8>,
}

/// The bytes of the last of these loads, and none where there is no load.
pub fn newest_bytes(loads: &[Load]) -> &[u8]
    ensures { result.now ≡ newest_bytes (loaded_files loads.now) }
{
    match loads.last() {
        Some(load) => load.bytes.as_slice(),
        None => &[],
    }
}

/// The loads that gave bytes, in their order. Contracts see the list of them.
#[derive(Drop)]
pub(crate) struct LoadLog {
    loads: Vec<Load>,
}

impl Model for LoadLog {
    ghost use Rattle.std.specs.Prelude.{List};
    ghost use Rattle.base_files.specs.Loads.{LoadedFile, loaded_files};

    ghost Value = { List LoadedFile };

    ghost view = { λ log. loaded_files log.loads.items };
}

impl LoadLog {
    pub fn new(alloc: Global) -> LoadLog
        ensures { result ≡ [] }
    {
        LoadLog {
            loads: Vec::new(alloc),
        }
    }

    /// Keeps one more load, or none where there is no memory for it.
    pub fn push(&mut self, alloc: Global, name: &str, bytes: Vec<u8>) -> Result<(), AllocError>
        ensures logged { LogsLoad self.old self.new name.now result }
        ensures newest { IfOk result (λ _. newest_bytes self.new ≡ bytes.items) }
    {
        let name = String::from_str(alloc, name)?;
        self.loads.push(Load { name, bytes })?;
        Ok(())
    }

    pub fn as_slice(&self) -> &[Load]
        ensures { loaded_files result.now ≡ self.now }
    {
        self.loads.as_slice()
    }
}
