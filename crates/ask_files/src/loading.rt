//! The loads of the files of a request.

ghost use Rattle.std.specs.Prelude.{◌≡◌, ◌++◌, List, map};
ghost use Rattle.base_files.specs.Loads.{LoadedFile};
ghost use Rattle.ask_files.specs.Loads.{LoadsEnd, LoadsNext};
ghost use Rattle.ask_files.specs.Named.{name_of};

use crate::files::{NamedFile, most_bytes};
use base_files::{LoadFault, Shelf, newest_bytes};
use std::alloc::AllocError;

// Loads one file, and says whether it was read.
fn load_next<S: Shelf>(shelf: &mut S, file: NamedFile) -> Result<bool, AllocError>
    ensures kept { S.files shelf.new ≡ S.files shelf.old }
    ensures next { LoadsNext (S.files shelf.old) (name_of file.entry) (S.loads shelf.old) (S.loads shelf.new) (S.faults shelf.old)
        (S.faults shelf.new) (S.last_failed shelf.new) result }
{
    let most = most_bytes(file.which);
    // One byte more than a file may have shows that it is too long.
    match shelf.load(file.name, most + 1) {
        Ok(()) => Ok(newest_bytes(shelf.loaded()).len() <= most),
        Err(LoadFault::Failed) => Ok(false),
        Err(LoadFault::NoMemory) => Err(AllocError),
    }
}

/// Loads these files in their order, each once, up to the first that isn't read: one whose load fails, or one that is too long.
///
/// # Errors
///
/// There was no memory.
pub fn load_files<S: Shelf>(shelf: &mut S, files: &[NamedFile]) -> Result<(), AllocError>
    ensures kept { S.files shelf.new ≡ S.files shelf.old }
    ensures loads { (made : List LoadedFile) × (S.loads shelf.new ≡ S.loads shelf.old ++ made)
        × LoadsEnd (S.files shelf.old) (map name_of files.now) made (S.faults shelf.old) (S.faults shelf.new) (S.last_failed shelf.new)
        result }
{
    let mut number = 0;
    while number < files.len() {
        if !load_next(shelf, files[number])? {
            return Ok(());
        }
        number += 1;
    }
    Ok(())
}
