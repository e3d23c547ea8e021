//! Where files come from.

ghost use Rattle.std.specs.Prelude.{◌≡◌, ◌≤◌, IfOk, List, ℕ, Option, length};
ghost use Rattle.base_files.specs.Faults.{greatest_count};
ghost use Rattle.base_files.specs.Files.{Contents};
ghost use Rattle.base_files.specs.Loads.{HasLoadCause, IsFrontOf, LoadedFile, LogsLoad, loaded_files, newest_bytes};

use crate::load::Load;
use std::alloc::AllocError;

/// Why a file isn't loaded.
#[derive(Clone, Copy, Debug, PartialEq, Eq, Hash)]
pub enum LoadFault {
    /// The outside failed, or there is no such file. The shelf has counted it.
    Failed,
    /// There was no memory to keep the load, or none to keep the name of a failure.
    NoMemory,
}

impl From<AllocError> for LoadFault {
    ghost use Rattle.base_files.specs.declared.shelf.LoadFault.TheVariants.{NoMemory};

    ghost from_gives = { λ _ fault. fault ≡ NoMemory };

    fn from(_error: AllocError) -> LoadFault {
        LoadFault::NoMemory
    }
}

/// Named files, which are loaded and kept. A shelf says what it is by four ghost members: its files,
/// where it tells them, the loads that gave bytes, how many loads have failed, and the name of the
/// last one that did.
///
/// A failure is believed only where the count shows it: so a caller who passes `Failed` on can be
/// held to it. A count stops at 2^64 - 1.
pub trait Shelf {
    /// The content of each name, or `None` where the shelf tells nothing of its files.
    ghost files: { Self → Option Contents };

    /// The loads that gave bytes, in their order.
    ghost loads: { Self → List LoadedFile };

    /// How many loads have failed.
    ghost faults: { Self → ℕ };

    /// The name of the last load that failed, and the empty text before the first.
    ghost last_failed: { Self → List ℕ };

    /// Loads the first `most` bytes of the named file, or all of it where it is shorter, and keeps
    /// them as the last of `loaded`.
    ///
    /// Answers `Failed` where there is no such file or the outside failed. An error keeps nothing.
    fn load(&mut self, name: &str, most: usize) -> Result<(), LoadFault>
        ensures logged { LogsLoad (loads self.old) (loads self.new) name.now result }
        ensures gives { IfOk result (λ _. IsFrontOf (files self.old) name.now most (newest_bytes (loads self.new))) }
        ensures within { IfOk result (λ _. length (newest_bytes (loads self.new)) ≤ most) }
        ensures kept { files self.new ≡ files self.old }
        ensures cause { HasLoadCause (faults self.old) (faults self.new) (last_failed self.old)
            (last_failed self.new) name.now result }
        ensures never_falls { faults self.old ≤ faults self.new };

    /// What was loaded, in the order of the loads.
    fn loaded(&self) -> &[Load]
        ensures loads { loaded_files result.now ≡ loads self.now };

    /// A count is a `u64`.
    ghost bounded: { (shelf : Self) → faults shelf ≤ greatest_count };
}
