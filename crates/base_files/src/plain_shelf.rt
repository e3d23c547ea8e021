//! Files in memory.

ghost use Rattle.std.specs.Prelude.{◌≡◌, ◌≤◌, ◌<◌, [], IfOk, None, Some, option_map, length, string_bytes, take};
ghost use Rattle.base_files.specs.Files.{content_of};
ghost use Rattle.base_files.specs.Loads.{FailsIfAbsent, HasLoadCause, IsFrontOf, LogsLoad, loaded_files, newest_bytes};

use crate::failures::Failures;
use crate::load::{Load, LoadLog};
use crate::shelf::{LoadFault, Shelf};
use std::alloc::{AllocError, Global};

/// Files in memory, whose loads fail only where there is no file of the name.
///
/// Where a name stands twice, the first counts.
#[derive(Drop)]
pub struct PlainShelf {
    alloc: Global,
    files: Vec<(String, Vec<u8>)>,
    log: LoadLog,
    failures: Failures,
    /// Once a load has failed, the last failed name has no file.
    pub ghost absent: { 0 < failures.count.value
        → content_of files.items (string_bytes failures.last) ≡ None },
}

impl PlainShelf {
    /// A shelf of these files, each a name and its content.
    pub fn new(alloc: Global, files: Vec<(String, Vec<u8>)>) -> PlainShelf
        ensures files { ⟦<PlainShelf as Shelf>⟧.files result ≡ Some (content_of files.items) }
        ensures loads { ⟦<PlainShelf as Shelf>⟧.loads result ≡ [] }
        ensures faults { ⟦<PlainShelf as Shelf>⟧.faults result ≡ 0 }
        ensures last_failed { ⟦<PlainShelf as Shelf>⟧.last_failed result ≡ [] }
    {
        PlainShelf {
            alloc,
            files,
            log: LoadLog::new(alloc),
            failures: Failures::new(alloc),
        }
    }
}

/// The content of the first file of the name.
pub(crate) fn find_file<'a>(files: &'a [(String, Vec<u8>)], name: &str) -> Option<&'a [u8]>
    ensures { option_map (λ s. s.now) result ≡ content_of files.entry.now name.now }
{
    match files.iter().find(|file| file.0.as_str() == name) {
        Some(file) => Some(file.1.as_slice()),
        None => None,
    }
}

/// A copy of the first `most` bytes.
#[tactic(auto, using(std::proofs::lemmas::List::take_min))]
pub(crate) fn copy_front(alloc: Global, bytes: &[u8], most: usize) -> Result<Vec<u8>, AllocError>
    ensures { IfOk result (λ copy. copy.items ≡ take most bytes.now) }
{
    Vec::from_slice(alloc, &bytes[..most.min(bytes.len())])
}

impl Shelf for PlainShelf {
    ghost files = { λ s. Some (content_of s.files.items) };

    ghost loads = { λ s. s.log };

    ghost faults = { λ s. s.failures.count.value };

    ghost last_failed = { λ s. string_bytes s.failures.last };

    ghost bounded = { λ s. s.failures.count.bounded };

    fn load(&mut self, name: &str, most: usize) -> Result<(), LoadFault>
        ensures logged { LogsLoad
            (⟦<PlainShelf as Shelf>⟧.loads self.old) (⟦<PlainShelf as Shelf>⟧.loads self.new) name.now result }
        ensures gives { IfOk result (λ _. IsFrontOf (⟦<PlainShelf as Shelf>⟧.files self.old) name.now most
            (newest_bytes (⟦<PlainShelf as Shelf>⟧.loads self.new))) }
        ensures within { IfOk result (λ _. length (newest_bytes (⟦<PlainShelf as Shelf>⟧.loads self.new)) ≤ most) }
        ensures kept { ⟦<PlainShelf as Shelf>⟧.files self.new ≡ ⟦<PlainShelf as Shelf>⟧.files self.old }
        ensures cause { HasLoadCause
            (⟦<PlainShelf as Shelf>⟧.faults self.old) (⟦<PlainShelf as Shelf>⟧.faults self.new)
            (⟦<PlainShelf as Shelf>⟧.last_failed self.old) (⟦<PlainShelf as Shelf>⟧.last_failed self.new)
            name.now result }
        ensures never_falls { ⟦<PlainShelf as Shelf>⟧.faults self.old
            ≤ ⟦<PlainShelf as Shelf>⟧.faults self.new }
        ensures fails { FailsIfAbsent (content_of self.old.files.items name.now) result }
    {
        match find_file(self.files.as_slice(), name) {
            Some(bytes) => {
                let front = copy_front(self.alloc, bytes, most)?;
                Ok(self.log.push(self.alloc, name, front)?)
            }
            None => Err(self.failures.record(self.alloc, name)),
        }
    }

    fn loaded(&self) -> &[Load]
        ensures loads { loaded_files result.now ≡ ⟦<PlainShelf as Shelf>⟧.loads self.now }
    {
        self.log.as_slice()
    }
}
