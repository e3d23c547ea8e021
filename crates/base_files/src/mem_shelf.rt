//! Files in memory, with loads that fail as planned.

ghost use Rattle.std.specs.Prelude.{◌≡◌, ◌≤◌, ◌==◌, [], IfOk, None, Some, if◌then◌else◌, option_map, length, string_bytes};
ghost use Rattle.std.specs.List.{list_any};
ghost use Rattle.base_files.specs.Faults.{next_count};
ghost use Rattle.base_files.specs.Files.{content_of};
ghost use Rattle.base_files.specs.Loads.{FailsIfAbsent, HasLoadCause, IsFrontOf, LogsLoad, loaded_files, newest_bytes};
ghost use Rattle.base_files.specs.MemShelf.{found_by, loads_made, planned_loads};

use crate::count::Count;
use crate::failures::Failures;
use crate::load::{Load, LoadLog};
use crate::plain_shelf::{copy_front, find_file};
use crate::shelf::{LoadFault, Shelf};
use std::alloc::Global;

/// Files in memory for tests, whose loads with given numbers fail.
///
/// Where a name stands twice, the first counts.
#[derive(Drop)]
pub struct MemShelf {
    alloc: Global,
    files: Vec<(String, Vec<u8>)>,
    faults: Vec<u32>,
    made: Count,
    log: LoadLog,
    failures: Failures,
}

impl MemShelf {
    /// A shelf of these files, each a name and its content. The loads whose numbers stand in `faults`
    /// fail, the first load having the number 0.
    pub fn new(alloc: Global, files: Vec<(String, Vec<u8>)>, faults: Vec<u32>) -> MemShelf
        ensures files { ⟦<MemShelf as Shelf>⟧.files result ≡ Some (content_of files.items) }
        ensures loads { ⟦<MemShelf as Shelf>⟧.loads result ≡ [] }
        ensures faults { ⟦<MemShelf as Shelf>⟧.faults result ≡ 0 }
        ensures last_failed { ⟦<MemShelf as Shelf>⟧.last_failed result ≡ [] }
        ensures planned { planned_loads result ≡ faults.items }
        ensures made { loads_made result ≡ 0 }
    {
        MemShelf {
            alloc,
            files,
            faults,
            made: Count::new(),
            log: LoadLog::new(alloc),
            failures: Failures::new(alloc),
        }
    }
}

// Whether the load with this number is to fail.
fn is_planned(faults: &[u32], number: u64) -> bool
    ensures { result ≡ list_any (λ fault. fault == number) faults.now }
{
    faults.iter().any(|fault| *fault as u64 == number)
}

// The file, unless the load is to fail.
fn find_unless<'a>(fails: bool, files: &'a [(String, Vec<u8>)], name: &str) -> Option<&'a [u8]>
    ensures { option_map (λ s. s.now) result
        ≡ (if fails then None else content_of files.entry.now name.now) }
{
    if fails { None } else { find_file(files, name) }
}

impl Shelf for MemShelf {
    ghost files = { λ s. Some (content_of s.files.items) };

    ghost loads = { λ s. s.log };

    ghost faults = { λ s. s.failures.count.value };

    ghost last_failed = { λ s. string_bytes s.failures.last };

    ghost bounded = { λ s. s.failures.count.bounded };

    fn load(&mut self, name: &str, most: usize) -> Result<(), LoadFault>
        ensures logged { LogsLoad
            (⟦<MemShelf as Shelf>⟧.loads self.old) (⟦<MemShelf as Shelf>⟧.loads self.new) name.now result }
        ensures gives { IfOk result (λ _. IsFrontOf (⟦<MemShelf as Shelf>⟧.files self.old) name.now most
            (newest_bytes (⟦<MemShelf as Shelf>⟧.loads self.new))) }
        ensures within { IfOk result (λ _. length (newest_bytes (⟦<MemShelf as Shelf>⟧.loads self.new)) ≤ most) }
        ensures kept { ⟦<MemShelf as Shelf>⟧.files self.new ≡ ⟦<MemShelf as Shelf>⟧.files self.old }
        ensures cause { HasLoadCause
            (⟦<MemShelf as Shelf>⟧.faults self.old) (⟦<MemShelf as Shelf>⟧.faults self.new)
            (⟦<MemShelf as Shelf>⟧.last_failed self.old) (⟦<MemShelf as Shelf>⟧.last_failed self.new)
            name.now result }
        ensures never_falls { ⟦<MemShelf as Shelf>⟧.faults self.old
            ≤ ⟦<MemShelf as Shelf>⟧.faults self.new }
        ensures fails { FailsIfAbsent (found_by self.old name.now) result }
        ensures planned { planned_loads self.new ≡ planned_loads self.old }
        ensures made { loads_made self.new ≡ next_count (loads_made self.old) }
    {
        let number = self.made.value;
        self.made.raise();
        let fails = is_planned(self.faults.as_slice(), number);
        match find_unless(fails, self.files.as_slice(), name) {
            Some(bytes) => {
                let front = copy_front(self.alloc, bytes, most)?;
                Ok(self.log.push(self.alloc, name, front)?)
            }
            None => Err(self.failures.record(self.alloc, name)),
        }
    }

    fn loaded(&self) -> &[Load]
        ensures loads { loaded_files result.now ≡ ⟦<MemShelf as Shelf>⟧.loads self.now }
    {
        self.log.as_slice()
    }
}
