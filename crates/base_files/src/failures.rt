//! What a shelf keeps of its failed loads.

ghost use Rattle.std.specs.Prelude.{◌≡◌, ◌≤◌, [], Err, string_bytes};
ghost use Rattle.base_files.specs.Loads.{HasLoadCause};

use crate::count::Count;
use crate::shelf::LoadFault;
use std::alloc::Global;

/// How many loads have failed, and the name of the last one.
#[derive(Drop)]
pub(crate) struct Failures {
    pub count: Count,
    pub last: String,
}

impl Failures {
    pub fn new(alloc: Global) -> Failures
        ensures count { result.count.value ≡ 0 }
        ensures last { string_bytes result.last ≡ [] }
    {
        Failures {
            count: Count::new(),
            last: String::new(alloc),
        }
    }

    /// Counts a failed load of this name, and says how the load ends: by `NoMemory`, with nothing
    /// counted, where there is no room for a copy of the name.
    pub fn record(&mut self, alloc: Global, name: &str) -> LoadFault
        ensures cause { HasLoadCause self.old.count.value self.new.count.value (string_bytes self.old.last)
            (string_bytes self.new.last) name.now (Err result) }
        ensures never_falls { self.old.count.value ≤ self.new.count.value }
    {
        match String::from_str(alloc, name) {
            Ok(copy) => {
                self.last = copy;
                self.count.raise();
                LoadFault::Failed
            }
            Err(_) => LoadFault::NoMemory,
        }
    }
}
