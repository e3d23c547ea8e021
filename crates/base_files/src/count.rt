//! Counts that stop at the greatest `u64`.

ghost use Rattle.std.specs.Prelude.{◌≡◌, ◌≤◌};
ghost use Rattle.base_files.specs.Faults.{greatest_count, next_count};

/// A count of faults or of calls. It stops at 2^64 - 1.
#[derive(Drop)]
pub(crate) struct Count {
    pub value: u64,
    pub ghost bounded: { value ≤ greatest_count },
}

impl Count {
    pub fn new() -> Count
        ensures { result.value ≡ 0 }
    {
        Count { value: 0 }
    }

    /// Counts one more.
    pub fn raise(&mut self)
        ensures { self.new.value ≡ next_count self.old.value }
    {
        self.value = self.value.saturating_add(1);
    }
}
