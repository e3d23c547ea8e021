//! Where bytes go.

ghost use Rattle.std.specs.Prelude.{◌≡◌, ◌+◌, ◌≤◌, List, ℕ, Option, length};
ghost use Rattle.base_files.specs.Faults.{greatest_count};
ghost use Rattle.base_files.specs.Puts.{HasPutCause, Puts, Takes};

use std::alloc::AllocError;

/// Why a piece isn't put whole.
#[derive(Clone, Copy, Debug, PartialEq, Eq, Hash)]
pub enum PutFault {
    /// The outside failed. The sink has counted it.
    Failed,
    /// There was no memory for the piece.
    NoMemory,
}

impl From<AllocError> for PutFault {
    ghost use Rattle.base_files.specs.declared.sink.PutFault.TheVariants.{NoMemory};

    ghost from_gives = { λ _ fault. fault ≡ NoMemory };

    fn from(_error: AllocError) -> PutFault {
        PutFault::NoMemory
    }
}

/// A place that pieces are put to, one after another. A sink says what it is by four ghost members: the
/// bytes that it holds and the pieces that it took whole, where it tells them, how many puts have failed, and its spare.
/// What is put in one piece, or line by line, is said by the pieces.
///
/// A count stops at 2^64 - 1, and from then on it is said to rise in every call.
pub trait Sink {
    /// The bytes that it holds, or `None` where the sink doesn't tell them.
    ghost held: { Self → Option (List ℕ) };

    /// The pieces that it took whole, in order, without empty ones, or `None` where the sink doesn't tell them.
    ghost taken: { Self → Option (List (List ℕ)) };

    /// How many puts have failed.
    ghost faults: { Self → ℕ };

    /// How many more bytes it takes with no memory.
    ghost spare: { Self → ℕ };

    /// Appends the piece, or answers a fault after a prefix of it.
    fn put(&mut self, piece: &[u8]) -> Result<(), PutFault>
        ensures appends { Puts (held self.old) (held self.new) piece.now result }
        ensures takes { Takes (taken self.old) (taken self.new) piece.now result }
        ensures cause { HasPutCause (faults self.old) (faults self.new) (spare self.old) piece.now
            result }
        ensures never_falls { faults self.old ≤ faults self.new }
        ensures spare { spare self.old ≤ spare self.new + length piece.now };

    /// A count is a `u64`.
    ghost bounded: { (sink : Self) → faults sink ≤ greatest_count };
}
