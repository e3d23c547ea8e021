//! Bytes in memory, with puts that fail as planned.

ghost use Rattle.std.specs.Prelude.{◌≡◌, ◌+◌, ◌≤◌, ◌<◌, ◌==◌, ◌++◌, [], Some, IfOk, IfErr, find, option_map, length, map};
ghost use Rattle.base_files.specs.Faults.{next_count};
ghost use Rattle.base_files.specs.MemSink.{PutsAsPlanned, bytes_in, pieces_in, planned_cut, planned_puts, puts_made};
ghost use Rattle.base_files.specs.Puts.{HasPutCause, Puts, Takes, as_pieces};

use crate::count::Count;
use crate::sink::{PutFault, Sink};
use std::alloc::{AllocError, Global};

/// Bytes in memory for tests, whose puts with given numbers fail.
#[derive(Drop)]
pub struct MemSink {
    held: Vec<u8>,
    pieces: Vec<Vec<u8>>,
    faults: Vec<(u32, usize)>,
    alloc: Global,
    made: Count,
    count: Count,
}

impl MemSink {
    /// An empty sink. A pair `(k, n)` of `faults` makes the put with the number `k`, counted from 0,
    /// fail after the first `n` bytes of its piece, or after all of them. The first pair of a number
    /// counts.
    pub fn new(alloc: Global, faults: Vec<(u32, usize)>) -> MemSink
        ensures held { ⟦<MemSink as Sink>⟧.held result ≡ Some [] }
        ensures taken { ⟦<MemSink as Sink>⟧.taken result ≡ Some [] }
        ensures faults { ⟦<MemSink as Sink>⟧.faults result ≡ 0 }
        ensures spare { ⟦<MemSink as Sink>⟧.spare result ≡ 0 }
        ensures planned { planned_puts result ≡ faults.items }
        ensures made { puts_made result ≡ 0 }
    {
        MemSink {
            held: Vec::new(alloc),
            pieces: Vec::new(alloc),
            faults,
            alloc,
            made: Count::new(),
            count: Count::new(),
        }
    }

    /// The bytes that it holds.
    pub fn bytes(&self) -> &[u8]
        ensures { ⟦<MemSink as Sink>⟧.held self.now ≡ Some result.now }
    {
        self.held.as_slice()
    }

    /// The pieces that it took whole, in order, without empty ones.
    pub fn pieces(&self) -> &[Vec<u8>]
        ensures { ⟦<MemSink as Sink>⟧.taken self.now ≡ Some (map (λ piece. piece.items) result.now) }
    {
        self.pieces.as_slice()
    }

    // Takes the whole piece, or nothing of it where memory is wanted.
    fn take_whole(&mut self, piece: &[u8]) -> Result<(), AllocError>
        ensures held { IfOk result (λ _. bytes_in self.new ≡ bytes_in self.old ++ piece.now) }
        ensures pieces { IfOk result (λ _. pieces_in self.new ≡ pieces_in self.old ++ as_pieces piece.now) }
        ensures wants { IfErr result (λ _. 0 < length piece.now) }
        ensures unchanged { IfErr result (λ _. (bytes_in self.new ≡ bytes_in self.old) × (pieces_in self.new ≡ pieces_in self.old)) }
        ensures planned { planned_puts self.new ≡ planned_puts self.old }
        ensures made { puts_made self.new ≡ puts_made self.old }
        ensures counted { (self.new).count ≡ (self.old).count }
    {
        if piece.is_empty() {
            return Ok(());
        }
        let copy = Vec::from_slice(self.alloc, piece)?;
        self.pieces.reserve(1)?;
        self.held.extend_from_slice(piece)?;
        self.pieces.push_reserved(copy);
        Ok(())
    }
}

// After how many bytes the put with this number fails.
fn cut_at(faults: &[(u32, usize)], number: u64) -> Option<usize>
    ensures { result ≡ option_map (λ f. f.1) (find (λ f. f.0 == number) faults.now) }
{
    match faults.iter().find(|fault| fault.0 as u64 == number) {
        Some(fault) => Some(fault.1),
        None => None,
    }
}

impl Sink for MemSink {
    ghost held = { λ s. Some s.held.items };

    ghost taken = { λ s. Some (pieces_in s) };

    ghost faults = { λ s. s.count.value };

    ghost spare = { λ _. 0 };

    ghost bounded = { λ s. s.count.bounded };

    fn put(&mut self, piece: &[u8]) -> Result<(), PutFault>
        ensures appends { Puts
            (⟦<MemSink as Sink>⟧.held self.old) (⟦<MemSink as Sink>⟧.held self.new) piece.now result }
        ensures takes { Takes (⟦<MemSink as Sink>⟧.taken self.old) (⟦<MemSink as Sink>⟧.taken self.new) piece.now result }
        ensures cause { HasPutCause
            (⟦<MemSink as Sink>⟧.faults self.old) (⟦<MemSink as Sink>⟧.faults self.new)
            (⟦<MemSink as Sink>⟧.spare self.old) piece.now result }
        ensures never_falls { ⟦<MemSink as Sink>⟧.faults self.old
            ≤ ⟦<MemSink as Sink>⟧.faults self.new }
        ensures spare { ⟦<MemSink as Sink>⟧.spare self.old
            ≤ ⟦<MemSink as Sink>⟧.spare self.new + length piece.now }
        ensures as_planned { PutsAsPlanned (planned_cut self.old) (bytes_in self.old)
            (bytes_in self.new) piece.now result }
        ensures planned { planned_puts self.new ≡ planned_puts self.old }
        ensures made { puts_made self.new ≡ next_count (puts_made self.old) }
    {
        let number = self.made.value;
        self.made.raise();
        match cut_at(self.faults.as_slice(), number) {
            None => Ok(self.take_whole(piece)?),
            Some(cut) => {
                self.held.extend_from_slice(&piece[..cut.min(piece.len())])?;
                self.count.raise();
                Err(PutFault::Failed)
            }
        }
    }
}
