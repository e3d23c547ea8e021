//! What is told of long work while it goes on.
#![tactic(auto)]

/// Is told where long work is: rounds, turns and pivots. No result depends on a watch, and none of its methods has a clause: a
/// contract of work that is watched says nothing of its watch.
pub trait Watch {
    /// A round begins, numbered from 1; so many bounds have been raised so far.
    fn round(&mut self, number: u32, raised: u32);

    /// A turn of the round begins, numbered from 0 through the round.
    fn turn(&mut self, number: u32);

    /// The joint problem of the turn has taken so many pivots: told at each further thousand.
    fn pivots(&mut self, made: u32);
}

/// A watch that does nothing.
#[derive(Drop)]
pub struct Unwatched;

impl Watch for Unwatched {
    fn round(&mut self, _number: u32, _raised: u32) {}

    fn turn(&mut self, _number: u32) {}

    fn pivots(&mut self, _made: u32) {}
}
