//! What the caller is told beside the bytes.

use base_watch::Watch;

/// How far the work is, for a caller that looks at it meanwhile, and behind the call how long the output and the message are.
#[repr(C)]
#[derive(Drop)]
pub struct Told {
    /// The round of the improvements, from 1.
    pub round: u32,
    /// How many bounds were raised before that round.
    pub raised: u32,
    /// The turn of the round, from 0.
    pub turn: u32,
    /// How many pivots the joint problem of the turn has taken, as told at each further thousand.
    pub pivots: u32,
    /// The length of the output in bytes.
    pub output: usize,
    /// The length of the message in bytes.
    pub message: usize,
}

impl Watch for Told {
    fn round(&mut self, number: u32, raised: u32) {
        self.round = number;
        self.raised = raised;
        self.turn = 0;
        self.pivots = 0;
    }

    fn turn(&mut self, number: u32) {
        self.turn = number;
        self.pivots = 0;
    }

    fn pivots(&mut self, made: u32) {
        self.pivots = made;
    }
}
