//! The check of a certificate of least bounds.
//!
//! `docs/FORMATS.md` says when a certificate is valid, with the order of the tests, and `docs/METHOD.md` that its bounds are then the
//! least ones. `specs/` lists the tests as events: sums and tests in order, of which the first that stops decides.
//!
//! `check` takes a whole certificate. Who has its steps and its evidence one at a time tests the size (`has_size`), takes step after step
//! (`start`, `take_step`), compares the vector that they lead to with the bounds (`compare`), and tests the evidence for what is needed,
//! in order (`Needed`, `check_upper`, `check_end`): these are the parts of `check`.
#![tactic(auto)]

mod certificate;
mod combination;
mod evidence;
mod fault;
mod final_vector;
mod first_pass;
mod following;
mod item;
mod law;
mod multipliers;
mod names;
mod needs;
mod new_bounds;
mod scratch;
mod second_pass;
mod size;
mod steps;
mod uppers;

pub use certificate::check;
pub use fault::CheckFault;
pub use final_vector::compare;
pub use law::{evidence_is_summed, stops_are_faults, tests_are_faults, unstopped_is_valid};
pub use needs::Needed;
pub use scratch::Scratch;
pub use size::has_size;
pub use steps::{start, step_passes, take_step};
pub use uppers::{check_end, check_upper};
