//! The checks of a program, and what bounds say of them at their places inside edges.
#![tactic(auto)]

mod judge;
mod law;
mod lines;
mod list;
mod outcome;

pub use law::{
    open_states_break, proved_checks_hold, proved_verdicts_hold, refusals_are_one, verdicts_are_one,
};
pub use lines::checks_text;
pub use list::{check_verdicts, has_open};
pub use outcome::ChecksFault;

// For what other outputs have in common with the text of verdicts.
pub use lines::{column_of, kind_text};
