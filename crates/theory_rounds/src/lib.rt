//! Growth, rounds and certificates with the exact transformers and joint problems.
#![tactic(auto)]

mod law;

pub use law::{
    any_outcomes_do, any_steps_do, chains_are_exact, chains_are_short, chains_end_or_go_on,
    cuts_are_exact, ends_are_least, evidence_is_read, evidence_is_sized, growths_are_exact,
    offers_are_there, raises_are_read, rounds_are_exact, rounds_are_improvements, rounds_end,
    rows_decide, some_outcomes_do, turns_are_exact, turns_come_up,
};
