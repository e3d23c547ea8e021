//! From words and the contents of the files that they name to an answer: a pure function, with no file and no stream.
#![tactic(auto)]

mod answering;
mod laws;
mod meaning;
mod outcome;
mod reply;

pub use answering::answer;
pub use ask_files::{NamedFile, files_of, most_bytes};
pub use laws::{
    accepted_is_least, check_verdicts_are_one, ending_is_one, open_is_of_checks, output_is_one,
    spent_is_few, upgrade_is_one, upgrades_are_accepted, values_are_one, verdicts_are_one,
};
pub use meaning::{Exact, Meaning};
pub use reply::{Answer, plain_answer};
