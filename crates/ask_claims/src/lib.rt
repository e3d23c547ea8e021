//! Claims about the states at a program's points, and what bounds say of them.
#![tactic(auto)]

mod claim;
mod fault;
mod law;
mod lines;
mod list;
mod outcome;
mod reading;

pub use ask_verdicts::{Verdict, VerdictFault};
pub use claim::Claim;
pub use fault::ClaimFault;
pub use law::{
    one_file, one_list, open_states_break, proved_claims_hold, proved_verdicts_hold,
    refusals_are_one, verdicts_are_one,
};
pub use lines::verdicts_text;
pub use list::verdicts;
pub use outcome::ClaimsFault;
pub use reading::read_claims;
