//! From certificates as texts have them to certificates of a system, and back.
//!
//! A list that is written without its zeros has no length of its own. Where a program and a template are known, they ask for
//! one: `specs/Fitted.antt` says for which certificate a written one then stands. `check_fitted` checks that certificate, of which it has
//! one step or one piece of evidence at a time.
#![tactic(auto)]

mod checking;
mod dense;
mod fitting;
mod law;
mod lists;
mod needed;

pub use checking::{FittedFault, check_fitted};
pub use dense::dense_cert;
pub use fitting::fitted_rows;
pub use law::{lists_come_back, valid_come_back, valid_stay_the_same};
