//! Programs as trees, and what they mean: the truth of conditions and the runs of statements.
//!
//! `docs/MEANING.md` reads the definitions of `specs/` in order.
#![tactic(auto)]

mod change;
mod check;
mod cond;
mod deed;
mod form;
mod law;
mod limits;
mod name;
mod program;
mod stmt;

pub use change::Change;
pub use check::{Check, CheckKind};
pub use cond::{Cond, Rel, leaves};
pub use deed::{Deed, Deeds};
pub use form::{Coeffs, Form};
pub use law::cases_are_truth;
pub use limits::{MOST_HIDDEN, MOST_VARIABLES};
pub use name::{Name, Names};
pub use program::{Program, statements};
pub use stmt::{Block, Stmt};
