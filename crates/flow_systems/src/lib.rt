//! The equation system of a program's edges and a template, and its least solution.
//!
//! `docs/MEANING.md` reads the definitions of `specs/` in order.
#![tactic(auto)]

mod bounds;
mod cells;
mod fault;
mod fit;
mod follow;
mod footer;
mod law;
mod limits;
mod pick;
mod spot;
mod sums;
mod system;
mod trace;
mod values;

pub use bounds::Bounds;
pub use fault::Fault;
pub use fit::fits;
pub use follow::{direction_value, trace_value};
pub use footer::Footer;
pub use law::{
    at_most_one_least, checks_fit_bounds, integer_states_are_rational,
    least_solutions_are_supported, post_solutions_hold, traces_are_followed, unreached_at_all_rows,
    vectors_are_lists,
};
pub use limits::MOST_UNKNOWNS;
pub use pick::Pick;
pub use spot::{Part, PartFault, Site, Spot};
pub use sums::{Constants, form_value, fraction, row_value};
pub use system::{System, SystemFault};
pub use trace::{Fracs, Trace};
pub use values::{MOST_VALUES, Values};
