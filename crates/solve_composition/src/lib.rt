//! The composed edges of an equation system: guards and end values of rows as forms over the start variables and the free values.
//! Beside them stands what a transformer of an edge and a row is said to be, with its evidence.
//!
//! `docs/METHOD.md` says how composed edges are used.
#![tactic(auto)]

mod affine;
mod compose;
mod edge;
mod fault;
mod form;
mod law;
mod paths;
mod placed;
mod sums;
mod value;
mod walk;

pub use affine::{Affine, Affines};
pub use compose::compose_all;
pub use fault::{FormFault, PathFault};
pub use law::{
    composed_forms_have_columns, composed_forms_mean, guards_alone_fit, one_composition,
};
pub use paths::{Path, Paths};
pub use placed::{PlacedForms, compose_placed};
pub use value::Value;
