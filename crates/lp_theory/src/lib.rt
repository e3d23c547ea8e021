//! Linear programs over exact rational numbers: problems and the evidence of their outcomes, dictionaries, Bland's rule
//! and the two phases of the simplex method. The definitions stand in `specs/`; each law is the contract of a function here.
#![tactic(auto)]

pub mod bland;
pub mod dictionary;
pub mod free;
pub mod problem;
pub mod simplex;
pub mod table;
