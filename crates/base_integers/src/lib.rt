//! The integers by which a function computes: all of them, or those of a machine.
#![tactic(auto)]

mod integers;

pub use integers::{Integers, Width};
