//! Functions of C as trees: expressions and statements, and which values expressions may have.
#![tactic(auto)]

mod extent;

pub use extent::Extent;
