//! Packs: octagons between variables that stand together.
#![tactic(auto)]

mod law;
mod rows;

pub use law::packs_laws;
pub use rows::packs;
