//! The tokens of a function as expressions and statements are read from them, one by one
//! (docs/MEANING.md, "Functions of C").
#![tactic(auto)]

mod brackets;
mod faults;
mod lines;
mod mark;
mod reader;
mod scope;
mod stop;
mod units;

pub use faults::placed;
pub use mark::Mark;
pub use reader::Reader;
pub use scope::Scope;
pub use stop::Stop;
