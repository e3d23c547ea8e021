//! What the tokens of a text are to the grammar of functions and to the division of a file into items, their bytes, and what is defined
//! of names and words outside functions.
#![tactic(auto)]

mod constants;
mod definition;
mod marks;
mod symbols;
mod texts;

pub use constants::{constant_of, defined_of};
pub use definition::Definition;
pub use marks::{mark_of, marks_of};
pub use symbols::{pieces_of, symbol_of};
pub use texts::{bytes_of, name_of};
