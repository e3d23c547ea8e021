//! What the directives and the items of a C file define: constants, and words that aren't read.
#![tactic(auto)]

mod definitions;
mod directive;
mod enumeration;
mod item;
mod part;

pub use definitions::{definitions_of, repeated};
pub use directive::code_of;
pub use item::is_macro;
pub use part::Part;
