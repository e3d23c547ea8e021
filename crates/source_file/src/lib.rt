//! The function of a C file that is asked about, as a program.
#![tactic(auto)]

mod choice;
mod fault;
mod file;
mod function;
mod functions;
mod laws;
mod outline;
mod outside;
mod width;

pub use fault::SourceFault;
pub use file::{Chosen, defined, names, read};
pub use functions::Defined;
pub use laws::{items_are_whole, one_meaning, program_names_are_names};
