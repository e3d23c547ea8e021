//! All that the program does that writes a program's text back with its least bounds as annotations in ACSL.
#![tactic(auto)]

mod answer;
mod laws;
mod program;
mod run;
mod usage;
mod words;
mod write;

pub use answer::annotation;
pub use laws::annotated_is_one;
pub use program::Annotating;
pub use run::annotate;
pub use usage::usage_line;
