//! The words of the command line, and what they ask for.
#![tactic(auto)]

mod commands;
mod format;
mod help;
pub mod laws;
mod request;
mod values;
mod words;

pub use format::Format;
pub use help::{Topic, help_text, usage_line};
pub use request::{Analysis, Domain, Policy, Purpose, Request, Source};
pub use words::{WordsFault, read_words, wants_progress};
