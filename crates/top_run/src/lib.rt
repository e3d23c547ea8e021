//! All that the program does, over its words, its files and its streams.
#![tactic(auto)]

mod interface;
mod laws;
mod loading;
mod memory;
mod messages;
mod output;
mod program;
mod progress;
mod promise;

pub use interface::{Program, Tmpl};
pub use laws::read_is_whole;
pub use memory::run_in_memory;
pub use out_workload::generate;
pub use program::{run, run_as, run_without_words};
pub use progress::Teller;
pub use promise::headline;
pub use top_answer::{Answer, Exact, Meaning, answer};
pub use top_status::{CertCause, ReadCause, Status, TextCause, Which};
