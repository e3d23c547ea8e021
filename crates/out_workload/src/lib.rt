//! Generated programs, and the summary of what was found about one (docs/FORMATS.md, "The generator and the summary").
#![tactic(auto)]

mod draws;
mod law;
mod summaries;
mod texts;

pub use law::generated_texts_read;
pub use summaries::summary;
pub use texts::generate;
