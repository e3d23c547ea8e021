//! The parser's reader: what has been met of a text and what is pending, and what signs make of values.
#![tactic(auto)]

mod context;
mod forms;
mod frame;
mod frames;
mod lexeme;
mod mode;
mod names;
mod nodes;
mod reader;
mod source;
mod value;

pub use context::{Context, assignment};
pub use forms::{constant_form, together, variable_form};
pub use frame::{Before, Frame, Test, Within};
pub use frames::{Frames, level, regarded};
pub use lexeme::{Lexeme, literal, read_token};
pub use mode::Mode;
pub use nodes::{followed, one};
pub use reader::{Reader, always};
pub use source::Source;
pub use value::{Value, as_condition, number_of, tested};
