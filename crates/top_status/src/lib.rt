//! How a run ends, and what is said of it: statuses with their exit codes, and their messages.
#![tactic(auto)]

mod ending;
mod limits;
mod message;
mod status;

pub use ask_files::{ReadCause, Which};
pub use ending::{Ending, plain_ending};
pub use limits::MOST_MESSAGE_BYTES;
pub use message::event::{Event, event_line};
pub use message::place::{answer_line, answer_rows};
pub use message::{Message, make_message};
pub use status::{CertCause, Excess, Status, TextCause};
