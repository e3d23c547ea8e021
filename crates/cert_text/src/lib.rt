//! Certificates as text, a JSON object: formats 1 and 2, which are read, and format 3, which is read and written.
#![tactic(auto)]

mod bounds;
mod entries;
mod entry;
mod fault;
mod items;
mod keys;
mod law;
mod limits;
mod listed;
mod members;
mod naming;
mod numbering;
mod numbers;
mod pairs;
mod reading;
mod rows;
mod setting;
mod step;
mod trace;
mod upper;
mod writing;

pub use fault::{Field, FormFault};
pub use law::{numbers_have_one_text, one_reading, round_trip};
pub use limits::MOST_VALUES;
pub use reading::read;
pub use writing::write;
