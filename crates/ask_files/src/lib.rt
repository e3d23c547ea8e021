//! The files of a request: their names in the order of their loads, their loads, and the request with what they hold in place of names.
#![tactic(auto)]

mod files;
mod loading;
mod which;

pub use files::{
    NamedFile, analysis_with, files_of, first_unread, most_bytes, request_files, unread, with_texts,
};
pub use loading::load_files;
pub use which::{ReadCause, Which};
