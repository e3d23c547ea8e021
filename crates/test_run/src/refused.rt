//! Runs that are refused, or that fail: words, files, texts and certificates that are hostile, and the outside.

mod bytes;
pub(crate) mod certificates;
mod counts;
mod faults;
mod lengths;
pub(crate) mod refusals;
mod texts;
mod words;
