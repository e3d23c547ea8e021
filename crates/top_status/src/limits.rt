//! The greatest length of a message.

/// How many bytes a message has at most.
pub const MOST_MESSAGE_BYTES: usize = 1024;
