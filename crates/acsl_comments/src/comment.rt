//! Comments at their places.

use base_list::Sequence;

/// Bytes in order.
pub type Bytes = Sequence<u8>;

/// A comment, with the blanks around it, that is put into a text.
#[derive(Drop)]
pub struct Comment {
    /// How many bytes of the text stand before it.
    pub place: u32,
    pub bytes: Bytes,
}
