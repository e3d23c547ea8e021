//! Where C joins a line with the next one.

ghost use Rattle.std.specs.Prelude.{◌≡◌, ◌<◌, ◌+◌, length, IfSome};
ghost use Rattle.lang_tokens.specs.Directives.{is_blank_to_feed, is_joint};
ghost use Rattle.lang_tokens.specs.Steps.{IsFirstJoint};

use crate::byte::is_line_blank;

// Whether blanks alone stand before a line feed.
fn is_blank_to_feed(rest: &[u8]) -> bool
    ensures { result ≡ is_blank_to_feed rest.now }
{
    for byte in rest {
        if *byte == b'\n' {
            return true;
        }
        if !is_line_blank(*byte) {
            return false;
        }
    }
    false
}

/// Whether a `\` stands first, with blanks alone between it and a line feed.
pub fn is_joint(rest: &[u8]) -> bool
    ensures { result ≡ is_joint rest.now }
{
    !rest.is_empty() && rest[0] == b'\\' && is_blank_to_feed(&rest[1..])
}

/// Where the first `*` stands with such a `\` right behind it.
pub fn first_joint(text: &[u8]) -> Option<usize>
    ensures place { IsFirstJoint text.now result }
    ensures within { IfSome result (λ place. place + 1 < length text.now) }
{
    for place in 0..text.len() {
        if text[place] == b'*' && is_joint(&text[place + 1..]) {
            return Some(place);
        }
    }
    None
}
