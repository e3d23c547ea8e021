//! Words as parts of URIs.

ghost use Rattle.std.specs.Prelude.{◌≡◌, ◌<◌, ◌++◌, IfOk};
ghost use Rattle.out_json.specs.Uris.{capital_digit, is_plain, uri_byte, uri_text};

use std::alloc::{AllocError, Global};

/// Whether a byte stands for itself.
fn is_plain(byte: u8) -> bool
    ensures { result ≡ is_plain byte }
{
    byte.is_ascii_alphabetic()
        || byte == b'_'
        || byte.is_ascii_digit()
        || byte == b'-'
        || byte == b'.'
        || byte == b'~'
        || byte == b'/'
}

/// The hexadecimal digit of a number, in capitals.
fn capital_digit(number: u8) -> u8
    requires { number < 16 }
    ensures { result ≡ capital_digit number }
{
    if number < 10 {
        48 + number
    } else {
        55 + number
    }
}

/// Appends a byte of a word.
fn push_byte(out: &mut Vec<u8>, byte: u8) -> Result<(), AllocError>
    ensures { IfOk result (λ _. out.new.items ≡ out.old.items ++ uri_byte byte) }
{
    if is_plain(byte) {
        out.push(byte)?;
    } else {
        out.extend_from_slice(&[b'%', capital_digit(byte / 16), capital_digit(byte % 16)])?;
    }
    Ok(())
}

/// A word as a part of a URI: each byte but letters, digits and `- . _ ~ /` as `%` and two capital hexadecimal digits (RFC 3986,
/// section 2.1).
pub fn uri_of(alloc: Global, word: &[u8]) -> Result<Vec<u8>, AllocError>
    ensures { IfOk result (λ uri. uri.items ≡ uri_text word.now) }
{
    let mut uri = Vec::new(alloc);
    for byte in word {
        push_byte(&mut uri, *byte)?;
    }
    Ok(uri)
}
