//! Classes of bytes.

ghost use Rattle.std.specs.Prelude.{◌≡◌};
ghost use Rattle.lang_tokens.specs.Bytes.{is_blank, is_space, is_line_blank, is_letter, is_digit, is_word_byte, is_quote, is_exponent};
ghost use Rattle.lang_tokens.specs.Bytes.{is_stray};

/// Space, tab, carriage return and line feed.
pub fn is_blank(byte: u8) -> bool
    ensures { result ≡ is_blank byte }
{
    matches!(byte, b' ' | b'\t' | b'\r' | b'\n')
}

/// Space, tab and carriage return.
pub fn is_space(byte: u8) -> bool
    ensures { result ≡ is_space byte }
{
    matches!(byte, b' ' | b'\t' | b'\r')
}

/// Space, tab, carriage return, form feed and vertical tab.
pub fn is_line_blank(byte: u8) -> bool
    ensures { result ≡ is_line_blank byte }
{
    matches!(byte, b' ' | b'\t' | b'\r' | b'\x0c' | b'\x0b')
}

/// `A` to `Z`, `a` to `z` and `_`.
pub fn is_letter(byte: u8) -> bool
    ensures { result ≡ is_letter byte }
{
    matches!(byte, b'A'..=b'Z' | b'a'..=b'z' | b'_')
}

/// `0` to `9`.
pub fn is_digit(byte: u8) -> bool
    ensures { result ≡ is_digit byte }
{
    matches!(byte, b'0'..=b'9')
}

/// What a word goes on with.
pub fn is_word_byte(byte: u8) -> bool
    ensures { result ≡ is_word_byte byte }
{
    is_letter(byte) || is_digit(byte)
}

/// `"` and `'`.
pub fn is_quote(byte: u8) -> bool
    ensures { result ≡ is_quote byte }
{
    matches!(byte, b'"' | b'\'')
}

/// `e`, `E`, `p` and `P`.
pub fn is_exponent(byte: u8) -> bool
    ensures { result ≡ is_exponent byte }
{
    matches!(byte, b'e' | b'E' | b'p' | b'P')
}

/// No blank, no quote, and nothing that a word, a number or a sign of C starts with.
pub fn is_stray(byte: u8) -> bool
    ensures { result ≡ is_stray byte }
{
    !is_blank(byte) && matches!(byte, 0..=31 | 127..=255 | b'#' | b'$' | b'@' | b'\\' | b'`')
}
