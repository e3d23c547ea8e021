//! Texts and numbers of JSON, alone and as members of objects.

ghost use Rattle.std.specs.Prelude.{◌≡◌, ◌∷◌, ◌++◌, ◌<◌, [], IfOk, decimal};
ghost use Rattle.std.specs.Char.{digit_char};
ghost use Rattle.json.specs.Print.{escape, escape_byte, escape_letter, quoted};
ghost use Rattle.serde_json.specs.Written.{comma_if};

use itoa::Buffer;
use std::alloc::AllocError;

/// The letter of a byte's short escape, or 0 where it has none.
fn escape_letter(byte: u8) -> u8
    ensures { result ≡ escape_letter byte }
{
    match byte {
        b'"' | b'\\' => byte,
        8 => b'b',
        12 => b'f',
        b'\n' => b'n',
        b'\r' => b'r',
        b'\t' => b't',
        _ => 0,
    }
}

/// The hexadecimal digit of a number, in lower case.
fn hex_digit(number: u8) -> u8
    requires { number < 16 }
    ensures { result ≡ digit_char number }
{
    if number < 10 {
        b'0' + number
    } else {
        b'a' + (number - 10)
    }
}

/// Appends what stands for a byte within a text.
fn push_byte(out: &mut Vec<u8>, byte: u8) -> Result<(), AllocError>
    ensures { IfOk result (λ _. out.new.items ≡ out.old.items ++ escape_byte byte) }
{
    let letter = escape_letter(byte);
    if letter > 0 {
        out.extend_from_slice(&[b'\\', letter])?;
    } else if byte < 32 {
        out.extend_from_slice(&[
            b'\\',
            b'u',
            b'0',
            b'0',
            hex_digit(byte / 16),
            hex_digit(byte % 16),
        ])?;
    } else {
        out.push(byte)?;
    }
    Ok(())
}

/// Appends what stands for bytes within a text.
fn push_bytes(out: &mut Vec<u8>, bytes: &[u8]) -> Result<(), AllocError>
    ensures { IfOk result (λ _. out.new.items ≡ out.old.items ++ escape bytes.now) }
{
    for byte in bytes {
        push_byte(out, *byte)?;
    }
    Ok(())
}

/// Appends a text in its quotes: `"`, `\` and the bytes below 32 are escaped, each as shortly as JSON has it (RFC 8259, section 7).
pub fn push_text(out: &mut Vec<u8>, bytes: &[u8]) -> Result<(), AllocError>
    ensures { IfOk result (λ _. out.new.items ≡ out.old.items ++ quoted bytes.now) }
{
    out.extend_from_slice(b"\"")?;
    push_bytes(out, bytes)?;
    out.extend_from_slice(b"\"")?;
    Ok(())
}

/// Appends the comma before an item or a member of which `later` says that it isn't the first.
pub fn push_begin(out: &mut Vec<u8>, later: bool) -> Result<(), AllocError>
    ensures { IfOk result (λ _. out.new.items ≡ out.old.items ++ comma_if later) }
{
    if later {
        out.extend_from_slice(b",")?;
    }
    Ok(())
}

/// Appends a member's key and colon, behind a comma where it isn't the first.
pub fn push_key(out: &mut Vec<u8>, later: bool, key: &[u8]) -> Result<(), AllocError>
    ensures { IfOk result (λ _. out.new.items ≡ out.old.items ++ (comma_if later ++ (quoted key.now ++ 58 ∷ []))) }
{
    push_begin(out, later)?;
    push_text(out, key)?;
    out.extend_from_slice(b":")?;
    Ok(())
}

/// Appends a member's key, its colon and the bracket that opens its list, behind a comma where it isn't the first.
pub fn push_list(out: &mut Vec<u8>, later: bool, key: &[u8]) -> Result<(), AllocError>
    ensures { IfOk result (λ _. out.new.items ≡ out.old.items ++ (comma_if later ++ (quoted key.now ++ 58 ∷ 91 ∷ []))) }
{
    push_key(out, later, key)?;
    out.extend_from_slice(b"[")?;
    Ok(())
}

/// Appends a number's decimal digits.
pub fn push_number(out: &mut Vec<u8>, number: u64) -> Result<(), AllocError>
    ensures { IfOk result (λ _. out.new.items ≡ out.old.items ++ decimal number) }
{
    let mut buffer = Buffer::new();
    out.extend_from_slice(buffer.format(number).as_bytes())?;
    Ok(())
}

/// Appends a member whose value is a text.
pub fn push_text_member(
    out: &mut Vec<u8>,
    later: bool,
    key: &[u8],
    text: &[u8],
) -> Result<(), AllocError>
    ensures { IfOk result (λ _. out.new.items ≡ out.old.items ++ (comma_if later ++ (quoted key.now ++ 58 ∷ quoted text.now))) }
{
    push_key(out, later, key)?;
    push_text(out, text)
}

/// Appends a member whose value is a number.
pub fn push_number_member(
    out: &mut Vec<u8>,
    later: bool,
    key: &[u8],
    number: u64,
) -> Result<(), AllocError>
    ensures { IfOk result (λ _. out.new.items ≡ out.old.items ++ (comma_if later ++ (quoted key.now ++ 58 ∷ decimal number))) }
{
    push_key(out, later, key)?;
    push_number(out, number)
}
