//! Whether the next value of a text is one.

ghost use Rattle.std.specs.Prelude.{◌≡◌, ◌<◌, ◌≤◌, ◌∷◌, None, OnErr, OnOk, Some, length};
ghost use Rattle.json.specs.Json.{items, members, value};
ghost use Rattle.json.specs.Reads.{token_of};
ghost use Rattle.serde_json.specs.Data.{Data, Items, Members, no_members};
ghost use Rattle.serde_json.specs.Read.{converted, of_items, of_json, of_members};

use crate::number::is_number;
use json::{Invalid, Reader, Token};

/// Passes the value that begins with this token, if it is one.
#[cycle(check)]
pub(crate) fn check_token(
    token: Token<'_>,
    reader: &mut Reader<'_>,
    depth: usize,
) -> Result<(), Invalid>
    ensures ok { OnOk result ((d : Data) × (converted of_json (value depth (token_of token.entry ∷ reader.old)) ≡ Some (d, reader.new))) }
    ensures shorter { OnOk result (length reader.new ≤ length reader.old) }
    ensures err { OnErr result (converted of_json (value depth (token_of token.entry ∷ reader.old)) ≡ None) }
{
    match token {
        Token::String(_) => Ok(()),
        Token::Bool(_) => Ok(()),
        Token::Null => Ok(()),
        Token::Number(text) => {
            if is_number(text) {
                Ok(())
            } else {
                Err(Invalid)
            }
        }
        Token::EndObject | Token::EndArray | Token::Key(_) | Token::Bad => Err(Invalid),
        Token::BeginArray => {
            if depth == 0 {
                return Err(Invalid);
            }
            check_items(reader, depth - 1)
        }
        Token::BeginObject => {
            if depth == 0 {
                return Err(Invalid);
            }
            check_members(reader, depth - 1)
        }
    }
}

/// Passes the next value, if it is one.
#[cycle(check)]
pub(crate) fn check_value(reader: &mut Reader<'_>, depth: usize) -> Result<(), Invalid>
    ensures ok { OnOk result ((d : Data) × (converted of_json (value depth reader.old) ≡ Some (d, reader.new))) }
    ensures shorter { OnOk result (length reader.new < length reader.old) }
    ensures err { OnErr result (converted of_json (value depth reader.old) ≡ None) }
{
    match reader.next() {
        Some(token) => check_token(token, reader, depth),
        None => Err(Invalid),
    }
}

// Passes the values up to the end of a list.
#[cycle(check)]
fn check_items(reader: &mut Reader<'_>, depth: usize) -> Result<(), Invalid>
    ensures ok { OnOk result ((ds : Items) × (converted of_items (items (value depth) (length reader.old) reader.old)
        ≡ Some (ds, reader.new))) }
    ensures shorter { OnOk result (length reader.new < length reader.old) }
    ensures err { OnErr result (converted of_items (items (value depth) (length reader.old) reader.old) ≡ None) }
{
    'items: while !reader.take_end_array() {
        check_value(reader, depth)?;
    }
    Ok(())
}

// Passes the members up to the end of an object.
#[cycle(check)]
fn check_members(reader: &mut Reader<'_>, depth: usize) -> Result<(), Invalid>
    ensures ok { OnOk result ((ms : Members) × (converted (λ ms. of_members ms no_members)
        (members (value depth) (length reader.old) reader.old) ≡ Some (ms, reader.new))) }
    ensures shorter { OnOk result (length reader.new < length reader.old) }
    ensures err { OnErr result (converted (λ ms. of_members ms no_members) (members (value depth) (length reader.old) reader.old) ≡ None) }
{
    'members: while let Some(_) = reader.next_key()? {
        check_value(reader, depth)?;
    }
    Ok(())
}
