//! A whole text, of whose value only the keys and the numbers at them are kept.

ghost use Rattle.std.specs.Prelude.{◌≡◌, ◌<◌, Err, IfOk, None, OnOk, Some, length};
ghost use Rattle.json.specs.Json.{members, value};
ghost use Rattle.serde_json.specs.Data.{Data, Members, no_members};
ghost use Rattle.serde_json.specs.Read.{converted, of_json, of_members};
ghost use Rattle.serde_json.specs.View.{members_view, view};
ghost use Rattle.base_values.specs.Outline.{flat, flat_members, outline_of};

use crate::check::check_token;
use crate::fault::Fault;
use crate::number::number;
use json::{Reader, Token};
use serde_json::{Map, Value};
use std::alloc::Global;

// The next value if it is a number, and null in place of any other.
fn read_flat(reader: &mut Reader<'_>, depth: usize) -> Result<Value, Fault>
    ensures ok { IfOk result (λ v. (d : Data) × (converted of_json (value depth reader.old) ≡ Some (d, reader.new)) × (view v ≡ flat d)) }
    ensures shorter { OnOk result (length reader.new < length reader.old) }
    ensures err { result ≡ Err Fault.NotJson → converted of_json (value depth reader.old) ≡ None }
{
    let token = reader.next().ok_or(Fault::NotJson)?;
    match token {
        Token::Number(text) => match number(text) {
            Some(number) => Ok(Value::Number(number)),
            None => Err(Fault::NotJson),
        },
        _ => {
            check_token(token, reader, depth)?;
            Ok(Value::Null)
        }
    }
}

// The members up to the end of an object, each flat.
fn read_flat_members(
    alloc: Global,
    reader: &mut Reader<'_>,
    depth: usize,
) -> Result<Map<String, Value>, Fault>
    ensures ok { IfOk result (λ map. (ms : Members) × (converted (λ js. of_members js no_members)
        (members (value depth) (length reader.old) reader.old) ≡ Some (ms, reader.new)) × (members_view map.entries ≡ flat_members ms)) }
    ensures err { result ≡ Err Fault.NotJson → converted (λ js. of_members js no_members)
        (members (value depth) (length reader.old) reader.old) ≡ None }
{
    let mut found = Map::new(alloc);
    'members: while let Some(name) = reader.next_key()? {
        let key = String::from_str(alloc, name)?;
        let member = read_flat(reader, depth)?;
        drop(found.insert(key, member)?);
    }
    Ok(found)
}

/// The outline of the next value.
pub(crate) fn read_outline(
    alloc: Global,
    reader: &mut Reader<'_>,
    depth: usize,
) -> Result<Value, Fault>
    requires { 0 < depth }
    ensures ok { IfOk result (λ v. (d : Data) × (converted of_json (value depth reader.old) ≡ Some (d, reader.new))
        × (view v ≡ outline_of d)) }
    ensures err { result ≡ Err Fault.NotJson → converted of_json (value depth reader.old) ≡ None }
{
    let token = reader.next().ok_or(Fault::NotJson)?;
    match token {
        Token::BeginObject => Ok(Value::Object(read_flat_members(alloc, reader, depth - 1)?)),
        _ => {
            check_token(token, reader, depth)?;
            Ok(Value::Null)
        }
    }
}
