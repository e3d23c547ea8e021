//! Where the last member of a key stands.

ghost use Rattle.std.specs.Prelude.{◌≡◌, ◌<◌, IfOk, OnOk, Some, option_map};
ghost use Rattle.json.specs.Json.{value};
ghost use Rattle.base_values.specs.Places.{count_at, last_at, member_depth};

use json::{Invalid, Reader};

/// How many members of this key an object has whose brace was taken.
pub(crate) fn count(reader: &mut Reader<'_>, key: &str) -> Result<usize, Invalid>
    ensures { IfOk result (λ n. count_at key.now reader.old ≡ Some n) }
{
    let mut found: usize = 0;
    'members: while let Some(name) = reader.next_key()? {
        reader.skip_value(126)?;
        if name == key {
            found = found.checked_add(1).ok_or(Invalid)?;
        }
    }
    Ok(found)
}

/// Goes to the value of the last member of this key, where there are so many of them.
pub(crate) fn find_last(reader: &mut Reader<'_>, key: &str, count: usize) -> Result<(), Invalid>
    requires some { 0 < count }
    requires count { count_at key.now reader.old ≡ Some count }
    ensures { OnOk result (option_map (λ p. p.0) (value member_depth reader.new) ≡ last_at key.now reader.old) }
{
    let mut left = count;
    'members: while let Some(name) = reader.next_key()? {
        if name == key {
            if left == 1 {
                return Ok(());
            }
            left -= 1;
        }
        reader.skip_value(126)?;
    }
    Err(Invalid)
}
