//! Objects, put together member by member.
//!
//! A chain of calls is proved sooner than one `json!` with as many members: each call has one way out, and where the last key
//! is put first, each key is compared with one other.

ghost use Rattle.std.specs.Prelude.{◌≡◌, IfOk};
ghost use Rattle.serde_json.specs.Data.{put};
ghost use Rattle.serde_json.specs.View.{members_view, view};

use serde_json::{Map, Value, put};
use std::alloc::{AllocError, Global};

/// The members with the value at the key.
pub(crate) fn with(
    alloc: Global,
    members: Map<String, Value>,
    key: &str,
    value: Value,
) -> Result<Map<String, Value>, AllocError>
    ensures { IfOk result (λ more. members_view more.entries ≡ put key.now (view value) (members_view members.entries)) }
{
    let mut members = members;
    put(&mut members, alloc, key, value)?;
    Ok(members)
}
