//! Programs in files.

ghost use Rattle.base_limits.specs.declared.limits.TheConstants.{MOST_PROGRAM_BYTES};
ghost use Rattle.std.specs.Prelude.{◌≤◌, length};

use lang_tree::Name;
use std::alloc::Global;

/// The text of a program, the URI of its file, and the names of its variables; and where memory comes from.
#[derive(Drop)]
pub(crate) struct Source<'a> {
    pub alloc: Global,
    pub uri: &'a [u8],
    pub text: &'a [u8],
    pub names: &'a [Name],
    pub ghost short: { length text.now ≤ MOST_PROGRAM_BYTES },
}
