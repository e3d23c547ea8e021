//! A text that is read.

ghost use Rattle.base_limits.specs.declared.limits.TheConstants.{MOST_PROGRAM_BYTES};
ghost use Rattle.std.specs.Prelude.{◌≤◌, length};

use std::alloc::Global;

/// A text that is read, where memory comes from, and the number of coefficients of the text's forms.
#[derive(Drop)]
pub struct Source<'a> {
    pub alloc: Global,
    pub text: &'a [u8],
    pub width: usize,
    pub ghost short: { length text.now ≤ MOST_PROGRAM_BYTES },
}
