//! How objects of outputs begin.

ghost use Rattle.std.specs.Prelude.{◌≡◌, ◌∷◌, ◌++◌, IfOk, codes, decimal};
ghost use Rattle.json.specs.Print.{quoted};

use base_json::{push_number_member, push_text_member};
use std::alloc::AllocError;

/// Appends the beginning of an object with the number of improvements.
pub(crate) fn push_improvements(out: &mut Vec<u8>, count: u32) -> Result<(), AllocError>
    ensures { IfOk result (λ _. out.new.items ≡ out.old.items ++ 123 ∷ (quoted (codes "improvements") ++ 58 ∷ decimal count)) }
{
    out.extend_from_slice(b"{")?;
    push_number_member(out, false, b"improvements", count as u64)
}

/// Appends the beginning of an object which says that a certificate is accepted.
pub(crate) fn push_accepted(out: &mut Vec<u8>) -> Result<(), AllocError>
    ensures { IfOk result (λ _. out.new.items
        ≡ out.old.items ++ 123 ∷ (quoted (codes "certificate") ++ 58 ∷ quoted (codes "accepted"))) }
{
    out.extend_from_slice(b"{")?;
    push_text_member(out, false, b"certificate", b"accepted")
}
