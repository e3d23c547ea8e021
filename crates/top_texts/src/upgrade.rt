//! A certificate is read, in whichever of the formats it is, and written as certificates are written now.

ghost use Rattle.std.specs.Prelude.{IfOk, IfErr};
ghost use Rattle.top_texts.specs.Outcomes.{IsMisspelt};
ghost use Rattle.top_texts.specs.Upgrades.{IsUpgradeOf};

use crate::form::cert_of;
use crate::refusal::Refusal;
use cert_text::write;
use std::alloc::Global;

/// The text of the certificate that the bytes spell (docs/FORMATS.md, "The certificate"). Whether it is valid doesn't matter.
///
/// # Errors
///
/// The first fault of its form, or want of memory.
pub fn upgrade_text(alloc: Global, bytes: &[u8]) -> Result<Vec<u8>, Refusal>
    ensures ok { IfOk result (λ written. IsUpgradeOf bytes.now written.items) }
    ensures err { IfErr result (λ refusal. IsMisspelt bytes.now refusal) }
{
    let cert = cert_of(alloc, bytes)?;
    Ok(write(alloc, &cert)?)
}
