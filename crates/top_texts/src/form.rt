//! The certificate that the bytes of a file spell, or the fault of their form.

ghost use Rattle.std.specs.Prelude.{◌≡◌, ◌≢◌, ℕ, List, IfOk, IfErr};
ghost use Rattle.cert_text.specs.Certificates.{IsWritable, SpellsCert};
ghost use Rattle.top_texts.specs.Checks.{IsFormFault};
ghost use Rattle.top_texts.specs.Outcomes.{IsMisspelt};

use crate::refusal::Refusal;
use cert_text::{FormFault, read};
use cert_written::Cert;
use std::alloc::Global;
use top_status::CertCause;

// The refusal of bytes that have this fault.
fn form_refusal(fault: FormFault) -> Refusal
    ensures { (bytes : List ℕ) → (fault ≢ FormFault.NoMemory → IsFormFault bytes fault) → IsMisspelt bytes result }
{
    match fault {
        FormFault::NoMemory => Refusal::NoMemory,
        _ => Refusal::Certificate(CertCause::Form(fault)),
    }
}

// The certificate that the bytes spell, or their first fault.
fn read_cert(alloc: Global, bytes: &[u8]) -> Result<Cert, FormFault>
    ensures ok { IfOk result (λ cert. SpellsCert bytes.now cert) }
    ensures writable { IfOk result IsWritable }
    ensures err { IfErr result (λ fault. fault ≢ FormFault.NoMemory → IsFormFault bytes.now fault) }
{
    read(alloc, bytes)
}

// The certificate that the bytes spell.
pub(crate) fn cert_of(alloc: Global, bytes: &[u8]) -> Result<Cert, Refusal>
    ensures ok { IfOk result (λ cert. SpellsCert bytes.now cert) }
    ensures writable { IfOk result IsWritable }
    ensures err { IfErr result (λ refusal. IsMisspelt bytes.now refusal) }
{
    match read_cert(alloc, bytes) {
        Ok(cert) => Ok(cert),
        Err(fault) => Err(form_refusal(fault)),
    }
}
