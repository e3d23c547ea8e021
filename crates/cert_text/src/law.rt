//! What the definitions of the format come to, each as the contract of a function that does nothing; and the round trip.

ghost use Rattle.std.specs.Prelude.{◌≡◌, ◌⊎◌, IfErr, IfOk};
ghost use Rattle.cert_written.specs.Bare.{bare_cert};
ghost use Rattle.cert_text.specs.Certificates.{IsBeyond, IsWithin, IsWritable};
ghost use Rattle.cert_text.specs.FormLaws.{BoundsByText, FractionsByText, OneReading, WholesByText};

use crate::fault::FormFault;
use crate::reading::read;
use crate::writing::write;
use cert_written::Cert;
use std::alloc::Global;

/// Bytes are one certificate at most.
pub fn one_reading()
    ensures { OneReading }
{}

/// A text is read as a number exactly where it is the canonical text of a number of its kind.
pub fn numbers_have_one_text()
    ensures fractions { FractionsByText }
    ensures wholes { WholesByText }
    ensures bounds { BoundsByText }
{}

/// The certificate, written and read: the same one without the zeros of its lists where its traces then hold at most
/// `MOST_VALUES` values, and `Expanded` where they hold more, unless memory is refused.
pub fn round_trip(alloc: Global, cert: &Cert) -> Result<Cert, FormFault>
    requires { IsWritable cert.now }
    ensures same { IfOk result (λ c. c ≡ bare_cert cert.now) }
    ensures within { IfOk result (λ _. IsWithin cert.now) }
    ensures refused { IfErr result (λ fault. (fault ≡ FormFault.NoMemory) ⊎ ((fault ≡ FormFault.Expanded) × IsBeyond cert.now)) }
{
    let bytes = write(alloc, cert)?;
    read(alloc, bytes.as_slice())
}
