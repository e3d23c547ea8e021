//! Why the texts of files have no report.

ghost use Rattle.std.specs.Prelude.{◌≡◌};
ghost use Rattle.top_texts.specs.Outcomes.{refused};

use std::alloc::AllocError;
use top_status::{CertCause, Excess, Status, TextCause};

/// Why texts have no answer.
#[derive(Clone, Copy, Debug, Drop)]
pub enum Refusal {
    /// The texts are refused by this cause.
    Text(TextCause),
    /// The certificate is refused by this cause.
    Certificate(CertCause),
    /// More than exact work may take comes up on the way.
    Exceeded(Excess),
    /// This number of improvements is too small.
    Spent(u32),
    /// Memory was wanted.
    NoMemory,
}

impl From<AllocError> for Refusal {
    ghost use Rattle.std.specs.Prelude.{◌≡◌};
    ghost use Rattle.top_texts.specs.declared.refusal.Refusal.TheVariants.{NoMemory};

    ghost from_gives = { λ _ refusal. refusal ≡ NoMemory };

    fn from(_error: AllocError) -> Self {
        Refusal::NoMemory
    }
}

/// The ending of this refusal.
pub fn refused(refusal: Refusal) -> Status
    ensures { result ≡ refused refusal }
{
    match refusal {
        Refusal::Text(cause) => Status::Text(cause),
        Refusal::Certificate(cause) => Status::Certificate(cause),
        Refusal::Exceeded(excess) => Status::Exceeded(excess),
        Refusal::Spent(number) => Status::Spent(number),
        Refusal::NoMemory => Status::Memory,
    }
}
