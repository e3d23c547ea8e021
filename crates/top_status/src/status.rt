//! How a run ended, and its exit code.

ghost use Rattle.std.specs.Prelude.{◌≡◌};
ghost use Rattle.top_status.specs.Status.{code_of, has_output};

use ask_claims::ClaimFault;
use ask_files::ReadCause;
use cert_checker::CheckFault;
use cert_text::FormFault;
use flow_edges::FlowFault;
use flow_rationals::EquFault;
use flow_systems::Spot;
use flow_templates::RowFault;
use flow_transitions::AutoFault;
use lang_tokens::LexFault;
use source_file::SourceFault;

/// Why the texts of a program, of its rows and of claims about it, that of a transition system, or that of equations, are refused
/// (docs/FORMATS.md,
/// "Messages"). The first that stands in this order is answered.
#[derive(Clone, Copy, Debug, PartialEq, Eq)]
pub enum TextCause {
    /// It doesn't read as tokens.
    Lex(LexFault),
    /// Its tokens have no functions, or the function that is asked about is no program.
    Source(SourceFault),
    /// Its program has no points and edges within the limits.
    Flow(FlowFault),
    /// The file of rows is no template over its variables, or a ready-made one over them has too many rows.
    Rows(RowFault),
    /// There are more unknowns than `flow_systems::MOST_UNKNOWNS`, so many.
    Unknowns(u32),
    /// The text of the claims doesn't read as claims about the program.
    Claims(ClaimFault),
    /// The text doesn't read as equations.
    Equ(EquFault),
    /// The text doesn't read as a transition system, or its edges aren't within the limits.
    Auto(AutoFault),
}

/// Why a certificate is refused (docs/FORMATS.md, "Messages"). The first that stands in this order is answered.
#[derive(Clone, Copy, Debug, PartialEq, Eq)]
pub enum CertCause {
    /// The bytes spell no certificate.
    Form(FormFault),
    /// Its rows are no template over the program's variables. Rows are numbered from 1, as lines are.
    Rows(RowFault),
    /// There are more unknowns than `flow_systems::MOST_UNKNOWNS`, so many.
    Unknowns(u32),
    /// A test of the check fails, and no number before it is wide.
    Check(CheckFault),
}

/// What was more than exact work may take (docs/FORMATS.md, "Messages").
#[derive(Clone, Copy, Debug, PartialEq, Eq)]
pub enum Excess {
    /// The result of an operation on fractions was too wide, at this spot.
    Wide(Spot),
    /// The joint problem of a turn had more than `base_limits::MOST_CELLS` cells, so many.
    Large(u64),
}

/// How a run ended.
#[derive(Clone, Copy, Debug, PartialEq, Eq)]
pub enum Status {
    /// All bytes of the output were put.
    Done,
    /// All bytes of the output were put, and they say of some check that it is open.
    Open,
    /// The certificate is refused.
    Certificate(CertCause),
    /// The words are no command.
    Usage,
    /// A named file isn't read.
    Read(ReadCause),
    /// The texts are refused.
    Text(TextCause),
    /// More than exact work may take came up on the way.
    Exceeded(Excess),
    /// More improvements are needed than this number, which was asked for.
    Spent(u32),
    /// Memory was wanted.
    Memory,
    /// The output took less than the whole report.
    Write,
}

impl Status {
    /// The program's exit code: 0 to 8, or 10 where a check is open.
    pub fn code(&self) -> u8
        ensures { result ≡ code_of self.now }
    {
        match self {
            Status::Done => 0,
            Status::Open => 10,
            Status::Certificate(_) => 1,
            Status::Usage => 2,
            Status::Read(_) => 3,
            Status::Text(_) => 4,
            Status::Exceeded(Excess::Wide(_)) => 5,
            Status::Exceeded(Excess::Large(_)) => 4,
            Status::Spent(_) => 6,
            Status::Memory => 7,
            Status::Write => 8,
        }
    }

    /// Whether the whole output is put at this ending, and no message.
    pub fn has_output(&self) -> bool
        ensures { result ≡ has_output self.now }
    {
        match self {
            Status::Done | Status::Open => true,
            _ => false,
        }
    }
}
