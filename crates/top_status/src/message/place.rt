//! What a message names of the files: the line of a cause in its text, and how many rows a certificate has.

ghost use Rattle.std.specs.Prelude.{◌≡◌, ◌≤◌, length};
ghost use Rattle.base_limits.specs.declared.limits.TheConstants.{MOST_PROGRAM_BYTES};
ghost use Rattle.top_status.specs.CheckMessages.{fault_has_unknown, has_unknown, rows_of, site_has_unknown};
ghost use Rattle.top_status.specs.Messages.{auto_place, claim_place, equation_place, function_place, lex_place, line_at_place, line_in};
ghost use Rattle.top_status.specs.Messages.{parse_place, place_of, source_place};

use crate::status::{CertCause, Excess, Status, TextCause};
use ask_claims::ClaimFault;
use cert_checker::CheckFault;
use flow_rationals::EquFault;
use flow_systems::Site;
use flow_transitions::AutoFault;
use lang_meaning::ParseFault;
use lang_tokens::{LexFault, line_of};
use source_file::SourceFault;
use source_meaning::FunctionFault;

// The place of a cause in its text.
fn place_of(cause: TextCause) -> Option<u32>
    ensures { result ≡ place_of cause }
{
    match cause {
        TextCause::Lex(fault) => lex_place(fault),
        TextCause::Source(fault) => source_place(fault),
        TextCause::Claims(fault) => claim_place(fault),
        TextCause::Equ(fault) => equation_place(fault),
        TextCause::Auto(fault) => auto_place(fault),
        TextCause::Flow(_) | TextCause::Rows(_) | TextCause::Unknowns(_) => None,
    }
}

fn lex_place(fault: LexFault) -> Option<u32>
    ensures { result ≡ lex_place fault }
{
    match fault {
        LexFault::BadByte { at }
        | LexFault::OpenComment { at }
        | LexFault::LongNumber { at }
        | LexFault::LongName { at }
        | LexFault::BadNumber { at } => Some(at),
        LexFault::NoMemory => None,
    }
}

fn parse_place(fault: ParseFault) -> Option<u32>
    ensures { result ≡ parse_place fault }
{
    match fault {
        ParseFault::Unexpected { at }
        | ParseFault::UnknownName { at }
        | ParseFault::NameTwice { at }
        | ParseFault::NotAffine { at }
        | ParseFault::NondetHere { at }
        | ParseFault::Limit { at, .. }
        | ParseFault::BigNumber { at }
        | ParseFault::OutsideLoop { at } => Some(at),
        ParseFault::NoVariables | ParseFault::NoMemory => None,
    }
}

fn function_place(fault: FunctionFault) -> Option<u32>
    ensures { result ≡ function_place fault }
{
    match fault {
        FunctionFault::UnknownName { at }
        | FunctionFault::NameTwice { at }
        | FunctionFault::WrongKind { at }
        | FunctionFault::Array { at }
        | FunctionFault::BigNumber { at }
        | FunctionFault::SideEffect { at }
        | FunctionFault::Limit { at, .. }
        | FunctionFault::OutsideLoop { at } => Some(at),
        FunctionFault::NoVariables | FunctionFault::NoMemory => None,
    }
}

fn source_place(fault: SourceFault) -> Option<u32>
    ensures { result ≡ source_place fault }
{
    match fault {
        SourceFault::Unexpected { at }
        | SourceFault::Nesting { at }
        | SourceFault::NameTwice { at }
        | SourceFault::Foreign { at, .. }
        | SourceFault::Macro { at } => Some(at),
        SourceFault::Function(fault) => function_place(fault),
        SourceFault::WhichFunction | SourceFault::NoMemory => None,
    }
}

fn claim_place(fault: ClaimFault) -> Option<u32>
    ensures { result ≡ claim_place fault }
{
    match fault {
        ClaimFault::Lex(fault) => lex_place(fault),
        ClaimFault::Parse(fault) => parse_place(fault),
        ClaimFault::UnknownLabel { at } | ClaimFault::Count { at } | ClaimFault::Cases { at } =>
            Some(at),
        ClaimFault::NoMemory => None,
    }
}

fn equation_place(fault: EquFault) -> Option<u32>
    ensures { result ≡ equation_place fault }
{
    match fault {
        EquFault::Lex(fault) => lex_place(fault),
        EquFault::Unexpected { at }
        | EquFault::NameTwice { at }
        | EquFault::UnknownName { at }
        | EquFault::ZeroBelow { at }
        | EquFault::Terms { at }
        | EquFault::Big { at } => Some(at),
        EquFault::Count { .. } | EquFault::Alternatives { .. } | EquFault::NoMemory => None,
    }
}

fn auto_place(fault: AutoFault) -> Option<u32>
    ensures { result ≡ auto_place fault }
{
    match fault {
        AutoFault::Lex(fault) => lex_place(fault),
        AutoFault::Parse(fault) => parse_place(fault),
        AutoFault::UnknownPoint { at } | AutoFault::IntoEntry { at } | AutoFault::Cases { at } =>
            Some(at),
        AutoFault::Points { .. }
        | AutoFault::Edges
        | AutoFault::Actions { .. }
        | AutoFault::NoMemory => None,
    }
}

// The line of a cause.
fn cause_line(text: &[u8], cause: TextCause) -> u32
    requires { length text.now ≤ MOST_PROGRAM_BYTES }
    ensures { result ≡ line_at_place text.now (place_of cause) }
{
    match place_of(cause) {
        Some(at) => line_of(text, at),
        None => 0,
    }
}

/// The line of an answer to a text, from 1; 0 where it has none.
pub fn answer_line(text: &[u8], status: &Status) -> u32
    requires { length text.now ≤ MOST_PROGRAM_BYTES }
    ensures { result ≡ line_in text.now status.now }
{
    match status {
        Status::Text(cause) => cause_line(text, *cause),
        _ => 0,
    }
}

// Whether a site has an unknown.
fn site_has_unknown(site: &Site) -> bool
    ensures { result ≡ site_has_unknown site.now }
{
    match site {
        Site::Upper { .. } => true,
        _ => false,
    }
}

// Whether the answer of a check names an unknown.
fn fault_has_unknown(fault: &CheckFault) -> bool
    ensures { result ≡ fault_has_unknown fault.now }
{
    match fault {
        CheckFault::Upper { .. } | CheckFault::Final { .. } => true,
        CheckFault::Wide(spot) => site_has_unknown(&spot.site),
        _ => false,
    }
}

// Whether the message of an ending names an unknown.
fn has_unknown(status: &Status) -> bool
    ensures { result ≡ has_unknown status.now }
{
    match status {
        Status::Certificate(CertCause::Check(fault)) => fault_has_unknown(fault),
        Status::Exceeded(Excess::Wide(spot)) => site_has_unknown(&spot.site),
        _ => false,
    }
}

/// So many rows, where the message of an ending names an unknown; else 0.
pub fn answer_rows(rows: usize, status: &Status) -> usize
    ensures { result ≡ rows_of rows status.now }
{
    if has_unknown(status) { rows } else { 0 }
}
