//! The line that tells how a run ended, where it has no output.

ghost use Rattle.std.specs.Prelude.{◌≡◌, ◌≤◌, ◌+◌, ◌++◌, [], None, Some, codes, length};
ghost use Rattle.top_status.specs.Messages.{auto_words, claim_words, counted, counted_in, equation_words, flow_words, lex_words};
ghost use Rattle.top_status.specs.Messages.{function_limit_words, function_words, limit_words, line_text, message_of, parse_words};
ghost use Rattle.top_status.specs.Messages.{foreign_words, plain, read_words, row_words, source_words, text_words, words, words_of};
ghost use Rattle.top_status.specs.Parts.{told};
ghost use Rattle.top_status.specs.declared.limits.TheConstants.{MOST_MESSAGE_BYTES};
ghost use Rattle.top_status.specs.declared.status.Status.TheVariants as StatusValue;

mod check;
pub(crate) mod event;
pub(crate) mod place;

use crate::limits::MOST_MESSAGE_BYTES;
use crate::status::{Excess, Status, TextCause};
use ask_claims::ClaimFault;
use ask_files::{ReadCause, Which};
use ask_words::usage_line;
use check::{certificate_message, wide_message};
use flow_edges::FlowFault;
use flow_rationals::EquFault;
use flow_templates::RowFault;
use flow_transitions::AutoFault;
use itoa::Buffer;
use lang_meaning::{Limit, ParseFault};
use lang_tokens::{Foreign, LexFault};
use source_file::SourceFault;
use source_meaning::{FunctionFault, Limit as FunctionLimit};
use std::marker::Model;

// What is refused, words, a number and words, with a line feed at the end.
#[derive(Clone, Copy, Drop)]
pub(crate) struct Parts {
    subject: &'static [u8],
    before: &'static [u8],
    number: Option<u64>,
    after: &'static [u8],
}

const PROGRAM: &[u8] = b"program refused: ";

const ROWS: &[u8] = b"rows refused: ";

const CLAIMS: &[u8] = b"claims refused: ";

const EQUATIONS: &[u8] = b"equations refused: ";

const SYSTEM: &[u8] = b"system refused: ";

fn plain(before: &'static [u8]) -> Parts
    ensures { told result ≡ words before.entry.now }
{
    plain_in(b"", before)
}

fn plain_in(subject: &'static [u8], before: &'static [u8]) -> Parts
    ensures { told result ≡ plain subject.entry.now before.entry.now }
{
    Parts {
        subject,
        before,
        number: None,
        after: b"\n",
    }
}

fn counted(subject: &'static [u8], before: &'static [u8], number: u32) -> Parts
    ensures { told result ≡ counted subject.entry.now before.entry.now number }
{
    counted_in(subject, before, number as u64, b"\n")
}

fn counted_in(
    subject: &'static [u8],
    before: &'static [u8],
    number: u64,
    after: &'static [u8],
) -> Parts
    ensures { told result ≡ counted_in subject.entry.now before.entry.now number after.entry.now }
{
    Parts {
        subject,
        before,
        number: Some(number),
        after,
    }
}

fn lex_parts(subject: &'static [u8], line: u32, fault: LexFault) -> Parts
    ensures { told result ≡ lex_words subject.entry.now line fault }
{
    match fault {
        LexFault::BadByte { .. } => counted(subject, b"bad byte at line ", line),
        LexFault::OpenComment { .. } => counted(subject, b"open comment at line ", line),
        LexFault::LongNumber { .. } => counted(subject, b"long number at line ", line),
        LexFault::LongName { .. } => counted(subject, b"long name at line ", line),
        LexFault::BadNumber { .. } => counted(subject, b"bad number at line ", line),
        LexFault::NoMemory => plain(b"out of memory"),
    }
}

fn limit_parts(subject: &'static [u8], line: u32, which: Limit) -> Parts
    ensures { told result ≡ limit_words subject.entry.now line which }
{
    match which {
        Limit::Nesting => counted(subject, b"nesting at line ", line),
        Limit::Variables => counted(subject, b"variables at line ", line),
        Limit::Statements => counted(subject, b"statements at line ", line),
        Limit::Leaves => counted(subject, b"leaves at line ", line),
    }
}

fn parse_parts(subject: &'static [u8], line: u32, fault: ParseFault) -> Parts
    ensures { told result ≡ parse_words subject.entry.now line fault }
{
    match fault {
        ParseFault::Unexpected { .. } => counted(subject, b"unexpected token at line ", line),
        ParseFault::UnknownName { .. } => counted(subject, b"unknown name at line ", line),
        ParseFault::NameTwice { .. } => counted(subject, b"name twice at line ", line),
        ParseFault::NotAffine { .. } => counted(subject, b"not affine at line ", line),
        ParseFault::NondetHere { .. } => counted(subject, b"nondet at line ", line),
        ParseFault::Limit { which, .. } => limit_parts(subject, line, which),
        ParseFault::NoVariables => plain_in(subject, b"no variables"),
        ParseFault::BigNumber { .. } => counted(subject, b"big number at line ", line),
        ParseFault::OutsideLoop { .. } => counted(subject, b"outside a loop at line ", line),
        ParseFault::NoMemory => plain(b"out of memory"),
    }
}

fn function_limit_parts(line: u32, which: FunctionLimit) -> Parts
    ensures { told result ≡ function_limit_words line which }
{
    match which {
        FunctionLimit::Variables => counted(PROGRAM, b"variables at line ", line),
        FunctionLimit::Hidden => counted(PROGRAM, b"values at line ", line),
        FunctionLimit::Leaves => counted(PROGRAM, b"leaves at line ", line),
        FunctionLimit::Statements => counted(PROGRAM, b"statements at line ", line),
    }
}

fn function_parts(line: u32, fault: FunctionFault) -> Parts
    ensures { told result ≡ function_words line fault }
{
    match fault {
        FunctionFault::UnknownName { .. } => counted(PROGRAM, b"unknown name at line ", line),
        FunctionFault::NameTwice { .. } => counted(PROGRAM, b"name twice at line ", line),
        FunctionFault::WrongKind { .. } => counted(PROGRAM, b"wrong kind at line ", line),
        FunctionFault::Array { .. } => counted(PROGRAM, b"array at line ", line),
        FunctionFault::BigNumber { .. } => counted(PROGRAM, b"big number at line ", line),
        FunctionFault::SideEffect { .. } => counted(PROGRAM, b"side effect at line ", line),
        FunctionFault::Limit { which, .. } => function_limit_parts(line, which),
        FunctionFault::OutsideLoop { .. } => counted(PROGRAM, b"outside a loop at line ", line),
        FunctionFault::NoVariables => plain_in(PROGRAM, b"no variables"),
        FunctionFault::NoMemory => plain(b"out of memory"),
    }
}

fn foreign_parts(line: u32, foreign: Foreign) -> Parts
    ensures { told result ≡ foreign_words line foreign }
{
    match foreign {
        Foreign::Byte => counted(PROGRAM, b"bad byte at line ", line),
        Foreign::Number => counted(PROGRAM, b"bad number at line ", line),
        Foreign::LongNumber => counted(PROGRAM, b"long number at line ", line),
        Foreign::LongName => counted(PROGRAM, b"long name at line ", line),
    }
}

fn source_parts(line: u32, fault: SourceFault) -> Parts
    ensures { told result ≡ source_words line fault }
{
    match fault {
        SourceFault::Unexpected { .. } => counted(PROGRAM, b"unexpected token at line ", line),
        SourceFault::Nesting { .. } => counted(PROGRAM, b"nesting at line ", line),
        SourceFault::NameTwice { .. } => counted(PROGRAM, b"name twice at line ", line),
        SourceFault::WhichFunction => plain_in(PROGRAM, b"which function"),
        SourceFault::Foreign { foreign, .. } => foreign_parts(line, foreign),
        SourceFault::Macro { .. } => counted(PROGRAM, b"macro at line ", line),
        SourceFault::Function(fault) => function_parts(line, fault),
        SourceFault::NoMemory => plain(b"out of memory"),
    }
}

fn flow_parts(fault: FlowFault) -> Parts
    ensures { told result ≡ flow_words fault }
{
    match fault {
        FlowFault::Cases { line } => counted(PROGRAM, b"cases at line ", line),
        FlowFault::Points { count } => counted_in(PROGRAM, b"", count as u64, b" points\n"),
        FlowFault::Edges => plain_in(PROGRAM, b"edges"),
        FlowFault::Actions { edge } => counted(PROGRAM, b"actions of edge ", edge),
        FlowFault::AllActions => plain_in(PROGRAM, b"actions"),
        FlowFault::Checks { count } => counted_in(PROGRAM, b"", count as u64, b" checks\n"),
        FlowFault::NoMemory => plain(b"out of memory"),
    }
}

fn row_parts(fault: RowFault) -> Parts
    ensures { told result ≡ row_words fault }
{
    match fault {
        RowFault::ZeroRow { line } => counted(ROWS, b"zero row at line ", line),
        RowFault::Count { count } => counted_in(ROWS, b"", count as u64, b" rows\n"),
        RowFault::Large { count } => counted_in(PROGRAM, b"", count as u64, b" rows\n"),
        RowFault::UnknownName { line } => counted(ROWS, b"unknown name at line ", line),
        RowFault::BadRow { line } => counted(ROWS, b"bad row at line ", line),
        RowFault::Length { line } => counted(ROWS, b"length at line ", line),
        RowFault::NoMemory => plain(b"out of memory"),
    }
}

fn claim_parts(line: u32, fault: ClaimFault) -> Parts
    ensures { told result ≡ claim_words line fault }
{
    match fault {
        ClaimFault::Lex(fault) => lex_parts(CLAIMS, line, fault),
        ClaimFault::Parse(fault) => parse_parts(CLAIMS, line, fault),
        ClaimFault::UnknownLabel { .. } => counted(CLAIMS, b"unknown label at line ", line),
        ClaimFault::Count { .. } => counted(CLAIMS, b"claims at line ", line),
        ClaimFault::Cases { .. } => counted(CLAIMS, b"cases at line ", line),
        ClaimFault::NoMemory => plain(b"out of memory"),
    }
}

fn equation_parts(line: u32, fault: EquFault) -> Parts
    ensures { told result ≡ equation_words line fault }
{
    match fault {
        EquFault::Lex(fault) => lex_parts(EQUATIONS, line, fault),
        EquFault::Unexpected { .. } => counted(EQUATIONS, b"unexpected token at line ", line),
        EquFault::NameTwice { .. } => counted(EQUATIONS, b"name twice at line ", line),
        EquFault::Count { count } => counted_in(EQUATIONS, b"", count as u64, b" equations\n"),
        EquFault::UnknownName { .. } => counted(EQUATIONS, b"unknown name at line ", line),
        EquFault::ZeroBelow { .. } => counted(EQUATIONS, b"zero below at line ", line),
        EquFault::Terms { .. } => counted(EQUATIONS, b"terms at line ", line),
        EquFault::Big { .. } => counted(EQUATIONS, b"big number at line ", line),
        EquFault::Alternatives { count } => counted_in(
            EQUATIONS,
            b"",
            count as u64,
            b" alternatives\n",
        ),
        EquFault::NoMemory => plain(b"out of memory"),
    }
}

fn auto_parts(line: u32, fault: AutoFault) -> Parts
    ensures { told result ≡ auto_words line fault }
{
    match fault {
        AutoFault::Lex(fault) => lex_parts(SYSTEM, line, fault),
        AutoFault::Parse(fault) => parse_parts(SYSTEM, line, fault),
        AutoFault::UnknownPoint { .. } => counted(SYSTEM, b"unknown point at line ", line),
        AutoFault::IntoEntry { .. } => counted(SYSTEM, b"into the entry at line ", line),
        AutoFault::Cases { .. } => counted(SYSTEM, b"cases at line ", line),
        AutoFault::Points { count } => counted_in(SYSTEM, b"", count as u64, b" points\n"),
        AutoFault::Edges => plain_in(SYSTEM, b"edges"),
        AutoFault::Actions { edge } => counted(SYSTEM, b"actions of edge ", edge),
        AutoFault::NoMemory => plain(b"out of memory"),
    }
}

fn text_parts(line: u32, cause: TextCause) -> Parts
    ensures { told result ≡ text_words line cause }
{
    match cause {
        TextCause::Lex(fault) => lex_parts(PROGRAM, line, fault),
        TextCause::Source(fault) => source_parts(line, fault),
        TextCause::Flow(fault) => flow_parts(fault),
        TextCause::Rows(fault) => row_parts(fault),
        TextCause::Unknowns(count) => counted_in(PROGRAM, b"", count as u64, b" unknowns\n"),
        TextCause::Claims(fault) => claim_parts(line, fault),
        TextCause::Equ(fault) => equation_parts(line, fault),
        TextCause::Auto(fault) => auto_parts(line, fault),
    }
}

fn read_parts(cause: ReadCause) -> Parts
    ensures { told result ≡ read_words cause }
{
    match cause {
        ReadCause::Failed(Which::Program) => plain(b"cannot read the program"),
        ReadCause::Failed(Which::Rows) => plain(b"cannot read the rows"),
        ReadCause::Failed(Which::Certificate) => plain(b"cannot read the certificate"),
        ReadCause::Failed(Which::Claims) => plain(b"cannot read the claims"),
        ReadCause::Failed(Which::System) => plain(b"cannot read the system"),
        ReadCause::Failed(Which::Equations) => plain(b"cannot read the equations"),
        ReadCause::TooLong(Which::Program) => plain(b"too long: the program"),
        ReadCause::TooLong(Which::Rows) => plain(b"too long: the rows"),
        ReadCause::TooLong(Which::Certificate) => plain(b"too long: the certificate"),
        ReadCause::TooLong(Which::Claims) => plain(b"too long: the claims"),
        ReadCause::TooLong(Which::System) => plain(b"too long: the system"),
        ReadCause::TooLong(Which::Equations) => plain(b"too long: the equations"),
    }
}

// What is told of an ending whose cause stands at this line; of a refused certificate and a wide operation another
// message tells.
fn make_parts(line: u32, status: &Status) -> Parts
    ensures { told result ≡ words_of line status.now }
{
    match status {
        Status::Done | Status::Open | Status::Certificate(_) | Status::Exceeded(Excess::Wide(_)) =>
            plain(b""),
        Status::Exceeded(Excess::Large(cells)) => counted_in(PROGRAM, b"", *cells, b" cells\n"),
        Status::Usage => Parts {
            subject: b"",
            before: usage_line(),
            number: None,
            after: b"",
        },
        Status::Read(cause) => read_parts(*cause),
        Status::Text(cause) => text_parts(line, *cause),
        Status::Spent(number) => counted_in(b"", b"spent: ", *number as u64, b" improvements\n"),
        Status::Memory => plain(b"out of memory"),
        Status::Write => plain(b"cannot write"),
    }
}

/// A message of at most `MOST_MESSAGE_BYTES` bytes, which takes no memory.
#[derive(Drop)]
pub struct Message {
    bytes: [u8; MOST_MESSAGE_BYTES],
    len: usize,
}

impl Model for Message {
    ghost use Rattle.std.specs.Prelude.{List, ℕ, ◌≤◌, take};
    ghost use Rattle.top_status.specs.declared.limits.TheConstants.{MOST_MESSAGE_BYTES};

    ghost Value = { List ℕ };

    ghost view = { λ m. take m.len m.bytes };

    ghost invariant = { λ m. m.len ≤ MOST_MESSAGE_BYTES };
}

impl Message {
    pub(crate) fn new() -> Message
        ensures { result ≡ [] }
    {
        Message {
            bytes: [0; MOST_MESSAGE_BYTES],
            len: 0,
        }
    }

    // Adds a piece at the end.
    pub(crate) fn append(&mut self, piece: &[u8])
        requires { length self.old + length piece.now ≤ MOST_MESSAGE_BYTES }
        ensures { self.new ≡ self.old ++ piece.now }
    {
        let end = self.len + piece.len();
        self.bytes[self.len..end].copy_from_slice(piece);
        self.len = end;
    }

    /// The message of these bytes.
    pub fn of(text: &[u8]) -> Message
        requires { length text.now ≤ MOST_MESSAGE_BYTES }
        ensures { result ≡ text.now }
    {
        let mut message = Message::new();
        message.append(text);
        message
    }

    /// The bytes of the message.
    pub fn bytes(&self) -> &[u8]
        ensures bytes { result.now ≡ self.now }
        ensures short { length result.now ≤ MOST_MESSAGE_BYTES }
    {
        &self.bytes[..self.len]
    }
}

// The message of words and a number, of an ending whose cause stands at this line.
fn plain_message(line: u32, status: &Status) -> Message
    ensures { result ≡ line_text (words_of line status.now) }
{
    let parts = make_parts(line, status);
    let mut buffer = Buffer::new();
    let mut message = Message::new();
    message.append(parts.subject);
    message.append(parts.before);
    if let Some(number) = parts.number {
        message.append(buffer.format(number).as_bytes());
    }
    message.append(parts.after);
    message
}

// The message where more came up than exact work may take.
fn excess_message(line: u32, rows: usize, excess: Excess) -> Message
    ensures { result ≡ message_of line rows (StatusValue.Exceeded excess) }
{
    match excess {
        Excess::Wide(spot) => wide_message(rows, &spot),
        Excess::Large(_) => plain_message(line, &Status::Exceeded(excess)),
    }
}

/// The message of an ending whose cause stands at this line, from 1, where each point has so many rows (docs/FORMATS.md, "Messages").
pub fn make_message(line: u32, rows: usize, status: &Status) -> Message
    ensures { result ≡ message_of line rows status.now }
{
    match status {
        Status::Certificate(cause) => certificate_message(rows, cause),
        Status::Exceeded(excess) => excess_message(line, rows, *excess),
        _ => plain_message(line, status),
    }
}
