//! The messages of a check: a certificate that is refused, and an operation that is too wide.

ghost use Rattle.std.specs.Prelude.{◌≡◌, ◌≤◌, ◌+◌, ◌++◌, ◌/◌, ◌%◌, codes, decimal, length};
ghost use Rattle.base_fractions.specs.Texts.{frac_text};
ghost use Rattle.top_status.specs.CheckMessages.{cause_text, certificate_message, check_text, field_text, form_text, item_text, numbered};
ghost use Rattle.top_status.specs.CheckMessages.{op_text, part_text, place_text, site_text, spot_text, unknown_text, wide_message};

use crate::message::Message;
use crate::status::CertCause;
use base_fractions::{Frac, Op};
use cert_checker::CheckFault;
use cert_text::{Field, FormFault};
use flow_systems::{Part, Site, Spot};
use itoa::Buffer;

/// Adds some words at the end.
pub(crate) fn push_words(message: &mut Message, words: &[u8])
    requires few { length words.now ≤ 24 }
    requires room { length message.old ≤ 480 }
    ensures text { message.new ≡ message.old ++ words.now }
    ensures growth { length message.new ≤ length message.old + 24 }
{
    message.append(words);
}

// Adds a number at the end.
fn push_number(message: &mut Message, number: u64)
    requires room { length message.old ≤ 470 }
    ensures text { message.new ≡ message.old ++ decimal number }
    ensures growth { length message.new ≤ length message.old + 40 }
{
    let mut buffer = Buffer::new();
    message.append(buffer.format(number).as_bytes());
}

/// Adds words and a number behind them.
pub(crate) fn push_numbered(message: &mut Message, words: &[u8], number: u64)
    requires few { length words.now ≤ 24 }
    requires room { length message.old ≤ 440 }
    ensures text { message.new ≡ message.old ++ numbered words.now number }
    ensures growth { length message.new ≤ length message.old + 64 }
{
    push_words(message, words);
    push_number(message, number);
}

// Adds a fraction.
fn push_frac(message: &mut Message, number: Frac)
    requires room { length message.old ≤ 470 }
    ensures text { message.new ≡ message.old ++ frac_text number }
    ensures growth { length message.new ≤ length message.old + 40 }
{
    message.append(number.text().bytes());
}

// Adds words, and behind them a step and an item.
fn push_item(message: &mut Message, words: &[u8], step: u32, item: u32)
    requires few { length words.now ≤ 8 }
    requires room { length message.old ≤ 256 }
    ensures text { message.new ≡ message.old ++ item_text words.now step item }
    ensures growth { length message.new ≤ length message.old + 152 }
{
    push_words(message, words);
    push_numbered(message, b", step ", step as u64);
    push_numbered(message, b", item ", item as u64);
}

// The point of an unknown, where each point has so many rows.
fn point_of(rows: usize, unknown: u32) -> u64
    ensures { result ≡ unknown / rows }
{
    if rows == 0 {
        0
    } else {
        unknown as u64 / rows as u64
    }
}

// The row of an unknown, where each point has so many rows.
fn row_of(rows: usize, unknown: u32) -> u64
    ensures { result ≡ unknown % rows }
{
    if rows == 0 {
        unknown as u64
    } else {
        unknown as u64 % rows as u64
    }
}

// Adds the point and the row of an unknown, with these words before them.
fn push_unknown(message: &mut Message, point: &[u8], row: &[u8], rows: usize, unknown: u32)
    requires few_before { length point.now ≤ 24 }
    requires few_between { length row.now ≤ 24 }
    requires room { length message.old ≤ 256 }
    ensures text { message.new ≡ message.old ++ unknown_text point.now row.now rows unknown }
    ensures growth { length message.new ≤ length message.old + 128 }
{
    push_numbered(message, point, point_of(rows, unknown));
    push_numbered(message, row, row_of(rows, unknown));
}

fn field_words(field: Field) -> &'static [u8]
    ensures text { result.now ≡ field_text field }
    ensures few { length result.now ≤ 24 }
{
    match field {
        Field::Top => b"top",
        Field::Format => b"format",
        Field::Rows => b"rows",
        Field::Bounds => b"bounds",
        Field::Traces => b"traces",
        Field::Steps => b"steps",
        Field::Uppers => b"uppers",
    }
}

// Adds why bytes spell no certificate.
fn push_form(message: &mut Message, fault: FormFault)
    requires room { length message.old ≤ 256 }
    ensures text { message.new ≡ message.old ++ form_text fault }
    ensures growth { length message.new ≤ length message.old + 64 }
{
    match fault {
        FormFault::NotJson => push_words(message, b"not json"),
        FormFault::Shape(field) => {
            push_words(message, b"field ");
            push_words(message, field_words(field));
        }
        FormFault::Number(field) => {
            push_words(message, b"number in ");
            push_words(message, field_words(field));
        }
        FormFault::Version => push_words(message, b"format"),
        FormFault::Expanded => push_words(message, b"expanded"),
        FormFault::NoMemory => push_words(message, b"out of memory"),
    }
}

// Adds a part of solving a linear problem.
fn push_part(message: &mut Message, part: Part)
    requires room { length message.old ≤ 400 }
    ensures text { message.new ≡ message.old ++ part_text part }
    ensures growth { length message.new ≤ length message.old + 64 }
{
    match part {
        Part::Side => push_words(message, b" side"),
        Part::Pivot(number) => push_numbered(message, b" pivot ", number as u64),
        Part::Reading => push_words(message, b" reading"),
    }
}

// Adds the transformer of an edge and a row, and a part of solving its problem.
fn push_transformer(message: &mut Message, words: &[u8], edge: u32, row: u32, part: Part)
    requires few { length words.now ≤ 24 }
    requires room { length message.old ≤ 200 }
    ensures text { message.new ≡ message.old ++ (numbered words.now edge ++ numbered (codes " row ") row ++ part_text part) }
    ensures growth { length message.new ≤ length message.old + 192 }
{
    push_numbered(message, words, edge as u64);
    push_numbered(message, b" row ", row as u64);
    push_part(message, part);
}

// Adds a check on an edge, one of its cases, and a part of solving its problem.
fn push_place(message: &mut Message, check: u32, edge: u32, case: u32, part: Part)
    requires { length message.old ≤ 200 }
    ensures text { message.new ≡ message.old ++ place_text check edge case part }
    ensures growth { length message.new ≤ length message.old + 256 }
{
    push_numbered(message, b"check ", check as u64);
    push_numbered(message, b" edge ", edge as u64);
    push_numbered(message, b" case ", case as u64);
    push_part(message, part);
}

// Adds a site, and its round where there are rounds.
fn push_site(message: &mut Message, rows: usize, round: u32, site: Site)
    requires room { length message.old ≤ 200 }
    ensures text { message.new ≡ message.old ++ site_text rows round site }
    ensures growth { length message.new ≤ length message.old + 256 }
{
    match site {
        Site::Compose { edge } => push_numbered(message, b"compose edge ", edge as u64),
        Site::Offer { edge, row, part } => {
            push_transformer(message, b"offer edge ", edge, row, part);
            push_numbered(message, b" in round ", round as u64);
        }
        Site::Growth { edge, row, part } => {
            push_transformer(message, b"growth edge ", edge, row, part);
            push_numbered(message, b" in round ", round as u64);
        }
        Site::Joint { turn, part } => {
            push_numbered(message, b"joint ", turn as u64);
            push_part(message, part);
            push_numbered(message, b" in round ", round as u64);
        }
        Site::Raise { raise } => {
            push_numbered(message, b"raise ", raise as u64);
            push_numbered(message, b" in round ", round as u64);
        }
        Site::Step { step, item } => {
            push_numbered(message, b"step ", step as u64);
            push_numbered(message, b" item ", item as u64);
        }
        Site::Upper { unknown, edge } => {
            push_unknown(message, b"upper point ", b" row ", rows, unknown);
            push_numbered(message, b" edge ", edge as u64);
        }
        Site::Claim { claim, case, part } => {
            push_numbered(message, b"claim ", claim as u64);
            push_numbered(message, b" case ", case as u64);
            push_part(message, part);
        }
        Site::Check {
            check,
            edge,
            case,
            part,
        } => push_place(message, check, edge, case, part),
    }
}

fn op_words(op: Op) -> &'static [u8]
    ensures text { result.now ≡ op_text op }
    ensures few { length result.now ≤ 24 }
{
    match op {
        Op::Add => b"add ",
        Op::Sub => b"sub ",
        Op::Mul => b"mul ",
        Op::Div => b"div ",
    }
}

// Adds an operation with its operands, and where it stands.
fn push_spot(message: &mut Message, rows: usize, spot: &Spot)
    requires room { length message.old ≤ 40 }
    ensures text { message.new ≡ message.old ++ spot_text rows spot.now }
    ensures growth { length message.new ≤ length message.old + 408 }
{
    push_words(message, op_words(spot.wide.op));
    push_frac(message, spot.wide.left);
    push_words(message, b" ");
    push_frac(message, spot.wide.right);
    push_words(message, b" at ");
    push_site(message, rows, spot.round, spot.site);
}

// Adds why a certificate isn't accepted.
fn push_check(message: &mut Message, rows: usize, fault: &CheckFault)
    requires room { length message.old ≤ 32 }
    ensures text { message.new ≡ message.old ++ check_text rows fault.now }
    ensures growth { length message.new ≤ length message.old + 408 }
{
    match fault {
        CheckFault::Size => push_words(message, b"size"),
        CheckFault::Trace { step, item } => { push_item(message, b"trace", *step, *item) }
        CheckFault::Low { step, item } => { push_item(message, b"low", *step, *item) }
        CheckFault::High { step, item } => { push_item(message, b"high", *step, *item) }
        CheckFault::Ray { step, item } => { push_item(message, b"ray", *step, *item) }
        CheckFault::Upper { unknown, edge } => {
            push_unknown(message, b"upper, point ", b", row ", rows, *unknown);
            push_numbered(message, b", edge ", *edge as u64);
        }
        CheckFault::Final { unknown } => {
            push_unknown(message, b"final, point ", b", row ", rows, *unknown)
        }
        CheckFault::Wide(spot) => push_spot(message, rows, spot),
    }
}

// Adds why a certificate is refused.
fn push_cause(message: &mut Message, rows: usize, cause: &CertCause)
    requires room { length message.old ≤ 32 }
    ensures text { message.new ≡ message.old ++ cause_text rows cause.now }
    ensures growth { length message.new ≤ length message.old + 408 }
{
    match cause {
        CertCause::Form(fault) => push_form(message, *fault),
        CertCause::Rows(_) => push_words(message, b"rows"),
        CertCause::Unknowns(count) => {
            push_number(message, *count as u64);
            push_words(message, b" unknowns");
        }
        CertCause::Check(fault) => push_check(message, rows, fault),
    }
}

// The message where a certificate is refused; each point has so many rows.
pub(crate) fn certificate_message(rows: usize, cause: &CertCause) -> Message
    ensures { result ≡ certificate_message rows cause.now }
{
    let mut message = Message::new();
    push_words(&mut message, b"certificate refused: ");
    push_cause(&mut message, rows, cause);
    message.append(b"\n");
    message
}

// The message where an operation is too wide; each point has so many rows.
pub(crate) fn wide_message(rows: usize, spot: &Spot) -> Message
    ensures { result ≡ wide_message rows spot.now }
{
    let mut message = Message::new();
    push_words(&mut message, b"wide: ");
    push_spot(&mut message, rows, spot);
    message.append(b"\n");
    message
}
