//! Verdicts on checks as lines.

ghost use Rattle.std.specs.Prelude.{◌≡◌, ◌≤◌, ◌++◌, IfOk, length};
ghost use Rattle.base_limits.specs.declared.limits.TheConstants.{MOST_PROGRAM_BYTES};
ghost use Rattle.ask_checks.specs.Lines.{check_line, check_lines, checks_text, column_at, kind_text};

use ask_verdicts::{Verdict, push_counts, push_verdict};
use flow_edges::CheckCases;
use flow_systems::Footer;
use lang_tokens::line_of;
use lang_tree::{CheckKind, Name};
use out_report::{push_footer, push_number};
use std::alloc::{AllocError, Global};

/// The column of the byte at a place, counted from 1 in bytes since its line begins; `at` counts the bytes before it.
pub fn column_of(text: &[u8], at: u32) -> u32
    requires { length text.now ≤ MOST_PROGRAM_BYTES }
    ensures { result ≡ column_at text.now at }
{
    let before = &text[..text.len().min(at as usize)];
    let mut column = 1;
    for byte in before {
        column = if *byte == b'\n' { 1 } else { column + 1 };
    }
    column
}

/// What a check is for.
pub fn kind_text(kind: CheckKind) -> &'static [u8]
    ensures { result.now ≡ kind_text kind }
{
    match kind {
        CheckKind::Assert => b"assert",
        CheckKind::Divisor => b"divisor",
        CheckKind::Error => b"error",
        CheckKind::Index => b"index",
        CheckKind::Range => b"range",
    }
}

/// Appends the line of a check.
fn push_check(
    out: &mut Vec<u8>,
    text: &[u8],
    names: &[Name],
    number: usize,
    check: &CheckCases,
    verdict: &Verdict,
) -> Result<(), AllocError>
    requires { length text.now ≤ MOST_PROGRAM_BYTES }
    ensures { IfOk result (λ _. out.new.items ≡ out.old.items ++ check_line text.now names.now number check.now verdict.now) }
{
    let at = check.check.at;
    out.extend_from_slice(b"check ")?;
    push_number(out, number as u64)?;
    out.extend_from_slice(b" at ")?;
    push_number(out, line_of(text, at) as u64)?;
    out.extend_from_slice(b":")?;
    push_number(out, column_of(text, at) as u64)?;
    out.extend_from_slice(b": ")?;
    out.extend_from_slice(kind_text(check.check.kind))?;
    out.extend_from_slice(b": ")?;
    push_verdict(out, names, verdict)?;
    out.extend_from_slice(b"\n")?;
    Ok(())
}

/// Appends the lines of all checks.
fn push_checks(
    out: &mut Vec<u8>,
    text: &[u8],
    names: &[Name],
    checks: &[CheckCases],
    verdicts: &[Verdict],
) -> Result<(), AllocError>
    requires { length text.now ≤ MOST_PROGRAM_BYTES }
    ensures { IfOk result (λ _. out.new.items ≡ out.old.items ++ check_lines text.now names.now 0 checks.now verdicts.now) }
{
    for number in 0..checks.len().min(verdicts.len()) {
        push_check(out, text, names, number, &checks[number], &verdicts[number])?;
    }
    Ok(())
}

/// The verdicts on the checks of a text as lines (docs/FORMATS.md, "Checks"): one for each check, counted from 0, with the line and
/// the column of its place, an open one with the values of the variables of these names; then how many are proved, and how
/// many improvements were made.
pub fn checks_text(
    alloc: Global,
    text: &[u8],
    names: &[Name],
    checks: &[CheckCases],
    verdicts: &[Verdict],
    improvements: u32,
) -> Result<Vec<u8>, AllocError>
    requires { length text.now ≤ MOST_PROGRAM_BYTES }
    ensures { IfOk result (λ out. out.items ≡ checks_text text.now names.now checks.now verdicts.now improvements) }
{
    let mut out = Vec::new(alloc);
    push_checks(&mut out, text, names, checks, verdicts)?;
    push_counts(&mut out, verdicts, checks.len())?;
    push_footer(&mut out, Footer::Improvements(improvements))?;
    Ok(out)
}
