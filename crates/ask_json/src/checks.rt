//! Verdicts on checks.

ghost use Rattle.std.specs.Prelude.{◌≡◌, ◌≤◌, ◌∷◌, ◌++◌, IfOk, codes, decimal, false, true, length};
ghost use Rattle.json.specs.Print.{quoted};
ghost use Rattle.base_limits.specs.declared.limits.TheConstants.{MOST_PROGRAM_BYTES};
ghost use Rattle.serde_json.specs.Written.{comma_if, compact_text, items_text, members_text};
ghost use Rattle.ask_checks.specs.Lines.{column_at, kind_text};
ghost use Rattle.out_json.specs.Pieces.{value_line};
ghost use Rattle.ask_json.specs.Checks.{check_members, check_value, check_values, checks_value, last_members, line_members};

use crate::verdicts::{push_end, push_verdict};
use ask_checks::{column_of, kind_text};
use ask_verdicts::Verdict;
use base_json::{push_begin, push_list, push_number_member, push_text_member};
use flow_edges::CheckCases;
use lang_tokens::line_of;
use lang_tree::{Check, CheckKind, Name};
use std::alloc::{AllocError, Global};

/// Appends the line of a check and its verdict, as the last members of an object.
fn push_lined(
    alloc: Global,
    out: &mut Vec<u8>,
    line: u32,
    names: &[Name],
    verdict: &Verdict,
) -> Result<(), AllocError>
    ensures { IfOk result (λ _. out.new.items ≡ out.old.items ++ members_text true (line_members line names.now verdict.now)) }
{
    push_number_member(out, true, b"line", line as u64)?;
    push_verdict(alloc, out, names, verdict)?;
    Ok(())
}

/// Appends what a check is for, as a member.
fn push_kind(out: &mut Vec<u8>, kind: CheckKind) -> Result<(), AllocError>
    ensures { IfOk result (λ _. out.new.items
        ≡ out.old.items ++ (comma_if true ++ (quoted (codes "kind") ++ 58 ∷ quoted (kind_text kind)))) }
{
    push_text_member(out, true, b"kind", kind_text(kind))
}

/// Appends what a check is for, its line and its verdict, as the last members of an object.
fn push_last(
    alloc: Global,
    out: &mut Vec<u8>,
    line: u32,
    names: &[Name],
    kind: CheckKind,
    verdict: &Verdict,
) -> Result<(), AllocError>
    ensures { IfOk result (λ _. out.new.items ≡ out.old.items ++ members_text true (last_members line names.now kind verdict.now)) }
{
    push_kind(out, kind)?;
    push_lined(alloc, out, line, names, verdict)?;
    Ok(())
}

/// Appends the column of a check as the first member of an object.
fn push_column(out: &mut Vec<u8>, text: &[u8], at: u32) -> Result<(), AllocError>
    requires { length text.now ≤ MOST_PROGRAM_BYTES }
    ensures { IfOk result (λ _. out.new.items
        ≡ out.old.items ++ (comma_if false ++ (quoted (codes "column") ++ 58 ∷ decimal (column_at text.now at)))) }
{
    push_number_member(out, false, b"column", column_of(text, at) as u64)
}

/// Appends the members of a check of a text with its verdict.
fn push_members(
    alloc: Global,
    out: &mut Vec<u8>,
    text: &[u8],
    names: &[Name],
    check: Check,
    verdict: &Verdict,
) -> Result<(), AllocError>
    requires { length text.now ≤ MOST_PROGRAM_BYTES }
    ensures { IfOk result (λ _. out.new.items
        ≡ out.old.items ++ members_text false (check_members text.now names.now check verdict.now)) }
{
    push_column(out, text, check.at)?;
    let line = line_of(text, check.at);
    push_last(alloc, out, line, names, check.kind, verdict)?;
    Ok(())
}

/// Appends a check of a text with its verdict.
fn push_check(
    alloc: Global,
    out: &mut Vec<u8>,
    text: &[u8],
    names: &[Name],
    check: Check,
    verdict: &Verdict,
) -> Result<(), AllocError>
    requires { length text.now ≤ MOST_PROGRAM_BYTES }
    ensures { IfOk result (λ _. out.new.items ≡ out.old.items ++ compact_text (check_value text.now names.now check verdict.now)) }
{
    out.extend_from_slice(b"{")?;
    push_members(alloc, out, text, names, check, verdict)?;
    Ok(())
}

/// Appends each check of a text with its verdict.
fn push_checks(
    alloc: Global,
    out: &mut Vec<u8>,
    text: &[u8],
    names: &[Name],
    checks: &[CheckCases],
    verdicts: &[Verdict],
) -> Result<(), AllocError>
    requires { length text.now ≤ MOST_PROGRAM_BYTES }
    ensures { IfOk result (λ _. out.new.items
        ≡ out.old.items ++ items_text false (check_values text.now names.now checks.now verdicts.now)) }
{
    for number in 0..checks.len().min(verdicts.len()) {
        push_begin(out, number > 0)?;
        push_check(
            alloc,
            out,
            text,
            names,
            checks[number].check,
            &verdicts[number],
        )?;
    }
    out.extend_from_slice(b"]")?;
    Ok(())
}

/// Appends the line of the verdicts on the checks of a text.
fn push_line(
    alloc: Global,
    out: &mut Vec<u8>,
    text: &[u8],
    names: &[Name],
    checks: &[CheckCases],
    verdicts: &[Verdict],
    improvements: u32,
) -> Result<(), AllocError>
    requires { length text.now ≤ MOST_PROGRAM_BYTES }
    ensures { IfOk result (λ _. out.new.items
        ≡ out.old.items ++ value_line (checks_value text.now names.now checks.now verdicts.now improvements)) }
{
    out.extend_from_slice(b"{")?;
    push_list(out, false, b"checks")?;
    push_checks(alloc, out, text, names, checks, verdicts)?;
    push_end(out, verdicts, improvements)?;
    Ok(())
}

/// The verdicts on the checks of a text as a line of JSON (docs/FORMATS.md, "JSON").
pub fn checks_json(
    alloc: Global,
    text: &[u8],
    names: &[Name],
    checks: &[CheckCases],
    verdicts: &[Verdict],
    improvements: u32,
) -> Result<Vec<u8>, AllocError>
    requires { length text.now ≤ MOST_PROGRAM_BYTES }
    ensures { IfOk result (λ out. out.items ≡ value_line (checks_value text.now names.now checks.now verdicts.now improvements)) }
{
    let mut out = Vec::new(alloc);
    push_line(alloc, &mut out, text, names, checks, verdicts, improvements)?;
    Ok(out)
}
