//! Open checks as SARIF.

ghost use Rattle.std.specs.Prelude.{◌≡◌, ◌≤◌, ◌∷◌, ◌++◌, IfOk, codes, false, true, length};
ghost use Rattle.base_limits.specs.declared.limits.TheConstants.{MOST_PROGRAM_BYTES};
ghost use Rattle.json.specs.Print.{quoted};
ghost use Rattle.serde_json.specs.Data.{item, no_items, object, string};
ghost use Rattle.serde_json.specs.Written.{comma_if, compact_text, items_text, members_text};
ghost use Rattle.out_json.specs.Pieces.{value_line};
ghost use Rattle.ask_json.specs.Sarif.{finding, finding_members, head_text, is_later, last_members, location, log_value};
ghost use Rattle.ask_json.specs.Sarif.{message, only, open_text, physical_members, placed_members, region, region_members};
ghost use Rattle.ask_json.specs.Sarif.{results, rule_members, sarif_value, tail_text};

use crate::source::Source;
use ask_checks::{column_of, kind_text};
use ask_verdicts::{Verdict, push_verdict};
use base_json::{push_begin, push_key, push_list, push_number_member, push_text_member};
use flow_edges::CheckCases;
use lang_tokens::line_of;
use lang_tree::{CheckKind, Name};
use out_json::uri_of;
use std::alloc::{AllocError, Global};

/// Appends an object with one member, whose value is a text.
fn push_only(out: &mut Vec<u8>, key: &[u8], text: &[u8]) -> Result<(), AllocError>
    ensures { IfOk result (λ _. out.new.items ≡ out.old.items ++ compact_text (only key.now (string text.now))) }
{
    out.extend_from_slice(b"{")?;
    push_text_member(out, false, key, text)?;
    out.extend_from_slice(b"}")?;
    Ok(())
}

/// Appends where in a text a place is.
fn push_region(out: &mut Vec<u8>, text: &[u8], at: u32) -> Result<(), AllocError>
    requires { length text.now ≤ MOST_PROGRAM_BYTES }
    ensures { IfOk result (λ _. out.new.items ≡ out.old.items ++ compact_text (region text.now at)) }
{
    out.extend_from_slice(b"{")?;
    push_number_member(out, false, b"startColumn", column_of(text, at) as u64)?;
    push_number_member(out, true, b"startLine", line_of(text, at) as u64)?;
    out.extend_from_slice(b"}")?;
    Ok(())
}

/// Appends the file of a place as the first member of an object.
fn push_artifact(out: &mut Vec<u8>, uri: &[u8]) -> Result<(), AllocError>
    ensures { IfOk result (λ _. out.new.items ≡ out.old.items
        ++ (comma_if false ++ (quoted (codes "artifactLocation") ++ 58 ∷ compact_text (only (codes "uri") (string uri.now))))) }
{
    push_key(out, false, b"artifactLocation")?;
    push_only(out, b"uri", uri)?;
    Ok(())
}

/// Appends where in a text a place is, as the last member of an object.
fn push_last_region(out: &mut Vec<u8>, text: &[u8], at: u32) -> Result<(), AllocError>
    requires { length text.now ≤ MOST_PROGRAM_BYTES }
    ensures { IfOk result (λ _. out.new.items ≡ out.old.items ++ members_text true (region_members text.now at)) }
{
    push_key(out, true, b"region")?;
    push_region(out, text, at)?;
    out.extend_from_slice(b"}")?;
    Ok(())
}

/// Appends the members of a place in the file of this URI.
fn push_physical(out: &mut Vec<u8>, uri: &[u8], text: &[u8], at: u32) -> Result<(), AllocError>
    requires { length text.now ≤ MOST_PROGRAM_BYTES }
    ensures { IfOk result (λ _. out.new.items
        ≡ out.old.items ++ members_text false (physical_members uri.now text.now at)) }
{
    push_artifact(out, uri)?;
    push_last_region(out, text, at)?;
    Ok(())
}

/// Appends a place in the file of this URI as an object.
fn push_place(out: &mut Vec<u8>, uri: &[u8], text: &[u8], at: u32) -> Result<(), AllocError>
    requires { length text.now ≤ MOST_PROGRAM_BYTES }
    ensures { IfOk result (λ _. out.new.items
        ≡ out.old.items ++ compact_text (object (physical_members uri.now text.now at))) }
{
    out.extend_from_slice(b"{")?;
    push_physical(out, uri, text, at)?;
    Ok(())
}

/// Appends the location of a check in the file of this URI.
fn push_location(out: &mut Vec<u8>, uri: &[u8], text: &[u8], at: u32) -> Result<(), AllocError>
    requires { length text.now ≤ MOST_PROGRAM_BYTES }
    ensures { IfOk result (λ _. out.new.items ≡ out.old.items ++ compact_text (location uri.now text.now at)) }
{
    out.extend_from_slice(b"{")?;
    push_key(out, false, b"physicalLocation")?;
    push_place(out, uri, text, at)?;
    out.extend_from_slice(b"}")?;
    Ok(())
}

/// Appends the one location of a check, and the bracket that closes their list.
fn push_locations(out: &mut Vec<u8>, uri: &[u8], text: &[u8], at: u32) -> Result<(), AllocError>
    requires { length text.now ≤ MOST_PROGRAM_BYTES }
    ensures { IfOk result (λ _. out.new.items
        ≡ out.old.items ++ items_text false (item (location uri.now text.now at) no_items)) }
{
    push_location(out, uri, text, at)?;
    out.extend_from_slice(b"]")?;
    Ok(())
}

/// What is said of a check.
fn message_of(
    alloc: Global,
    names: &[Name],
    check: &CheckCases,
    verdict: &Verdict,
) -> Result<Vec<u8>, AllocError>
    ensures { IfOk result (λ text. text.items ≡ message names.now check.now verdict.now) }
{
    let mut text = Vec::new(alloc);
    text.extend_from_slice(kind_text(check.check.kind))?;
    text.extend_from_slice(b": ")?;
    push_verdict(&mut text, names, verdict)?;
    Ok(text)
}

/// Appends the message of a check as an object.
fn push_text(
    out: &mut Vec<u8>,
    source: &Source,
    check: &CheckCases,
    verdict: &Verdict,
) -> Result<(), AllocError>
    ensures { IfOk result (λ _. out.new.items ≡ out.old.items
        ++ compact_text (only (codes "text") (string (message source.now.names.now check.now verdict.now)))) }
{
    let message = message_of(source.alloc, source.names, check, verdict)?;
    push_only(out, b"text", &message)
}

/// Appends the message of a check as a member.
fn push_message(
    out: &mut Vec<u8>,
    source: &Source,
    check: &CheckCases,
    verdict: &Verdict,
) -> Result<(), AllocError>
    ensures { IfOk result (λ _. out.new.items ≡ out.old.items ++ (comma_if true ++ (quoted (codes "message")
        ++ 58 ∷ compact_text (only (codes "text") (string (message source.now.names.now check.now verdict.now)))))) }
{
    push_key(out, true, b"message")?;
    push_text(out, source, check, verdict)?;
    Ok(())
}

/// Appends the rule of a check as the last member of an object.
fn push_rule(out: &mut Vec<u8>, kind: CheckKind) -> Result<(), AllocError>
    ensures { IfOk result (λ _. out.new.items ≡ out.old.items ++ members_text true (rule_members kind)) }
{
    push_text_member(out, true, b"ruleId", kind_text(kind))?;
    out.extend_from_slice(b"}")?;
    Ok(())
}

/// Appends the message and the rule of a check, as the last members of an object.
fn push_last(
    out: &mut Vec<u8>,
    source: &Source,
    check: &CheckCases,
    verdict: &Verdict,
) -> Result<(), AllocError>
    ensures { IfOk result (λ _. out.new.items
        ≡ out.old.items ++ members_text true (last_members source.now.names.now check.now verdict.now)) }
{
    push_message(out, source, check, verdict)?;
    push_rule(out, check.check.kind)?;
    Ok(())
}

/// Appends the place, the message and the rule of a check, as the last members of an object.
fn push_placed(
    out: &mut Vec<u8>,
    source: &Source,
    check: &CheckCases,
    verdict: &Verdict,
) -> Result<(), AllocError>
    ensures { IfOk result (λ _. out.new.items ≡ out.old.items ++ members_text true
        (placed_members source.now.uri.now source.now.text.now source.now.names.now check.now verdict.now)) }
{
    push_list(out, true, b"locations")?;
    push_locations(out, source.uri, source.text, check.check.at)?;
    push_last(out, source, check, verdict)?;
    Ok(())
}

/// Appends the level of a check that is told, as the first member of an object.
fn push_level(out: &mut Vec<u8>) -> Result<(), AllocError>
    ensures { IfOk result (λ _. out.new.items
        ≡ out.old.items ++ (comma_if false ++ (quoted (codes "level") ++ 58 ∷ quoted (codes "warning")))) }
{
    push_text_member(out, false, b"level", b"warning")
}

/// Appends the members of a check that is told.
fn push_members(
    out: &mut Vec<u8>,
    source: &Source,
    check: &CheckCases,
    verdict: &Verdict,
) -> Result<(), AllocError>
    ensures { IfOk result (λ _. out.new.items ≡ out.old.items ++ members_text false
        (finding_members source.now.uri.now source.now.text.now source.now.names.now check.now verdict.now)) }
{
    push_level(out)?;
    push_placed(out, source, check, verdict)?;
    Ok(())
}

/// Appends a check that is told.
fn push_result(
    out: &mut Vec<u8>,
    source: &Source,
    check: &CheckCases,
    verdict: &Verdict,
) -> Result<(), AllocError>
    ensures { IfOk result (λ _. out.new.items ≡ out.old.items
        ++ compact_text (finding source.now.uri.now source.now.text.now source.now.names.now check.now verdict.now)) }
{
    out.extend_from_slice(b"{")?;
    push_members(out, source, check, verdict)?;
    Ok(())
}

/// Appends a check where it is open, behind a comma where there is one before it, and says whether there is one before the next.
fn push_open(
    out: &mut Vec<u8>,
    source: &Source,
    check: &CheckCases,
    verdict: &Verdict,
    later: bool,
) -> Result<bool, AllocError>
    ensures text { IfOk result (λ _. out.new.items ≡ out.old.items
        ++ open_text later source.now.uri.now source.now.text.now source.now.names.now check.now verdict.now) }
    ensures next { IfOk result (λ next. next ≡ is_later later verdict.now) }
{
    match verdict {
        Verdict::Proved => Ok(later),
        Verdict::Open { .. } => {
            push_begin(out, later)?;
            push_result(out, source, check, verdict)?;
            Ok(true)
        }
    }
}

/// Appends each open check.
#[tactic(auto, using(crate::proofs::Rests::next_result))]
fn push_results(
    out: &mut Vec<u8>,
    source: &Source,
    checks: &[CheckCases],
    verdicts: &[Verdict],
) -> Result<(), AllocError>
    ensures { IfOk result (λ _. out.new.items ≡ out.old.items ++ items_text false
        (results source.now.uri.now source.now.text.now source.now.names.now checks.now verdicts.now)) }
{
    let mut later = false;
    for number in 0..checks.len().min(verdicts.len()) {
        later = push_open(out, source, &checks[number], &verdicts[number], later)?;
    }
    out.extend_from_slice(b"]")?;
    Ok(())
}

/// Appends the beginning of a log, up to its results.
fn push_head(out: &mut Vec<u8>) -> Result<(), AllocError>
    ensures { IfOk result (λ _. out.new.items ≡ out.old.items ++ head_text) }
{
    out.extend_from_slice(
        b"{\"$schema\":\"https://json.schemastore.org/sarif-2.1.0.json\",\"runs\":[{\"results\":[",
    )?;
    Ok(())
}

/// Appends the end of a log, behind its results: the tool and the version.
fn push_tail(out: &mut Vec<u8>) -> Result<(), AllocError>
    ensures { IfOk result (λ _. out.new.items ≡ out.old.items ++ tail_text) }
{
    out.extend_from_slice(
        b",\"tool\":{\"driver\":{\"name\":\"tmpl\",\"rules\":[{\"id\":\"assert\"},{\"id\":\"divisor\"},{\"id\":\"error\"},\
        {\"id\":\"index\"},{\"id\":\"range\"}]}}}],\"version\":\"2.1.0\"}\n",
    )?;
    Ok(())
}

/// Appends the line of a log.
fn push_log(
    out: &mut Vec<u8>,
    source: &Source,
    checks: &[CheckCases],
    verdicts: &[Verdict],
) -> Result<(), AllocError>
    ensures { IfOk result (λ _. out.new.items ≡ out.old.items ++ value_line
        (log_value (results source.now.uri.now source.now.text.now source.now.names.now checks.now verdicts.now))) }
{
    push_head(out)?;
    push_results(out, source, checks, verdicts)?;
    push_tail(out)?;
    Ok(())
}

/// The open checks of the text of a file as a log of SARIF 2.1.0, a line of JSON (docs/FORMATS.md, "SARIF"): each with its place, and
/// with what the text of verdicts says of it.
pub fn checks_sarif(
    alloc: Global,
    file: &[u8],
    text: &[u8],
    names: &[Name],
    checks: &[CheckCases],
    verdicts: &[Verdict],
) -> Result<Vec<u8>, AllocError>
    requires { length text.now ≤ MOST_PROGRAM_BYTES }
    ensures { IfOk result (λ out. out.items ≡ value_line (sarif_value file.now text.now names.now checks.now verdicts.now)) }
{
    let uri = uri_of(alloc, file)?;
    let source = Source {
        alloc,
        uri: &uri,
        text,
        names,
    };
    let mut out = Vec::new(alloc);
    push_log(&mut out, &source, checks, verdicts)?;
    Ok(out)
}
