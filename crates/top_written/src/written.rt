//! What is written in each format (docs/FORMATS.md, "The report", "Verdicts", "Checks", "JSON" and "SARIF").

ghost use Rattle.std.specs.Prelude.{◌≡◌, ◌*◌, ◌+◌, ◌≤◌, IfOk, length};
ghost use Rattle.base_limits.specs.declared.limits.TheConstants.{MOST_PROGRAM_BYTES};
ghost use Rattle.flow_systems.specs.View.{vector_of};
ghost use Rattle.flow_systems.specs.declared.footer.Footer.TheVariants.{Improvements};
ghost use Rattle.lang_tree.specs.declared.limits.TheConstants.{MOST_VARIABLES};
ghost use Rattle.top_written.specs.Formats.{checks_in, claims_in, report_of_in, values_in};

use ask_checks::checks_text;
use ask_claims::{Claim, verdicts_text};
use ask_json::{checks_json, checks_sarif, claims_json};
use ask_verdicts::Verdict;
use ask_words::Format;
use flow_edges::CheckCases;
use flow_systems::{Bounds, Footer, System};
use lang_tree::Name;
use out_json::{report_json, values_json};
use out_report::{report, values};
use std::alloc::{AllocError, Global};

/// The whole report on the bounds of a system.
pub fn written_report(
    alloc: Global,
    system: &System,
    bounds: &Bounds,
    footer: Footer,
    format: Format,
) -> Result<Vec<u8>, AllocError>
    requires { length bounds.now ≡ length system.now.flow.points * length system.now.template }
    ensures { IfOk result (λ bytes. bytes.items
        ≡ report_of_in format system.now (vector_of (length system.now.template) bounds.now) footer) }
{
    match format {
        Format::Text => report(alloc, system, bounds, footer),
        Format::Json | Format::Sarif => report_json(alloc, system, bounds, footer),
    }
}

/// The values of names: the bounds of a point, counted from 0, where each point has one row for each of these names.
pub fn written_values(
    alloc: Global,
    names: &[Name],
    bounds: &Bounds,
    point: u32,
    improvements: u32,
    format: Format,
) -> Result<Vec<u8>, AllocError>
    requires names { length names.now ≤ MOST_VARIABLES }
    requires bounds { (point + 1) * length names.now ≤ length bounds.now }
    ensures { IfOk result (λ bytes. bytes.items
        ≡ values_in format names.now (vector_of (length names.now) bounds.now point) (Improvements improvements)) }
{
    match format {
        Format::Text => values(
            alloc,
            names,
            bounds,
            point,
            Footer::Improvements(improvements),
        ),
        Format::Json | Format::Sarif => values_json(alloc, names, bounds, point, improvements),
    }
}

/// The verdicts on claims.
pub fn written_claims(
    alloc: Global,
    names: &[Name],
    claims: &[Claim],
    verdicts: &[Verdict],
    improvements: u32,
    format: Format,
) -> Result<Vec<u8>, AllocError>
    ensures { IfOk result (λ bytes. bytes.items ≡ claims_in format names.now claims.now verdicts.now improvements) }
{
    match format {
        Format::Text => verdicts_text(alloc, names, claims, verdicts, improvements),
        Format::Json | Format::Sarif => claims_json(alloc, names, claims, verdicts, improvements),
    }
}

/// The verdicts on the checks of the text of a file.
pub fn written_checks(
    alloc: Global,
    file: &[u8],
    text: &[u8],
    names: &[Name],
    checks: &[CheckCases],
    verdicts: &[Verdict],
    improvements: u32,
    format: Format,
) -> Result<Vec<u8>, AllocError>
    requires { length text.now ≤ MOST_PROGRAM_BYTES }
    ensures { IfOk result (λ bytes. bytes.items
        ≡ checks_in format file.now text.now names.now checks.now verdicts.now improvements) }
{
    match format {
        Format::Text => checks_text(alloc, text, names, checks, verdicts, improvements),
        Format::Json => checks_json(alloc, text, names, checks, verdicts, improvements),
        Format::Sarif => checks_sarif(alloc, file, text, names, checks, verdicts),
    }
}
