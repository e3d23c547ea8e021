//! Verdicts on claims as lines.

ghost use Rattle.std.specs.Prelude.{◌≡◌, ◌++◌, IfOk};
ghost use Rattle.ask_claims.specs.Lines.{claim_line, claim_lines, verdicts_text};

use crate::claim::Claim;
use ask_verdicts::{Verdict, push_counts, push_verdict};
use flow_systems::Footer;
use lang_tree::Name;
use out_report::{push_footer, push_number};
use std::alloc::{AllocError, Global};

/// Appends the line of a claim.
fn push_claim(
    text: &mut Vec<u8>,
    names: &[Name],
    number: usize,
    claim: &Claim,
    verdict: &Verdict,
) -> Result<(), AllocError>
    ensures { IfOk result (λ _. text.new.items ≡ text.old.items ++ claim_line names.now number claim.now verdict.now) }
{
    text.extend_from_slice(b"claim ")?;
    push_number(text, number as u64)?;
    text.extend_from_slice(b" ")?;
    text.extend_from_slice(claim.label.bytes())?;
    text.extend_from_slice(b": ")?;
    push_verdict(text, names, verdict)?;
    text.extend_from_slice(b"\n")?;
    Ok(())
}

/// Appends the lines of all claims.
fn push_claims(
    text: &mut Vec<u8>,
    names: &[Name],
    claims: &[Claim],
    verdicts: &[Verdict],
) -> Result<(), AllocError>
    ensures { IfOk result (λ _. text.new.items ≡ text.old.items ++ claim_lines names.now 0 claims.now verdicts.now) }
{
    for number in 0..claims.len().min(verdicts.len()) {
        push_claim(text, names, number, &claims[number], &verdicts[number])?;
    }
    Ok(())
}

/// The verdicts on claims as lines (docs/FORMATS.md, "Verdicts"): one for each claim, counted from 0, an open one with the values
/// of the variables of these names; then how many are proved, and how many improvements were made.
pub fn verdicts_text(
    alloc: Global,
    names: &[Name],
    claims: &[Claim],
    verdicts: &[Verdict],
    improvements: u32,
) -> Result<Vec<u8>, AllocError>
    ensures { IfOk result (λ text. text.items ≡ verdicts_text names.now claims.now verdicts.now improvements) }
{
    let mut text = Vec::new(alloc);
    push_claims(&mut text, names, claims, verdicts)?;
    push_counts(&mut text, verdicts, claims.len())?;
    push_footer(&mut text, Footer::Improvements(improvements))?;
    Ok(text)
}
