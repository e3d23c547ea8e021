//! Verdicts on claims.

ghost use Rattle.std.specs.Prelude.{◌≡◌, ◌∷◌, ◌++◌, IfOk, codes, false};
ghost use Rattle.json.specs.Print.{quoted};
ghost use Rattle.serde_json.specs.Written.{comma_if, compact_text, items_text, members_text};
ghost use Rattle.out_json.specs.Pieces.{value_line};
ghost use Rattle.ask_json.specs.Claims.{claim_members, claim_value, claim_values, claims_value};

use crate::verdicts::{push_end, push_verdict};
use ask_claims::Claim;
use ask_verdicts::Verdict;
use base_json::{push_begin, push_list, push_text_member};
use lang_tree::Name;
use std::alloc::{AllocError, Global};

/// Appends the label of a claim as the first member of an object.
fn push_label(out: &mut Vec<u8>, claim: &Claim) -> Result<(), AllocError>
    ensures { IfOk result (λ _. out.new.items
        ≡ out.old.items ++ (comma_if false ++ (quoted (codes "label") ++ 58 ∷ quoted claim.now.label))) }
{
    push_text_member(out, false, b"label", claim.label.bytes())
}

/// Appends the members of a claim with its verdict.
fn push_members(
    alloc: Global,
    out: &mut Vec<u8>,
    names: &[Name],
    claim: &Claim,
    verdict: &Verdict,
) -> Result<(), AllocError>
    ensures { IfOk result (λ _. out.new.items
        ≡ out.old.items ++ members_text false (claim_members names.now claim.now verdict.now)) }
{
    push_label(out, claim)?;
    push_verdict(alloc, out, names, verdict)?;
    Ok(())
}

/// Appends a claim with its verdict.
fn push_claim(
    alloc: Global,
    out: &mut Vec<u8>,
    names: &[Name],
    claim: &Claim,
    verdict: &Verdict,
) -> Result<(), AllocError>
    ensures { IfOk result (λ _. out.new.items ≡ out.old.items ++ compact_text (claim_value names.now claim.now verdict.now)) }
{
    out.extend_from_slice(b"{")?;
    push_members(alloc, out, names, claim, verdict)?;
    Ok(())
}

/// Appends each claim with its verdict.
fn push_claims(
    alloc: Global,
    out: &mut Vec<u8>,
    names: &[Name],
    claims: &[Claim],
    verdicts: &[Verdict],
) -> Result<(), AllocError>
    ensures { IfOk result (λ _. out.new.items ≡ out.old.items ++ items_text false (claim_values names.now claims.now verdicts.now)) }
{
    for number in 0..claims.len().min(verdicts.len()) {
        push_begin(out, number > 0)?;
        push_claim(alloc, out, names, &claims[number], &verdicts[number])?;
    }
    out.extend_from_slice(b"]")?;
    Ok(())
}

/// Appends the line of the verdicts on claims.
fn push_line(
    alloc: Global,
    out: &mut Vec<u8>,
    names: &[Name],
    claims: &[Claim],
    verdicts: &[Verdict],
    improvements: u32,
) -> Result<(), AllocError>
    ensures { IfOk result (λ _. out.new.items
        ≡ out.old.items ++ value_line (claims_value names.now claims.now verdicts.now improvements)) }
{
    out.extend_from_slice(b"{")?;
    push_list(out, false, b"claims")?;
    push_claims(alloc, out, names, claims, verdicts)?;
    push_end(out, verdicts, improvements)?;
    Ok(())
}

/// The verdicts on claims as a line of JSON (docs/FORMATS.md, "JSON").
pub fn claims_json(
    alloc: Global,
    names: &[Name],
    claims: &[Claim],
    verdicts: &[Verdict],
    improvements: u32,
) -> Result<Vec<u8>, AllocError>
    ensures { IfOk result (λ out. out.items ≡ value_line (claims_value names.now claims.now verdicts.now improvements)) }
{
    let mut out = Vec::new(alloc);
    push_line(alloc, &mut out, names, claims, verdicts, improvements)?;
    Ok(out)
}
