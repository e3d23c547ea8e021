//! Verdicts as members of objects.

ghost use Rattle.std.specs.Prelude.{◌≡◌, ◌∷◌, ◌++◌, IfOk, codes, count_by, true};
ghost use Rattle.json.specs.Print.{quoted};
ghost use Rattle.serde_json.specs.Written.{comma_if, compact_text, members_text};
ghost use Rattle.flow_systems.specs.Report.{line};
ghost use Rattle.ask_verdicts.specs.Lines.{is_proved};
ghost use Rattle.ask_json.specs.Verdicts.{count_members, counted_members, state_of, verdict_members, word_members, word_of};

use ask_verdicts::{Verdict, is_proved};
use base_json::{push_key, push_number_member, push_text_member};
use lang_tree::Name;
use out_json::push_state;
use std::alloc::{AllocError, Global};

/// The word for a verdict.
fn word_of(verdict: &Verdict) -> &'static [u8]
    ensures { result.now ≡ word_of verdict.now }
{
    match verdict {
        Verdict::Proved => b"proved",
        Verdict::Open { .. } => b"open",
    }
}

/// Appends the state of an open verdict: `null` for another.
fn push_state_of(
    alloc: Global,
    out: &mut Vec<u8>,
    names: &[Name],
    verdict: &Verdict,
) -> Result<(), AllocError>
    ensures { IfOk result (λ _. out.new.items ≡ out.old.items ++ compact_text (state_of names.now verdict.now)) }
{
    match verdict {
        Verdict::Proved => out.extend_from_slice(b"null")?,
        Verdict::Open { state } => push_state(alloc, out, names, state.as_slice())?,
    }
    Ok(())
}

/// Appends the state of an open verdict as a member: `null` for another.
fn push_state_member(
    alloc: Global,
    out: &mut Vec<u8>,
    names: &[Name],
    verdict: &Verdict,
) -> Result<(), AllocError>
    ensures { IfOk result (λ _. out.new.items ≡ out.old.items
        ++ (comma_if true ++ (quoted (codes "state") ++ 58 ∷ compact_text (state_of names.now verdict.now)))) }
{
    push_key(out, true, b"state")?;
    push_state_of(alloc, out, names, verdict)
}

/// Appends the word for a verdict as the last member of an object.
fn push_word(out: &mut Vec<u8>, verdict: &Verdict) -> Result<(), AllocError>
    ensures { IfOk result (λ _. out.new.items ≡ out.old.items ++ members_text true (word_members verdict.now)) }
{
    push_text_member(out, true, b"verdict", word_of(verdict))?;
    out.extend_from_slice(b"}")?;
    Ok(())
}

/// Appends a verdict as the last members of an object.
pub(crate) fn push_verdict(
    alloc: Global,
    out: &mut Vec<u8>,
    names: &[Name],
    verdict: &Verdict,
) -> Result<(), AllocError>
    ensures { IfOk result (λ _. out.new.items ≡ out.old.items ++ members_text true (verdict_members names.now verdict.now)) }
{
    push_state_member(alloc, out, names, verdict)?;
    push_word(out, verdict)?;
    Ok(())
}

/// How many verdicts are `Proved`.
fn proved_count(verdicts: &[Verdict]) -> usize
    ensures { result ≡ count_by is_proved verdicts.now }
{
    verdicts.iter().filter(|verdict| is_proved(verdict)).count()
}

/// Appends how many improvements were made and how many verdicts are `Proved`, as the last members of an object.
fn push_counts(out: &mut Vec<u8>, improvements: u32, proved: usize) -> Result<(), AllocError>
    ensures { IfOk result (λ _. out.new.items ≡ out.old.items ++ members_text true (counted_members improvements proved)) }
{
    push_number_member(out, true, b"improvements", improvements as u64)?;
    push_number_member(out, true, b"proved", proved as u64)?;
    out.extend_from_slice(b"}")?;
    Ok(())
}

/// Appends the same as the last members of the object of a line.
pub(crate) fn push_end(
    out: &mut Vec<u8>,
    verdicts: &[Verdict],
    improvements: u32,
) -> Result<(), AllocError>
    ensures { IfOk result (λ _. out.new.items ≡ out.old.items ++ line (members_text true (count_members verdicts.now improvements))) }
{
    push_counts(out, improvements, proved_count(verdicts))?;
    out.extend_from_slice(b"\n")?;
    Ok(())
}
