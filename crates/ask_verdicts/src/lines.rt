//! Verdicts as bytes.

ghost use Rattle.std.specs.Prelude.{◌≡◌, ◌++◌, IfOk, codes};
ghost use Rattle.ask_verdicts.specs.Lines.{count_line, is_proved, state_text, value_text, verdict_text};

use crate::outcome::Verdict;
use base_fractions::Frac;
use lang_tree::Name;
use out_report::push_number;
use std::alloc::{AllocError, Global};

/// Appends a variable's name and its value.
fn push_value(text: &mut Vec<u8>, name: &Name, value: Frac) -> Result<(), AllocError>
    ensures { IfOk result (λ _. text.new.items ≡ text.old.items ++ value_text name.now value) }
{
    text.extend_from_slice(name.bytes())?;
    text.extend_from_slice(b" = ")?;
    text.extend_from_slice(value.text().bytes())?;
    Ok(())
}

/// Appends the values of the variables of these names, in order of declaration. Hidden variables have no name, and theirs aren't told.
fn push_state(text: &mut Vec<u8>, names: &[Name], state: &[Frac]) -> Result<(), AllocError>
    ensures { IfOk result (λ _. text.new.items ≡ text.old.items ++ state_text (codes " at ") names.now state.now) }
{
    let mut before: &[u8] = b" at ";
    for index in 0..names.len().min(state.len()) {
        text.extend_from_slice(before)?;
        push_value(text, &names[index], state[index])?;
        before = b", ";
    }
    Ok(())
}

/// Appends what a verdict says: `proved`, or `open at ` with the values of the variables of these names, and of these alone.
pub fn push_verdict(text: &mut Vec<u8>, names: &[Name], verdict: &Verdict) -> Result<(), AllocError>
    ensures { IfOk result (λ _. text.new.items ≡ text.old.items ++ verdict_text names.now verdict.now) }
{
    match verdict {
        Verdict::Proved => text.extend_from_slice(b"proved")?,
        Verdict::Open { state } => {
            text.extend_from_slice(b"open")?;
            push_state(text, names, state.as_slice())?;
        }
    }
    Ok(())
}

/// Whether a verdict is `Proved`.
pub fn is_proved(verdict: &Verdict) -> bool
    ensures { result ≡ is_proved verdict.now }
{
    match verdict {
        Verdict::Proved => true,
        Verdict::Open { .. } => false,
    }
}

/// Appends the line that tells how many of the verdicts are `Proved`, and of how many.
pub fn push_counts(text: &mut Vec<u8>, verdicts: &[Verdict], all: usize) -> Result<(), AllocError>
    ensures { IfOk result (λ _. text.new.items ≡ text.old.items ++ count_line all verdicts.now) }
{
    let proved = verdicts.iter().filter(|verdict| is_proved(verdict)).count();
    text.extend_from_slice(b"proved ")?;
    push_number(text, proved as u64)?;
    text.extend_from_slice(b" of ")?;
    push_number(text, all as u64)?;
    text.extend_from_slice(b"\n")?;
    Ok(())
}
