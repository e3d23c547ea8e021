//! The text of comments.

ghost use Rattle.std.specs.Prelude.{◌≡◌, ◌++◌, ◌∷◌, [], IfOk, None, Some, codes, map};
ghost use Rattle.acsl_notes.specs.Texts.{assertion_text, comment_text, end_comment, invariant_text, joined, joined_on, label_comment};
ghost use Rattle.acsl_notes.specs.Texts.{loop_comment};
ghost use Rattle.acsl_notes.specs.View.{clause_of, clauses_of_said, indentation_of, what_of};

use crate::clause::Said;
use crate::indent::is_indentation;
use crate::relation::{push_assertion, push_invariant};
use acsl_anchors::What;
use lang_tree::{Coeffs, Name};
use std::alloc::{AllocError, Global};

/// Appends invariants, each behind these bytes.
fn push_more_invariants(
    text: &mut Vec<u8>,
    names: &[Name],
    rows: &[Coeffs],
    between: &[u8],
    said: &[Said],
) -> Result<(), AllocError>
    ensures { IfOk result (λ _. text.new.items ≡ text.old.items
        ++ joined_on between.now (map (invariant_text names.now) (clauses_of_said rows.now said.now))) }
{
    for clause in said {
        push_invariant(text, names, rows, between, *clause)?;
    }
    Ok(())
}

/// Appends invariants with these bytes between them.
fn push_invariants(
    text: &mut Vec<u8>,
    names: &[Name],
    rows: &[Coeffs],
    between: &[u8],
    said: &[Said],
) -> Result<(), AllocError>
    ensures { IfOk result (λ _. text.new.items ≡ text.old.items
        ++ joined between.now (map (invariant_text names.now) (clauses_of_said rows.now said.now))) }
{
    match said {
        [] => Ok(()),
        [first, more @ ..] => {
            push_invariant(text, names, rows, b"", *first)?;
            push_more_invariants(text, names, rows, between, more)?;
            Ok(())
        }
    }
}

/// The end of a line, and the indentation of an invariant on the next one.
fn line_break(alloc: Global, blanks: &[u8]) -> Result<Vec<u8>, AllocError>
    ensures { IfOk result (λ bytes. bytes.items ≡ 10 ∷ blanks.now ++ codes "    ") }
{
    let mut bytes = Vec::new(alloc);
    bytes.extend_from_slice(b"\n")?;
    bytes.extend_from_slice(blanks)?;
    bytes.extend_from_slice(b"    ")?;
    Ok(bytes)
}

/// Appends the comment of a loop with the invariants in lines of their own.
fn push_loop_lines(
    alloc: Global,
    text: &mut Vec<u8>,
    names: &[Name],
    rows: &[Coeffs],
    blanks: &[u8],
    said: &[Said],
) -> Result<(), AllocError>
    ensures { IfOk result (λ _. text.new.items ≡ text.old.items ++ loop_comment names.now (Some blanks.now)
        (clauses_of_said rows.now said.now)) }
{
    let between = line_break(alloc, blanks)?;
    text.extend_from_slice(b"/*@ ")?;
    push_invariants(text, names, rows, &between, said)?;
    text.extend_from_slice(b" */\n")?;
    text.extend_from_slice(blanks)?;
    Ok(())
}

/// Appends the comment of a loop with the invariants in its line.
fn push_loop_line(
    text: &mut Vec<u8>,
    names: &[Name],
    rows: &[Coeffs],
    said: &[Said],
) -> Result<(), AllocError>
    ensures { IfOk result (λ _. text.new.items ≡ text.old.items ++ loop_comment names.now None (clauses_of_said rows.now said.now)) }
{
    text.extend_from_slice(b"/*@ ")?;
    push_invariants(text, names, rows, b" ", said)?;
    text.extend_from_slice(b" */ ")?;
    Ok(())
}

/// Appends the comment of a label.
fn push_label(
    text: &mut Vec<u8>,
    names: &[Name],
    rows: &[Coeffs],
    said: &[Said],
) -> Result<(), AllocError>
    ensures { IfOk result (λ _. text.new.items ≡ text.old.items ++ label_comment names.now (clauses_of_said rows.now said.now)) }
{
    for clause in said {
        text.extend_from_slice(b" ")?;
        push_assertion(text, names, rows, *clause)?;
    }
    Ok(())
}

/// Appends an assertion and the end of its line, with the indentation of the next.
fn push_assertion_line(
    text: &mut Vec<u8>,
    names: &[Name],
    rows: &[Coeffs],
    blanks: &[u8],
    said: Said,
) -> Result<(), AllocError>
    ensures { IfOk result (λ _. text.new.items ≡ text.old.items ++ (assertion_text names.now (clause_of rows.now said) ++ 10
        ∷ blanks.now)) }
{
    push_assertion(text, names, rows, said)?;
    text.extend_from_slice(b"\n")?;
    text.extend_from_slice(blanks)?;
    Ok(())
}

/// Appends an assertion and a space.
fn push_assertion_apart(
    text: &mut Vec<u8>,
    names: &[Name],
    rows: &[Coeffs],
    said: Said,
) -> Result<(), AllocError>
    ensures { IfOk result (λ _. text.new.items ≡ text.old.items ++ (assertion_text names.now (clause_of rows.now said) ++ 32 ∷ [])) }
{
    push_assertion(text, names, rows, said)?;
    text.extend_from_slice(b" ")?;
    Ok(())
}

/// Appends the comment of the end with the assertions in lines of their own.
fn push_end_lines(
    text: &mut Vec<u8>,
    names: &[Name],
    rows: &[Coeffs],
    blanks: &[u8],
    said: &[Said],
) -> Result<(), AllocError>
    ensures { IfOk result (λ _. text.new.items ≡ text.old.items ++ end_comment names.now (Some blanks.now)
        (clauses_of_said rows.now said.now)) }
{
    for clause in said {
        push_assertion_line(text, names, rows, blanks, *clause)?;
    }
    Ok(())
}

/// Appends the comment of the end with the assertions in its line.
fn push_end_line(
    text: &mut Vec<u8>,
    names: &[Name],
    rows: &[Coeffs],
    said: &[Said],
) -> Result<(), AllocError>
    ensures { IfOk result (λ _. text.new.items ≡ text.old.items ++ end_comment names.now None (clauses_of_said rows.now said.now)) }
{
    for clause in said {
        push_assertion_apart(text, names, rows, *clause)?;
    }
    Ok(())
}

/// Appends the comment of a loop that has this before it on its line.
fn push_loop(
    alloc: Global,
    text: &mut Vec<u8>,
    names: &[Name],
    rows: &[Coeffs],
    line: &[u8],
    said: &[Said],
) -> Result<(), AllocError>
    ensures { IfOk result (λ _. text.new.items ≡ text.old.items
        ++ loop_comment names.now (indentation_of line.now) (clauses_of_said rows.now said.now)) }
{
    if is_indentation(line) {
        push_loop_lines(alloc, text, names, rows, line, said)
    } else {
        push_loop_line(text, names, rows, said)
    }
}

/// Appends the comment of the end that has this before it on its line.
fn push_end(
    text: &mut Vec<u8>,
    names: &[Name],
    rows: &[Coeffs],
    line: &[u8],
    said: &[Said],
) -> Result<(), AllocError>
    ensures { IfOk result (λ _. text.new.items ≡ text.old.items
        ++ end_comment names.now (indentation_of line.now) (clauses_of_said rows.now said.now)) }
{
    if is_indentation(line) {
        push_end_lines(text, names, rows, line, said)
    } else {
        push_end_line(text, names, rows, said)
    }
}

/// What is put in at an anchor that has this before it on its line.
pub(crate) fn note(
    alloc: Global,
    names: &[Name],
    rows: &[Coeffs],
    what: What,
    line: &[u8],
    said: &[Said],
) -> Result<Vec<u8>, AllocError>
    ensures { IfOk result (λ text. text.items ≡ comment_text names.now (what_of what) (indentation_of line.now)
        (clauses_of_said rows.now said.now)) }
{
    let mut text = Vec::new(alloc);
    match what {
        What::Loop => push_loop(alloc, &mut text, names, rows, line, said)?,
        What::Label => push_label(&mut text, names, rows, said)?,
        What::End => push_end(&mut text, names, rows, line, said)?,
    }
    Ok(text)
}
