//! What stands before a function's body.

ghost use Rattle.std.specs.Prelude.{◌≡◌, ◌<◌, ◌≤◌, ◌++◌, ◌∷◌, ℕ, List, Ok, length, OnOk};
ghost use Rattle.lang_tokens.specs.Lines.{line_at};
ghost use Rattle.source_grammar.specs.Tokens.{Name, Token, token, a_name, infix_sign, times_op, left_paren, right_paren};
ghost use Rattle.source_grammar.specs.Grammar.{Specifiers, FunctionName, spell_function_name, IntType, Bounds, Parameter, array_parameter};
ghost use Rattle.source_grammar.specs.Grammar.{pointer_parameter, MoreParameters, Parameters};
ghost use Rattle.source_grammar.proofs.grammar.Follow.{NoBracket, AfterPart};
ghost use Rattle.source_meaning.specs.Arrays.{read_bounds};
ghost use Rattle.source_meaning.specs.Walk.{read_parameter, read_more_parameters, read_parameters};
ghost use Rattle.source_reader.specs.Answers.{Answers};
ghost use Rattle.source_reader.specs.Reading.{at_tokens, first_kind};
ghost use Rattle.source_change.specs.Arrays.{extents_of};
ghost use Rattle.source_change.specs.Tests.{WasRead, name_of};
ghost use Rattle.source_statement.specs.Onto.{onto_specifiers, onto_type, onto_bounds, onto_parameter, onto_parameters};
ghost use Rattle.source_statement.specs.Onto.{onto_more_parameters};

use crate::starts::{Start, coming, has_const, is_empty};
use lang_tree::Stmt;
use source_change::{Named, bare, sizes, take_name};
use source_names::Known;
use source_reader::{Mark, Reader, Stop};
use source_tree::Extent;

// What stands before a function's name, and the name.
pub(crate) fn pass_name(reader: &mut Reader)
    ensures { (ss : Specifiers) (f : FunctionName) (rest : List Token) → reader.old.ahead ≡ onto_specifiers ss
        (spell_function_name f ++ rest)
        → reader.new ≡ at_tokens reader.old rest }
{
    'storage: while let Start::Storage = coming(reader) {
        reader.skip();
    }
    reader.skip();
    reader.skip();
}

// What stands before the names of a declaration, or a parameter's name.
pub(crate) fn pass_type(reader: &mut Reader)
    ensures passed { (t : IntType) (rest : List Token) → reader.old.ahead ≡ onto_type t rest → reader.new ≡ at_tokens reader.old rest }
    ensures shorter { length reader.new.ahead ≤ length reader.old.ahead }
{
    if has_const(reader) {
        reader.skip();
    }
    reader.skip();
}

// The brackets of the array that a parameter is, as extents.
fn bounds(reader: &mut Reader, known: &Known) -> Result<Vec<Extent>, Stop>
    ensures reads { (bs : Bounds) (rest : List Token) → reader.old.ahead ≡ onto_bounds bs rest → NoBracket (first_kind rest)
        → Answers (λ v es. (extents_of v.items ≡ es) × (reader.new ≡ at_tokens reader.old rest)) result (read_bounds known.now bs) }
    ensures shorter { OnOk result (length reader.new.ahead ≤ length reader.old.ahead) }
{
    let mut extents = Vec::new(reader.alloc());
    if is_empty(reader) {
        reader.skip();
        reader.skip();
        extents.push(Extent::Endless)?;
    }
    sizes(reader, known, &mut extents)?;
    Ok(extents)
}

// The parameter that is an array of this name, behind it.
fn array(reader: &mut Reader, known: &mut Known, first: &Named) -> Result<(), Stop>
    ensures reads { (t : IntType) (bs : Bounds) (rest : List Token) → reader.old.ahead ≡ onto_bounds bs rest
        → NoBracket (first_kind rest)
        → (out : List Stmt) → Answers (λ _ r. WasRead reader.old.integers reader.old.variables rest reader.old reader.new
        known.new out out r)
        result (read_parameter reader.old.integers (line_at reader.old.text) known.old
        (array_parameter t (name_of first.now) first.now.at bs)) }
    ensures shorter { OnOk result (length reader.new.ahead ≤ length reader.old.ahead) }
{
    known.fresh_array(first.name.bytes(), first.value, first.at)?;
    let extents = bounds(reader, known)?;
    known.add_array(&first.name, extents)?;
    Ok(())
}

// The parameter that is an array of the name behind the `*`, which comes next.
fn pointer(reader: &mut Reader, known: &mut Known) -> Result<(), Stop>
    ensures reads { (t : IntType) (a : ℕ) (x : Name) (b : ℕ) (rest : List Token)
        → reader.old.ahead ≡ token (infix_sign times_op) a ∷ token (a_name x) b ∷ rest
        → (out : List Stmt) → Answers (λ _ r. WasRead reader.old.integers reader.old.variables rest reader.old reader.new
        known.new out out r)
        result (read_parameter reader.old.integers (line_at reader.old.text) known.old (pointer_parameter t a x b)) }
    ensures shorter { OnOk result (length reader.new.ahead < length reader.old.ahead) }
{
    reader.skip();
    let first = take_name(reader)?;
    known.fresh_array(first.name.bytes(), first.value, first.at)?;
    let mut extents = Vec::new(reader.alloc());
    extents.push(Extent::Endless)?;
    known.add_array(&first.name, extents)?;
    Ok(())
}

// A parameter: a variable, which has any of the integers, or an array.
fn parameter(reader: &mut Reader, known: &mut Known, out: &mut Vec<Stmt>) -> Result<(), Stop>
    ensures reads { (p : Parameter) (rest : List Token) → reader.old.ahead ≡ onto_parameter p rest → AfterPart (first_kind rest)
        → Answers (λ _ r. WasRead reader.old.integers reader.old.variables rest reader.old reader.new
        known.new out.old.items out.new.items r)
        result (read_parameter reader.old.integers (line_at reader.old.text) known.old p) }
    ensures shorter { OnOk result (length reader.new.ahead < length reader.old.ahead) }
{
    pass_type(reader);
    if let Start::Star = coming(reader) {
        return pointer(reader, known);
    }
    let first = take_name(reader)?;
    match coming(reader) {
        Start::Bracket => array(reader, known, &first),
        _ => bare(reader, known, &first, out),
    }
}

// The parameters behind the first.
fn more_parameters(reader: &mut Reader, known: &mut Known, out: &mut Vec<Stmt>) -> Result<(), Stop>
    ensures reads { (ps : MoreParameters) (b : ℕ) (rest : List Token) → reader.old.ahead ≡ onto_more_parameters ps
        (token right_paren b ∷ rest)
        → Answers (λ _ r. WasRead reader.old.integers reader.old.variables (token right_paren b ∷ rest) reader.old reader.new known.new
        out.old.items out.new.items r) result (read_more_parameters reader.old.integers (line_at reader.old.text) known.old ps) }
    ensures shorter { OnOk result (length reader.new.ahead ≤ length reader.old.ahead) }
{
    'more: while let Start::Comma = coming(reader) {
        reader.skip();
        parameter(reader, known, out)?;
    }
    Ok(())
}

// The parameters of a function, without their parentheses.
fn listed(reader: &mut Reader, known: &mut Known, out: &mut Vec<Stmt>) -> Result<(), Stop>
    ensures reads { (ps : Parameters) (b : ℕ) (rest : List Token)
        → reader.old.ahead ≡ onto_parameters ps (token right_paren b ∷ rest)
        → Answers (λ _ r. WasRead reader.old.integers reader.old.variables (token right_paren b ∷ rest) reader.old reader.new known.new
        out.old.items out.new.items r) result (read_parameters reader.old.integers (line_at reader.old.text) known.old ps) }
    ensures shorter { OnOk result (length reader.new.ahead ≤ length reader.old.ahead) }
{
    match coming(reader) {
        Start::Void => {
            reader.skip();
            Ok(())
        }
        Start::Type => {
            parameter(reader, known, out)?;
            more_parameters(reader, known, out)
        }
        _ => Ok(()),
    }
}

// The parameters of a function, in parentheses.
pub(crate) fn parameters(
    reader: &mut Reader,
    known: &mut Known,
    out: &mut Vec<Stmt>,
) -> Result<(), Stop>
    ensures reads { (a : ℕ) (ps : Parameters) (b : ℕ) (rest : List Token)
        → reader.old.ahead ≡ token left_paren a ∷ onto_parameters ps (token right_paren b ∷ rest)
        → Answers (λ _ r. WasRead reader.old.integers reader.old.variables rest reader.old reader.new
        known.new out.old.items out.new.items r)
        result (read_parameters reader.old.integers (line_at reader.old.text) known.old ps) }
    ensures shorter { OnOk result (length reader.new.ahead < length reader.old.ahead) }
{
    reader.take(Mark::LeftParen)?;
    listed(reader, known, out)?;
    reader.take(Mark::RightParen)?;
    Ok(())
}
