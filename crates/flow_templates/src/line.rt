//! Lines of a row file.

ghost use Rattle.std.specs.Prelude.{◌≡◌, ◌≢◌, ◌≤◌, ℕ, List, find, not, length, map, IfOk, IfErr, IsTrue, MatchOption, MatchResult};
ghost use Rattle.base_limits.specs.declared.limits.TheConstants.{MOST_TEXT_BYTES};
ghost use Rattle.lang_tokens.specs.declared.lexicon.Lexicon.TheVariants.{Own};
ghost use Rattle.lang_tokens.specs.declared.token.Token.{Token};
ghost use Rattle.lang_tokens.specs.Reading.{Reads};
ghost use Rattle.flow_templates.specs.declared.fault.RowFault.TheVariants.{NoMemory};
ghost use Rattle.flow_templates.specs.Grammar.{Amount, ReadsTerms};
ghost use Rattle.flow_templates.specs.Kept.{kept_amount, AllFit, ReadsKept};
ghost use Rattle.flow_templates.specs.RowFiles.{is_blank, is_skipped, LineReads, FaultAt};

use crate::fault::RowFault;
use crate::given::is_row;
use crate::row::{are_known, row_of};
use crate::sums::sums;
use crate::term::{Term, terms};
use lang_tokens::{LexFault, Lexicon, Token, lex};
use lang_tree::{Coeffs, Name};
use std::alloc::Global;

// Space, tab and carriage return.
fn is_blank(byte: u8) -> bool
    ensures { result ≡ is_blank byte }
{
    matches!(byte, b' ' | b'\t' | b'\r')
}

// The first byte that isn't blank.
fn first_mark(line: &[u8]) -> Option<u8>
    ensures { result ≡ find (λ b. not (is_blank b)) line.now }
{
    line.iter().copied().find(|byte| !is_blank(*byte))
}

// Whether the line is blank, or its first byte that isn't blank is `#`.
fn is_skipped(line: &[u8]) -> bool
    ensures { result ≡ is_skipped line.now }
{
    match first_mark(line) {
        None => true,
        Some(first) => first == b'#',
    }
}

// The tokens of the line, if it has no fault.
fn tokens_of(alloc: Global, line: &[u8]) -> Result<Option<Vec<Token>>, RowFault>
    requires { length line.now ≤ MOST_TEXT_BYTES }
    ensures { MatchResult result
        (λ found. MatchOption found ((tokens : List Token) → Reads Own line.now tokens → ⊥)
        (λ tokens. Reads Own line.now tokens.items × AllFit line.now tokens.items))
        (λ fault. fault ≡ NoMemory) }
{
    match lex(alloc, line, Lexicon::Own) {
        Ok(tokens) => Ok(Some(tokens)),
        Err(fault) => match fault {
            LexFault::NoMemory => Err(RowFault::NoMemory),
            _ => Ok(None),
        },
    }
}

// The terms that the line reads as, if it is a row.
fn terms_of<'a>(alloc: Global, line: &'a [u8]) -> Result<Option<Vec<Term<'a>>>, RowFault>
    requires { length line.now ≤ MOST_TEXT_BYTES }
    ensures { MatchResult result
        (λ found. MatchOption found ((amounts : List Amount) → ReadsTerms line.now amounts → ⊥)
        (λ terms. ReadsKept line.now terms.items))
        (λ fault. fault ≡ NoMemory) }
{
    if line.contains(&b'/') {
        return Ok(None);
    }
    match tokens_of(alloc, line)? {
        Some(tokens) => Ok(terms(alloc, line, &tokens)?),
        None => Ok(None),
    }
}

/// What the line of this number gives: a row, or nothing where it is skipped.
pub(crate) fn read_line(
    alloc: Global,
    line: &[u8],
    names: &[Name],
    number: u32,
) -> Result<Option<Coeffs>, RowFault>
    requires { length line.now ≤ MOST_TEXT_BYTES }
    ensures read { IfOk result (λ read. LineReads names.now line.now read) }
    ensures refused { IfErr result (λ fault. fault ≢ NoMemory → FaultAt names.now line.now number fault) }
{
    if is_skipped(line) {
        return Ok(None);
    }
    let Some(terms) = terms_of(alloc, line)? else {
        return Err(RowFault::BadRow { line: number });
    };
    let Some(sums) = sums(alloc, &terms)? else {
        return Err(RowFault::BadRow { line: number });
    };
    if !are_known(names, &terms) {
        return Err(RowFault::UnknownName { line: number });
    }
    let row = row_of(alloc, names, &sums)?;
    if !is_row(&row) {
        return Err(RowFault::ZeroRow { line: number });
    }
    Ok(Some(Coeffs::new(row)))
}
