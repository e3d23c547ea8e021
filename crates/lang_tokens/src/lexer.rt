//! The lexer.

ghost use Rattle.std.specs.Prelude.{◌≡◌, ◌⊎◌, ◌≤◌, length, List, IfOk, IfErr, IsErrAnd, MatchResult};
ghost use Rattle.base_limits.specs.declared.limits.TheConstants.{MOST_PROGRAM_BYTES};
ghost use Rattle.lang_tokens.specs.declared.token.Token.{Token};
ghost use Rattle.lang_tokens.specs.declared.fault.LexFault.{LexFault};
ghost use Rattle.lang_tokens.specs.declared.fault.LexFault.TheVariants.{NoMemory};
ghost use Rattle.lang_tokens.specs.Reading.{Reads};
ghost use Rattle.lang_tokens.specs.Faults.{HasFault};
ghost use Rattle.lang_tokens.specs.TokenLists.{AreTokensOf};

use crate::before::Before;
use crate::fault::LexFault;
use crate::lexicon::Lexicon;
use crate::piece::piece;
use crate::token::{Kind, Token};
use std::alloc::Global;

// Reads a text piece by piece.
fn scan(alloc: Global, text: &[u8], lexicon: Lexicon) -> Result<Vec<Token>, LexFault>
    requires { length text.now ≤ MOST_PROGRAM_BYTES }
    ensures { MatchResult result (λ tokens. Reads lexicon text.now tokens.items)
        (λ fault. HasFault lexicon text.now fault ⊎ (fault ≡ NoMemory)) }
{
    let mut tokens = Vec::new(alloc);
    let mut at = 0;
    let mut before = Before::Blanks;
    while at < text.len() {
        let found = piece(&text[at..], at as u32, lexicon, before)?;
        if let Some(kind) = found.kind {
            tokens.push(Token {
                kind,
                at: at as u32,
                len: found.len as u32,
            })?;
        }
        at += found.len;
        before = found.behind;
    }
    tokens.push(Token {
        kind: Kind::End,
        at: at as u32,
        len: 0,
    })?;
    Ok(tokens)
}

/// The tokens of a text and a token `End` behind its last byte, or its first fault
/// (docs/FORMATS.md, "Tokens"). Under `Lexicon::C` those of directives stand among them, as
/// `Kind::Aside`, and the only faults are bad bytes, open comments and want of memory. Lines are
/// told by `line_of`.
pub fn lex(alloc: Global, text: &[u8], lexicon: Lexicon) -> Result<Vec<Token>, LexFault>
    requires { length text.now ≤ MOST_PROGRAM_BYTES }

    // What is answered is so.
    ensures ok { IfOk result (λ tokens. Reads lexicon text.now tokens.items) }
    ensures err { IfErr result (λ fault. HasFault lexicon text.now fault ⊎ (fault ≡ NoMemory)) }

    // What is so is answered, where there is memory.
    ensures reads { (tokens : List Token) → Reads lexicon text.now tokens
        → MatchResult result (λ answer. answer.items ≡ tokens) (λ fault. fault ≡ NoMemory) }
    ensures faults { (fault : LexFault) → HasFault lexicon text.now fault
        → IsErrAnd result (λ answer. (answer ≡ fault) ⊎ (answer ≡ NoMemory)) }

    // Where the tokens stand, and what they are.
    ensures placed { IfOk result (λ tokens. AreTokensOf text.now tokens.items) }
{
    scan(alloc, text, lexicon)
}
