//! Which words are reserved.

ghost use Rattle.std.specs.Prelude.{◌≡◌, ◌↔◌, [], ◌∷◌, IsTrue, MatchOption};
ghost use Rattle.lang_tokens.specs.Words.{word_bytes, NoneSpelled};
ghost use Rattle.lang_tokens.specs.Lexemes.{IsReserved};
ghost use Rattle.lang_tokens.specs.declared.word.Word.TheVariants.{Auto, Break, Case, Char, Const, Continue, Default, Do, Double, Else};
ghost use Rattle.lang_tokens.specs.declared.word.Word.TheVariants.{Enum, Extern, Float, For};
ghost use Rattle.lang_tokens.specs.declared.word.Word.TheVariants.{Goto, If, Inline, Int, Long, Register, Return, Short, Signed, SizeOf};
ghost use Rattle.lang_tokens.specs.declared.word.Word.TheVariants.{Static, Struct, Switch};
ghost use Rattle.lang_tokens.specs.declared.word.Word.TheVariants.{TypeDef, Union, Unsigned, Void, Volatile, While, Assume, Assert, Main};
ghost use Rattle.lang_tokens.specs.declared.word.Word.TheVariants.{Nondet, VerifierAssume};
ghost use Rattle.lang_tokens.specs.declared.word.Word.TheVariants.{VerifierAssert, VerifierNondetInt};

use crate::word::Word;

fn spells(bytes: &[u8], text: &str) -> bool
    ensures { IsTrue result ↔ (text.now ≡ bytes.now) }
{
    bytes == text.as_bytes()
}

fn of_two_bytes(bytes: &[u8]) -> Option<Word>
    ensures { MatchOption result (NoneSpelled (Do ∷ If ∷ []) bytes.now) (λ word. word_bytes word ≡ bytes.now) }
{
    if spells(bytes, "do") {
        Some(Word::Do)
    } else if spells(bytes, "if") {
        Some(Word::If)
    } else {
        None
    }
}

fn of_three_bytes(bytes: &[u8]) -> Option<Word>
    ensures { MatchOption result (NoneSpelled (For ∷ Int ∷ []) bytes.now) (λ word. word_bytes word ≡ bytes.now) }
{
    if spells(bytes, "for") {
        Some(Word::For)
    } else if spells(bytes, "int") {
        Some(Word::Int)
    } else {
        None
    }
}

fn of_four_bytes(bytes: &[u8]) -> Option<Word>
    ensures { MatchOption result
        (NoneSpelled (Auto ∷ Case ∷ Char ∷ Else ∷ Enum ∷ Goto ∷ Long ∷ Void ∷ Main ∷ []) bytes.now)
        (λ word. word_bytes word ≡ bytes.now) }
{
    if spells(bytes, "auto") {
        Some(Word::Auto)
    } else if spells(bytes, "case") {
        Some(Word::Case)
    } else if spells(bytes, "char") {
        Some(Word::Char)
    } else if spells(bytes, "else") {
        Some(Word::Else)
    } else if spells(bytes, "enum") {
        Some(Word::Enum)
    } else if spells(bytes, "goto") {
        Some(Word::Goto)
    } else if spells(bytes, "long") {
        Some(Word::Long)
    } else if spells(bytes, "void") {
        Some(Word::Void)
    } else if spells(bytes, "main") {
        Some(Word::Main)
    } else {
        None
    }
}

fn of_five_bytes(bytes: &[u8]) -> Option<Word>
    ensures { MatchOption result (NoneSpelled (Break ∷ Const ∷ Float ∷ Short ∷ Union ∷ While ∷ []) bytes.now)
        (λ word. word_bytes word ≡ bytes.now) }
{
    if spells(bytes, "break") {
        Some(Word::Break)
    } else if spells(bytes, "const") {
        Some(Word::Const)
    } else if spells(bytes, "float") {
        Some(Word::Float)
    } else if spells(bytes, "short") {
        Some(Word::Short)
    } else if spells(bytes, "union") {
        Some(Word::Union)
    } else if spells(bytes, "while") {
        Some(Word::While)
    } else {
        None
    }
}

fn of_six_bytes(bytes: &[u8]) -> Option<Word>
    ensures { MatchOption result
        (NoneSpelled (Double ∷ Extern ∷ Inline ∷ Return ∷ Signed ∷ SizeOf ∷ Static ∷ Struct ∷ Switch ∷ Assume ∷ Assert ∷ Nondet ∷ [])
        bytes.now)
        (λ word. word_bytes word ≡ bytes.now) }
{
    if spells(bytes, "double") {
        Some(Word::Double)
    } else if spells(bytes, "extern") {
        Some(Word::Extern)
    } else if spells(bytes, "inline") {
        Some(Word::Inline)
    } else if spells(bytes, "return") {
        Some(Word::Return)
    } else if spells(bytes, "signed") {
        Some(Word::Signed)
    } else if spells(bytes, "sizeof") {
        Some(Word::SizeOf)
    } else if spells(bytes, "static") {
        Some(Word::Static)
    } else if spells(bytes, "struct") {
        Some(Word::Struct)
    } else if spells(bytes, "switch") {
        Some(Word::Switch)
    } else if spells(bytes, "assume") {
        Some(Word::Assume)
    } else if spells(bytes, "assert") {
        Some(Word::Assert)
    } else if spells(bytes, "nondet") {
        Some(Word::Nondet)
    } else {
        None
    }
}

fn of_seven_bytes(bytes: &[u8]) -> Option<Word>
    ensures { MatchOption result (NoneSpelled (Default ∷ TypeDef ∷ []) bytes.now) (λ word. word_bytes word ≡ bytes.now) }
{
    if spells(bytes, "default") {
        Some(Word::Default)
    } else if spells(bytes, "typedef") {
        Some(Word::TypeDef)
    } else {
        None
    }
}

fn of_eight_bytes(bytes: &[u8]) -> Option<Word>
    ensures { MatchOption result (NoneSpelled (Continue ∷ Register ∷ Unsigned ∷ Volatile ∷ []) bytes.now)
        (λ word. word_bytes word ≡ bytes.now) }
{
    if spells(bytes, "continue") {
        Some(Word::Continue)
    } else if spells(bytes, "register") {
        Some(Word::Register)
    } else if spells(bytes, "unsigned") {
        Some(Word::Unsigned)
    } else if spells(bytes, "volatile") {
        Some(Word::Volatile)
    } else {
        None
    }
}

fn of_seventeen_bytes(bytes: &[u8]) -> Option<Word>
    ensures { MatchOption result (NoneSpelled (VerifierAssume ∷ VerifierAssert ∷ []) bytes.now) (λ word. word_bytes word ≡ bytes.now) }
{
    if spells(bytes, "__VERIFIER_assume") {
        Some(Word::VerifierAssume)
    } else if spells(bytes, "__VERIFIER_assert") {
        Some(Word::VerifierAssert)
    } else {
        None
    }
}

fn of_twenty_one_bytes(bytes: &[u8]) -> Option<Word>
    ensures { MatchOption result (NoneSpelled (VerifierNondetInt ∷ []) bytes.now) (λ word. word_bytes word ≡ bytes.now) }
{
    if spells(bytes, "__VERIFIER_nondet_int") {
        Some(Word::VerifierNondetInt)
    } else {
        None
    }
}

/// The reserved word that the bytes spell.
pub fn reserved(bytes: &[u8]) -> Option<Word>
    ensures { MatchOption result (IsReserved bytes.now → ⊥) (λ word. word_bytes word ≡ bytes.now) }
{
    match bytes.len() {
        2 => of_two_bytes(bytes),
        3 => of_three_bytes(bytes),
        4 => of_four_bytes(bytes),
        5 => of_five_bytes(bytes),
        6 => of_six_bytes(bytes),
        7 => of_seven_bytes(bytes),
        8 => of_eight_bytes(bytes),
        17 => of_seventeen_bytes(bytes),
        21 => of_twenty_one_bytes(bytes),
        _ => None,
    }
}
