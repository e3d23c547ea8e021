//! The text of a file with the annotations of a function whose least bounds were found.

ghost use Rattle.std.specs.Prelude.{◌≡◌, ◌≤◌, ◌<◌, ◌++◌, ◌∷◌, [], IfOk, IsTrue, List, ℕ, length};
ghost use Rattle.std.specs.List.{All};
ghost use Rattle.base_limits.specs.declared.limits.TheConstants.{MOST_PROGRAM_BYTES};
ghost use Rattle.lang_tokens.specs.Reading.{Reads, end_at};
ghost use Rattle.lang_tokens.specs.declared.lexicon.Lexicon.TheVariants.{C};
ghost use Rattle.lang_tokens.specs.TokenLists.{AreTokensOf};
ghost use Rattle.lang_tokens.specs.declared.token.Token.{Token as Lexed};
ghost use Rattle.lang_tree.specs.Word.{is_word};
ghost use Rattle.source_tokens.specs.View.{tokens_of};
ghost use Rattle.source_constants.specs.Directives.{code_of};
ghost use Rattle.source_file.specs.Meaning.{Answer, FunctionMeans, IsChosen, Means, item_of};
ghost use Rattle.ask_words.specs.Request.{source_text};
ghost use Rattle.ask_words.specs.declared.request.Domain.{Domain};
ghost use Rattle.ask_words.specs.declared.request.Policy.{Policy};
ghost use Rattle.top_texts.specs.Analyses.{IsFoundIn};
ghost use Rattle.acsl_annotate.specs.Annotated.{IsAnnotatedOf};

use acsl_anchors::{anchors, anchors_are_points};
use acsl_comments::{comments_come_out, programs_stay, with_comments};
use acsl_notes::{clauses_hold, comments, comments_may_stand};
use ask_words::Source;
use flow_systems::{System, post_solutions_hold};
use lang_tokens::{Lexicon, Token, lex, one_reading};
use lang_tree::Name;
use source_constants::code_of;
use source_file::{Chosen, defined};
use std::alloc::{AllocError, Global};
use top_texts::LeastBounds;

// The names are words.
fn are_words(names: &[Name])
    ensures { All (λ name. IsTrue (is_word name)) names.now }
{
    for name in names {
        let _ = name.bytes();
    }
}

// The template has a row.
fn has_rows(system: &System)
    ensures { 0 < length system.now.template }
{
    let _ = system.template.as_slice();
}

// The tokens of a text. One that was read as a program has some.
fn text_tokens(alloc: Global, text: &[u8]) -> Result<Vec<Token>, AllocError>
    requires { length text.now ≤ MOST_PROGRAM_BYTES }
    ensures reads { IfOk result (λ tokens. Reads C text.now tokens.items) }
    ensures placed { IfOk result (λ tokens. AreTokensOf text.now tokens.items) }
{
    match lex(alloc, text, Lexicon::C) {
        Ok(tokens) => Ok(tokens),
        Err(_) => Err(AllocError),
    }
}

// Which tokens of code are the function that is asked about, with what the file defines. A file that was read as a program has one.
fn function_asked(
    alloc: Global,
    tokens: &[Token],
    program: Source<&[u8]>,
) -> Result<Chosen, AllocError>
    requires size { length program.text.now ≤ MOST_PROGRAM_BYTES }
    requires tokens { AreTokensOf program.text.now tokens.now }
    ensures order { IfOk result (λ c. c.function.first ≤ c.function.end) }
    ensures within { IfOk result (λ c. c.function.end ≤ length c.code.items) }
    ensures code { IfOk result (λ c. (front : List Lexed) → front ++ end_at (length program.entry.text.now) ∷ [] ≡ tokens.now
        → c.code.items ≡ code_of front) }
    ensures found { IfOk result (λ c. (front : List Lexed) → front ++ end_at (length program.entry.text.now) ∷ [] ≡ tokens.now
        → IsChosen program.entry.integers program.entry.text.now (source_text program.entry).function front c.definitions.items
        c.function) }
    ensures means { IfOk result (λ c. (front : List Lexed) → front ++ end_at (length program.entry.text.now) ∷ [] ≡ tokens.now
        → (wanted : Answer)
        → Means program.entry.integers program.entry.text.now (source_text program.entry).function front wanted
        → FunctionMeans program.entry.integers program.entry.text.now
        (tokens_of c.definitions.items program.entry.text.now (item_of c.code.items c.function)) wanted) }
{
    match defined(
        alloc,
        tokens,
        program.text,
        program.function,
        program.integers,
    ) {
        Ok(chosen) => Ok(chosen),
        Err(_) => Err(AllocError),
    }
}

// The text with what the least bounds of the function that is asked about say.
pub(crate) fn annotated_text(
    alloc: Global,
    program: Source<&[u8]>,
    least: &LeastBounds,
) -> Result<Vec<u8>, AllocError>
    requires short { length program.text.now ≤ MOST_PROGRAM_BYTES }
    requires found { (rows : Domain (List ℕ)) × (policy : Policy) × (limit : ℕ)
        × IsFoundIn (source_text program) rows policy limit least.now }
    ensures { (rows : Domain (List ℕ)) (policy : Policy) (limit : ℕ) → IsFoundIn (source_text program.entry) rows policy limit least.now
        → IfOk result (λ bytes. IsAnnotatedOf (source_text program.entry) rows bytes.items) }
{
    anchors_are_points();
    comments_may_stand();
    comments_come_out();
    programs_stay();
    clauses_hold();
    post_solutions_hold();
    one_reading();
    let system = &least.system;
    are_words(system.flow.names.as_slice());
    has_rows(system);
    let tokens = text_tokens(alloc, program.text)?;
    let chosen = function_asked(alloc, &tokens, program)?;
    let code = code_of(alloc, &tokens)?;
    let function = &chosen.function;
    let places = anchors(alloc, &code, program.text, function.first, function.end)?;
    let list = comments(alloc, program.text, &places, system, &least.solved.bounds)?;
    with_comments(alloc, program.text, &list)
}
