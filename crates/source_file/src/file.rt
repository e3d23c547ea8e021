//! Which function of a file is asked about, and what it means.

ghost use Rattle.std.specs.Prelude.{◌≡◌, ◌≤◌, ◌++◌, ◌∷◌, [], ℕ, List, Result, length, Err, IfOk, IfErr, map, slice_range};
ghost use Rattle.std.specs.Option.{option_copied};
ghost use Rattle.base_limits.specs.declared.limits.TheConstants.{MOST_PROGRAM_BYTES};
ghost use Rattle.base_integers.specs.declared.integers.Integers.{Integers as Numbers};
ghost use Rattle.lang_tokens.specs.declared.token.Token.{Token as Lexed};
ghost use Rattle.lang_tokens.specs.Reading.{end_at};
ghost use Rattle.lang_tokens.specs.TokenLists.{AreTokensOf};
ghost use Rattle.source_grammar.specs.Faults.{Finds as Scanned, short, whole};
ghost use Rattle.source_tokens.specs.Texts.{AreTokensIn};
ghost use Rattle.source_tokens.specs.declared.definition.Definition.{Definition as Defines};
ghost use Rattle.source_tokens.specs.View.{tokens_of};
ghost use Rattle.source_constants.specs.Directives.{code_of};
ghost use Rattle.source_file.specs.Meaning.{Answer, FunctionMeans, IsChosen, Means, NamesAre, item_of};
ghost use Rattle.source_file.specs.Gives.{Gives, NamesGive, NamesTell, Tells};
ghost use Rattle.source_file.specs.declared.fault.SourceFault.{SourceFault as FileFault};
ghost use Rattle.source_file.specs.declared.fault.SourceFault.TheVariants.{NoMemory};

use crate::choice::chosen;
use crate::fault::SourceFault;
use crate::function::program;
use crate::functions::Defined;
use crate::outline::{Outline, outline_of};
use crate::outside::first_outside;
use crate::width::width;
use base_integers::Integers;
use lang_tokens::Token;
use lang_tree::{Names, Program};
use source_grammar::{Syntax, examine};
use source_meaning::FunctionFault;
use source_tokens::{Definition, pieces_of};
use std::alloc::{AllocError, Global};

/// The function of a file that is asked about: the file's tokens of code, what the file defines outside its functions, in the order of the
/// text, and which of these tokens the function is (docs/MEANING.md, "Functions of C").
#[derive(Drop)]
pub struct Chosen {
    pub code: Vec<Token>,
    pub definitions: Vec<Definition>,
    /// Its tokens are counted among those of `code`.
    pub function: Defined,
}

// Whether tokens of a function keep to the grammar, or the first fault.
fn examined(alloc: Global, tokens: &[Token]) -> Result<(), SourceFault>
    requires { (definitions : List Defines) (text : List ℕ) → Scanned short (tokens_of definitions text tokens.now) → ⊥ }
    ensures whole { IfOk result (λ _. (definitions : List Defines) (text : List ℕ)
        → Scanned whole (tokens_of definitions text tokens.now)) }
    ensures fault { IfErr result (λ e. (e ≡ NoMemory → ⊥) → (integers : Numbers) (definitions : List Defines) (text : List ℕ)
        → FunctionMeans integers text (tokens_of definitions text tokens.now) (Err e)) }
{
    let pieces = pieces_of(alloc, tokens)?;
    match examine(alloc, pieces.as_slice())? {
        Syntax::Whole => Ok(()),
        Syntax::Unexpected { at } => Err(SourceFault::Unexpected { at }),
        Syntax::Nested { at } => Err(SourceFault::Nesting { at }),
        // The brackets of a function are complete.
        Syntax::Short => unreachable!(),
    }
}

// A function as a program by these integers, where the file defines these.
fn analysed(
    alloc: Global,
    text: &[u8],
    tokens: &[Token],
    definitions: &[Definition],
    integers: Integers,
) -> Result<Program, SourceFault>
    requires tokens { AreTokensIn text.now tokens.now }
    requires whole { (definitions : List Defines) (text : List ℕ) → Scanned short (tokens_of definitions text tokens.now) → ⊥ }
    requires size { length text.now ≤ MOST_PROGRAM_BYTES }
    ensures { Tells integers result (FunctionMeans integers text.now (tokens_of definitions.now text.now tokens.now)) }
{
    examined(alloc, tokens)?;
    let variables = width(alloc, text, tokens)?;
    match program(alloc, text, tokens, definitions, variables, integers) {
        Ok(program) => Ok(program),
        Err(FunctionFault::NoMemory) => Err(SourceFault::NoMemory),
        Err(fault) => Err(SourceFault::Function(fault)),
    }
}

// The tokens of a function, of those of code.
fn item_of<'a>(code: &'a [Token], function: &Defined) -> &'a [Token]
    requires order { function.now.first ≤ function.now.end }
    requires within { function.now.end ≤ length code.now }
    ensures { result.now ≡ slice_range code.now function.now.first function.now.end }
{
    &code[function.first..function.end]
}

// The same function again.
fn again(function: &Defined) -> Defined
    ensures { result ≡ function.now }
{
    Defined {
        name: function.name.again(),
        at: function.at,
        first: function.first,
        end: function.end,
    }
}

// The function that is meant; the tokens are those of the text without its end.
fn chosen_in(
    alloc: Global,
    text: &[u8],
    tokens: &[Token],
    asked: Option<&[u8]>,
    integers: Integers,
) -> Result<Chosen, SourceFault>
    requires size { length text.now ≤ MOST_PROGRAM_BYTES }
    requires tokens { AreTokensIn text.now tokens.now }
    ensures code { IfOk result (λ c. c.code.items ≡ code_of tokens.now) }
    ensures found { IfOk result (λ c. IsChosen integers text.now (option_copied asked.entry) tokens.now c.definitions.items c.function) }
    ensures fault { IfErr result (λ e. (e ≡ NoMemory → ⊥) → Means integers text.now (option_copied asked.entry) tokens.now (Err e)) }
{
    let Outline {
        code,
        definitions,
        functions,
    } = outline_of(alloc, text, tokens, integers)?;
    let Some(function) = chosen(asked, functions.as_slice()) else {
        return Err(SourceFault::WhichFunction);
    };
    match first_outside(
        definitions.as_slice(),
        text,
        item_of(code.as_slice(), function),
    ) {
        Some(fault) => Err(fault),
        None => Ok(Chosen {
            code,
            definitions,
            function: again(function),
        }),
    }
}

// The function that is meant, as a program by these integers; the tokens are those of the text without its end.
fn read_in(
    alloc: Global,
    text: &[u8],
    tokens: &[Token],
    asked: Option<&[u8]>,
    integers: Integers,
) -> Result<Program, SourceFault>
    requires size { length text.now ≤ MOST_PROGRAM_BYTES }
    requires tokens { AreTokensIn text.now tokens.now }
    ensures { Tells integers result (Means integers text.now (option_copied asked.entry) tokens.now) }
{
    let chosen = chosen_in(alloc, text, tokens, asked, integers)?;
    let item = item_of(chosen.code.as_slice(), &chosen.function);
    analysed(alloc, text, item, chosen.definitions.as_slice(), integers)
}

// The names of functions.
fn names_of(alloc: Global, functions: &[Defined]) -> Result<Names, AllocError>
    ensures { IfOk result (λ names. names ≡ map (λ d. d.name) functions.now) }
{
    let mut names = Vec::new(alloc);
    for function in functions {
        names.push(function.name.again())?;
    }
    Ok(Names::new(names))
}

// The names of the functions of a file; the tokens are those of the text without its end.
fn names_in(alloc: Global, text: &[u8], tokens: &[Token]) -> Result<Names, SourceFault>
    requires size { length text.now ≤ MOST_PROGRAM_BYTES }
    requires tokens { AreTokensIn text.now tokens.now }
    ensures { NamesTell result (NamesAre text.now tokens.now) }
{
    let file = outline_of(alloc, text, tokens, Integers::Mathematical)?;
    Ok(names_of(alloc, file.functions.as_slice())?)
}

/// The function that is asked about, or the one that is meant where none is named, as a program that computes by these integers: or the
/// first fault of the file (docs/FORMATS.md, "Files" and "The order of faults"). The tokens are all those of C.
pub fn read(
    alloc: Global,
    tokens: &[Token],
    text: &[u8],
    asked: Option<&[u8]>,
    integers: Integers,
) -> Result<Program, SourceFault>
    requires size { length text.now ≤ MOST_PROGRAM_BYTES }
    requires tokens { AreTokensOf text.now tokens.now }
    // What is answered is meant.
    ensures found { (front : List Lexed) → front ++ end_at (length text.now) ∷ [] ≡ tokens.now
        → (wanted : Answer) × Means integers text.now (option_copied asked.entry) front wanted × Gives integers result wanted }
    // What is meant is answered.
    ensures exact { (front : List Lexed) → front ++ end_at (length text.now) ∷ [] ≡ tokens.now
        → (wanted : Answer) → Means integers text.now (option_copied asked.entry) front wanted → Gives integers result wanted }
{
    read_in(alloc, text, &tokens[..tokens.len() - 1], asked, integers)
}

/// The names of the functions of a file that may be asked about, in order: or the first fault of its brackets, of these names and of its
/// constants (docs/FORMATS.md, "Files" and "The order of faults"). The tokens are all those of C.
pub fn names(alloc: Global, tokens: &[Token], text: &[u8]) -> Result<Names, SourceFault>
    requires size { length text.now ≤ MOST_PROGRAM_BYTES }
    requires tokens { AreTokensOf text.now tokens.now }
    // What is answered is so.
    ensures found { (front : List Lexed) → front ++ end_at (length text.now) ∷ [] ≡ tokens.now
        → (wanted : Result (List (List ℕ)) FileFault) × NamesAre text.now front wanted × NamesGive result wanted }
    // What is so is answered.
    ensures exact { (front : List Lexed) → front ++ end_at (length text.now) ∷ [] ≡ tokens.now
        → (wanted : Result (List (List ℕ)) FileFault) → NamesAre text.now front wanted → NamesGive result wanted }
{
    names_in(alloc, text, &tokens[..tokens.len() - 1])
}

/// Which function of a file is asked about, or is meant where none is named, with what the file defines by these integers. Or the first
/// fault of the file's brackets, of the names of its functions and of its constants, that no function is meant, or that a token of it may
/// stand in none (docs/FORMATS.md, "The order of faults"). The tokens are all those of C.
pub fn defined(
    alloc: Global,
    tokens: &[Token],
    text: &[u8],
    asked: Option<&[u8]>,
    integers: Integers,
) -> Result<Chosen, SourceFault>
    requires size { length text.now ≤ MOST_PROGRAM_BYTES }
    requires tokens { AreTokensOf text.now tokens.now }
    ensures order { IfOk result (λ c. c.function.first ≤ c.function.end) }
    ensures within { IfOk result (λ c. c.function.end ≤ length c.code.items) }
    // The file's tokens of code are these.
    ensures code { IfOk result (λ c. (front : List Lexed) → front ++ end_at (length text.now) ∷ [] ≡ tokens.now
        → c.code.items ≡ code_of front) }
    // The function is the one that is asked about.
    ensures found { IfOk result (λ c. (front : List Lexed) → front ++ end_at (length text.now) ∷ [] ≡ tokens.now
        → IsChosen integers text.now (option_copied asked.entry) front c.definitions.items c.function) }
    // What the file means is what its tokens do.
    ensures means { IfOk result (λ c. (front : List Lexed) → front ++ end_at (length text.now) ∷ [] ≡ tokens.now
        → (wanted : Answer) → Means integers text.now (option_copied asked.entry) front wanted
        → FunctionMeans integers text.now (tokens_of c.definitions.items text.now (item_of c.code.items c.function)) wanted) }
    // A fault is that of the file.
    ensures fault { IfErr result (λ e. (e ≡ NoMemory → ⊥) → (front : List Lexed) → front ++ end_at (length text.now) ∷ [] ≡ tokens.now
        → Means integers text.now (option_copied asked.entry) front (Err e)) }
{
    chosen_in(alloc, text, &tokens[..tokens.len() - 1], asked, integers)
}
