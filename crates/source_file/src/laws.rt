//! What is true of each text's tokens. The functions do nothing: their contracts are the laws.

ghost use Rattle.source_file.specs.Laws.{ItemsAreWhole, OneList, OneMeaning, ProgramNamesAreNames, SomeMeaning};

use source_meaning::names_are_resolved;

/// Tokens mean one thing, whatever is asked, and their functions are one list at most (docs/MEANING.md, "Functions of C").
pub fn one_meaning()
    ensures some { SomeMeaning }
    ensures one { OneMeaning }
    ensures list { OneList }
{}

/// The tokens of a function with a body never end too early: they are a function of the grammar, or one of them doesn't fit.
pub fn items_are_whole()
    ensures { ItemsAreWhole }
{}

/// The variables of a function that tokens of a text mean are names of the language, each of which stands once (docs/FORMATS.md, "Tokens"
/// and "Names and kinds").
pub fn program_names_are_names()
    ensures { ProgramNamesAreNames }
{
    names_are_resolved()
}
