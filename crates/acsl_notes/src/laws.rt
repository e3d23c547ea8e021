//! Laws of the definitions, each the contract of a function that does nothing.

ghost use Rattle.acsl_notes.specs.Laws.{ClausesHold, CommentsMayStand};
ghost use Rattle.acsl_notes.specs.Written.{ProgramNamesAreNames, WrittenClausesMean};

use acsl_anchors::anchors_stand;
use source_file::program_names_are_names as variables_are_names;

/// What a vector that holds in a program's runs says at a point is true in every run, at every configuration that is there.
pub fn clauses_hold()
    ensures { ClausesHold }
{}

/// The comments of a function may be put into its text: they stand in order, each where a token begins or ends, and are blanks and
/// comments whatever follows them.
pub fn comments_may_stand()
    ensures { CommentsMayStand }
{
    anchors_stand();
}

/// The text of a condition reads as tokens of the language, which are an expression over the names. It is true exactly where the
/// condition is. This is so of each condition that the language can say: `\false` isn't one, and names and numbers have to be within
/// those of the language.
pub fn written_clauses_mean()
    ensures { WrittenClausesMean }
{}

/// The names of a function that a file means are names of the language, each of which stands once, as that law asks of them.
pub fn program_names_are_names()
    ensures { ProgramNamesAreNames }
{
    variables_are_names();
}
