//! Laws of groups. The functions do nothing: their contracts are the laws.

ghost use Rattle.lang_groups.specs.Laws.{MarksGiveGroups, MarksGiveOneMore};

/// The tokens of an expression give the groups of its comparisons.
pub fn groups_of_marks()
    ensures { MarksGiveGroups }
{}

/// Where all of an expression's variables are taken together at its end, they are one group more.
pub fn groups_of_tied_marks()
    ensures { MarksGiveOneMore }
{}
