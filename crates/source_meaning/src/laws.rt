//! Laws of what functions mean, each the contract of a function that does nothing.

ghost use Rattle.source_meaning.specs.Laws.{FunctionsAreWithinLimits, FunctionsKeepChecks, FunctionsKeepRuns, HiddenAreBehind};
ghost use Rattle.source_meaning.specs.Laws.{NamesAreResolved, StepsAreApart, VariablesAreApart, VariablesAreFew};

/// The names of a function that is read are resolved to its variables (docs/MEANING.md, "Functions of C").
///
/// `resolved`: each variable of its statements is one of the function's. `apart`: no two of these have one name. `few`: there is at least
/// one, and no more than `MOST_VARIABLES`. `behind`: hidden variables are numbered from their number on. `steps`: where `++` or `--` stands
/// in a change or a condition, C comes to it, and its variable occurs nowhere else in that.
pub fn names_are_resolved()
    ensures resolved { NamesAreResolved }
    ensures apart { VariablesAreApart }
    ensures few { VariablesAreFew }
    ensures behind { HiddenAreBehind }
    ensures steps { StepsAreApart }
{}

/// A function that is read keeps its runs in the core (docs/MEANING.md, "Functions of C").
///
/// `runs`: for each of its runs there is one of the core that is at the same points in the same states of its variables. `checks`: a check
/// that is true in each run of the core, whatever its condition there, is true in each run of the function.
pub fn functions_keep_runs()
    ensures runs { FunctionsKeepRuns }
    ensures checks { FunctionsKeepChecks }
{}

/// A function that is read is a program within the limits in the core: of variables, hidden ones, statements, leaves of a condition and
/// numbers, with each jump where it may stand (docs/MEANING.md, "Functions of C").
pub fn functions_are_within_limits()
    ensures { FunctionsAreWithinLimits }
{}
