//! Laws of the definitions, each the contract of a function that does nothing.

ghost use Rattle.source_core.specs.Laws.{BreaksAreKept, NothingStops, ValuesAreExact, ValuesAreKept};
ghost use Rattle.source_core.specs.RunLaws.{ChecksAreKept, MachineRunsAreRuns, RunsAreExact, RunsAreKept, StatesAreInRange};

/// What an expression is in the core keeps its meaning (docs/MEANING.md, "Functions of C"), where its steps stand apart.
///
/// `values`: each value that the expression may have is one that its result may be behind its prelude, which leaves the variables as the
/// expression does. `stops`: the prelude stops no run and keeps the variables but those of steps, whether or not the expression has a
/// value. `breaks`: where an operation may have no value, its check may be false on the way through the prelude. `exact`: by all integers,
/// without products of two forms, divisions by anything but a number other than 0, calls and elements, the result has no other values.
pub fn expressions_are_kept()
    ensures values { ValuesAreKept }
    ensures stops { NothingStops }
    ensures breaks { BreaksAreKept }
    ensures exact { ValuesAreExact }
{}

/// What a function is in the core keeps its runs (docs/MEANING.md, "Functions of C"), where its steps stand apart.
///
/// `runs`: for each run of the function there is one of the core that is at the same points in the same states of the function's variables.
/// `checks`: a check that is true in each run of the core, whatever its condition there, is true in each run of the function. `exact`:
/// by all integers, without products of two forms, divisions by anything but a number other than 0, calls and elements, for each run of
/// the core there is such a one of the function. `machine`: a run by a machine's integers is one by all integers. `states`: in each state
/// of a run the variables are among the integers by which it goes.
pub fn runs_are_kept()
    ensures runs { RunsAreKept }
    ensures checks { ChecksAreKept }
    ensures exact { RunsAreExact }
    ensures machine { MachineRunsAreRuns }
    ensures states { StatesAreInRange }
{}
