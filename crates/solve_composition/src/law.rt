//! Laws of composed forms, each the contract of a function that does nothing.

ghost use Rattle.solve_composition.specs.ComposedLaws.{ComposedFormsHaveColumns, ComposedFormsMean, GuardsAloneFit, OneComposition};

/// A system has one list of composed forms.
pub fn one_composition()
    ensures { OneComposition }
{}

/// The composed forms of an edge are all at most 0 in its guards exactly where a start state and free values give a trace, and
/// then have the value of each row at its end.
pub fn composed_forms_mean()
    ensures { ComposedFormsMean }
{}

/// There are composed forms for each edge; each has one coefficient for each start variable and each free value.
pub fn composed_forms_have_columns()
    ensures { ComposedFormsHaveColumns }
{}

/// Where no actions come before guards, their composition isn't refused: no operation of it is too wide.
pub fn guards_alone_fit()
    ensures { GuardsAloneFit }
{}
