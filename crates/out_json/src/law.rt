//! Laws of the definitions, each the contract of a function that does nothing: text and JSON say the same.

ghost use Rattle.out_json.specs.Told.{ReportsAreTold, ValuesAreTold};

/// The lines of a report are told by its JSON value alone.
pub fn reports_are_told()
    ensures { ReportsAreTold }
{}

/// The lines of values are told by their JSON value alone.
pub fn values_are_told()
    ensures { ValuesAreTold }
{}
