//! Laws of the definitions, each the contract of a function that does nothing: text and JSON say the same.

ghost use Rattle.ask_json.specs.Told.{ChecksAreTold, ClaimsAreTold};

/// The lines of verdicts on claims are told by their JSON value, with the variables in order of declaration: in JSON they stand in
/// order of their bytes.
pub fn claims_are_told()
    ensures { ClaimsAreTold }
{}

/// The same of checks.
pub fn checks_are_told()
    ensures { ChecksAreTold }
{}
