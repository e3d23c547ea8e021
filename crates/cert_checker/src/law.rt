//! Laws of the events of a check, each the contract of a function that does nothing.

ghost use Rattle.cert_checker.specs.Laws.{
  EvidenceIsSummed,
  StopsAreFaults,
  TestsAreFaults,
  UnstoppedIsLeast,
  UnstoppedIsValid,
};

/// The tests of a check alone, in their order, are those of the theory: they fail first at the first failing test of the
/// certificate.
pub fn tests_are_faults()
    ensures { TestsAreFaults }
{}

/// Nothing stops exactly where the certificate is valid and no operation on the way is too wide; then its bounds are the
/// least vector.
pub fn unstopped_is_valid()
    ensures valid { UnstoppedIsValid }
    ensures least { UnstoppedIsLeast }
{}

/// Where a test stops the check, it is the first failing test of the certificate.
pub fn stops_are_faults()
    ensures { StopsAreFaults }
{}

/// The sums of evidence that are formed from the left, rows first and then guards, are those of the theory.
pub fn evidence_is_summed()
    ensures { EvidenceIsSummed }
{}
