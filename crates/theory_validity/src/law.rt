//! Laws of the definitions, each the contract of a function that does nothing.

ghost use Rattle.theory_validity.specs.Laws.{
  CertificatesAreLeast,
  FaultlessIsValid,
  StepsStayBelow,
  TracesHaveWords,
  WordsGiveTraces,
};

/// A word of an edge whose guards hold gives a trace along the edge.
pub fn words_give_traces()
    ensures { WordsGiveTraces }
{}

/// Each trace along an edge is that of a word.
pub fn traces_have_words()
    ensures { TracesHaveWords }
{}

/// Where a vector is at most one that bounds the edges of a valid step's items, the vector after the step is too: a plain
/// step by monotony, a jump by concavity, a ray by its case without end.
pub fn steps_stay_below()
    ensures { StepsStayBelow }
{}

/// The bounds of a valid certificate are the least vector of the system, whoever made it.
pub fn certificates_are_least()
    ensures { CertificatesAreLeast }
{}

/// The tests of a certificate, in their order, find no fault exactly where the certificate is valid.
pub fn faultless_is_valid()
    ensures { FaultlessIsValid }
{}
