//! What is said of lists, tests and options, whatever stands in them: a theory with no code.
#![tactic(auto)]
