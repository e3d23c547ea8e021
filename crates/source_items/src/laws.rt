//! A law of divisions. The function does nothing: its contract is the law.

ghost use Rattle.source_items.specs.Laws.{OneDivision, SomeDivision};

/// Tokens are those of one list of elements at most, and one thing becomes of them.
pub fn one_division()
    ensures one { OneDivision }
    ensures some { SomeDivision }
{}
