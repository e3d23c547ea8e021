//! What is true of the grammar itself.

ghost use Rattle.std.specs.Prelude.{◌≡◌, ◌↔◌, ◌++◌, ◌∷◌, List, [], Option, Some, None};
ghost use Rattle.lang_grammar.specs.Grammar.{Token, Program, Reads, Begins, IsUnexpected};
ghost use Rattle.lang_grammar.specs.Machine.{Goal, run, start};

/// Tokens read as at most one program.
pub fn one_program()
    ensures { (w : List Token) (p q : Program) → Reads w p → Reads w q → p ≡ q }
{}

/// The machine is the grammar: it ends with an empty stack exactly on what reads as a program, and
/// has a stack exactly where the tokens so far begin one.
pub fn every_front()
    ensures accepts { (w : List Token) → (run start w ≡ Some []) ↔ ((p : Program) × Reads w p) }
    ensures begins { (front : List Token) → ((gs : List Goal) × (run start front ≡ Some gs)) ↔ Begins front }
{}
