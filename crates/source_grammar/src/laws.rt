//! What is true of the grammar itself.

ghost use Rattle.std.specs.Prelude.{◌≡◌, ◌↔◌, List, [], Option, Some, ℕ};
ghost use Rattle.source_grammar.specs.Tokens.{or_op, plus_op, remainder_op, Token};
ghost use Rattle.source_grammar.specs.Grammar.{Expr, joined, chosen, Groups, spell_expr, Items, GoodItems, spell_items};
ghost use Rattle.source_grammar.specs.Grammar.{Function, Reads, Begins};
ghost use Rattle.source_grammar.specs.Machine.{Goal, run, start};
ghost use Rattle.source_grammar.specs.Faults.{Opens};

/// Tokens read as at most one function.
pub fn one_function()
    ensures { (w : List Token) (f g : Function) → Reads w f → Reads w g → f ≡ g }
{}

/// An expression is determined by its tokens.
pub fn one_expression()
    ensures { (e f : Expr) → Groups 0 e → Groups 0 f → spell_expr e ≡ spell_expr f → e ≡ f }
{}

/// The statements, labels and declarations of a block are determined by their tokens.
pub fn one_body()
    ensures { (is js : Items) → GoodItems is → GoodItems js → spell_items is ≡ spell_items js → is ≡ js }
{}

/// `x + y % z` is `x + (y % z)`, `c ? d : e ? f : g` is `c ? d : (e ? f : g)`, and `c || d ? e : f` is
/// `(c || d) ? e : f`: the other trees are none of the grammar.
pub fn signs_group()
    ensures remainder { (e f g : Expr) (a b : ℕ) → Groups 7 e → Groups 7 f → Groups 7 g
        → Groups 0 (joined e plus_op a (joined f remainder_op b g)) × (Groups 0 (joined (joined e plus_op a f) remainder_op b g) → ⊥) }
    ensures choice { (c d e f g : Expr) (a b i j : ℕ) → Groups 7 c → Groups 7 d → Groups 7 e → Groups 7 f → Groups 7 g
        → Groups 0 (chosen c a d b (chosen e i f j g)) × (Groups 0 (chosen (chosen c a d b e) i f j g) → ⊥) }
    ensures either { (c d e f : Expr) (a b i : ℕ) → Groups 7 c → Groups 7 d → Groups 7 e → Groups 7 f
        → Groups 0 (chosen (joined c or_op a d) b e i f) × (Groups 0 (joined c or_op a (chosen d b e i f)) → ⊥) }
{}

/// Where tokens begin a function, each function that begins with them opens the same constructs at them.
pub fn one_depth()
    ensures { (front : List Token) → Begins front → (depths : List (Option ℕ)) × Opens front depths }
{}

/// The machine is the grammar: it ends with an empty stack exactly on what reads as a function, and
/// has a stack exactly where the tokens so far begin one.
pub fn every_front()
    ensures accepts { (w : List Token) → (run start w ≡ Some []) ↔ ((f : Function) × Reads w f) }
    ensures begins { (front : List Token) → ((gs : List Goal) × (run start front ≡ Some gs)) ↔ Begins front }
{}
