//! Laws of the definitions, each the contract of a function that does nothing.

ghost use Rattle.std.specs.Prelude.{◌≡◌, ◌↔◌, ℕ, List, Ok};
ghost use Rattle.flow_transitions.specs.AutoContents.{AutoAnswer, Content};
ghost use Rattle.flow_transitions.specs.AutoReading.{IsRead};
ghost use Rattle.flow_transitions.specs.AutoTexts.{IsAuto};
ghost use Rattle.flow_transitions.specs.AutoGroups.{HasGroups};
ghost use Rattle.lang_groups.specs.Groups.{SameTogether};
ghost use Rattle.flow_transitions.specs.AutoLaws.{ChoicesAreActs, PostSolutionsHoldAlong};

/// A text is one thing: one transition system, or one fault.
pub fn one_answer()
    ensures { (text : List ℕ) (a b : AutoAnswer) → IsAuto text a → IsAuto text b → a ≡ b }
{}

/// What a text is by its grammar is what it is read as, token by token and expression by expression: the transition system that its tokens
/// spell without fault, or their first fault.
pub fn texts_are_read()
    ensures { (text : List ℕ) (answer : AutoAnswer) → IsAuto text answer ↔ IsRead text answer }
{}

/// Acts lead from one integer state to another exactly where the actions of one of their choices do.
pub fn choices_are_acts()
    ensures { ChoicesAreActs }
{}

/// Every post-solution of a transition system's edges, over any template, holds at every configuration of every run.
pub fn post_solutions_hold_along()
    ensures { PostSolutionsHoldAlong }
{}

/// The groups of a text are one thing: by any two answers the same variables are together. A text that is a transition system has some.
pub fn one_grouping()
    ensures one { (text : List ℕ) (groups others : List (List ℕ)) → HasGroups text groups → HasGroups text others
        → SameTogether groups others }
    ensures some { (text : List ℕ) (c : Content) → IsAuto text (Ok c) → (groups : List (List ℕ)) × HasGroups text groups }
{}
