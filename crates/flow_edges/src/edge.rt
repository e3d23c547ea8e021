//! What is done on the way from one point to the next.

use base_list::Sequence;
use lang_tree::{Check, Form};

/// One action of an edge. Variables are numbered from 0 in order of declaration, and hidden ones behind them.
#[derive(Drop)]
pub enum Action {
    /// Goes on only where the form is at most 0.
    Guard(Form),
    /// The variable takes the form's value.
    Assign { var: u32, form: Form },
    /// The variable takes any value.
    Havoc { var: u32 },
    /// Nothing happens: a check of the program stands here.
    Check(Check),
}

/// Actions in order.
pub type Actions = Sequence<Action>;

/// A way from one point to the next, with no point between: the numbers of the points, and the actions in order.
#[derive(Drop)]
pub struct Edge {
    pub from: u32,
    pub to: u32,
    pub actions: Actions,
}

/// Edges in order of their numbers.
pub type Edges = Sequence<Edge>;
