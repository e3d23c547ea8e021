//! Edges that are walked, action by action.

ghost use Rattle.std.specs.Prelude.{◌≡◌, ◌≤◌, [], ◌∷◌, IfOk, OnOk, length};
ghost use Rattle.flow_edges.specs.Steps.{guards};
ghost use Rattle.flow_edges.specs.Trails.{begun_at, followed, kept};

use crate::case::Case;
use crate::edge::{Action, Actions, Edge};
use crate::limits::KEPT;
use std::alloc::{AllocError, Global};
use std::marker::Model;

/// An edge as far as it has been walked: the point where it starts, and its first actions.
#[derive(Drop)]
pub(crate) struct Trail {
    from: u32,
    actions: Vec<Action>,
}

impl Model for Trail {
    ghost use Rattle.std.specs.Prelude.{◌≤◌, length};
    ghost use Rattle.flow_edges.specs.Trails.{Begun};
    ghost use Rattle.flow_edges.specs.declared.limits.TheConstants.{KEPT};

    ghost Value = { Begun };

    ghost view = { λ t. record { from = t.from; actions = t.actions.items } };

    ghost invariant = { λ t. length t.actions.items ≤ KEPT };
}

impl Trail {
    /// An edge that starts at the point.
    pub(crate) fn new(alloc: Global, from: u32) -> Trail
        ensures { result ≡ begun_at from }
    {
        Trail {
            from,
            actions: Vec::new(alloc),
        }
    }

    /// Goes on by the action.
    pub(crate) fn add(&mut self, action: Action) -> Result<(), AllocError>
        ensures { OnOk result (self.new ≡ followed self.old (action ∷ [])) }
    {
        if self.actions.len() < KEPT {
            self.actions.push(action)?;
        }
        Ok(())
    }

    /// The same edge once more.
    pub(crate) fn again(&self, alloc: Global) -> Result<Trail, AllocError>
        ensures same { IfOk result (λ copy. copy ≡ self.now) }
        ensures short { length self.now.actions ≤ KEPT }
    {
        let actions = copies(alloc, &self.actions)?;
        Ok(Trail {
            from: self.from,
            actions,
        })
    }

    /// The edge that goes on by the case's guards.
    pub(crate) fn after(&self, alloc: Global, case: &Case) -> Result<Trail, AllocError>
        ensures { IfOk result (λ trail. trail ≡ followed self.now (guards case.now)) }
    {
        let mut trail = self.again(alloc)?;
        for form in case.as_slice() {
            trail.add(Action::Guard(form.again()?))?;
        }
        Ok(trail)
    }

    /// The edge that goes on by the actions.
    pub(crate) fn along(&self, alloc: Global, actions: &Actions) -> Result<Trail, AllocError>
        ensures { IfOk result (λ trail. trail ≡ followed self.now actions.now) }
    {
        let mut trail = self.again(alloc)?;
        for action in actions.as_slice() {
            trail.add(copy(action)?)?;
        }
        Ok(trail)
    }

    /// The edge that ends here, at the point.
    pub(crate) fn end(self, to: u32) -> Edge
        ensures { result ≡ record { from = self.from; to = to; actions = kept self.actions } }
    {
        Edge {
            from: self.from,
            to,
            actions: Actions::new(self.actions),
        }
    }
}

/// The same actions once more.
fn copies(alloc: Global, actions: &[Action]) -> Result<Vec<Action>, AllocError>
    ensures { IfOk result (λ list. list.items ≡ actions.now) }
{
    let mut list = Vec::new(alloc);
    for action in actions {
        list.push(copy(action)?)?;
    }
    Ok(list)
}

/// The same action once more.
fn copy(action: &Action) -> Result<Action, AllocError>
    ensures { IfOk result (λ same. same ≡ action.now) }
{
    match action {
        Action::Guard(form) => {
            let form = form.again()?;
            Ok(Action::Guard(form))
        }
        Action::Assign { var, form } => {
            let form = form.again()?;
            Ok(Action::Assign { var: *var, form })
        }
        Action::Havoc { var } => Ok(Action::Havoc { var: *var }),
        Action::Check(check) => Ok(Action::Check(*check)),
    }
}
