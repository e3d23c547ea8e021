//! The composed forms of all edges.

ghost use Rattle.std.specs.Prelude.{◌≡◌, ◌<◌, length, slice_get, Some};
ghost use Rattle.solve_composition.specs.Composed.{EdgeForms};

use crate::affine::{Affine, Affines};
use std::marker::Model;

/// The composed forms of one edge: the number of its free values, its guards in the order of its actions, and the end value of
/// each row of the template.
#[derive(Drop)]
pub struct Path {
    pub frees: u32,
    pub guards: Affines,
    pub rows: Affines,
}

impl Model for Path {
    ghost use Rattle.std.specs.Prelude.{◌≤◌, length};
    ghost use Rattle.flow_edges.specs.declared.limits.TheConstants.{MOST_ACTIONS};
    ghost use Rattle.solve_composition.specs.Composed.{EdgeForms};

    ghost Value = { EdgeForms };

    ghost view = { λ p. record { frees = p.frees; guards = p.guards; rows = p.rows } };

    ghost invariant = { λ p. length p.guards ≤ MOST_ACTIONS };
}

/// The composed forms of the edges of a system: for each edge the number of its free values, its guards in the order of its
/// actions, and the end value of each row of the template. Edges, guards and rows are numbered from 0.
#[derive(Drop)]
pub struct Paths {
    list: Vec<Path>,
}

impl Model for Paths {
    ghost use Rattle.std.specs.Prelude.{List};
    ghost use Rattle.solve_composition.specs.Composed.{EdgeForms};

    ghost Value = { List EdgeForms };

    ghost view = { λ p. p.list.items };
}

impl Paths {
    // The list as composed forms.
    pub(crate) fn new(list: Vec<Path>) -> Paths
        ensures { result ≡ list.items }
    {
        Paths { list }
    }

    /// The composed forms of an edge. Takes no memory.
    pub fn path(&self, edge: u32) -> &Path
        requires { edge < length self.now }
        ensures { slice_get self.now edge ≡ Some result.now }
    {
        &self.list[edge as usize]
    }

    /// How many guards an edge has. Takes no memory.
    pub fn guards(&self, edge: u32) -> u32
        requires { edge < length self.now }
        ensures { (forms : EdgeForms) → slice_get self.now edge ≡ Some forms → result ≡ length forms.guards }
    {
        self.list[edge as usize].guards.as_slice().len() as u32
    }

    /// How many free values an edge has. Takes no memory.
    pub fn frees(&self, edge: u32) -> u32
        requires { edge < length self.now }
        ensures { (forms : EdgeForms) → slice_get self.now edge ≡ Some forms → result ≡ forms.frees }
    {
        self.list[edge as usize].frees
    }

    /// A composed guard of an edge, in the order of its actions. Takes no memory.
    pub fn guard(&self, edge: u32, guard: u32) -> &Affine
        requires edge { edge < length self.now }
        requires guard { (forms : EdgeForms) → slice_get self.now edge ≡ Some forms → guard < length forms.guards }
        ensures { (forms : EdgeForms) → slice_get self.now edge ≡ Some forms → slice_get forms.guards guard ≡ Some result.now }
    {
        &self.list[edge as usize].guards.as_slice()[guard as usize]
    }

    /// The composed value of a template row at the end of an edge. Takes no memory.
    pub fn row(&self, edge: u32, row: u32) -> &Affine
        requires edge { edge < length self.now }
        requires row { (forms : EdgeForms) → slice_get self.now edge ≡ Some forms → row < length forms.rows }
        ensures { (forms : EdgeForms) → slice_get self.now edge ≡ Some forms → slice_get forms.rows row ≡ Some result.now }
    {
        &self.list[edge as usize].rows.as_slice()[row as usize]
    }
}
