//! Which points reach which by the picked edges of unknowns.

ghost use Rattle.std.specs.Prelude.{◌≡◌, ◌∷◌, ◌<◌, ℕ, [], IfOk, OnOk, length, get_or};
ghost use Rattle.base_facts.specs.Elements.{In};
ghost use Rattle.solve_joint.specs.declared.node.Node.{Node};
ghost use Rattle.solve_joint.specs.Tables.{closed};
ghost use Rattle.solve_joint.specs.Searches.{AreSteps, StepsWithin, IsReached, AreFound};

use crate::group::{Group, empty_groups};
use crate::node::Node;
use crate::table::Row;
use std::alloc::{AllocError, Global};

// For each point the sources of the unknowns that stand there, each once.
fn steps(alloc: Global, points: u32, nodes: &[Node]) -> Result<Vec<Group>, AllocError>
    requires { (a : Node) → In nodes.now a → a.point < points }
    ensures { IfOk result (λ v. AreSteps points nodes.now v.items) }
{
    let mut steps = empty_groups(alloc, points as usize)?;
    for node in nodes {
        steps[node.point as usize].add_new(node.source)?;
    }
    Ok(steps)
}

// A search: which points are found, and those of them from which it hasn't gone on yet.
#[derive(Drop)]
struct Search {
    found: Row,
    open: Vec<u32>,
}

impl Search {
    // Finds a point.
    fn find(&mut self, point: u32) -> Result<(), AllocError>
        requires { point < length self.old.found }
        ensures { OnOk result (AreFound (point ∷ []) self.old.found self.old.open.items self.new.found self.new.open.items) }
    {
        if self.found.at(point as usize) {
            return Ok(());
        }
        self.found.set(point as usize);
        self.open.push(point)?;
        Ok(())
    }

    // Finds points.
    fn find_all(&mut self, points: &[u32]) -> Result<(), AllocError>
        requires { (q : ℕ) → In points.now q → q < length self.old.found }
        ensures { OnOk result (AreFound points.now self.old.found self.old.open.items self.new.found self.new.open.items) }
    {
        for point in points {
            self.find(*point)?;
        }
        Ok(())
    }
}

// To which points steps lead from one of them.
fn reached(alloc: Global, points: u32, steps: &[Group], point: u32) -> Result<Row, AllocError>
    requires size { length steps.now ≡ points }
    requires within { StepsWithin points steps.now }
    requires point { point < points }
    ensures { IfOk result (IsReached points steps.now point) }
{
    let found = Row::none(alloc, points as usize)?;
    let open = Vec::new(alloc);
    let mut search = Search { found, open };
    search.find(point)?;
    'going: while let Some(next) = search.open.pop() {
        search.find_all(steps[next as usize].as_slice())?;
    }
    let Search { found, open: _ } = search;
    Ok(found)
}

/// For each two of so many points, whether they are one, or the first is led to the second by the unknowns: an unknown leads
/// from its point to the source of its picked edge. The unknowns stand over these points.
pub fn reaching(alloc: Global, points: u32, nodes: &[Node]) -> Result<Vec<Row>, AllocError>
    requires { (a : Node) → In nodes.now a → (a.point < points) × (a.source < points) }
    ensures { IfOk result (λ v. v.items ≡ closed points nodes.now) }
{
    let steps = steps(alloc, points, nodes)?;
    let mut rows = Vec::with_capacity(alloc, points as usize)?;
    for point in 0..points {
        rows.push(reached(alloc, points, steps.as_slice(), point)?)?;
    }
    Ok(rows)
}
