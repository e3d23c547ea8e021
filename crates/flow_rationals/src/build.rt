//! From equations to their system.

ghost use Rattle.std.specs.Prelude.{◌≡◌, ◌≤◌, IfOk, IsTrue, codes, length};
ghost use Rattle.flow_systems.specs.Cells.{cells_of};
ghost use Rattle.flow_systems.specs.View.{equations_of};
ghost use Rattle.flow_rationals.specs.Equations.{are_equations};
ghost use Rattle.flow_rationals.specs.System.{edges_of, entry_and_loop, rows_of, system_of, variables_of};

use crate::edges::edges_of;
use crate::equation::Equation;
use crate::equations::Equations;
use crate::limits::MOST_EQUATIONS;
use flow_edges::{Flow, Place, Point, Points};
use flow_systems::System;
use flow_templates::{Template, multiple};
use lang_tree::{Name, Names};
use std::alloc::{AllocError, Global};

/// The system whose least vector has the least solution of the equations at its loop.
///
/// It has an entry and one loop, a variable for each name and one more, named `int`, and a row for each name. One edge leads into
/// the loop: it gives each name a value of at most its start. Each alternative is an edge from the loop to itself: it gives its
/// name a value of at most each of its sums. `docs/MEANING.md` has the actions.
///
/// # Errors
///
/// It fails for want of memory alone.
pub fn system(alloc: Global, equations: &Equations) -> Result<System, AllocError>
    ensures names { IfOk result (λ system. system.flow.names ≡ variables_of equations.now) }
    ensures points { IfOk result (λ system. system.flow.points ≡ entry_and_loop) }
    ensures edges { IfOk result (λ system. system.flow.edges ≡ edges_of equations.now) }
    ensures rows { IfOk result (λ system. system.template ≡ rows_of (length equations.now)) }
    ensures system { IfOk result (λ system. equations_of system ≡ system_of equations.now) }
    ensures cells { IfOk result (λ system. cells_of (equations_of system) ≤ 11957) }
{
    let list = equations.as_slice();
    let flow = flow(alloc, list)?;
    let template = rows(alloc, list.len() as u32)?;
    Ok(System { flow, template })
}

// The points and the edges.
fn flow(alloc: Global, equations: &[Equation]) -> Result<Flow, AllocError>
    requires { IsTrue (are_equations equations.now) }
    ensures names { IfOk result (λ flow. flow.names ≡ variables_of equations.now) }
    ensures points { IfOk result (λ flow. flow.points ≡ entry_and_loop) }
    ensures edges { IfOk result (λ flow. flow.edges ≡ edges_of equations.now) }
{
    let names = variables(alloc, equations)?;
    let points = entry_and_loop(alloc)?;
    let edges = edges_of(alloc, equations)?;
    Ok(Flow {
        names,
        points,
        edges,
    })
}

// The names, and `int`.
fn variables(alloc: Global, equations: &[Equation]) -> Result<Names, AllocError>
    ensures { IfOk result (λ names. names ≡ variables_of equations.now) }
{
    let mut list = Vec::new(alloc);
    for equation in equations {
        list.push(equation.name.again())?;
    }
    list.push(last_name())?;
    Ok(Names::new(list))
}

// `int`, which no text has as a name.
fn last_name() -> Name
    ensures { result ≡ codes "int" }
{
    Name::new(b"int").unwrap()
}

// The entry and the loop.
fn entry_and_loop(alloc: Global) -> Result<Points, AllocError>
    ensures { IfOk result (λ points. points ≡ entry_and_loop) }
{
    let mut list = Vec::new(alloc);
    list.push(unlined(Place::Entry))?;
    list.push(unlined(Place::Loop))?;
    Ok(Points::new(list))
}

// A point that stands in no line of a text.
fn unlined(place: Place) -> Point
    ensures { result ≡ record { place = place; line = 0 } }
{
    Point { place, line: 0 }
}

// The row of each of n names.
fn rows(alloc: Global, names: u32) -> Result<Template, AllocError>
    requires some { 1 ≤ names }
    requires few { names ≤ MOST_EQUATIONS }
    ensures { IfOk result (λ template. template ≡ rows_of names) }
{
    let mut rows = Vec::new(alloc);
    for name in 0..names {
        rows.push(multiple(alloc, names + 1, 1, name)?)?;
    }
    Ok(Template::new(rows))
}
