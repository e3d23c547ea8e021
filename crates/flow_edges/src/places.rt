//! The points of a program.

ghost use Rattle.std.specs.Prelude.{◌≡◌, ◌++◌, OnOk, IfOk};
ghost use Rattle.lang_tree.specs.View.{statement_of, statements_of};
ghost use Rattle.flow_edges.specs.Places.{one_point, places_in, places_of};
ghost use Rattle.flow_edges.specs.Points.{points_of_program};

use crate::count::splits;
use crate::point::{Place, Point, Points};
use lang_tree::{Block, Stmt};
use std::alloc::{AllocError, Global};

/// The points of the program in order: the entry, those that its statements make, the exit.
pub(crate) fn points_of_program(alloc: Global, body: &Block) -> Result<Points, AllocError>
    ensures { IfOk result (λ points. points ≡ points_of_program body.now) }
{
    let mut points = Vec::new(alloc);
    add_point(&mut points, Place::Entry, 0)?;
    add_points(&mut points, body.as_slice())?;
    add_point(&mut points, Place::Exit, 0)?;
    Ok(Points::new(points))
}

fn add_point(points: &mut Vec<Point>, place: Place, line: u32) -> Result<(), AllocError>
    ensures { OnOk result (points.new.items ≡ points.old.items ++ one_point place line) }
{
    points.push(Point { place, line })?;
    Ok(())
}

/// Adds the points that the statements and those in them make, in order.
#[cycle(places)]
fn add_points(points: &mut Vec<Point>, stmts: &[Stmt]) -> Result<(), AllocError>
    ensures { OnOk result (points.new.items ≡ points.old.items ++ places_in (statements_of stmts.now)) }
{
    let Some((stmt, rest)) = stmts.split_first() else {
        return Ok(());
    };
    add_points_in(points, stmt)?;
    add_points(points, rest)
}

/// Adds the points that the statement and those in it make, in order.
#[cycle(places)]
fn add_points_in(points: &mut Vec<Point>, stmt: &Stmt) -> Result<(), AllocError>
    ensures { OnOk result (points.new.items ≡ points.old.items ++ places_of (statement_of stmt.now)) }
{
    match stmt {
        Stmt::Set { .. }
        | Stmt::Havoc { .. }
        | Stmt::Where { .. }
        | Stmt::Check { .. }
        | Stmt::Break { .. }
        | Stmt::Continue { .. }
        | Stmt::Return { .. } => Ok(()),
        Stmt::Assume { cond, line } => {
            if splits(cond) {
                add_point(points, Place::Assume, *line)
            } else {
                Ok(())
            }
        }
        Stmt::If {
            first,
            second,
            line,
            ..
        } => {
            add_points(points, first.as_slice())?;
            add_points(points, second.as_slice())?;
            add_point(points, Place::Join, *line)
        }
        Stmt::While { body, line, .. }
        | Stmt::Do { body, line, .. }
        | Stmt::For { body, line, .. } => {
            add_point(points, Place::Loop, *line)?;
            add_points(points, body.as_slice())
        }
        Stmt::Label { name, line } => add_point(points, Place::Label(name.again()), *line),
    }
}
