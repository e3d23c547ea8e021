//! Unknowns that are to be tested again.

ghost use Rattle.std.specs.Prelude.{◌≡◌, ◌*◌, ◌<◌, length};
ghost use Rattle.solve_offers.specs.Outgoing.{AreLeaving};
ghost use Rattle.solve_rounds.specs.Growing.{EdgesEnd, HasMarks, KeepsSteps, WakesEdge, WakesPoint};

use crate::growing::Growing;
use flow_systems::{Pick, System};
use solve_offers::Known;

// The unknowns for which an edge is picked aren't quiet any more, and the point where it ends isn't calm.
fn wake_end(system: &System, pick: &Pick, edge: u32, growing: &mut Growing)
    requires pick { length pick.now ≡ length system.now.flow.points * length system.now.template }
    requires edge { edge < length system.now.flow.edges }
    requires marks { HasMarks system.now growing.old }
    requires ends { EdgesEnd system.now pick.now }
    ensures steps { KeepsSteps growing.old growing.new }
    ensures marks { HasMarks system.now growing.new }
    ensures wakes { WakesEdge system.now pick.now edge growing.old growing.new }
{
    let rows = system.template.as_slice().len() as u32;
    let point = system.flow.edges.as_slice()[edge as usize].to;
    for row in 0..rows {
        let unknown = point * rows + row;
        if let Some(picked) = pick.at(unknown) {
            if picked == edge {
                growing.quiet[unknown as usize] = false;
                growing.calm[point as usize] = false;
            }
        }
    }
}

// The unknowns whose picked edge starts at the point aren't quiet any more, and the points where such edges end aren't calm.
pub(crate) fn wake(system: &System, pick: &Pick, known: &Known, point: u32, growing: &mut Growing)
    requires pick { length pick.now ≡ length system.now.flow.points * length system.now.template }
    requires ends { EdgesEnd system.now pick.now }
    requires leaving { AreLeaving system.now known.now.outgoing }
    requires marks { HasMarks system.now growing.old }
    requires point { point < length system.now.flow.points }
    ensures steps { KeepsSteps growing.old growing.new }
    ensures marks { HasMarks system.now growing.new }
    ensures wakes { WakesPoint system.now pick.now point growing.old growing.new }
{
    for place in 0..known.count_out(point) {
        wake_end(system, pick, known.edge_out(point, place), growing);
    }
}
