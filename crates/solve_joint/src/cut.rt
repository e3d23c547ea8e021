//! The cut of a list of picked unknowns into parts.

ghost use Rattle.std.specs.Prelude.{◌≡◌, ◌*◌, ◌^◌, ◌<◌, IfOk, length};
ghost use Rattle.solve_joint.specs.Numbers.{ArePicked, Rises};
ghost use Rattle.solve_joint.specs.PartLists.{
  EachRises,
  NumberClasses,
  NumbersAdmissible,
  NumbersInOrder,
  each_listed,
  listed_parts,
  part_numbers,
};
ghost use Rattle.solve_joint.specs.Tables.{closed};
ghost use Rattle.solve_joint.specs.Cuts.{cut_from};
ghost use Rattle.solve_joint.specs.Classes.{AreClasses};

use crate::cutting::Cutting;
use crate::nearby::nearby;
use crate::node::nodes;
use crate::part_lists::{Members, Parts};
use crate::table::Row;
use crate::waiting::Waiting;
use flow_systems::{Pick, System};
use std::alloc::{AllocError, Global};

// The parts of unknowns, in order.
fn cut(alloc: Global, cutting: &Cutting) -> Result<Vec<Members>, AllocError>
    requires few { length cutting.now.nodes.now < 2 ^ 32 }
    requires classes { AreClasses (closed cutting.now.points cutting.now.nodes.now) cutting.now.nodes.now cutting.now.classes.items }
    ensures { IfOk result (λ v. v.items ≡ cut_from (closed cutting.now.points cutting.now.nodes.now) (length cutting.now.nodes.now)
        cutting.now.nodes.now) }
{
    let turns = cutting.nodes.len();
    let mut gone = Row::none(alloc, turns)?;
    let mut waiting = Waiting::begun(alloc, cutting, &gone)?;
    let mut lists = Vec::new(alloc);
    for _turn in 0..turns {
        match waiting.ready.pop_first() {
            Some(head) => {
                let list = cutting.part(alloc, head)?;
                lists.push(Members::new(list))?;
                cutting.leave(&mut gone, head);
                waiting.go_on(alloc, cutting, &gone, head)?;
            }
            None => return Ok(lists),
        }
    }
    Ok(lists)
}

/// The parts of a rising list of unknowns that each have a picked edge, in order. One unknown leans on another where that
/// other one stands at the source of its picked edge. Two are in one part where they are the same, or each leans on the
/// other directly or through others of the list. Every part comes after the parts on which its members lean; where several
/// may come next, the one with the lowest unknown comes. Each part rises. The empty list has no parts. Unknowns are given by
/// their numbers. `docs/METHOD.md` says what is solved part by part.
///
/// # Errors
///
/// Want of memory.
pub fn parts(alloc: Global, system: &System, pick: &Pick, list: &[u32]) -> Result<Parts, AllocError>
    requires pick { length pick.now ≡ length system.now.flow.points * length system.now.template }
    requires rises { Rises 0 list.now }
    requires picked { ArePicked system.now pick.now list.now }
    ensures parts { IfOk result (λ p. p ≡ part_numbers system.now pick.now list.now) }
    ensures rise { IfOk result (λ p. EachRises p) }
    ensures listed { IfOk result (λ p. each_listed system.now pick.now p ≡ listed_parts system.now pick.now list.now) }
    ensures classes { IfOk result (λ p. NumberClasses system.now pick.now list.now p) }
    ensures admissible { IfOk result (λ p. NumbersAdmissible system.now pick.now list.now p) }
    ensures lowest_first { IfOk result (λ p. NumbersInOrder system.now pick.now list.now p) }
{
    let nodes = nodes(alloc, system, pick, list)?;
    let near = nearby(alloc, nodes.as_slice())?;
    let cutting = Cutting::of(alloc, near.points, near.nodes.as_slice())?;
    let lists = cut(alloc, &cutting)?;
    Ok(Parts::new(lists))
}
