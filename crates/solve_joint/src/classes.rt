//! Which unknowns are in one part.

ghost use Rattle.std.specs.Prelude.{◌≡◌, ◌<◌, ◌^◌, ℕ, IfOk, None, length, map, replicate};
ghost use Rattle.base_facts.specs.Elements.{In};
ghost use Rattle.solve_joint.specs.declared.node.Node.{Node};
ghost use Rattle.solve_joint.specs.Numbers.{Rises};
ghost use Rattle.solve_joint.specs.Tables.{closed};
ghost use Rattle.solve_joint.specs.Classes.{AreHomes, AreClasses, IsFirstPlace};

use crate::homes::homes;
use crate::node::Node;
use crate::table::Row;
use std::alloc::{AllocError, Global};

// So many places that aren't known.
fn no_places(alloc: Global, count: usize) -> Result<Vec<Option<u32>>, AllocError>
    ensures { IfOk result (λ v. v.items ≡ replicate count None) }
{
    let mut places = Vec::with_capacity(alloc, count)?;
    for _place in 0..count {
        places.push(None)?;
    }
    Ok(places)
}

// The place that is kept at a point, or else this one, which is kept from then on.
fn first_place(firsts: &mut Vec<Option<u32>>, point: u32, place: u32) -> u32
    requires { point < length firsts.old.items }
    ensures { IsFirstPlace firsts.old.items point place firsts.new.items result }
{
    match firsts[point as usize] {
        Some(first) => first,
        None => {
            firsts[point as usize] = Some(place);
            place
        }
    }
}

// The same by the lowest point that each point reaches and that reaches it: an unknown whose point and source reach each other is
// in one part with the others of which this holds at such points, and any other one is in a part of its own.
fn classes_by(
    alloc: Global,
    points: u32,
    rows: &[Row],
    homes: &[u32],
    nodes: &[Node],
) -> Result<Vec<u32>, AllocError>
    requires rows { rows.now ≡ closed points nodes.now }
    requires homes { AreHomes points rows.now homes.now }
    requires within { (a : Node) → In nodes.now a → (a.point < points) × (a.source < points) }
    requires rises { Rises 0 (map (λ (a : Node). a.unknown) nodes.now) }
    requires few { length nodes.now < 2 ^ 32 }
    ensures { IfOk result (λ v. AreClasses rows.now nodes.now v.items) }
{
    let mut firsts = no_places(alloc, points as usize)?;
    let mut classes = Vec::with_capacity(alloc, nodes.len())?;
    for (place, node) in nodes.iter().enumerate() {
        let home = homes[node.point as usize];
        let class = if home == homes[node.source as usize] {
            first_place(&mut firsts, home, place as u32)
        } else {
            place as u32
        };
        classes.push(class)?;
    }
    Ok(classes)
}

/// For each unknown of a list the place of a member of its part: the same one for all members, and not behind any.
pub fn classes(
    alloc: Global,
    points: u32,
    rows: &[Row],
    nodes: &[Node],
) -> Result<Vec<u32>, AllocError>
    requires rows { rows.now ≡ closed points nodes.now }
    requires within { (a : Node) → In nodes.now a → (a.point < points) × (a.source < points) }
    requires rises { Rises 0 (map (λ (a : Node). a.unknown) nodes.now) }
    requires few { length nodes.now < 2 ^ 32 }
    ensures { IfOk result (λ v. AreClasses rows.now nodes.now v.items) }
{
    let homes = homes(alloc, points, rows)?;
    classes_by(alloc, points, rows, homes.as_slice(), nodes)
}
