//! The points that occur in a list of unknowns.

ghost use Rattle.std.specs.Prelude.{◌≡◌, ◌+◌, ◌<◌, ◌≤◌, ◌^◌, ℕ, IfOk, OnOk, IsSome, length, map};
ghost use Rattle.std.specs.BTreeMap.{btree_map_len, get};
ghost use Rattle.std.specs.Ordering.{nat_cmp};
ghost use Rattle.solve_joint.specs.Nearby.{Occurs, AreNumbered, HasMore, number_at, renumbered, AreNearby};

use crate::node::Node;
use std::alloc::{AllocError, Global};
use std::collections::BTreeMap;

/// Unknowns over the points alone that occur in their list: those at which they stand and those from which their picked edges
/// come, numbered from 0 as they come up.
#[derive(Drop)]
pub struct NearNodes {
    /// The unknowns.
    pub nodes: Vec<Node>,
    /// How many points occur.
    pub points: u32,
}

/// Points with their numbers.
type Numbers = BTreeMap<u32, u32>;

// Gives a point the next number, if it has none yet.
fn add_point(numbers: &mut Numbers, point: u32) -> Result<(), AllocError>
    requires few { btree_map_len numbers.old < 2 ^ 32 }
    requires numbered { AreNumbered (btree_map_len numbers.old) (get nat_cmp numbers.old) }
    ensures few { OnOk result (btree_map_len numbers.new ≤ btree_map_len numbers.old + 1) }
    ensures numbered { OnOk result (AreNumbered (btree_map_len numbers.new) (get nat_cmp numbers.new)) }
    ensures more { OnOk result (HasMore point (get nat_cmp numbers.old) (get nat_cmp numbers.new)) }
{
    if numbers.contains_key(&point) {
        return Ok(());
    }
    let number = numbers.len() as u32;
    numbers.insert(point, number)?;
    Ok(())
}

// The points that occur in a list, with their numbers.
fn numbers_of(alloc: Global, nodes: &[Node]) -> Result<Numbers, AllocError>
    requires few { length nodes.now < 2 ^ 31 }
    ensures few { IfOk result (λ numbers. btree_map_len numbers < 2 ^ 32) }
    ensures numbered { IfOk result (λ numbers. AreNumbered (btree_map_len numbers) (get nat_cmp numbers)) }
    ensures all { IfOk result (λ numbers. (p : ℕ) → Occurs nodes.now p → IsSome (get nat_cmp numbers p)) }
{
    let mut numbers = BTreeMap::new(alloc);
    for node in nodes {
        add_point(&mut numbers, node.point)?;
        add_point(&mut numbers, node.source)?;
    }
    Ok(numbers)
}

// The number of a point, 0 if it has none.
fn number_of(numbers: &Numbers, point: u32) -> u32
    ensures { result ≡ number_at numbers.now point }
{
    match numbers.get(&point) {
        Some(number) => *number,
        None => 0,
    }
}

// The unknowns over the numbers of their points.
fn renumbered(alloc: Global, numbers: &Numbers, nodes: &[Node]) -> Result<Vec<Node>, AllocError>
    ensures { IfOk result (λ v. v.items ≡ map (renumbered (number_at numbers.now)) nodes.now) }
{
    let mut near = Vec::with_capacity(alloc, nodes.len())?;
    for node in nodes {
        near.push(Node {
            unknown: node.unknown,
            point: number_of(numbers, node.point),
            source: number_of(numbers, node.source),
        })?;
    }
    Ok(near)
}

/// The unknowns of a list over the points that occur in it. Takes time and memory by the length of the list, however many points
/// a program has.
///
/// # Errors
///
/// Want of memory.
pub fn nearby(alloc: Global, nodes: &[Node]) -> Result<NearNodes, AllocError>
    requires { length nodes.now < 2 ^ 31 }
    ensures { IfOk result (λ near. AreNearby nodes.now near.points near.nodes.items) }
{
    let numbers = numbers_of(alloc, nodes)?;
    let near = renumbered(alloc, &numbers, nodes)?;
    Ok(NearNodes {
        nodes: near,
        points: numbers.len() as u32,
    })
}
