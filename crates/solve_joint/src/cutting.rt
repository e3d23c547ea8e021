//! What a cut of a list into parts goes by.

ghost use Rattle.std.specs.Prelude.{◌≡◌, ◌<◌, ◌^◌, ℕ, true, false, IfOk, MatchOption, length, map, get_or};
ghost use Rattle.base_facts.specs.Elements.{In};
ghost use Rattle.solve_joint.specs.declared.node.Node.{Node};
ghost use Rattle.solve_joint.specs.Numbers.{Rises};
ghost use Rattle.solve_joint.specs.Tables.{closed};
ghost use Rattle.solve_joint.specs.Classes.{AreClasses, groups_by, node_at, places_of, standing_at};
ghost use Rattle.solve_joint.specs.Waits.{is_outside, Blocks};

use crate::classes::classes;
use crate::closure::reaching;
use crate::group::{Group, groups_by};
use crate::node::Node;
use crate::table::Row;
use std::alloc::{AllocError, Global};

/// The unknowns of a list and their parts. A part is known by the place of one of its members.
#[derive(Drop)]
pub struct Cutting<'a> {
    /// The unknowns.
    pub nodes: &'a [Node],
    /// How many points they stand over.
    pub points: u32,
    /// For each unknown its part.
    pub classes: Vec<u32>,
    /// For each part the places of its members, rising.
    pub members: Vec<Group>,
    /// For each point the places of the unknowns that stand there.
    pub standing: Vec<Group>,
    pub ghost within: { (a : Node) → In nodes.now a → (a.point < points) × (a.source < points) },
    pub ghost sized: { length classes.items ≡ length nodes.now },
    pub ghost grouped: { members.items ≡ groups_by (length nodes.now) classes.items },
    pub ghost placed: { standing.items ≡ groups_by points (map (λ (a : Node). a.point) nodes.now) },
}

// The points of unknowns.
fn points_of(alloc: Global, nodes: &[Node]) -> Result<Vec<u32>, AllocError>
    ensures { IfOk result (λ v. v.items ≡ map (λ (a : Node). a.point) nodes.now) }
{
    nodes.iter().map(|a| a.point).collect(alloc)
}

impl<'a> Cutting<'a> {
    /// That of a rising list of unknowns over so many points.
    ///
    /// # Errors
    ///
    /// Want of memory.
    pub fn of(alloc: Global, points: u32, nodes: &'a [Node]) -> Result<Cutting<'a>, AllocError>
        requires within { (a : Node) → In nodes.now a → (a.point < points) × (a.source < points) }
        requires rises { Rises 0 (map (λ (a : Node). a.unknown) nodes.now) }
        requires few { length nodes.now < 2 ^ 32 }
        ensures nodes { IfOk result (λ c. c.nodes.now ≡ nodes.now) }
        ensures points { IfOk result (λ c. c.points ≡ points) }
        ensures classes { IfOk result (λ c. AreClasses (closed points nodes.now) nodes.now c.classes.items) }
    {
        let rows = reaching(alloc, points, nodes)?;
        let classes = classes(alloc, points, rows.as_slice(), nodes)?;
        let members = groups_by(alloc, nodes.len(), classes.as_slice())?;
        let stand = points_of(alloc, nodes)?;
        let standing = groups_by(alloc, points as usize, stand.as_slice())?;
        Ok(Cutting {
            nodes,
            points,
            classes,
            members,
            standing,
        })
    }
}

impl Cutting<'_> {
    /// The part of an unknown.
    pub fn class(&self, place: u32) -> u32
        ensures { result ≡ get_or self.now.classes.items place 0 }
    {
        match self.classes.as_slice().get(place as usize) {
            Some(class) => *class,
            None => 0,
        }
    }

    /// The places of the members of a part.
    pub fn members_of(&self, head: u32) -> &[u32]
        requires { head < length self.now.nodes.now }
        ensures { result.now ≡ places_of self.now.classes.items head }
    {
        self.members[head as usize].as_slice()
    }

    // The places of the unknowns that stand at a point.
    fn standing_at(&self, point: u32) -> &[u32]
        requires { point < self.now.points }
        ensures { result.now ≡ standing_at self.now.nodes.now point }
    {
        self.standing[point as usize].as_slice()
    }

    // Whether an unknown isn't gone and is outside of a part.
    fn is_outside(&self, gone: &Row, head: u32, place: u32) -> bool
        ensures { result ≡ is_outside self.now.classes.items gone.now head place }
    {
        !gone.at(place as usize) && self.class(place) != head
    }

    // An unknown left outside of a part that stands at a point: the last one, since the first ones go first more often.
    fn blocker_at(&self, gone: &Row, head: u32, point: u32) -> Option<u32>
        requires { point < self.now.points }
        ensures { MatchOption result
            ((i : ℕ) → In (standing_at self.now.nodes.now point) i → is_outside self.now.classes.items gone.now head i ≡ false)
            (λ i. In (standing_at self.now.nodes.now point) i × (is_outside self.now.classes.items gone.now head i ≡ true)) }
    {
        let places = self.standing_at(point);
        for passed in 0..places.len() {
            let place = places[places.len() - 1 - passed];
            if self.is_outside(gone, head, place) {
                return Some(place);
            }
        }
        None
    }

    /// An unknown that keeps a part from being the next.
    pub fn blocker(&self, gone: &Row, head: u32) -> Option<u32>
        requires { head < length self.now.nodes.now }
        ensures { MatchOption result ((i : ℕ) → Blocks self.now.nodes.now self.now.classes.items gone.now head i → ⊥)
            (Blocks self.now.nodes.now self.now.classes.items gone.now head) }
    {
        for member in self.members_of(head) {
            let source = self.nodes[*member as usize].source;
            if let Some(place) = self.blocker_at(gone, head, source) {
                return Some(place);
            }
        }
        None
    }

    /// The unknowns of a part, by their numbers.
    pub fn part(&self, alloc: Global, head: u32) -> Result<Vec<u32>, AllocError>
        requires { head < length self.now.nodes.now }
        ensures { IfOk result (λ v. v.items ≡ map (λ i. (node_at self.now.nodes.now i).unknown) (places_of self.now.classes.items head)) }
    {
        let members = self.members_of(head);
        let mut list = Vec::with_capacity(alloc, members.len())?;
        for member in members {
            list.push(self.nodes[*member as usize].unknown)?;
        }
        Ok(list)
    }

    /// The unknowns of a part are gone.
    pub fn leave(&self, gone: &mut Row, head: u32)
        requires head { head < length self.now.nodes.now }
        requires size { length gone.old ≡ length self.now.nodes.now }
        ensures size { length gone.new ≡ length gone.old }
        ensures out { (i : ℕ) → In (places_of self.now.classes.items head) i → get_or gone.new i false ≡ true }
        ensures others { (i : ℕ) → (In (places_of self.now.classes.items head) i → ⊥) → get_or gone.new i false ≡ get_or gone.old i false }
    {
        for member in self.members_of(head) {
            gone.set(*member as usize);
        }
    }
}
