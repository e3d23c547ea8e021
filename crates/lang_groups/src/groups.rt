//! Groups of variables.

ghost use Rattle.std.specs.Prelude.{◌≡◌, ◌&&◌, [], IfOk, OnOk};
ghost use Rattle.lang_groups.specs.Groups.{has, share, are_together};
ghost use Rattle.lang_groups.specs.Kept.{distinct, with_group};

use base_list::Sequence;
use std::alloc::{AllocError, Global};
use std::marker::Model;

/// The variables of a group, by their numbers.
pub type Group = Sequence<u32>;

/// Groups of variables (docs/MEANING.md, "Variables that stand together"). Contracts see a list of lists of numbers.
#[derive(Drop)]
pub struct Groups {
    list: Vec<Group>,
}

impl Model for Groups {
    ghost use Rattle.std.specs.Prelude.{List, ℕ};

    ghost Value = { List (List ℕ) };

    ghost view = { λ g. g.list.items };
}

// Whether a variable is in a group.
fn has(group: &[u32], x: u32) -> bool
    ensures { result ≡ has group.now x }
{
    group.iter().any(|y| *y == x)
}

// Whether two variables are in a group.
fn has_both(group: &Group, x: u32, y: u32) -> bool
    ensures { result ≡ (has group.now x && has group.now y) }
{
    has(group.as_slice(), x) && has(group.as_slice(), y)
}

// The variables of a list, each once.
fn distinct(alloc: Global, list: &[u32]) -> Result<Vec<u32>, AllocError>
    ensures { IfOk result (λ v. v.items ≡ distinct list.now) }
{
    let mut group: Vec<u32> = Vec::new(alloc);
    for x in list {
        if !has(&group, *x) {
            group.push(*x)?;
        }
    }
    Ok(group)
}

impl Groups {
    /// No groups.
    pub fn none(alloc: Global) -> Groups
        ensures { result ≡ [] }
    {
        Groups {
            list: Vec::new(alloc),
        }
    }

    /// The groups.
    pub fn as_slice(&self) -> &[Group]
        ensures { result.now ≡ self.now }
    {
        self.list.as_slice()
    }

    /// Puts a group behind the others: each of its variables once, and only where there are two.
    pub fn add(&mut self, alloc: Global, group: &[u32]) -> Result<(), AllocError>
        ensures { OnOk result (self.new ≡ with_group self.old group.now) }
    {
        let members = distinct(alloc, group)?;
        if members.len() >= 2 {
            self.list.push(Group::new(members))?;
        }
        Ok(())
    }

    // Whether two variables are in one group.
    fn share(&self, x: u32, y: u32) -> bool
        ensures { result ≡ share self.now x y }
    {
        self.list
            .as_slice()
            .iter()
            .any(|group| has_both(group, x, y))
    }

    /// Whether two variables are different ones of one group.
    pub fn are_together(&self, x: u32, y: u32) -> bool
        ensures { result ≡ are_together self.now x y }
    {
        x != y && self.share(x, y)
    }
}
