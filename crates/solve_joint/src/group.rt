//! Groups of numbers.

ghost use Rattle.std.specs.Prelude.{◌≡◌, ◌==◌, ◌⊎◌, ◌↔◌, ◌∷◌, ◌++◌, ◌<◌, ◌^◌, [], ℕ, IfOk, OnOk, length, replicate};
ghost use Rattle.std.specs.List.{list_any};
ghost use Rattle.base_facts.specs.Elements.{In};
ghost use Rattle.solve_joint.specs.Classes.{groups_by};

use std::alloc::{AllocError, Global};
use std::marker::Model;
use std::mem::replace;

/// Numbers in order, to which more are added.
#[derive(Drop)]
pub struct Group {
    list: Vec<u32>,
}

impl Model for Group {
    ghost use Rattle.std.specs.Prelude.{List, ℕ};

    ghost Value = { List ℕ };

    ghost view = { λ g. g.list.items };
}

impl Group {
    // No numbers.
    fn none(alloc: Global) -> Group
        ensures { result ≡ [] }
    {
        let list = Vec::new(alloc);
        Group { list }
    }

    /// The numbers.
    pub fn as_slice(&self) -> &[u32]
        ensures { result.now ≡ self.now }
    {
        self.list.as_slice()
    }

    /// Puts a number behind the others.
    pub fn add(&mut self, number: u32) -> Result<(), AllocError>
        ensures { OnOk result (self.new ≡ self.old ++ number ∷ []) }
    {
        self.list.push(number)?;
        Ok(())
    }

    // Whether a number is there.
    fn has(&self, number: u32) -> bool
        ensures { result ≡ list_any (λ x. x == number) self.now }
    {
        self.list.as_slice().iter().any(|x| *x == number)
    }

    /// Adds a number that isn't there yet.
    pub fn add_new(&mut self, number: u32) -> Result<(), AllocError>
        ensures { OnOk result ((x : ℕ) → In self.new x ↔ (In self.old x ⊎ (number ≡ x))) }
    {
        if self.has(number) {
            return Ok(());
        }
        self.add(number)?;
        Ok(())
    }

    /// Hands out the numbers, which aren't there any more.
    pub fn take(&mut self, alloc: Global) -> Group
        ensures taken { result ≡ self.old }
        ensures left { self.new ≡ [] }
    {
        replace(self, Group::none(alloc))
    }
}

/// So many groups without a number.
pub fn empty_groups(alloc: Global, count: usize) -> Result<Vec<Group>, AllocError>
    ensures { IfOk result (λ v. v.items ≡ replicate count []) }
{
    let mut groups = Vec::with_capacity(alloc, count)?;
    for _group in 0..count {
        groups.push(Group::none(alloc))?;
    }
    Ok(groups)
}

/// For each of so many keys the places of a list at which it stands.
pub fn groups_by(alloc: Global, count: usize, keys: &[u32]) -> Result<Vec<Group>, AllocError>
    requires few { length keys.now < 2 ^ 32 }
    requires within { (k : ℕ) → In keys.now k → k < count }
    ensures { IfOk result (λ v. v.items ≡ groups_by count keys.now) }
{
    let mut groups = empty_groups(alloc, count)?;
    for (place, key) in keys.iter().enumerate() {
        groups[*key as usize].add(place as u32)?;
    }
    Ok(groups)
}
