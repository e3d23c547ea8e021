//! Parts that wait until they may be the next.

ghost use Rattle.std.specs.Prelude.{◌≡◌, ◌<◌, ◌^◌, ℕ, [], true, false, IfOk, OnOk, length, get_or};
ghost use Rattle.base_facts.specs.Elements.{In};
ghost use Rattle.solve_joint.specs.Classes.{places_of};
ghost use Rattle.solve_joint.specs.Waits.{IsHead, AreWaiting, AreKept, IsPlaced, AllPlaced, AllPlacedBut};

use crate::cutting::Cutting;
use crate::group::{Group, empty_groups};
use crate::table::Row;
use std::alloc::{AllocError, Global};
use std::collections::BTreeSet;

/// The parts that are ready, and those that aren't, each noted at an unknown that blocks it.
#[derive(Drop)]
pub struct Waiting {
    pub ready: BTreeSet<u32>,
    pub noted: Vec<Group>,
}

impl Waiting {
    // A part is ready, or is noted at an unknown that blocks it.
    fn place(&mut self, cutting: &Cutting, gone: &Row, head: u32) -> Result<(), AllocError>
        requires head { IsHead cutting.now.nodes.now cutting.now.classes.items head }
        requires left { get_or gone.now head false ≡ false }
        requires waiting { AreWaiting cutting.now.nodes.now cutting.now.classes.items gone.now self.old.ready.keys self.old.noted.items }
        ensures waiting { OnOk result (AreWaiting cutting.now.nodes.now cutting.now.classes.items gone.now self.new.ready.keys
            self.new.noted.items) }
        ensures kept { OnOk result (AreKept self.old.ready.keys self.old.noted.items self.new.ready.keys self.new.noted.items) }
        ensures placed { OnOk result (IsPlaced cutting.now.nodes.now cutting.now.classes.items gone.now self.new.ready.keys
            self.new.noted.items head) }
    {
        match cutting.blocker(gone, head) {
            Some(place) => {
                self.noted[place as usize].add(head)?;
                Ok(())
            }
            None => {
                self.ready.insert(head)?;
                Ok(())
            }
        }
    }

    // Those of some parts that aren't gone are placed anew.
    fn place_all(&mut self, cutting: &Cutting, gone: &Row, heads: &[u32]) -> Result<(), AllocError>
        requires heads { (k : ℕ) → In heads.now k → IsHead cutting.now.nodes.now cutting.now.classes.items k }
        requires waiting { AreWaiting cutting.now.nodes.now cutting.now.classes.items gone.now self.old.ready.keys self.old.noted.items }
        ensures waiting { OnOk result (AreWaiting cutting.now.nodes.now cutting.now.classes.items gone.now self.new.ready.keys
            self.new.noted.items) }
        ensures kept { OnOk result (AreKept self.old.ready.keys self.old.noted.items self.new.ready.keys self.new.noted.items) }
        ensures placed { OnOk result ((k : ℕ) → In heads.now k → get_or gone.now k false ≡ false
            → IsPlaced cutting.now.nodes.now cutting.now.classes.items gone.now self.new.ready.keys self.new.noted.items k) }
    {
        for head in heads {
            if !gone.at(*head as usize) {
                self.place(cutting, gone, *head)?;
            }
        }
        Ok(())
    }

    // All parts are placed, none of which is gone.
    fn place_each(&mut self, cutting: &Cutting, gone: &Row) -> Result<(), AllocError>
        requires few { length cutting.now.nodes.now < 2 ^ 32 }
        requires left { (k : ℕ) → get_or gone.now k false ≡ false }
        requires waiting { AreWaiting cutting.now.nodes.now cutting.now.classes.items gone.now self.old.ready.keys self.old.noted.items }
        ensures waiting { OnOk result (AreWaiting cutting.now.nodes.now cutting.now.classes.items gone.now self.new.ready.keys
            self.new.noted.items) }
        ensures placed { OnOk result (AllPlaced cutting.now.nodes.now cutting.now.classes.items gone.now self.new.ready.keys
            self.new.noted.items) }
    {
        for place in 0..cutting.nodes.len() as u32 {
            if cutting.class(place) == place {
                self.place(cutting, gone, place)?;
            }
        }
        Ok(())
    }

    /// The parts of a list, of which none is gone.
    pub fn begun(alloc: Global, cutting: &Cutting, gone: &Row) -> Result<Waiting, AllocError>
        requires few { length cutting.now.nodes.now < 2 ^ 32 }
        requires left { (k : ℕ) → get_or gone.now k false ≡ false }
        ensures waiting { IfOk result (λ w. AreWaiting cutting.now.nodes.now cutting.now.classes.items gone.now w.ready.keys
            w.noted.items) }
        ensures placed { IfOk result (λ w. AllPlaced cutting.now.nodes.now cutting.now.classes.items gone.now w.ready.keys
            w.noted.items) }
    {
        let ready = BTreeSet::new(alloc);
        let noted = empty_groups(alloc, cutting.nodes.len())?;
        let mut waiting = Waiting { ready, noted };
        waiting.place_each(cutting, gone)?;
        Ok(waiting)
    }

    /// The members of a part are gone: the parts that are noted there are placed anew.
    pub fn go_on(
        &mut self,
        alloc: Global,
        cutting: &Cutting,
        gone: &Row,
        head: u32,
    ) -> Result<(), AllocError>
        requires head { head < length cutting.now.nodes.now }
        requires out { (i : ℕ) → In (places_of cutting.now.classes.items head) i → get_or gone.now i false ≡ true }
        requires waiting { AreWaiting cutting.now.nodes.now cutting.now.classes.items gone.now self.old.ready.keys self.old.noted.items }
        requires others { AllPlacedBut cutting.now.nodes.now cutting.now.classes.items gone.now self.old.ready.keys self.old.noted.items
            (places_of cutting.now.classes.items head) }
        ensures waiting { OnOk result (AreWaiting cutting.now.nodes.now cutting.now.classes.items gone.now self.new.ready.keys
            self.new.noted.items) }
        ensures placed { OnOk result (AllPlaced cutting.now.nodes.now cutting.now.classes.items gone.now self.new.ready.keys
            self.new.noted.items) }
    {
        for member in cutting.members_of(head) {
            let heads = self.noted[*member as usize].take(alloc);
            self.place_all(cutting, gone, heads.as_slice())?;
        }
        Ok(())
    }
}
