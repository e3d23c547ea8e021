//! How the groups of comparisons are found, token by token.

ghost use Rattle.std.specs.Prelude.{◌≡◌, [], OnOk, drop};
ghost use Rattle.lang_groups.specs.declared.mark.Mark.TheVariants.{Opens};
ghost use Rattle.lang_groups.specs.Machine.{at_rest, run_ended, unwound, taken, ended, ended_together, with_added};

use crate::groups::Groups;
use crate::mark::Mark;
use crate::run::Run;
use std::alloc::{AllocError, Global};
use std::marker::Model;

/// Finds the groups of expressions from what their tokens are to them, in the order of the text. Contracts see the variables that occurred,
/// the run that has begun at the innermost bracket, those around it, and the groups so far.
#[derive(Drop)]
pub struct Collector {
    alloc: Global,
    seen: Vec<u32>,
    run: Run,
    outer: Vec<Run>,
    groups: Groups,
}

impl Model for Collector {
    ghost use Rattle.std.specs.Prelude.{◌≤◌, reverse, length};
    ghost use Rattle.lang_groups.specs.Machine.{State};

    ghost Value = { State };

    ghost view = { λ c. record { seen = c.seen.items; run = c.run; outer = reverse c.outer.items; groups = c.groups } };
}

// What stands behind so many elements of a list.
fn behind(list: &[u32], start: usize) -> &[u32]
    ensures { result.now ≡ drop start list.now }
{
    if start < list.len() {
        &list[start..]
    } else {
        &[]
    }
}

impl Collector {
    /// Nothing has been met.
    pub fn new(alloc: Global) -> Collector
        ensures { result ≡ at_rest [] }
    {
        Collector {
            alloc,
            seen: Vec::new(alloc),
            run: Run {
                start: 0,
                compared: false,
            },
            outer: Vec::new(alloc),
            groups: Groups::none(alloc),
        }
    }

    // Ends the run, and begins another.
    fn end_run(&mut self) -> Result<(), AllocError>
        ensures { OnOk result (self.new ≡ run_ended self.old) }
    {
        if self.run.compared {
            self.groups
                .add(self.alloc, behind(self.seen.as_slice(), self.run.start))?;
        }
        self.run = Run {
            start: self.seen.len(),
            compared: false,
        };
        Ok(())
    }

    // Begins a run in a bracket.
    fn open(&mut self) -> Result<(), AllocError>
        ensures { OnOk result (self.new ≡ taken Opens self.old) }
    {
        self.outer.push(self.run)?;
        self.run = Run {
            start: self.seen.len(),
            compared: false,
        };
        Ok(())
    }

    // Goes on with the run around the innermost bracket.
    fn unwind(&mut self)
        ensures { self.new ≡ unwound self.old self.old.outer }
    {
        if let Some(run) = self.outer.pop() {
            self.run = run;
        }
    }

    /// Takes a token.
    pub fn take(&mut self, mark: Mark) -> Result<(), AllocError>
        ensures { OnOk result (self.new ≡ taken mark self.old) }
    {
        match mark {
            Mark::Variable(x) => {
                self.seen.push(x)?;
                Ok(())
            }
            Mark::Opens => self.open(),
            Mark::Closes => {
                self.end_run()?;
                self.unwind();
                Ok(())
            }
            Mark::Compares => {
                self.run.compared = true;
                Ok(())
            }
            Mark::Parts => self.end_run(),
        }
    }

    /// The variables that occurred since the last end, in order.
    pub fn seen(&self) -> &[u32]
        ensures { result.now ≡ self.now.seen }
    {
        self.seen.as_slice()
    }

    // Forgets what has begun.
    fn rest(&mut self)
        ensures { self.new ≡ at_rest self.old.groups }
    {
        self.seen.clear();
        self.outer.clear();
        self.run = Run {
            start: 0,
            compared: false,
        };
    }

    /// Ends an expression.
    pub fn end(&mut self) -> Result<(), AllocError>
        ensures { OnOk result (self.new ≡ ended self.old) }
    {
        self.end_run()?;
        self.rest();
        Ok(())
    }

    /// Ends an expression whose variables are all together, as those of a change.
    pub fn end_together(&mut self) -> Result<(), AllocError>
        ensures { OnOk result (self.new ≡ ended_together self.old) }
    {
        self.end_run()?;
        self.groups.add(self.alloc, self.seen.as_slice())?;
        self.rest();
        Ok(())
    }

    /// Adds a group.
    pub fn add(&mut self, group: &[u32]) -> Result<(), AllocError>
        ensures { OnOk result (self.new ≡ with_added group.now self.old) }
    {
        self.groups.add(self.alloc, group)
    }

    /// The groups that were found.
    pub fn into_groups(self) -> Groups
        ensures { result ≡ self.groups }
    {
        self.groups
    }
}
