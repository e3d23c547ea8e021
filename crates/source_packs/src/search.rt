//! The search for groups: a stack of what has still to come.

ghost use Rattle.std.specs.Prelude.{◌≡◌, ◌∷◌, IfOk, OnOk, if◌then◌else◌};
ghost use Rattle.lang_groups.specs.Machine as lang;
ghost use Rattle.source_packs.specs.Machine.{after, before, start, step, told};
ghost use Rattle.source_packs.specs.Search.{book_in, stack_of, state_of};

use crate::goal::{Effect, Entry, Goal, Next, Place, Stop, enter};
use crate::part::Part;
use lang_groups::{Collector, Groups, Mark};
use std::alloc::{AllocError, Global};

/// How far a search has come.
#[derive(Drop)]
pub struct Search {
    goals: Vec<Goal>,
    collector: Collector,
    members: Vec<u32>,
    starts: Vec<usize>,
    testing: bool,
}

// Puts what follows the head of an `if` or a `while` onto the stack, and the head.
fn add_head(goals: &mut Vec<Goal>, behind: Goal) -> Result<(), AllocError>
    ensures { OnOk result (stack_of goals.new.items
        ≡ Goal.Open ∷ Goal.Rest Stop.Paren ∷ Goal.Statement Place.Sub ∷ behind ∷ stack_of goals.old.items) }
{
    goals.push(behind)?;
    goals.push(Goal::Statement(Place::Sub))?;
    goals.push(Goal::Rest(Stop::Paren))?;
    goals.push(Goal::Open)?;
    Ok(())
}

// Puts the parts of a `for` onto the stack.
fn add_for(goals: &mut Vec<Goal>) -> Result<(), AllocError>
    ensures { OnOk result (stack_of goals.new.items ≡ before Next.For (stack_of goals.old.items)) }
{
    goals.push(Goal::LoopEnds)?;
    goals.push(Goal::Statement(Place::Sub))?;
    goals.push(Goal::Left(Stop::Paren))?;
    goals.push(Goal::Rest(Stop::Semicolon))?;
    goals.push(Goal::LoopBegins)?;
    goals.push(Goal::Left(Stop::Semicolon))?;
    goals.push(Goal::Open)?;
    Ok(())
}

// Puts what has to come next onto the stack.
fn add(goals: &mut Vec<Goal>, next: Next) -> Result<(), AllocError>
    ensures { OnOk result (stack_of goals.new.items ≡ before next (stack_of goals.old.items)) }
{
    match next {
        Next::Zero => {}
        Next::One(first) => goals.push(first)?,
        Next::Two(first, second) => {
            goals.push(second)?;
            goals.push(first)?;
        }
        Next::If => add_head(goals, Goal::MaybeElse)?,
        Next::While => add_head(goals, Goal::LoopEnds)?,
        Next::Do => {
            goals.push(Goal::Tail)?;
            goals.push(Goal::Statement(Place::Sub))?;
        }
        Next::For => add_for(goals)?,
    }
    Ok(())
}

// Puts the further statements of a place onto the stack.
fn go_on(goals: &mut Vec<Goal>, place: Place) -> Result<(), AllocError>
    ensures { OnOk result (stack_of goals.new.items ≡ after place (stack_of goals.old.items)) }
{
    match place {
        Place::Sub => {}
        Place::Block => goals.push(Goal::Statement(place))?,
    }
    Ok(())
}

impl Search {
    /// A whole function has to come.
    pub fn new(alloc: Global) -> Result<Search, AllocError>
        ensures { IfOk result (λ search. state_of search ≡ start) }
    {
        let mut goals = Vec::new(alloc);
        goals.push(Goal::Front)?;
        Ok(Search {
            goals,
            collector: Collector::new(alloc),
            members: Vec::new(alloc),
            starts: Vec::new(alloc),
            testing: false,
        })
    }

    // A variable occurs.
    fn meet(&mut self, number: u32, counts: bool) -> Result<(), AllocError>
        ensures goals { OnOk result (self.new.goals ≡ self.old.goals) }
        ensures book { OnOk result (book_in self.new ≡ (if counts then told (Effect.Target number) (book_in self.old)
            else record (book_in self.old) { collector = lang.taken (Mark.Variable number) self.old.collector })) }
    {
        self.collector.take(Mark::Variable(number))?;
        if counts {
            self.members.push(number)?;
        }
        Ok(())
    }

    // A loop begins.
    fn begin(&mut self, testing: bool) -> Result<(), AllocError>
        ensures goals { OnOk result (self.new.goals ≡ self.old.goals) }
        ensures book { OnOk result (book_in self.new ≡ record (told Effect.Tests (book_in self.old)) { testing = testing }) }
    {
        self.starts.push(self.members.len())?;
        self.testing = testing;
        Ok(())
    }

    // The innermost loop has ended.
    fn end_loop(&mut self) -> Result<(), AllocError>
        ensures goals { OnOk result (self.new.goals ≡ self.old.goals) }
        ensures book { OnOk result (book_in self.new ≡ told Effect.LoopEnds (book_in self.old)) }
    {
        self.testing = false;
        if let Some(start) = self.starts.pop() {
            let from = start.min(self.members.len());
            self.collector.add(&self.members.as_slice()[from..])?;
            self.members.truncate(start);
        }
        Ok(())
    }

    // What a token tells besides what has to come.
    fn tell(&mut self, effect: Effect) -> Result<(), AllocError>
        ensures goals { OnOk result (self.new.goals ≡ self.old.goals) }
        ensures book { OnOk result (book_in self.new ≡ told effect (book_in self.old)) }
    {
        match effect {
            Effect::Nothing => Ok(()),
            Effect::Takes(mark) => self.collector.take(mark),
            Effect::Variable(number) => self.meet(number, self.testing),
            Effect::Target(number) => self.meet(number, true),
            Effect::Ends => {
                self.testing = false;
                self.collector.end()
            }
            Effect::EndsTogether => self.collector.end_together(),
            Effect::Tests => self.begin(true),
            Effect::Repeats => self.begin(false),
            Effect::TestsBehind => {
                self.testing = true;
                Ok(())
            }
            Effect::LoopEnds => self.end_loop(),
        }
    }

    /// Takes a token.
    pub fn take(&mut self, part: Part) -> Result<(), AllocError>
        ensures { OnOk result (state_of self.new ≡ step (stack_of self.old.goals.items) part (book_in self.old)) }
    {
        while let Some(goal) = self.goals.pop() {
            match enter(goal, part) {
                Entry::Leaves(effect) => self.tell(effect)?,
                Entry::Takes(effect, next, place) => {
                    self.tell(effect)?;
                    go_on(&mut self.goals, place)?;
                    return add(&mut self.goals, next);
                }
            }
        }
        Ok(())
    }

    /// The groups that have been found.
    pub fn into_groups(self) -> Groups
        ensures { result ≡ (state_of self).written.collector.groups }
    {
        self.collector.into_groups()
    }
}
