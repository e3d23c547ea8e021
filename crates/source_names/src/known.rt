//! What has been met of a function.

ghost use Rattle.std.specs.Prelude.{◌≡◌, ◌∷◌, ℕ, ℤ, length, map, reverse, nat_lt, Option, None, Ok, IfOk};
ghost use Rattle.lang_tree.specs.declared.limits.TheConstants.{MOST_VARIABLES};
ghost use Rattle.std.specs.Option.{option_map};
ghost use Rattle.source_tree.specs.Extents.{extent_of};
ghost use Rattle.source_meaning.specs.Names.{State, start_state, thing_of as spelled_thing, variable_of, array_of, as_called, fresh};
ghost use Rattle.source_meaning.specs.Names.{with_variable, declared_number, fresh_array, with_array, closed};
ghost use Rattle.source_meaning.specs.declared.fault.FunctionFault.TheVariants as fault;
ghost use Rattle.source_meaning.specs.declared.fault.Limit.TheVariants as limit;
ghost use Rattle.source_meaning.specs.Results.{provided};
ghost use Rattle.source_meaning.specs.Arrays.{sized_by_name};
ghost use Rattle.source_meaning.specs.Limits.{counted};
ghost use Rattle.source_meaning.specs.Statements.{new_label};
ghost use Rattle.source_names.specs.Entries.{named, thing_of, again};
ghost use Rattle.source_names.specs.Gives.{Gives, seen};

use crate::entry::{Kept, Thing};
use crate::labels::Labels;
use crate::sizes::sized;
use crate::table::Table;
use lang_tree::{MOST_VARIABLES, Name, Names};
use source_meaning::{FunctionFault, Limit};
use source_tree::Extent;
use std::alloc::Global;
use std::marker::Model;

// The most statements of a program.
const MOST_STATEMENTS: usize = 4096;

/// What has been met of a function: its names with what they are and whether they are known here, its variables, its labels, and how many
/// statements the program has (docs/MEANING.md, "Functions of C"). A name is given by its bytes, by the number that it stands for where it
/// is a constant there, and by its place.
#[derive(Drop)]
pub struct Known {
    names: Table,
    variables: Vec<Name>,
    labels: Labels,
    count: usize,
}

impl Model for Known {
    ghost use Rattle.std.specs.Prelude.{◌≤◌, length, reverse, None};
    ghost use Rattle.lang_tree.specs.declared.limits.TheConstants.{MOST_VARIABLES};
    ghost use Rattle.source_meaning.specs.Names.{State};

    ghost Value = { State };

    ghost view = { λ k. record {
      names = k.names;
      variables = reverse k.variables.items;
      labels = k.labels;
      count = k.count;
      around = None;
    } };

    ghost invariant = { λ k. (length k.variables.items ≤ MOST_VARIABLES) × (k.count ≤ 4096) };
}

impl Known {
    /// Nothing has been met.
    pub fn new(alloc: Global) -> Self
        ensures { result ≡ start_state }
    {
        Known {
            names: Table::new(alloc),
            variables: Vec::new(alloc),
            labels: Labels::new(alloc),
            count: 0,
        }
    }

    /// What a name is, if it is known.
    pub fn thing(&self, name: &[u8], value: Option<i64>) -> Option<Thing<'_>>
        ensures { option_map thing_of result ≡ spelled_thing (named name.now value) self.now }
    {
        match value {
            Some(number) => Some(Thing::Constant(number)),
            None => self.names.known(name),
        }
    }

    /// The variable with this name, which stands at `at`.
    pub fn variable(&self, name: &[u8], value: Option<i64>, at: u32) -> Result<u32, FunctionFault>
        ensures { result ≡ variable_of (named name.now value) at self.now }
    {
        match self.thing(name, value) {
            Some(Thing::Variable(number)) => Ok(number),
            Some(_) => Err(FunctionFault::WrongKind { at }),
            None => Err(FunctionFault::UnknownName { at }),
        }
    }

    /// The extents of the array with this name, which has `count` indexes where it stands, at `at`.
    pub fn array(
        &self,
        name: &[u8],
        value: Option<i64>,
        at: u32,
        count: usize,
    ) -> Result<&[Extent], FunctionFault>
        ensures { seen (λ extents. map extent_of extents.now) result ≡ array_of (named name.now value) at count self.now }
    {
        match self.thing(name, value) {
            Some(Thing::Array(extents)) if extents.len() == count => Ok(extents),
            Some(_) => Err(FunctionFault::WrongKind { at }),
            None => Err(FunctionFault::UnknownName { at }),
        }
    }

    /// The name at `at` may be called: it is no variable and no array that is known, and no constant.
    pub fn called(&self, name: &[u8], value: Option<i64>, at: u32) -> Result<(), FunctionFault>
        ensures { result ≡ as_called at (spelled_thing (named name.now value) self.now) tt }
    {
        if self.thing(name, value).is_some() {
            return Err(FunctionFault::WrongKind { at });
        }
        Ok(())
    }

    /// How many elements an array has by the constant with this name, which stands at `at`.
    pub fn size(&self, name: &[u8], value: Option<i64>, at: u32) -> Result<Extent, FunctionFault>
        ensures { seen extent_of result ≡ sized_by_name at (spelled_thing (named name.now value) self.now) }
    {
        match self.thing(name, value) {
            Some(Thing::Constant(number)) => sized(number, at),
            Some(_) => Err(FunctionFault::WrongKind { at }),
            None => Err(FunctionFault::UnknownName { at }),
        }
    }

    // What a name was declared as before, if it was, where it may be declared.
    fn fresh(
        &self,
        name: &[u8],
        value: Option<i64>,
        at: u32,
    ) -> Result<Option<Thing<'_>>, FunctionFault>
        ensures { seen (option_map thing_of) result ≡ fresh (named name.now value) at self.now }
    {
        if value.is_some() {
            return Err(FunctionFault::NameTwice { at });
        }
        match self.names.find(name) {
            Some(entry) if entry.is_known => Err(FunctionFault::NameTwice { at }),
            Some(entry) => Ok(Some(entry.kept.thing())),
            None => Ok(None),
        }
    }

    // The number of the variable that a name was before, if it was one.
    fn again(&self, name: &[u8], value: Option<i64>, at: u32) -> Result<Option<u32>, FunctionFault>
        ensures { result ≡ again (named name.now value) at self.now }
    {
        match self.fresh(name, value, at)? {
            None => Ok(None),
            Some(Thing::Variable(number)) => Ok(Some(number)),
            Some(_) => Err(FunctionFault::NameTwice { at }),
        }
    }

    // The number of one variable more.
    fn more(&mut self, name: &Name, at: u32) -> Result<u32, FunctionFault>
        ensures { Gives {B = ℕ × State} (λ number. (number, self.new)) result (provided (nat_lt (length self.old.variables) MOST_VARIABLES)
            (fault.Limit at limit.Variables)
            (length self.old.variables, record self.old { variables = name.now ∷ self.old.variables })) }
    {
        let number = self.variables.len();
        if number >= MOST_VARIABLES {
            return Err(FunctionFault::Limit {
                at,
                which: Limit::Variables,
            });
        }
        self.variables.push(name.again())?;
        Ok(number as u32)
    }

    /// Declares a variable, whose name stands at `at`: one more, or the one that the name was before. Answers its number. Past a fault
    /// nothing is known of what has been met; so below.
    pub fn add_variable(
        &mut self,
        name: &Name,
        value: Option<i64>,
        at: u32,
    ) -> Result<u32, FunctionFault>
        ensures known { Gives (λ _. self.new) result (with_variable (named name.now value) at self.old) }
        ensures number { IfOk result (λ number. number ≡ declared_number self.new) }
    {
        let number = match self.again(name.bytes(), value, at)? {
            Some(number) => number,
            None => self.more(name, at)?,
        };
        self.names.add(name, Kept::Variable(number))?;
        Ok(number)
    }

    /// The name at `at` may be declared as an array.
    pub fn fresh_array(&self, name: &[u8], value: Option<i64>, at: u32) -> Result<(), FunctionFault>
        ensures { seen (λ _. self.now) result ≡ fresh_array (named name.now value) at self.now }
    {
        match self.fresh(name, value, at)? {
            None => Ok(()),
            Some(Thing::Array(_)) => Ok(()),
            Some(_) => Err(FunctionFault::NameTwice { at }),
        }
    }

    /// Declares an array with these extents of its indexes, whose name may be declared so.
    pub fn add_array(&mut self, name: &Name, extents: Vec<Extent>) -> Result<(), FunctionFault>
        ensures { Gives (λ _. self.new) result (Ok (with_array (named name.now None) (map extent_of extents.items) self.old)) }
    {
        self.names.add(name, Kept::Array(extents))?;
        Ok(())
    }

    /// Declares the label at `at`, which is a statement.
    pub fn add_label(&mut self, name: &Name, at: u32) -> Result<(), FunctionFault>
        ensures { (value : Option ℤ) → Gives (λ _. self.new) result (new_label (named name.now value) at self.old) }
    {
        if self.labels.contains(name.bytes()) {
            return Err(FunctionFault::NameTwice { at });
        }
        self.labels.add(name.bytes())?;
        self.count(at, 1)
    }

    /// Counts so many statements more, of the one that begins at `at`.
    pub fn count(&mut self, at: u32, more: usize) -> Result<(), FunctionFault>
        ensures { Gives (λ _. self.new) result (counted at more self.old) }
    {
        if more > MOST_STATEMENTS - self.count {
            return Err(FunctionFault::Limit {
                at,
                which: Limit::Statements,
            });
        }
        self.count += more;
        Ok(())
    }

    /// How many declarations there have been.
    pub fn mark(&self) -> usize
        ensures { result ≡ length self.now.names }
    {
        self.names.len()
    }

    /// Leaves a block before which there had been so many declarations: the names of it are known no longer.
    pub fn close(&mut self, before: usize)
        ensures { self.new ≡ closed before self.old }
    {
        self.names.forget(before);
    }

    /// The variables in order of declaration.
    pub fn into_names(self) -> Names
        ensures { result ≡ reverse self.variables }
    {
        Names::new(self.variables)
    }
}
