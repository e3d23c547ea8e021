//! What has been met so far: variables, labels and the number of statements.

ghost use Rattle.std.specs.Prelude.{◌≡◌, ◌≤◌, length, IfOk};
ghost use Rattle.base_limits.specs.declared.limits.TheConstants.{MOST_PROGRAM_BYTES};
ghost use Rattle.lang_grammar.specs.Symbols.{demand_of};
ghost use Rattle.lang_tokens.specs.Lines.{line_at};
ghost use Rattle.lang_tree.specs.View.{statement_of};
ghost use Rattle.lang_meaning.specs.Expressions.{knowing};
ghost use Rattle.lang_meaning.specs.Walk.{start_state, counted, counted_for, jumped, labelled_by, known_number, assignment, declared_by};
ghost use Rattle.lang_meaning.specs.Walk.{closed};
ghost use Rattle.lang_meaning.specs.Gives.{Gives};
ghost use Rattle.lang_reader.specs.Views.{state_of};

use crate::names::NameTable;
use base_limits::MOST_STATEMENTS;
use lang_grammar::Demand;
use lang_meaning::{Limit, ParseFault};
use lang_tokens::line_of;
use lang_tree::{Form, MOST_VARIABLES, Name, Names, Stmt};
use std::alloc::{AllocError, Global};

/// What has been met so far.
#[derive(Drop)]
pub struct Context {
    // The variables in order of declaration.
    names: NameTable,
    // The numbers of those that are known here.
    known: Vec<u32>,
    labels: NameTable,
    count: u32,
}

/// The statement by which a variable takes the value of a form, or any.
pub fn assignment(var: u32, form: Option<Form>, line: u32) -> Stmt
    ensures { statement_of result ≡ assignment var form line }
{
    match form {
        Some(form) => Stmt::Set { var, form, line },
        None => Stmt::Havoc { var, line },
    }
}

impl Context {
    /// Before the first token.
    pub fn new(alloc: Global) -> Self
        ensures { state_of result ≡ start_state }
    {
        Context {
            names: NameTable::new(alloc),
            known: Vec::new(alloc),
            labels: NameTable::new(alloc),
            count: 0,
        }
    }

    /// All these names are known; a name's number is its first place.
    pub fn knowing(alloc: Global, names: &[Name]) -> Result<Self, AllocError>
        requires { length names.now ≤ MOST_VARIABLES }
        ensures { IfOk result (λ context. state_of context ≡ knowing names.now) }
    {
        let mut context = Context::new(alloc);
        for (number, name) in names.iter().enumerate() {
            context.names.add(name)?;
            context.known.push(number as u32)?;
        }
        Ok(context)
    }

    /// Counts one more statement, which begins at `at`.
    pub fn counted(&mut self, at: u32) -> Result<(), ParseFault>
        ensures { Gives (λ _. state_of self.new) result (counted at (state_of self.old)) }
    {
        if self.count < MOST_STATEMENTS {
            self.count += 1;
            Ok(())
        } else {
            Err(ParseFault::Limit {
                at,
                which: Limit::Statements,
            })
        }
    }

    /// Counts the `break` or `continue` at `at`, which has to stand in a loop's body.
    pub fn jumped(&mut self, inside: bool, at: u32) -> Result<(), ParseFault>
        ensures { Gives (λ _. state_of self.new) result (jumped inside at (state_of self.old)) }
    {
        if inside {
            self.counted(at)
        } else {
            Err(ParseFault::OutsideLoop { at })
        }
    }

    /// Counts the nodes of the `assume` or `assert` at `at`.
    pub fn counted_for(&mut self, demand: Demand, at: u32) -> Result<(), ParseFault>
        ensures { Gives (λ _. state_of self.new) result (counted_for (demand_of demand) at (state_of self.old)) }
    {
        match demand {
            Demand::Assumes => self.counted(at),
            Demand::Asserts => {
                self.counted(at)?;
                self.counted(at)
            }
        }
    }

    /// Declares a label.
    pub fn labelled(&mut self, name: &Name, at: u32) -> Result<(), ParseFault>
        ensures { Gives (λ _. state_of self.new) result (labelled_by name.now at (state_of self.old)) }
    {
        if self.labels.place(name).is_some() {
            return Err(ParseFault::NameTwice { at });
        }
        self.labels.add(name)?;
        self.counted(at)
    }

    /// The number of a variable that is known here.
    pub fn known_number(&self, name: &Name, at: u32) -> Result<u32, ParseFault>
        ensures { Gives (λ n. n) result (known_number name.now at (state_of self.now)) }
    {
        match self.names.place(name) {
            Some(place) if self.known.contains(&place) => Ok(place),
            _ => Err(ParseFault::UnknownName { at }),
        }
    }

    /// Declares a variable, which takes the value of a form, or any.
    pub fn declared(
        &mut self,
        text: &[u8],
        name: &Name,
        at: u32,
        form: Option<Form>,
    ) -> Result<Stmt, ParseFault>
        requires { length text.now ≤ MOST_PROGRAM_BYTES }
        ensures { Gives (λ s. (state_of self.new, statement_of s)) result
            (declared_by (line_at text.now) name.now at form (state_of self.old)) }
    {
        if self.names.place(name).is_some() {
            return Err(ParseFault::NameTwice { at });
        }
        let var = self.names.len();
        if var >= MOST_VARIABLES {
            return Err(ParseFault::Limit {
                at,
                which: Limit::Variables,
            });
        }
        let var = var as u32;
        self.names.add(name)?;
        self.known.push(var)?;
        self.counted(at)?;
        Ok(assignment(var, form, line_of(text, at)))
    }

    /// Leaves a block at whose beginning so many names were known.
    pub fn close(&mut self, known: usize)
        ensures { state_of self.new ≡ closed known (state_of self.old) }
    {
        self.known.truncate(known);
    }

    /// How many names are known here.
    pub fn known_count(&self) -> usize
        ensures { result ≡ length (state_of self.now).known }
    {
        self.known.len()
    }

    /// How many variables have been declared.
    pub fn variable_count(&self) -> usize
        ensures { result ≡ length (state_of self.now).names }
    {
        self.names.len()
    }

    /// The variables in order of declaration.
    pub fn into_names(self) -> Names
        ensures { result ≡ (state_of self).names }
    {
        self.names.into_names()
    }
}
