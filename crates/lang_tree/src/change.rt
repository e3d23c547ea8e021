//! The change of a `for`.

use crate::form::Form;

/// What a `for` does after each turn of its body. Variables are numbered from 0 in order of declaration, lines from 1.
#[derive(Drop)]
pub enum Change {
    /// Nothing.
    Unchanged,
    /// The variable takes the form's value.
    Set { var: u32, form: Form, line: u32 },
    /// The variable takes any value.
    Havoc { var: u32, line: u32 },
}
