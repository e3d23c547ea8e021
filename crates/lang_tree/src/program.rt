//! Programs.

ghost use Rattle.std.specs.Prelude.{◌≡◌, IsTrue, length};
ghost use Rattle.lang_tree.specs.Tree.{nodes_in};
ghost use Rattle.lang_tree.specs.Limits.{is_program};

use crate::name::Names;
use crate::stmt::{Block, nodes_in};

/// A program: its variables in order of declaration, and its statements.
///
/// It has 1 to `MOST_VARIABLES` variables and at most 4,096 statements; each condition has at most 64 leaves; each statement's variable
/// is one of the program's or one of at most `MOST_HIDDEN` hidden ones, which are numbered after these; a form has coefficients for
/// the first of these variables, in order, and none for those behind; each number is within `2^63 - 1` in
/// absolute value, and the constant of a comparison within `2^63 - 2`; each `Break` and `Continue` stands in a loop's body.
///
/// Hidden variables have values only between one point and the next.
#[derive(Drop)]
pub struct Program {
    pub names: Names,
    pub body: Block,
    pub ghost within_limits: { IsTrue (is_program (length names) body) },
}

/// The number of the program's statements, those inside others, preludes and the changes of `for` included.
pub fn statements(program: &Program) -> u32
    ensures { result ≡ nodes_in program.now.body }
{
    nodes_in(&program.body)
}
