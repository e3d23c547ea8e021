//! What the right sides of `=` are.
#![tactic(auto, using(lang_meaning::proofs::results::Binds::then_ok, lang_meaning::proofs::results::Binds::then_err))]

ghost use Rattle.std.specs.Prelude.{◌≡◌};
ghost use Rattle.lang_grammar.specs.Symbols.{change_of};
ghost use Rattle.lang_meaning.specs.Walk.{right_side, assigned};
ghost use Rattle.lang_meaning.specs.Gives.{Gives};
ghost use Rattle.lang_reader.specs.Values.{value_of};

use lang_grammar::Change;
use lang_meaning::ParseFault;
use lang_reader::{Source, Value, number_of, together, variable_form};
use lang_tree::Form;

// The right side of the `=` at `sign`: a form, or any value.
pub(crate) fn right_side(sign: u32, value: Value) -> Result<Option<Form>, ParseFault>
    ensures { Gives (λ form. form) result (right_side sign (value_of value)) }
{
    match value {
        Value::Form(form, _) => Ok(Some(form)),
        Value::Truth(_) => Err(ParseFault::NotAffine { at: sign }),
        Value::Nondet(_) => Ok(None),
    }
}

// What the variable takes by the assignment whose sign is at `sign`.
pub(crate) fn assigned(
    source: &Source,
    change: Change,
    var: u32,
    sign: u32,
    value: Value,
) -> Result<Option<Form>, ParseFault>
    ensures { Gives (λ form. form) result (assigned source.now.width (change_of change) var sign (value_of value)) }
{
    let subtracts = match change {
        Change::Replaces => return right_side(sign, value),
        Change::Adds => false,
        Change::Subtracts => true,
    };
    let right = number_of(sign, value)?;
    let left = variable_form(source.alloc, source.width, var, 0)?;
    Ok(Some(together(source.alloc, sign, subtracts, &left, &right)?))
}
