//! States.

ghost use Rattle.std.specs.Prelude.{◌≡◌, ◌++◌, IfOk, false};
ghost use Rattle.serde_json.specs.Data.{no_members, put, string};
ghost use Rattle.serde_json.specs.Written.{compact_text, members_text};
ghost use Rattle.base_fractions.specs.Texts.{frac_text};
ghost use Rattle.out_json.specs.States.{members_with, state_value};
ghost use Rattle.out_json.specs.Entries.{entry_members};

use base_fractions::Frac;
use base_json::push_text_member;
use lang_tree::Name;
use std::alloc::{AllocError, Global};
use std::collections::BTreeMap;

/// Variables with their values, in the order of the bytes of their names.
type Variables = BTreeMap<Vec<u8>, Frac>;

/// Puts a variable among others.
fn put_variable(variables: &mut Variables, name: Vec<u8>, value: Frac) -> Result<(), AllocError>
    ensures { IfOk result (λ _. entry_members variables.new.entries
        ≡ put name.items (string (frac_text value)) (entry_members variables.old.entries)) }
{
    variables.insert(name, value)?;
    Ok(())
}

/// The variables of these names with their values.
fn variables_of(alloc: Global, names: &[Name], state: &[Frac]) -> Result<Variables, AllocError>
    ensures { IfOk result (λ variables. entry_members variables.entries ≡ members_with no_members names.now state.now) }
{
    let mut variables = BTreeMap::new(alloc);
    for index in 0..names.len().min(state.len()) {
        let name = names[index].bytes().to_vec(alloc)?;
        put_variable(&mut variables, name, state[index])?;
    }
    Ok(variables)
}

/// Appends variables with their values as members.
fn push_variables(out: &mut Vec<u8>, variables: &Variables) -> Result<(), AllocError>
    ensures { IfOk result (λ _. out.new.items ≡ out.old.items ++ members_text false (entry_members variables.now.entries)) }
{
    let mut later = false;
    for (name, value) in variables.iter() {
        push_text_member(out, later, name, value.text().bytes())?;
        later = true;
    }
    out.extend_from_slice(b"}")?;
    Ok(())
}

/// Appends a state: an object with the value of each variable of these names as a text, in the order of the bytes of the names.
pub fn push_state(
    alloc: Global,
    out: &mut Vec<u8>,
    names: &[Name],
    state: &[Frac],
) -> Result<(), AllocError>
    ensures { IfOk result (λ _. out.new.items ≡ out.old.items ++ compact_text (state_value names.now state.now)) }
{
    let variables = variables_of(alloc, names, state)?;
    out.extend_from_slice(b"{")?;
    push_variables(out, &variables)
}
