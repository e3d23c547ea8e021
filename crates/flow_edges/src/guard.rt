//! The forms that guards are made of.

ghost use Rattle.std.specs.Prelude.{◌≡◌, IfOk, IsTrue, map, neg_ℤ};
ghost use Rattle.lang_tree.specs.Numbers.{is_number};
ghost use Rattle.lang_tree.specs.Cases.{negated, plus_one};
ghost use Rattle.flow_edges.specs.Constants.{has_room};

use lang_tree::{Coeffs, Form};
use std::alloc::{AllocError, Global};

/// `f + 1`
pub(crate) fn plus_one(form: Form) -> Form
    requires { IsTrue (has_room form) }
    ensures { result ≡ plus_one form }
{
    Form {
        coeffs: form.coeffs,
        constant: form.constant + 1,
    }
}

/// `-f`
pub(crate) fn negated(alloc: Global, form: &Form) -> Result<Form, AllocError>
    requires { IsTrue (has_room form.now) }
    ensures { IfOk result (λ f. f ≡ negated form.now) }
{
    let coeffs = opposites(alloc, &form.coeffs)?;
    Ok(Form {
        coeffs,
        constant: opposite(form.constant),
    })
}

fn opposites(alloc: Global, coeffs: &Coeffs) -> Result<Coeffs, AllocError>
    ensures { IfOk result (λ list. list ≡ map neg_ℤ coeffs.now) }
{
    let mut list = Vec::new(alloc);
    for coeff in coeffs.as_slice() {
        list.push(opposite(*coeff))?;
    }
    Ok(Coeffs::new(list))
}

fn opposite(number: i64) -> i64
    requires { IsTrue (is_number number) }
    ensures { result ≡ neg_ℤ number }
{
    -number
}
