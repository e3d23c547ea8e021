//! Affine forms.

ghost use Rattle.std.specs.Prelude.{◌≡◌, IsTrue, IfOk};
ghost use Rattle.lang_tree.specs.Numbers.{are_numbers};

use std::alloc::AllocError;
use std::marker::Model;

/// A list of whole numbers, each within `2^63 - 1` in absolute value: the coefficients of a form or of a template's row,
/// one for each variable in order of declaration.
#[derive(Drop)]
pub struct Coeffs {
    list: Vec<i64>,
}

impl Model for Coeffs {
    ghost use Rattle.std.specs.Prelude.{List, ℤ, IsTrue};
    ghost use Rattle.lang_tree.specs.Numbers.{are_numbers};

    ghost Value = { List ℤ };

    ghost view = { λ c. c.list.items };

    ghost invariant = { λ c. IsTrue (are_numbers c.list.items) };
}

impl Coeffs {
    /// The list as coefficients.
    pub fn new(list: Vec<i64>) -> Coeffs
        requires { IsTrue (are_numbers list.items) }
        ensures { result ≡ list.items }
    {
        Coeffs { list }
    }

    /// The list itself.
    pub fn as_slice(&self) -> &[i64]
        ensures list { result.now ≡ self.now }
        ensures numbers { IsTrue (are_numbers self.now) }
    {
        self.list.as_slice()
    }

    /// The same list once more.
    pub fn again(&self) -> Result<Coeffs, AllocError>
        ensures { IfOk result (λ copy. copy ≡ self.now) }
    {
        let list = self.list.clone()?;
        Ok(Coeffs { list })
    }
}

/// An affine form: the sum of each variable's value times its coefficient, and a constant.
#[derive(Drop)]
pub struct Form {
    pub coeffs: Coeffs,
    pub constant: i64,
}

impl Form {
    /// The same form once more.
    pub fn again(&self) -> Result<Form, AllocError>
        ensures { IfOk result (λ copy. copy ≡ self.now) }
    {
        let coeffs = self.coeffs.again()?;
        Ok(Form {
            coeffs,
            constant: self.constant,
        })
    }
}
