//! Forms and how they are combined.
#![tactic(auto, using(lang_meaning::proofs::results::Binds::then_ok, lang_meaning::proofs::results::Binds::then_err))]

ghost use Rattle.std.specs.Prelude.{◌≡◌, ◌*ℤ◌, pos, IfOk, IsTrue, replicate, slice_set};
ghost use Rattle.lang_tree.specs.Numbers.{are_numbers};
ghost use Rattle.lang_meaning.specs.Forms.{constant_form, variable_form, sum_or_difference, pairwise, together, products, scaled};
ghost use Rattle.lang_meaning.specs.Forms.{is_constant, is_comparable};
ghost use Rattle.lang_meaning.specs.Walk.{ranged_number, ranged_numbers, ranged};
ghost use Rattle.lang_meaning.specs.Gives.{Gives};

use lang_meaning::ParseFault;
use lang_tree::{Coeffs, Form};
use std::alloc::{AllocError, Global};

/// The greatest absolute value of a number.
const GREATEST: i128 = i64::MAX as i128;

// The number; out of its range it is a fault of the sign at `at`.
fn ranged_number(at: u32, number: i128) -> Result<i64, ParseFault>
    ensures { Gives (λ n. n) result (ranged_number at number) }
{
    if -GREATEST <= number && number <= GREATEST {
        Ok(number as i64)
    } else {
        Err(ParseFault::BigNumber { at })
    }
}

fn zeros(alloc: Global, width: usize) -> Result<Vec<i64>, AllocError>
    ensures list { IfOk result (λ list. list.items ≡ replicate width (pos 0)) }
    ensures numbers { IfOk result (λ list. IsTrue (are_numbers list.items)) }
{
    Ok(vec![in alloc; 0; width]?)
}

/// The whole number `constant`; out of its range it is a fault of the token at `at`.
pub fn constant_form(
    alloc: Global,
    at: u32,
    width: usize,
    constant: i64,
) -> Result<Form, ParseFault>
    ensures { Gives (λ form. form) result (ranged at (constant_form width constant)) }
{
    let list = zeros(alloc, width)?;
    let constant = ranged_number(at, constant as i128)?;
    Ok(Form {
        coeffs: Coeffs::new(list),
        constant,
    })
}

/// The whole number 0.
pub fn zero_form(alloc: Global, width: usize) -> Result<Form, AllocError>
    ensures { IfOk result (λ form. form ≡ constant_form width (pos 0)) }
{
    let list = zeros(alloc, width)?;
    Ok(Form {
        coeffs: Coeffs::new(list),
        constant: 0,
    })
}

fn set_one(list: &mut [i64], place: usize)
    requires { IsTrue (are_numbers list.old) }
    ensures list { list.new ≡ slice_set list.old place (pos 1) }
    ensures numbers { IsTrue (are_numbers list.new) }
{
    if place < list.len() {
        list[place] = 1;
    }
}

/// The variable with the number `var`, plus `constant`.
pub fn variable_form(
    alloc: Global,
    width: usize,
    var: u32,
    constant: i64,
) -> Result<Form, AllocError>
    ensures { IfOk result (λ form. form ≡ variable_form width var constant) }
{
    let mut list = zeros(alloc, width)?;
    set_one(list.as_mut_slice(), var as usize);
    Ok(Form {
        coeffs: Coeffs::new(list),
        constant,
    })
}

// `left + right`, or `left - right`.
fn sum_or_difference(at: u32, subtracts: bool, left: i64, right: i64) -> Result<i64, ParseFault>
    ensures { Gives (λ n. n) result (ranged_number at (sum_or_difference subtracts left right)) }
{
    if subtracts {
        ranged_number(at, left as i128 - right as i128)
    } else {
        ranged_number(at, left as i128 + right as i128)
    }
}

fn pairwise(
    alloc: Global,
    at: u32,
    subtracts: bool,
    left: &[i64],
    right: &[i64],
) -> Result<Vec<i64>, ParseFault>
    ensures list { Gives (λ list. list.items) result (ranged_numbers at (pairwise subtracts left.now right.now)) }
    ensures numbers { IfOk result (λ list. IsTrue (are_numbers list.items)) }
{
    let mut list = Vec::new(alloc);
    for i in 0..left.len().min(right.len()) {
        list.push(sum_or_difference(at, subtracts, left[i], right[i])?)?;
    }
    Ok(list)
}

/// `left + right`, or `left - right`; a number out of range is a fault of the sign at `at`.
pub fn together(
    alloc: Global,
    at: u32,
    subtracts: bool,
    left: &Form,
    right: &Form,
) -> Result<Form, ParseFault>
    ensures { Gives (λ form. form) result (ranged at (together subtracts left.now right.now)) }
{
    let list = pairwise(
        alloc,
        at,
        subtracts,
        left.coeffs.as_slice(),
        right.coeffs.as_slice(),
    )?;
    let constant = sum_or_difference(at, subtracts, left.constant, right.constant)?;
    Ok(Form {
        coeffs: Coeffs::new(list),
        constant,
    })
}

// `factor * number`.
fn times(at: u32, factor: i64, number: i64) -> Result<i64, ParseFault>
    ensures { Gives (λ n. n) result (ranged_number at (factor *ℤ number)) }
{
    ranged_number(at, factor as i128 * number as i128)
}

fn products(alloc: Global, at: u32, factor: i64, numbers: &[i64]) -> Result<Vec<i64>, ParseFault>
    ensures list { Gives (λ list. list.items) result (ranged_numbers at (products factor numbers.now)) }
    ensures numbers { IfOk result (λ list. IsTrue (are_numbers list.items)) }
{
    let mut list = Vec::new(alloc);
    for i in 0..numbers.len() {
        list.push(times(at, factor, numbers[i])?)?;
    }
    Ok(list)
}

/// `factor * form`; a number out of range is a fault of the sign at `at`.
pub fn scaled(alloc: Global, at: u32, factor: i64, form: &Form) -> Result<Form, ParseFault>
    ensures { Gives (λ form. form) result (ranged at (scaled factor form.now)) }
{
    let list = products(alloc, at, factor, form.coeffs.as_slice())?;
    let constant = times(at, factor, form.constant)?;
    Ok(Form {
        coeffs: Coeffs::new(list),
        constant,
    })
}

/// Whether all coefficients are 0.
pub fn is_constant(form: &Form) -> bool
    ensures { result ≡ is_constant form.now }
{
    form.coeffs.as_slice().iter().all(|x| *x == 0)
}

/// Whether the constant may stand in a comparison.
pub fn is_comparable(form: &Form) -> bool
    ensures { result ≡ is_comparable form.now }
{
    form.constant.unsigned_abs() + 1 <= i64::MAX as u64
}
