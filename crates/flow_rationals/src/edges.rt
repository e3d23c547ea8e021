//! The edges of the system of equations.

ghost use Rattle.std.specs.Prelude.{◌≡◌, ◌++◌, ◌≤◌, IfOk, IsTrue, OnOk, length, map, neg_ℤ};
ghost use Rattle.std.specs.List.{list_all};
ghost use Rattle.lang_tree.specs.Numbers.{is_number};
ghost use Rattle.flow_rationals.specs.Equations.{are_equations, is_alternative, is_sum};
ghost use Rattle.flow_rationals.specs.System.{alternative_edge, edges_of, last_form, start_edge, start_form, sum_form};

use crate::equation::{Alternative, Equation, Sum};
use crate::limits::MOST_EQUATIONS;
use base_fractions::Frac;
use flow_edges::{Action, Actions, Edge, Edges};
use flow_templates::multiple;
use lang_tree::{Coeffs, Form};
use std::alloc::{AllocError, Global};

// At most 0 where the name is at most the start.
fn start_form(alloc: Global, names: u32, name: u32, start: Frac) -> Result<Form, AllocError>
    requires { names ≤ MOST_EQUATIONS }
    ensures { IfOk result (λ form. form ≡ start_form names name start) }
{
    let coeffs = multiple(alloc, names + 1, start.den(), name)?;
    Ok(Form {
        coeffs,
        constant: -start.num(),
    })
}

// The edge into the loop.
fn start_edge(alloc: Global, equations: &[Equation]) -> Result<Edge, AllocError>
    requires { length equations.now ≤ MOST_EQUATIONS }
    ensures { IfOk result (λ edge. edge ≡ start_edge equations.now) }
{
    let names = equations.len() as u32;
    let mut actions = Vec::new(alloc);
    for (k, equation) in equations.iter().enumerate() {
        let var = k as u32;
        actions.push(Action::Havoc { var })?;
        actions.push(Action::Guard(start_form(alloc, names, var, equation.start)?))?;
    }
    Ok(Edge {
        from: 0,
        to: 1,
        actions: Actions::new(actions),
    })
}

// At most 0 where the last variable is at most the sum.
fn sum_form(alloc: Global, sum: &Sum) -> Result<Form, AllocError>
    requires constant { IsTrue (is_number sum.now.constant) }
    requires den { IsTrue (is_number sum.now.den) }
    ensures { IfOk result (λ form. form ≡ sum_form sum.now) }
{
    let mut list = Vec::new(alloc);
    for coeff in sum.coeffs.as_slice() {
        list.push(opposite(*coeff))?;
    }
    list.push(sum.den)?;
    Ok(Form {
        coeffs: Coeffs::new(list),
        constant: opposite(sum.constant),
    })
}

// The number with the other sign.
fn opposite(number: i64) -> i64
    requires { IsTrue (is_number number) }
    ensures { result ≡ neg_ℤ number }
{
    -number
}

// The last variable.
fn last_form(alloc: Global, names: u32) -> Result<Form, AllocError>
    requires { names ≤ MOST_EQUATIONS }
    ensures { IfOk result (λ form. form ≡ last_form names) }
{
    let coeffs = multiple(alloc, names + 1, 1, names)?;
    Ok(Form {
        coeffs,
        constant: 0,
    })
}

// The edge of an alternative of this name.
fn alternative_edge(alloc: Global, names: u32, name: u32, sums: &[Sum]) -> Result<Edge, AllocError>
    requires few { names ≤ MOST_EQUATIONS }
    requires sums { IsTrue (list_all (is_sum names) sums.now) }
    ensures { IfOk result (λ edge. edge ≡ alternative_edge names name sums.now) }
{
    let mut actions = Vec::new(alloc);
    actions.push(Action::Havoc { var: names })?;
    for sum in sums {
        actions.push(Action::Guard(sum_form(alloc, sum)?))?;
    }
    actions.push(Action::Assign {
        var: name,
        form: last_form(alloc, names)?,
    })?;
    Ok(Edge {
        from: 1,
        to: 1,
        actions: Actions::new(actions),
    })
}

// Adds the edges of a name's alternatives.
fn add_edges(
    alloc: Global,
    list: &mut Vec<Edge>,
    names: u32,
    name: u32,
    alternatives: &[Alternative],
) -> Result<(), AllocError>
    requires few { names ≤ MOST_EQUATIONS }
    requires alternatives { IsTrue (list_all (is_alternative names) alternatives.now) }
    ensures { OnOk result (list.new.items ≡ list.old.items ++ map (alternative_edge names name) alternatives.now) }
{
    for sums in alternatives {
        list.push(alternative_edge(alloc, names, name, sums.as_slice())?)?;
    }
    Ok(())
}

/// The edge into the loop, and one for each alternative in order.
pub(crate) fn edges_of(alloc: Global, equations: &[Equation]) -> Result<Edges, AllocError>
    requires { IsTrue (are_equations equations.now) }
    ensures { IfOk result (λ edges. edges ≡ edges_of equations.now) }
{
    let names = equations.len() as u32;
    let mut list = Vec::new(alloc);
    list.push(start_edge(alloc, equations)?)?;
    for (k, equation) in equations.iter().enumerate() {
        add_edges(
            alloc,
            &mut list,
            names,
            k as u32,
            equation.alternatives.as_slice(),
        )?;
    }
    Ok(Edges::new(list))
}
