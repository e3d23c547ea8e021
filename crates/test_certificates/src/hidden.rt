//! Programs with a hidden variable, which are made by hand: their least bounds, worked out by hand, have a certificate.

ghost use Rattle.std.specs.Prelude.{◌≡◌, ◌<◌, ◌^◌, pos, negsuc, [], ◌∷◌, IfOk, IsTrue, length};
ghost use Rattle.std.specs.List.{list_all};
ghost use Rattle.lang_tree.specs.Limits.{is_program};
ghost use Rattle.flow_templates.specs.Domains.{intervals_of};
ghost use Rattle.cert_checker.specs.Items.{is_short};

use crate::checks::{names, rows};
use base_fractions::{Ext, Frac};
use cert_checker::{CheckFault, Scratch, check};
use cert_types::{Cert, Item, Items, Step, Steps, Upper, Uppers};
use flow_edges::flow;
use flow_systems::{Bounds, Fracs, System, Trace};
use flow_templates::intervals;
use lang_tree::{Block, Coeffs, Cond, Form, Name, Names, Program, Rel, Stmt};
use solve_composition::compose_all;
use std::alloc::{AllocError, Global};
use std::test::Fail;

// A statement that goes on only where the form is at most 0.
fn at_most_zero(form: Form) -> Stmt
    ensures { result ≡ Stmt.Where (Cond.Cmp Rel.Le form) 1 }
{
    Stmt::Where {
        cond: Cond::Cmp(Rel::Le, form),
        line: 1,
    }
}

// h - 5, where h is hidden and has the number 2.
fn small(alloc: Global) -> Result<Form, AllocError>
    ensures { IfOk result (λ form. form ≡ record { coeffs = pos 0 ∷ pos 0 ∷ pos 1 ∷ []; constant = negsuc 4 }) }
{
    Ok(Form {
        coeffs: Coeffs::new(vec![in alloc; 0, 0, 1]?),
        constant: -5,
    })
}

// 2 * h - x.
fn twice(alloc: Global) -> Result<Form, AllocError>
    ensures { IfOk result (λ form. form ≡ record { coeffs = negsuc 0 ∷ pos 0 ∷ pos 2 ∷ []; constant = pos 0 }) }
{
    Ok(Form {
        coeffs: Coeffs::new(vec![in alloc; -1, 0, 2]?),
        constant: 0,
    })
}

// x takes any value from 0 to 4, and h takes x + 2.
fn given(alloc: Global) -> Result<Vec<Stmt>, AllocError>
    ensures { IfOk result (λ list. list.items ≡ Stmt.Havoc 0 1
        ∷ Stmt.Where (Cond.Cmp Rel.Le (record { coeffs = pos 1 ∷ []; constant = negsuc 3 })) 1
        ∷ Stmt.Where (Cond.Cmp Rel.Le (record { coeffs = negsuc 0 ∷ []; constant = pos 0 })) 1
        ∷ Stmt.Set 2 (record { coeffs = pos 1 ∷ []; constant = pos 2 }) 1 ∷ []) }
{
    let mut list = Vec::new(alloc);
    list.push(Stmt::Havoc { var: 0, line: 1 })?;
    list.push(at_most_zero(Form {
        coeffs: Coeffs::new(vec![in alloc; 1]?),
        constant: -4,
    }))?;
    list.push(at_most_zero(Form {
        coeffs: Coeffs::new(vec![in alloc; -1]?),
        constant: 0,
    }))?;
    list.push(Stmt::Set {
        var: 2,
        form: Form {
            coeffs: Coeffs::new(vec![in alloc; 1]?),
            constant: 2,
        },
        line: 1,
    })?;
    Ok(list)
}

// Then h is at most 5, and x takes 2 * h - x.
fn used(alloc: Global) -> Result<Block, AllocError>
    ensures { IfOk result (λ body. IsTrue (is_program 1 body)) }
{
    let mut list = given(alloc)?;
    list.push(at_most_zero(small(alloc)?))?;
    list.push(Stmt::Set {
        var: 0,
        form: twice(alloc)?,
        line: 1,
    })?;
    Ok(Block::new(list))
}

// The same with a label before that.
fn forgotten(alloc: Global, name: Name) -> Result<Block, AllocError>
    ensures { IfOk result (λ body. IsTrue (is_program 1 body)) }
{
    let mut list = given(alloc)?;
    list.push(Stmt::Label { name, line: 1 })?;
    list.push(at_most_zero(small(alloc)?))?;
    list.push(Stmt::Set {
        var: 0,
        form: twice(alloc)?,
        line: 1,
    })?;
    Ok(Block::new(list))
}

// Whole numbers as fractions.
fn fracs(alloc: Global, numbers: &[i64]) -> Result<Fracs, Fail> {
    let mut list = Vec::new(alloc);
    for number in numbers {
        list.push(Frac::make(*number, 1).ok_or("a number")?)?;
    }
    Ok(Fracs::new(list))
}

// An item: the trace along an edge from such an x, with these values at its free assignments, shows the unknown at this bound.
fn item(
    alloc: Global,
    unknown: u32,
    edge: u32,
    start: i64,
    free: &[i64],
    to: i64,
) -> Result<Item, Fail> {
    Ok(Item {
        unknown,
        edge,
        low: Trace {
            start: fracs(alloc, &[start])?,
            free: fracs(alloc, free)?,
        },
        to: Frac::make(to, 1).ok_or("a number")?,
    })
}

// A step of two items.
fn step(alloc: Global, first: Item, second: Item) -> Result<Step, AllocError>
    ensures { IfOk result (λ step. IsTrue (is_short step)) }
{
    let mut items = Vec::new(alloc);
    items.push(first)?;
    items.push(second)?;
    Ok(Step::Plain(Items::new(items)))
}

// Evidence: the rows and the guards, so often taken, give the bound.
fn upper(alloc: Global, rows: &[i64], guards: &[i64]) -> Result<Upper, Fail> {
    Ok(Upper::Bound {
        rows: fracs(alloc, rows)?,
        guards: fracs(alloc, guards)?,
    })
}

// A certificate of these bounds behind the entry.
fn certificate(alloc: Global, numbers: &[i64], steps: Steps, uppers: Uppers) -> Result<Cert, Fail>
    ensures rows { IfOk result (λ cert. cert.rows ≡ intervals_of 1) }
    ensures steps { IfOk result (λ cert. cert.steps ≡ steps) }
{
    let mut bounds = vec![in alloc; Ext::PosInf; 2]?;
    for number in numbers {
        bounds.push(Ext::Fin(Frac::make(*number, 1).ok_or("a number")?))?;
    }
    Ok(Cert {
        rows: rows(alloc)?,
        bounds: Bounds::new(bounds),
        steps,
        uppers,
    })
}

// A program of one variable.
fn program(names: Names, body: Block) -> Program
    requires names { length names ≡ 1 }
    requires body { IsTrue (is_program 1 body) }
    ensures { length result.names ≡ 1 }
{
    Program { names, body }
}

// The system of a program of x over x and -x.
fn system(alloc: Global, program: &Program) -> Result<System, Fail>
    requires { length program.now.names ≡ 1 }
    ensures { IfOk result (λ system. system.template ≡ intervals_of 1) }
{
    let flow = match flow(alloc, program) {
        Ok(flow) => flow,
        Err(_) => return Err("few points".into()),
    };
    let template = intervals(alloc, 1)?;
    match System::new(flow, template) {
        Ok(system) => Ok(system),
        Err(_) => Err("few unknowns".into()),
    }
}

// What the check of a certificate of bounds of x and -x answers.
fn checked(alloc: Global, program: &Program, cert: &Cert) -> Result<Result<(), CheckFault>, Fail>
    requires names { length program.now.names ≡ 1 }
    requires rows { cert.now.rows ≡ intervals_of 1 }
    requires few { length cert.now.steps < 2 ^ 32 }
    requires short { IsTrue (list_all is_short cert.now.steps) }
{
    let system = system(alloc, program)?;
    let paths = compose_all(alloc, &system).ok().ok_or("small numbers")?;
    let mut scratch = Scratch::new(alloc, &system)?;
    Ok(check(&system, &paths, cert, &mut scratch))
}

// x is at most 3 where h is at most 5, and 2 * h - x is x + 4: so x ends from 4 to 7.
#[test]
fn a_hidden_value_is_used_on_the_way(rt: HostRuntime) -> Result<(), Fail> {
    let alloc = rt.alloc();
    let program = program(names(alloc)?, used(alloc)?);
    let greatest = item(alloc, 2, 0, 0, &[3], 7)?;
    let least = item(alloc, 3, 0, 0, &[0], -4)?;
    let mut steps = Vec::new(alloc);
    steps.push(step(alloc, greatest, least)?)?;
    let mut uppers = Vec::new(alloc);
    uppers.push(upper(alloc, &[0, 0], &[0, 0, 1])?)?;
    uppers.push(upper(alloc, &[0, 0], &[0, 1, 0])?)?;
    let cert = certificate(alloc, &[7, -4], Steps::new(steps), Uppers::new(uppers))?;
    assert_eq!(rt; checked(alloc, &program, &cert)?, Ok(()));
    Ok(())
}

// x comes from 0 to 4 to the label. Behind it h is 0, which is at most 5, and 2 * h - x is -x: so x ends from -4 to 0.
#[test]
fn a_hidden_value_ends_at_a_point(rt: HostRuntime) -> Result<(), Fail> {
    let alloc = rt.alloc();
    let body = forgotten(alloc, Name::new(b"l").ok_or("a word")?)?;
    let program = program(names(alloc)?, body);
    let greatest = item(alloc, 2, 0, 0, &[4], 4)?;
    let least = item(alloc, 3, 0, 0, &[0], 0)?;
    let mut steps = Vec::new(alloc);
    steps.push(step(alloc, greatest, least)?)?;
    let greatest = item(alloc, 4, 1, 0, &[], 0)?;
    let least = item(alloc, 5, 1, 4, &[], 4)?;
    steps.push(step(alloc, greatest, least)?)?;
    let mut uppers = Vec::new(alloc);
    uppers.push(upper(alloc, &[0, 0], &[1, 0])?)?;
    uppers.push(upper(alloc, &[0, 0], &[0, 1])?)?;
    uppers.push(upper(alloc, &[0, 1], &[0])?)?;
    uppers.push(upper(alloc, &[1, 0], &[0])?)?;
    let cert = certificate(alloc, &[4, 0, 0, 4], Steps::new(steps), Uppers::new(uppers))?;
    assert_eq!(rt; checked(alloc, &program, &cert)?, Ok(()));
    Ok(())
}
