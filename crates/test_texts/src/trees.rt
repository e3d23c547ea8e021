//! Points and edges of trees that no text reads as: with returns, preludes and lists of changes, and with many checks.

ghost use Rattle.std.specs.Prelude.{◌≡◌, ◌+◌, ◌≤◌, false, pos, [], ◌∷◌, IfOk, IsTrue, OnOk};
ghost use Rattle.lang_tree.specs.Tree.{branch, free, nil, cons, node_count, nodes_in, set};
ghost use Rattle.lang_tree.specs.Limits.{are_statements, is_program, is_statement};
ghost use Rattle.lang_tree.specs.View.{condition_of, statement_of, statements_of};
ghost use Rattle.lang_tree.specs.declared.limits.TheConstants.{MOST_HIDDEN};
ghost use Rattle.flow_edges.proofs.points.DeedExamples.{chosen, low, parting, returning, stepped, tested};

use crate::flows::shown;
use flow_edges::{Flow, FlowFault, flow};
use lang_tree::{
    Block, Check, CheckKind, Coeffs, Cond, Deed, Deeds, Form, Name, Names, Program, Rel, Stmt,
};
use std::alloc::{AllocError, Global};

// `x` and the constant.
fn offset(alloc: Global, constant: i16) -> Result<Form, AllocError>
    ensures { IfOk result (λ form. form ≡ record { coeffs = pos 1 ∷ []; constant = constant }) }
{
    Ok(Form {
        coeffs: Coeffs::new(vec![in alloc; 1]?),
        constant: i64::from(constant),
    })
}

// `x < 3`.
fn low(alloc: Global) -> Result<Cond, AllocError>
    ensures { IfOk result (λ cond. condition_of cond ≡ low) }
{
    Ok(Cond::Cmp(Rel::Lt, offset(alloc, -3)?))
}

// `x = x + 1`.
fn next(alloc: Global) -> Result<Stmt, AllocError>
    ensures { IfOk result (λ stmt. statement_of stmt ≡ set 0 (record { coeffs = pos 1 ∷ []; constant = pos 1 }) 1) }
{
    let form = offset(alloc, 1)?;
    Ok(Stmt::Set {
        var: 0,
        form,
        line: 1,
    })
}

// The statement alone.
fn only(alloc: Global, stmt: Stmt) -> Result<Block, AllocError>
    ensures { IfOk result (λ block. block ≡ cons (statement_of stmt) nil) }
{
    let list = vec![in alloc; stmt]?;
    Ok(Block::new(list))
}

// `if (nondet())` and the jump.
fn may_jump(alloc: Global, jump: Stmt) -> Result<Stmt, AllocError>
    ensures { IfOk result (λ stmt. statement_of stmt ≡ branch free (cons (statement_of jump) nil) nil 1) }
{
    let first = only(alloc, jump)?;
    let second = Block::new(Vec::new(alloc));
    Ok(Stmt::If {
        cond: Cond::Free,
        first,
        second,
        line: 1,
    })
}

// `if (nondet()) return; x = x + 1;`.
fn parting(alloc: Global) -> Result<Block, AllocError>
    ensures { IfOk result (λ block. block ≡ parting) }
{
    let first = may_jump(alloc, Stmt::Return { line: 1 })?;
    let second = next(alloc)?;
    let list = vec![in alloc; first, second]?;
    Ok(Block::new(list))
}

// The same in a `while (x < 3)`.
fn returning(alloc: Global) -> Result<Block, AllocError>
    ensures { IfOk result (λ block. block ≡ returning) }
{
    let cond = low(alloc)?;
    let body = parting(alloc)?;
    let stmt = Stmt::While {
        prelude: Deeds::none(alloc),
        cond,
        body,
        line: 1,
    };
    only(alloc, stmt)
}

// `while (x < 3)`, before which `x` takes any value that is at most 5 or at least 7.
fn chosen(alloc: Global) -> Result<Block, AllocError>
    ensures { IfOk result (λ block. block ≡ chosen) }
{
    let first = Box::new(alloc, Cond::Cmp(Rel::Le, offset(alloc, -5)?))?;
    let second = Box::new(alloc, Cond::Cmp(Rel::Ge, offset(alloc, -7)?))?;
    let any = Deed::Havoc { var: 0, line: 1 };
    let but_six = Deed::Where {
        cond: Cond::Either(first, second),
        line: 1,
    };
    let prelude = Deeds::new(vec![in alloc; any, but_six]?);
    let cond = low(alloc)?;
    let body = Block::new(Vec::new(alloc));
    let stmt = Stmt::While {
        prelude,
        cond,
        body,
        line: 1,
    };
    only(alloc, stmt)
}

// `do { if (nondet()) continue; x = x + 1; } while (x < 3)`, before whose test `x` takes any value.
fn tested(alloc: Global) -> Result<Block, AllocError>
    ensures { IfOk result (λ block. block ≡ tested) }
{
    let first = may_jump(alloc, Stmt::Continue { line: 1 })?;
    let second = next(alloc)?;
    let list = vec![in alloc; first, second]?;
    let prelude = Deeds::new(vec![in alloc; Deed::Havoc { var: 0, line: 1 }]?);
    let cond = low(alloc)?;
    let stmt = Stmt::Do {
        prelude,
        cond,
        body: Block::new(list),
        line: 1,
    };
    only(alloc, stmt)
}

// `for (; x < 3; x = x + 1, x = nondet(), x = x + 1) { }`.
fn stepped(alloc: Global) -> Result<Block, AllocError>
    ensures { IfOk result (λ block. block ≡ stepped) }
{
    let form = offset(alloc, 1)?;
    let again = offset(alloc, 1)?;
    let first = Deed::Set {
        var: 0,
        form,
        line: 1,
    };
    let second = Deed::Havoc { var: 0, line: 1 };
    let third = Deed::Set {
        var: 0,
        form: again,
        line: 1,
    };
    let change = Deeds::new(vec![in alloc; first, second, third]?);
    let cond = low(alloc)?;
    let stmt = Stmt::For {
        prelude: Deeds::none(alloc),
        cond,
        change,
        body: Block::new(Vec::new(alloc)),
        line: 1,
    };
    only(alloc, stmt)
}

// The points and edges of a tree over `x`; nothing without memory.
fn made(alloc: Global, body: Result<Block, AllocError>) -> Option<Result<Flow, FlowFault>>
    requires { IfOk body (λ tree. IsTrue (is_program 1 tree)) }
{
    let name = Name::new(b"x")?;
    let list = vec![in alloc; name].ok()?;
    let names = Names::new(list);
    match body {
        Ok(body) => Some(flow(alloc, &Program { names, body })),
        Err(_) => None,
    }
}

// Whether the tree has these points and edges.
fn has(alloc: Global, body: Result<Block, AllocError>, wanted: &str) -> bool
    requires { IfOk body (λ tree. IsTrue (is_program 1 tree)) }
{
    match made(alloc, body) {
        Some(Ok(flow)) => match shown(alloc, &flow) {
            Ok(text) => text.as_str() == wanted,
            Err(_) => false,
        },
        _ => false,
    }
}

#[test]
fn returns_go_to_the_exit(rt: HostRuntime) {
    let wanted = "entry 0\njoin 1\nexit 0\n0>2\n0>1\n1>2 x=1x+1\n";
    assert!(rt; has(rt.alloc(), parting(rt.alloc()), wanted));
    let wanted =
        "entry 0\nloop 1\njoin 1\nexit 0\n0>1\n1>3 1x-2\n1>2 1x-2\n1>3 -1x+3\n2>1 x=1x+1\n";
    assert!(rt; has(rt.alloc(), returning(rt.alloc()), wanted));
}

#[test]
fn preludes_are_done_before_each_test(rt: HostRuntime) {
    let wanted =
        "entry 0\nloop 1\nexit 0\n0>1\n1>1 x=? 1x-5 1x-2\n1>2 x=? 1x-5 -1x+3\n1>1 x=? -1x+7 1x-2\n1>2 x=? -1x+7 -1x+3\n";
    assert!(rt; has(rt.alloc(), chosen(rt.alloc()), wanted));
    let wanted =
        "entry 0\nloop 1\njoin 1\nexit 0\n0>1\n1>1 x=? 1x-2\n1>3 x=? -1x+3\n1>2\n2>1 x=1x+1 x=? 1x-2\n2>3 x=1x+1 x=? -1x+3\n";
    assert!(rt; has(rt.alloc(), tested(rt.alloc()), wanted));
}

#[test]
fn changes_are_made_in_order(rt: HostRuntime) {
    let wanted = "entry 0\nloop 1\nexit 0\n0>1\n1>1 1x-2 x=1x+1 x=? x=1x+1\n1>2 -1x+3\n";
    assert!(rt; has(rt.alloc(), stepped(rt.alloc()), wanted));
}

// Adds the statement behind the others.
fn add(list: &mut Vec<Stmt>, stmt: Stmt) -> Result<(), AllocError>
    requires others { IsTrue (are_statements (1 + MOST_HIDDEN) false (statements_of list.old.items)) }
    requires last { IsTrue (is_statement (1 + MOST_HIDDEN) false (statement_of stmt)) }
    ensures fits { OnOk result (IsTrue (are_statements (1 + MOST_HIDDEN) false (statements_of list.new.items))) }
    ensures count { OnOk result (nodes_in (statements_of list.new.items)
        ≡ nodes_in (statements_of list.old.items) + node_count (statement_of stmt)) }
{
    list.push(stmt)?;
    Ok(())
}

// Adds so many checks.
fn add_checks(list: &mut Vec<Stmt>, count: u16) -> Result<(), AllocError>
    requires { IsTrue (are_statements (1 + MOST_HIDDEN) false (statements_of list.old.items)) }
    ensures fits { OnOk result (IsTrue (are_statements (1 + MOST_HIDDEN) false (statements_of list.new.items))) }
    ensures count { OnOk result (nodes_in (statements_of list.new.items) ≡ nodes_in (statements_of list.old.items) + count) }
{
    for k in 0..count {
        let check = Check {
            kind: CheckKind::Assert,
            at: 0,
        };
        let stmt = Stmt::Check {
            check,
            cond: Cond::Free,
            line: 1,
        };
        add(list, stmt)?;
    }
    Ok(())
}

// Eight loops with 128 checks behind each, and so many checks more.
fn checked(alloc: Global, more: u16) -> Result<Block, AllocError>
    requires { more ≤ 1 }
    ensures { IfOk result (λ block. IsTrue (is_program 1 block)) }
{
    let mut list = Vec::new(alloc);
    for k in 0..8u16 {
        let stmt = Stmt::While {
            prelude: Deeds::none(alloc),
            cond: Cond::Free,
            body: Block::new(Vec::new(alloc)),
            line: 1,
        };
        add(&mut list, stmt)?;
        add_checks(&mut list, 128)?;
    }
    add_checks(&mut list, more)?;
    Ok(Block::new(list))
}

#[test]
fn programs_have_so_many_checks(rt: HostRuntime) {
    let most = made(rt.alloc(), checked(rt.alloc(), 0));
    assert!(rt; matches!(most, Some(Ok(_))));
    let wanted = FlowFault::Checks { count: 1025 };
    match made(rt.alloc(), checked(rt.alloc(), 1)) {
        Some(answer) => assert_eq!(rt; answer.err(), Some(wanted)),
        None => assert!(rt; false),
    }
}
