//! Values as texts. A form is its coefficients and its constant, as `[1 0 -2|5]`; a variable is its number, as `x2`.

use lang_tree::{Block, Check, CheckKind, Cond, Deed, Form, Rel, Stmt};
use source_value::{Outcome, Prelude, Truth, Value};
use std::alloc::{AllocError, Global};

fn sign(rel: Rel) -> &'static str {
    match rel {
        Rel::Eq => "==",
        Rel::Ne => "!=",
        Rel::Lt => "<",
        Rel::Le => "<=",
        Rel::Gt => ">",
        Rel::Ge => ">=",
    }
}

fn write_form(alloc: Global, text: &mut String, form: &Form) -> Result<(), AllocError> {
    text.push_str("[")?;
    let mut between = "";
    for number in form.coeffs.as_slice() {
        text.push_str(between)?;
        text.push_str(format!(in alloc; "{number}")?.as_str())?;
        between = " ";
    }
    let constant = form.constant;
    text.push_str(format!(in alloc; "|{constant}]")?.as_str())
}

fn write_cond(alloc: Global, text: &mut String, cond: &Cond) -> Result<(), AllocError> {
    match cond {
        Cond::Free => text.push_str("*"),
        Cond::Cmp(rel, form) => {
            write_form(alloc, text, form)?;
            text.push_str(" ")?;
            text.push_str(sign(*rel))?;
            text.push_str(" 0")
        }
        Cond::Not(inner) => {
            text.push_str("!(")?;
            write_cond(alloc, text, inner)?;
            text.push_str(")")
        }
        Cond::Both(first, second) => {
            text.push_str("(")?;
            write_cond(alloc, text, first)?;
            text.push_str(" && ")?;
            write_cond(alloc, text, second)?;
            text.push_str(")")
        }
        Cond::Either(first, second) => {
            text.push_str("(")?;
            write_cond(alloc, text, first)?;
            text.push_str(" || ")?;
            write_cond(alloc, text, second)?;
            text.push_str(")")
        }
    }
}

fn write_set(alloc: Global, text: &mut String, var: u32, form: &Form) -> Result<(), AllocError> {
    text.push_str(format!(in alloc; "x{var} := ")?.as_str())?;
    write_form(alloc, text, form)
}

fn write_havoc(alloc: Global, text: &mut String, var: u32) -> Result<(), AllocError> {
    text.push_str(format!(in alloc; "x{var} := *")?.as_str())
}

fn write_where(alloc: Global, text: &mut String, cond: &Cond) -> Result<(), AllocError> {
    text.push_str("where ")?;
    write_cond(alloc, text, cond)
}

fn write_check(
    alloc: Global,
    text: &mut String,
    check: &Check,
    cond: &Cond,
) -> Result<(), AllocError> {
    let at = check.at;
    let kind = match check.kind {
        CheckKind::Divisor => "divisor",
        CheckKind::Index => "index",
        CheckKind::Range => "range",
        _ => "other",
    };
    text.push_str(kind)?;
    text.push_str(format!(in alloc; "@{at} ")?.as_str())?;
    write_cond(alloc, text, cond)
}

fn write_deed(alloc: Global, text: &mut String, deed: &Deed) -> Result<(), AllocError> {
    match deed {
        Deed::Set { var, form, .. } => write_set(alloc, text, *var, form),
        Deed::Havoc { var, .. } => write_havoc(alloc, text, *var),
        Deed::Where { cond, .. } => write_where(alloc, text, cond),
        Deed::Check { check, cond, .. } => write_check(alloc, text, check, cond),
    }
}

fn write_stmt(alloc: Global, text: &mut String, stmt: &Stmt) -> Result<(), AllocError> {
    match stmt {
        Stmt::Set { var, form, .. } => write_set(alloc, text, *var, form),
        Stmt::Havoc { var, .. } => write_havoc(alloc, text, *var),
        Stmt::Where { cond, .. } => write_where(alloc, text, cond),
        Stmt::Check { check, cond, .. } => write_check(alloc, text, check, cond),
        Stmt::Return { .. } => text.push_str("return"),
        _ => text.push_str("other"),
    }
}

fn write_prelude(alloc: Global, text: &mut String, prelude: Prelude) -> Result<(), AllocError> {
    match prelude.into_deeds() {
        Some(deeds) => write_deeds(alloc, text, deeds.as_slice()),
        None => text.push_str("lost; "),
    }
}

fn write_deeds(alloc: Global, text: &mut String, deeds: &[Deed]) -> Result<(), AllocError> {
    for deed in deeds {
        write_deed(alloc, text, deed)?;
        text.push_str("; ")?;
    }
    Ok(())
}

fn write_truth(alloc: Global, text: &mut String, truth: Truth) -> Result<(), AllocError> {
    match truth.into_cond() {
        Some(cond) => write_cond(alloc, text, &cond),
        None => text.push_str("lost"),
    }
}

fn write_outcome(alloc: Global, text: &mut String, outcome: Outcome) -> Result<(), AllocError> {
    match outcome {
        Outcome::Form(form) => write_form(alloc, text, &form),
        Outcome::Truth(truth) => write_truth(alloc, text, truth),
        Outcome::Any => text.push_str("any"),
    }
}

/// The deeds of the value, what it is, and the next hidden variable; `lost` for what isn't kept.
pub fn written(alloc: Global, value: Value) -> Result<String, AllocError> {
    let Value {
        prelude,
        result,
        next,
    } = value;
    let mut text = String::new(alloc);
    write_prelude(alloc, &mut text, prelude)?;
    write_outcome(alloc, &mut text, result)?;
    text.push_str(format!(in alloc; "; {next}")?.as_str())?;
    Ok(text)
}

/// The statements of a block, of which those with statements inside aren't told.
pub fn written_block(alloc: Global, block: &Block) -> Result<String, AllocError> {
    let mut text = String::new(alloc);
    for stmt in block.as_slice() {
        write_stmt(alloc, &mut text, stmt)?;
        text.push_str("; ")?;
    }
    Ok(text)
}
