//! Limits: at each, and one past it.

use base_integers::{Integers, Width};
use lang_tree::Rel;
use source_tree::Extent;
use source_value::{
    Number, Operation, OperationFault, Site, Tested, Value, both, compared, indexed, negative,
    operated,
};
use std::alloc::Global;
use std::test::Fail;

const SITE: Site = Site {
    variables: 2,
    line: 7,
    integers: Integers::Mathematical,
};

const BY_8_BITS: Site = Site {
    integers: Integers::Machine(Width::Bits8),
    ..SITE
};

const GREATEST: i64 = 9223372036854775807;

fn number(alloc: Global, number: i64) -> Result<Number, OperationFault> {
    Ok(Value::number(alloc, SITE, 2, number, 3)?.into_number(alloc, SITE)?)
}

fn x(alloc: Global) -> Result<Number, OperationFault> {
    Ok(Value::variable(alloc, SITE, 2, 0)?.into_number(alloc, SITE)?)
}

// The sum of so many values of `nondet()`, as a prelude.
fn unknowns(alloc: Global, count: u32) -> Result<Number, OperationFault> {
    let mut sum = number(alloc, 0)?;
    for _ in 0..count {
        let one = Value::any(alloc, SITE, sum.next).into_number(alloc, SITE)?;
        sum = operated(alloc, SITE, Operation::Plus, 5, sum, one)?.into_number(alloc, SITE)?;
    }
    Ok(sum)
}

// `x && x && ..` with so many leaves.
fn leaves(alloc: Global, count: u32) -> Result<Tested, OperationFault> {
    let mut all = Value::variable(alloc, SITE, 2, 0)?.into_condition(SITE)?;
    for _ in 1..count {
        let one = Value::variable(alloc, SITE, 2, 0)?.into_condition(SITE)?;
        all = both(alloc, SITE, all, one)?.into_condition(SITE)?;
    }
    Ok(all)
}

fn big<T: Drop>(answer: Result<T, OperationFault>) -> bool {
    match answer {
        Ok(_) => false,
        Err(fault) => fault == OperationFault::Big,
    }
}

#[test]
fn hidden_variables(rt: HostRuntime) -> Result<(), Fail> {
    let alloc = rt.alloc();
    let most = unknowns(alloc, 64)?;
    assert!(rt; SITE.hidden_before(most.next) == 64 && most.prelude.is_kept() && !most.is_large());
    let more = unknowns(alloc, 65)?;
    assert!(rt; SITE.hidden_before(more.next) == 65 && !more.prelude.is_kept());
    assert!(rt; more.form.coeffs.as_slice().len() == 67);
    Ok(())
}

#[test]
fn many_leaves(rt: HostRuntime) -> Result<(), Fail> {
    let alloc = rt.alloc();
    let most = leaves(alloc, 64)?;
    assert!(rt; SITE.hidden_before(most.next) == 0 && !most.is_large());
    let more = leaves(alloc, 65)?;
    assert!(rt; SITE.hidden_before(more.next) == 0 && more.is_large());
    assert!(rt; leaves(alloc, 1000)?.is_large());
    Ok(())
}

#[test]
fn large_numbers(rt: HostRuntime) -> Result<(), Fail> {
    let alloc = rt.alloc();
    assert!(rt; !big(number(alloc, GREATEST)));
    assert!(rt; !big(number(alloc, -GREATEST)));
    assert!(rt; big(number(alloc, -GREATEST - 1)));
    // The check behind a number compares it with the least integer, -128.
    assert!(rt; !big(Value::number(alloc, BY_8_BITS, 2, GREATEST - 129, 3)));
    assert!(rt; big(Value::number(alloc, BY_8_BITS, 2, GREATEST - 128, 3)));
    assert!(rt;
        !big(operated(
            alloc,
            SITE,
            Operation::Plus,
            5,
            number(alloc, GREATEST - 1)?,
            number(alloc, 1)?
        ))
    );
    assert!(rt;
        big(operated(
            alloc,
            SITE,
            Operation::Plus,
            5,
            number(alloc, GREATEST)?,
            number(alloc, 1)?
        ))
    );
    assert!(rt;
        !big(operated(
            alloc,
            SITE,
            Operation::Times,
            5,
            number(alloc, GREATEST)?,
            x(alloc)?
        ))
    );
    assert!(rt; !big(negative(alloc, SITE, 4, number(alloc, GREATEST)?)));
    assert!(rt; !big(Value::number(alloc, SITE, 2, GREATEST - 1, 3)?.into_condition(SITE)));
    assert!(rt; big(Value::number(alloc, SITE, 2, GREATEST, 3)?.into_condition(SITE)));
    assert!(rt;
        !big(compared(
            alloc,
            SITE,
            Rel::Lt,
            x(alloc)?,
            number(alloc, GREATEST - 1)?
        ))
    );
    assert!(rt; big(compared(alloc, SITE, Rel::Lt, x(alloc)?, number(alloc, GREATEST)?)));
    assert!(rt;
        !big(operated(
            alloc,
            SITE,
            Operation::Over,
            5,
            x(alloc)?,
            number(alloc, GREATEST)?
        ))
    );
    let behind_x = operated(
        alloc,
        SITE,
        Operation::Plus,
        5,
        x(alloc)?,
        number(alloc, 1)?,
    )?
    .into_number(alloc, SITE)?;
    assert!(rt;
        big(operated(
            alloc,
            SITE,
            Operation::Over,
            5,
            behind_x,
            number(alloc, GREATEST)?
        ))
    );
    let within = operated(
        alloc,
        SITE,
        Operation::Plus,
        5,
        x(alloc)?,
        number(alloc, GREATEST - 1)?,
    )?
    .into_number(alloc, SITE)?;
    assert!(rt; !big(indexed(alloc, SITE, Extent::Elements(1), 9, within)));
    let past = operated(
        alloc,
        SITE,
        Operation::Plus,
        5,
        x(alloc)?,
        number(alloc, GREATEST)?,
    )?
    .into_number(alloc, SITE)?;
    assert!(rt; big(indexed(alloc, SITE, Extent::Endless, 9, past)));
    Ok(())
}
