//! What each operation makes. The function has the variables 0 and 1, below `x` and `y`; numbers stand at 3, signs of one operand at 4,
//! other signs at 5, brackets at 9.

use crate::written::written;
use base_integers::Integers;
use lang_tree::Rel;
use source_tree::Extent;
use source_value::{
    Number, Operation, OperationFault, Site, Tested, Value, both, chosen, compared, either,
    indexed, inverse, negative, operated,
};
use std::alloc::Global;
use std::test::Fail;

const SITE: Site = Site {
    variables: 2,
    line: 7,
    integers: Integers::Mathematical,
};

fn number(alloc: Global, next: u32, number: i64) -> Result<Number, OperationFault> {
    Ok(Value::number(alloc, SITE, next, number, 3)?.into_number(alloc, SITE)?)
}

fn variable(alloc: Global, next: u32, var: u32) -> Result<Number, OperationFault> {
    Ok(Value::variable(alloc, SITE, next, var)?.into_number(alloc, SITE)?)
}

fn minus(alloc: Global, size: i64) -> Result<Number, OperationFault> {
    Ok(negative(alloc, SITE, 4, number(alloc, 2, size)?)?.into_number(alloc, SITE)?)
}

fn over(alloc: Global, left: Number, right: Number) -> Result<Value, OperationFault> {
    operated(alloc, SITE, Operation::Over, 5, left, right)
}

fn rest(alloc: Global, left: Number, right: Number) -> Result<Value, OperationFault> {
    operated(alloc, SITE, Operation::Remainder, 5, left, right)
}

fn times(alloc: Global, left: Number, right: Number) -> Result<Value, OperationFault> {
    operated(alloc, SITE, Operation::Times, 5, left, right)
}

// `x`, where `next` is the next hidden variable.
fn x(alloc: Global, next: u32) -> Result<Number, OperationFault> {
    variable(alloc, next, 0)
}

// `y` likewise.
fn y(alloc: Global, next: u32) -> Result<Number, OperationFault> {
    variable(alloc, next, 1)
}

fn less(alloc: Global) -> Result<Value, OperationFault> {
    compared(alloc, SITE, Rel::Lt, x(alloc, 2)?, y(alloc, 2)?)
}

fn x_is_true(alloc: Global) -> Result<Tested, OperationFault> {
    Value::variable(alloc, SITE, 2, 0)?.into_condition(SITE)
}

fn is(alloc: Global, value: Result<Value, OperationFault>, text: &str) -> Result<bool, Fail> {
    let value = value.ok().ok_or("no value")?;
    Ok(written(alloc, value)?.as_str() == text)
}

fn less_and_one(alloc: Global) -> Result<Value, OperationFault> {
    let left = less(alloc)?.into_number(alloc, SITE)?;
    let right = number(alloc, left.next, 1)?;
    operated(alloc, SITE, Operation::Plus, 5, left, right)
}

fn x_and_quotient(alloc: Global) -> Result<Value, OperationFault> {
    let right = over(alloc, x(alloc, 2)?, y(alloc, 2)?)?.into_condition(SITE)?;
    Ok(both(alloc, SITE, x_is_true(alloc)?, right)?)
}

fn x_or_quotient(alloc: Global) -> Result<Value, OperationFault> {
    let right = over(alloc, x(alloc, 2)?, y(alloc, 2)?)?.into_condition(SITE)?;
    Ok(either(alloc, SITE, x_is_true(alloc)?, right)?)
}

fn x_or_else_quotient(alloc: Global) -> Result<Value, OperationFault> {
    let no = over(alloc, x(alloc, 2)?, y(alloc, 2)?)?.into_number(alloc, SITE)?;
    chosen(alloc, SITE, x_is_true(alloc)?, y(alloc, 2)?, no)
}

#[test]
fn quotients(rt: HostRuntime) -> Result<(), Fail> {
    let alloc = rt.alloc();
    let by_two = over(alloc, x(alloc, 2)?, number(alloc, 2, 2)?);
    assert!(rt;
        is(
            alloc,
            by_two,
            concat!(
                "x2 := *; where ((([1|0] >= 0 && [1 0 -2|0] >= 0) && [1 0 -2|-1] <= 0)",
                " || (([1|1] <= 0 && [1 0 -2|0] <= 0) && [1 0 -2|1] >= 0)); [0 0 1|0]; 3"
            )
        )?
    );
    let by_minus_three = over(alloc, x(alloc, 2)?, minus(alloc, 3)?);
    assert!(rt;
        is(
            alloc,
            by_minus_three,
            concat!(
                "x2 := *; where ((([1|0] >= 0 && [1 0 3|0] >= 0) && [1 0 3|-2] <= 0)",
                " || (([1|1] <= 0 && [1 0 3|0] <= 0) && [1 0 3|2] >= 0)); [0 0 1|0]; 3"
            )
        )?
    );
    assert!(rt;
        is(
            alloc,
            over(alloc, x(alloc, 2)?, number(alloc, 2, 1)?),
            "[1|0]; 2"
        )?
    );
    assert!(rt;
        is(
            alloc,
            over(alloc, number(alloc, 2, 7)?, number(alloc, 2, 2)?),
            "[|3]; 2"
        )?
    );
    assert!(rt;
        is(
            alloc,
            over(alloc, minus(alloc, 7)?, number(alloc, 2, 2)?),
            "[|-3]; 2"
        )?
    );
    Ok(())
}

#[test]
fn remainders(rt: HostRuntime) -> Result<(), Fail> {
    let alloc = rt.alloc();
    let by_five = rest(alloc, x(alloc, 2)?, number(alloc, 2, 5)?);
    assert!(rt;
        is(
            alloc,
            by_five,
            concat!(
                "x2 := *; where ((([1|0] >= 0 && [1 0 -5|0] >= 0) && [1 0 -5|-4] <= 0)",
                " || (([1|1] <= 0 && [1 0 -5|0] <= 0) && [1 0 -5|4] >= 0)); [1 0 -5|0]; 3"
            )
        )?
    );
    let by_y = rest(alloc, x(alloc, 2)?, y(alloc, 2)?);
    assert!(rt; is(alloc, by_y, "divisor@5 [0 1|0] != 0; x2 := *; [0 0 1|0]; 3")?);
    assert!(rt;
        is(
            alloc,
            rest(alloc, minus(alloc, 7)?, number(alloc, 2, 2)?),
            "[|-1]; 2"
        )?
    );
    Ok(())
}

#[test]
fn products(rt: HostRuntime) -> Result<(), Fail> {
    let alloc = rt.alloc();
    assert!(rt;
        is(
            alloc,
            times(alloc, x(alloc, 2)?, y(alloc, 2)?),
            "x2 := *; [0 0 1|0]; 3"
        )?
    );
    assert!(rt;
        is(
            alloc,
            times(alloc, number(alloc, 2, 3)?, x(alloc, 2)?),
            "[3|0]; 2"
        )?
    );
    Ok(())
}

#[test]
fn truths(rt: HostRuntime) -> Result<(), Fail> {
    let alloc = rt.alloc();
    assert!(rt;
        is(
            alloc,
            less_and_one(alloc),
            concat!(
                "x2 := *; where (([1 -1|0] < 0 && [0 0 1|-1] == 0) || (!([1 -1|0] < 0) && [0 0 1|0] == 0)); [0 0 1|1]; 3"
            )
        )?
    );
    let tested = less(alloc)?.into_condition(SITE)?;
    assert!(rt; is(alloc, Ok(inverse(alloc, tested)?), "!([1 -1|0] < 0); 2")?);
    assert!(rt;
        is(
            alloc,
            x_and_quotient(alloc),
            concat!(
                "divisor@5 (!([1|0] != 0) || [0 1|0] != 0); x2 := *; ([1|0] != 0 && [0 0 1|0] != 0); 3"
            )
        )?
    );
    assert!(rt;
        is(
            alloc,
            x_or_quotient(alloc),
            concat!(
                "divisor@5 (!(!([1|0] != 0)) || [0 1|0] != 0); x2 := *; ([1|0] != 0 || [0 0 1|0] != 0); 3"
            )
        )?
    );
    Ok(())
}

#[test]
fn choices(rt: HostRuntime) -> Result<(), Fail> {
    let alloc = rt.alloc();
    assert!(rt;
        is(
            alloc,
            x_or_else_quotient(alloc),
            concat!(
                "divisor@5 (!(!([1|0] != 0)) || [0 1|0] != 0); x2 := *; x3 := *;",
                " where (([1|0] != 0 && [0 -1 0 1|0] == 0) || (!([1|0] != 0) && [0 0 -1 1|0] == 0)); [0 0 0 1|0]; 4"
            )
        )?
    );
    Ok(())
}

#[test]
fn elements(rt: HostRuntime) -> Result<(), Fail> {
    let alloc = rt.alloc();
    let tenth = indexed(alloc, SITE, Extent::Elements(10), 9, x(alloc, 2)?)?.into_any();
    assert!(rt;
        is(
            alloc,
            Ok(tenth),
            "index@9 ([-1|0] <= 0 && [1|-9] <= 0); any; 2"
        )?
    );
    let endless = indexed(alloc, SITE, Extent::Endless, 9, x(alloc, 2)?)?.into_any();
    assert!(rt; is(alloc, Ok(endless), "index@9 [-1|0] <= 0; any; 2")?);
    Ok(())
}
