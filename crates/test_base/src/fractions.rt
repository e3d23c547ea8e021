//! Fractions: results at the limit, lowest terms, texts, order.

use base_fractions::{Ext, Frac, Op, OrderedField, Short, Wide};
use std::cmp::Ordering;
use std::test::Fail;

const MAX: i64 = 9223372036854775807;

const MIN: i64 = -9223372036854775808;

// A row of a table: two fractions, the operation between them, and the result, or nothing where it is wide.
type Row = ((i64, i64), Op, (i64, i64), Option<(i64, i64)>);

fn apply<F: OrderedField + Drop>(left: F, op: Op, right: F) -> Result<F, Wide<F>> {
    match op {
        Op::Add => left.plus(right),
        Op::Sub => left.minus(right),
        Op::Mul => left.times(right),
        Op::Div if right.is_zero() => Err(Wide { op, left, right }),
        Op::Div => left.over(right),
    }
}

fn follows<F: OrderedField + Drop>(rows: &[Row]) -> Result<bool, Fail> {
    for row in rows {
        let left = F::make(row.0.0, row.0.1).ok_or("left")?;
        let right = F::make(row.2.0, row.2.1).ok_or("right")?;
        let ok = match (apply(left, row.1, right), row.3) {
            (Ok(result), Some((num, den))) => result.num() == num && result.den() == den,
            (Err(wide), None) => wide.op == row.1 && wide.left == left && wide.right == right,
            _ => false,
        };
        if !ok {
            return Ok(false);
        }
    }
    Ok(true)
}

// A row of a table: a fraction, the factors of the product that is added to it, and the result, or the operation that is wide.
type Sum = ((i64, i64), (i64, i64), (i64, i64), Result<(i64, i64), Op>);

fn adds<F: OrderedField + Drop>(rows: &[Sum]) -> Result<bool, Fail> {
    for row in rows {
        let term = F::make(row.0.0, row.0.1).ok_or("term")?;
        let factor = F::make(row.1.0, row.1.1).ok_or("factor")?;
        let other = F::make(row.2.0, row.2.1).ok_or("other")?;
        let ok = match (term.add_product(factor, other), row.3) {
            (Ok(sum), Ok((num, den))) => sum.num() == num && sum.den() == den,
            (Err(wide), Err(Op::Mul)) => wide.op == Op::Mul
                && wide.left == factor
                && wide.right == other,
            (Err(wide), Err(op)) => wide.op == op
                && wide.left == term
                && factor.times(other) == Ok(wide.right),
            _ => false,
        };
        if !ok {
            return Ok(false);
        }
    }
    Ok(true)
}

#[test]
fn sums_with_products_at_the_limit(rt: HostRuntime) -> Result<(), Fail> {
    let rows: [Sum; 10] = [
        ((1, 1), (2, 1), (3, 1), Ok((7, 1))),
        ((1, 2), (2, 3), (3, 4), Ok((1, 1))),
        ((-1, 6), (1, 2), (1, 3), Ok((0, 1))),
        ((-1, 1), (MAX, 1), (1, 1), Ok((MAX - 1, 1))),
        ((1, 1), (MAX, 1), (1, 1), Err(Op::Add)),
        ((-MAX, 1), (MAX, 1), (2, 1), Err(Op::Mul)),
        ((0, 1), (1, MAX), (1, 2), Err(Op::Mul)),
        ((1, MAX - 1), (1, MAX), (1, 1), Err(Op::Add)),
        ((MAX, 2), (MAX, 2), (1, 1), Ok((MAX, 1))),
        ((5, 1), (0, 1), (1, MAX), Ok((5, 1))),
    ];
    assert!(rt; adds::<Frac>(&rows)?);
    Ok(())
}

#[test]
fn long_results_at_the_limit(rt: HostRuntime) -> Result<(), Fail> {
    let rows: [Row; 18] = [
        ((1, 2), Op::Add, (1, 3), Some((5, 6))),
        ((MAX, 2), Op::Add, (1, 2), Some((4611686018427387904, 1))),
        ((MAX, 1), Op::Add, (1, 1), None),
        ((MAX, 4), Op::Add, (MAX, 4), Some((MAX, 2))),
        ((1, MAX), Op::Add, (1, MAX), Some((2, MAX))),
        ((1, MAX), Op::Add, (1, MAX - 1), None),
        ((MAX, 1), Op::Sub, (1, 1), Some((MAX - 1, 1))),
        ((-MAX, 1), Op::Sub, (1, 1), None),
        ((1, MAX), Op::Sub, (1, MAX), Some((0, 1))),
        ((MAX, 2), Op::Mul, (2, MAX), Some((1, 1))),
        ((-MAX, 1), Op::Mul, (1, MAX), Some((-1, 1))),
        ((1, MAX), Op::Mul, (1, 2), None),
        ((0, 1), Op::Mul, (1, MAX), Some((0, 1))),
        ((1, 1), Op::Div, (-MAX, 1), Some((-1, MAX))),
        ((MAX, 1), Op::Div, (MAX, 1), Some((1, 1))),
        ((1, MAX), Op::Div, (2, 1), None),
        ((5, 6), Op::Div, (-10, 3), Some((-1, 4))),
        ((MAX, 1), Op::Div, (1, MAX), None),
    ];
    assert!(rt; follows::<Frac>(&rows)?);
    Ok(())
}

#[test]
fn short_results_at_the_limit(rt: HostRuntime) -> Result<(), Fail> {
    let rows: [Row; 12] = [
        ((1, 2), Op::Add, (1, 3), Some((5, 6))),
        ((32767, 2), Op::Add, (1, 2), Some((16384, 1))),
        ((32767, 1), Op::Add, (1, 1), None),
        ((32767, 4), Op::Add, (32767, 4), Some((32767, 2))),
        ((1, 181), Op::Add, (1, 182), None),
        ((1, 180), Op::Add, (1, 182), Some((181, 16380))),
        ((-32767, 1), Op::Sub, (1, 1), None),
        ((32767, 2), Op::Mul, (2, 32767), Some((1, 1))),
        ((181, 1), Op::Mul, (181, 1), Some((32761, 1))),
        ((182, 1), Op::Mul, (182, 1), None),
        ((1, 1), Op::Div, (-32767, 1), Some((-1, 32767))),
        ((1, 32767), Op::Div, (2, 1), None),
    ];
    assert!(rt; follows::<Short>(&rows)?);
    Ok(())
}

#[test]
fn makes_lowest_terms(rt: HostRuntime) {
    let rows = [
        ((2, 4), Some((1, 2))),
        ((3, -9), Some((-1, 3))),
        ((0, -5), Some((0, 1))),
        ((1, 0), None),
        ((MIN, 1), None),
        ((MIN, 2), Some((-4611686018427387904, 1))),
        ((MIN, MIN), Some((1, 1))),
        ((2, MIN), Some((-1, 4611686018427387904))),
        ((1, MIN), None),
    ];
    for ((num, den), want) in rows {
        let made = match Frac::make(num, den) {
            Some(value) => Some((value.num(), value.den())),
            None => None,
        };
        assert!(rt; made == want, "at {num}/{den}");
    }
    assert!(rt; Short::make(32768, 1).is_none());
    assert!(rt; Short::make(65534, 2).is_some());
}

fn read(text: &str) -> Result<Frac, Fail> {
    Ok(Frac::read(text.as_bytes()).ok_or("read")?)
}

#[test]
fn rounds_down(rt: HostRuntime) -> Result<(), Fail> {
    let rows = [
        ("-1/2", -1),
        ("1/2", 0),
        ("-3", -3),
        ("7/3", 2),
        ("-7/3", -3),
        ("-9223372036854775807/2", -4611686018427387904),
    ];
    for (text, want) in rows {
        assert_eq!(rt; read(text)?.floor(), want, "at {text}");
    }
    Ok(())
}

#[test]
fn finds_the_middle(rt: HostRuntime) -> Result<(), Fail> {
    assert!(rt; read("1/3")?.mid(read("1/2")?) == Ok(read("5/12")?));
    let (most, least) = (read("9223372036854775807")?, read("1/9223372036854775807")?);
    let sum = Wide {
        op: Op::Add,
        left: most,
        right: most,
    };
    assert!(rt; most.mid(most) == Err(sum));
    let half = Wide {
        op: Op::Div,
        left: least,
        right: read("2")?,
    };
    assert!(rt; least.mid(read("0")?) == Err(half));
    Ok(())
}

#[test]
fn reads_canonical_texts_alone(rt: HostRuntime) {
    let texts = [
        "0",
        "-1",
        "5/6",
        "9223372036854775807",
        "-9223372036854775807/9223372036854775806",
        "-inf",
        "+inf",
    ];
    for text in texts {
        let again = match Ext::read(text.as_bytes()) {
            Some(value) => value.text().bytes() == text.as_bytes(),
            None => false,
        };
        assert!(rt; again, "at {text}");
    }
    let others = [
        "",
        "2/4",
        "-0",
        "+1",
        "1/1",
        "1/",
        "/2",
        "01",
        "1/0",
        "1/-2",
        "0/2",
        "-",
        " 1",
        "1 ",
        "9223372036854775808",
        "1/9223372036854775808",
        "1//2",
        "inf",
        "-Inf",
    ];
    for text in others {
        assert!(rt; Ext::read(text.as_bytes()).is_none(), "at {text}");
        assert!(rt; Frac::read(text.as_bytes()).is_none(), "at {text}");
    }
}

#[test]
fn orders_fractions_and_infinities(rt: HostRuntime) -> Result<(), Fail> {
    let texts = [
        "-inf",
        "-9223372036854775807",
        "-1/2",
        "-1/3",
        "0",
        "1/9223372036854775807",
        "1/9223372036854775806",
        "3/2",
        "5/3",
        "+inf",
    ];
    for (i, left) in texts.iter().enumerate() {
        for (j, right) in texts.iter().enumerate() {
            let left = Ext::read(left.as_bytes()).ok_or("left")?;
            let right = Ext::read(right.as_bytes()).ok_or("right")?;
            assert!(rt; left.cmp(&right) == i.cmp(&j));
            assert_eq!(rt; left == right, i == j);
        }
    }
    assert!(rt; read("1/2")?.cmp(&read("2/3")?) == Ordering::Less);
    Ok(())
}
