//! Pseudo-random problems, on which both tableaux agree.
use crate::problems::{Answer, Number, both};
use base_fractions::{Frac, OrderedField};
use lp_simplex::Outcome;
use std::alloc::Global;
use std::test::Fail;

// The next of a series of numbers without order (Knuth, MMIX).
fn next(seed: u64) -> u64 {
    seed.wrapping_mul(6364136223846793005)
        .wrapping_add(1442695040888963407)
}

// A coefficient from -3 to 4, mostly 0.
fn coefficient(seed: u64) -> i64 {
    let draw = (seed >> 59) as i64;
    if draw < 24 { 0 } else { draw - 27 }
}

// The goal's numbers and those of some rows, and the seed after them.
fn numbers(
    alloc: Global,
    cols: usize,
    rows: usize,
    mut seed: u64,
) -> Result<(Vec<Number>, u64), Fail> {
    let mut numbers = Vec::new(alloc);
    for row in 0..rows {
        for _col in 0..cols {
            seed = next(seed);
            numbers.push((coefficient(seed), 1))?;
        }
        if row > 0 {
            seed = next(seed);
            numbers.push(((seed >> 33) as i64 % 9 - 2, 1))?;
        }
    }
    Ok((numbers, seed))
}

// Which outcome it is, from 0, with the value where there is one.
fn kind(answer: &Answer<Frac>) -> Option<(usize, Frac)> {
    match answer {
        Ok(Outcome::Best { value, .. }) => Some((0, *value)),
        Ok(Outcome::Unbounded { .. }) => Some((1, Frac::zero())),
        Ok(Outcome::Empty { .. }) => Some((2, Frac::zero())),
        Err(_) => None,
    }
}

#[test]
fn both_tableaux_agree(rt: HostRuntime) -> Result<(), Fail> {
    let mut seed = 1;
    let mut seen = [false; 3];
    for i in 0..32 {
        let cols = 3 + i % 4;
        let (numbers, after) = numbers(rt.alloc(), cols, 4 + i / 4 % 4, seed)?;
        seed = after;
        let (dense, sparse) = both::<Frac>(rt.alloc(), cols, &numbers)?;
        let (outcome, value) = kind(&dense).ok_or("an outcome")?;
        assert!(rt; kind(&sparse) == Some((outcome, value)));
        if let Some(place) = seen.get_mut(outcome) {
            *place = true;
        }
    }
    assert!(rt; seen == [true; 3]);
    Ok(())
}
