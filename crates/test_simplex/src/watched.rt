//! What a watch is told of pivots.
use crate::problems::{Number, equals, problem_of};
use base_fractions::Frac;
use base_watch::Watch;
use lp_simplex::{Outcome, solve_watched};
use lp_sparse::Sparse;
use std::alloc::Global;
use std::test::Fail;

// Keeps the numbers of pivots that it is told, unless there is no memory for them or something else is told.
#[derive(Drop)]
struct Kept {
    pivots: Vec<u32>,
    is_whole: bool,
}

impl Watch for Kept {
    fn round(&mut self, _number: u32, _raised: u32) {
        self.is_whole = false;
    }

    fn turn(&mut self, _number: u32) {
        self.is_whole = false;
    }

    fn pivots(&mut self, made: u32) {
        if self.pivots.push(made).is_err() {
            self.is_whole = false;
        }
    }
}

fn power(base: i64, times: usize) -> i64 {
    let mut value = 1i64;
    for _k in 0..times {
        value = value.wrapping_mul(base);
    }
    value
}

// The cube of Klee and Minty over so many columns: the greatest 2^(n-1) x_0 + .. + 2 x_(n-2) + x_(n-1), where for each i
// 2^(i+1) x_0 + .. + 4 x_(i-1) + x_i is at most 5^(i+1).
fn cube(alloc: Global, cols: usize) -> Result<Vec<Number>, Fail> {
    let mut numbers = Vec::new(alloc);
    for col in 0..cols {
        numbers.push((power(2, cols - 1 - col), 1))?;
    }
    for row in 0..cols {
        for col in 0..cols {
            let coefficient = if col < row {
                power(2, row - col + 1)
            } else if col == row {
                1
            } else {
                0
            };
            numbers.push((coefficient, 1))?;
        }
        numbers.push((power(5, row + 1), 1))?;
    }
    Ok(numbers)
}

// The pivots that are told of the cube's problem, whose greatest value is 5^n.
fn told(alloc: Global, cols: usize) -> Result<Vec<u32>, Fail> {
    let problem = problem_of::<Frac>(alloc, cols, &cube(alloc, cols)?)?;
    let mut kept = Kept {
        pivots: Vec::new(alloc),
        is_whole: true,
    };
    match solve_watched::<Frac, Sparse<Frac>, Kept>(alloc, &problem, &mut kept) {
        Ok(Outcome::Best { value, .. }) => {
            if !kept.is_whole || !equals(value, (power(5, cols), 1)) {
                return Err("the cube's value".into());
            }
            Ok(kept.pivots)
        }
        _ => Err("a greatest value".into()),
    }
}

// By Bland's rule the cubes over two and three columns take 3 and 5 pivots, and each further one takes those of the two before it and
// one more (such cubes grow as Fibonacci's numbers, Avis and Chvátal 1978): 465 over 12 columns, 1,219 over 14, 3,193 over 16.
#[test]
fn each_thousand_is_told(rt: HostRuntime) -> Result<(), Fail> {
    assert!(rt; told(rt.alloc(), 12)?.is_empty());
    assert!(rt; told(rt.alloc(), 14)?.as_slice() == [1000].as_slice());
    assert!(rt; told(rt.alloc(), 16)?.as_slice() == [1000, 2000, 3000].as_slice());
    Ok(())
}
