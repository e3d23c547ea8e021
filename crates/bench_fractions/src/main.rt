//! Does many operations on pseudo-random fractions and prints a sum over the results, for timing and for comparison with
//! another program that does the same (bench/mpq.c).
//!
//! The first word is the number of rounds over 1,024 pairs; the next two choose one operation and one size.
#![tactic(auto)]

ghost use Rattle.std.specs.Prelude.{◌<◌, ◌≤◌, ◌^◌};

use base_fractions::{Frac, OrderedField, Wide};
use std::alloc::{AllocError, Global};
use std::cmp::Ordering;
use std::env;

// How many pairs of operands there are.
const PAIRS: usize = 1024;

// The sizes of operands: the greatest numerator and the greatest denominator.
#[derive(Drop)]
struct Size {
    num: u64,
    den: u64,
}

// Pseudo-random numbers (Marsaglia 2003, xorshift).
#[derive(Drop)]
struct Random {
    state: u64,
}

impl Random {
    fn next(&mut self) -> u64 {
        let mut x = self.state;
        x ^= x << 13;
        x ^= x >> 7;
        x ^= x << 17;
        self.state = x;
        x
    }

    // A number from 1 to `limit`.
    fn below(&mut self, limit: u64) -> i64
        requires low { 0 < limit }
        requires high { limit < 2 ^ 63 }
    {
        (self.next() % limit) as i64 + 1
    }

    fn fraction(&mut self, size: &Size) -> Option<Frac>
        requires num_low { 0 < size.now.num }
        requires num_high { size.now.num < 2 ^ 63 }
        requires den_low { 0 < size.now.den }
        requires den_high { size.now.den < 2 ^ 63 }
    {
        let num = self.below(size.num);
        let den = self.below(size.den);
        let made = Frac::make(num, den)?;
        Some(if self.next() % 2 == 0 {
            made
        } else {
            made.negate()
        })
    }
}

fn operands(alloc: Global, size: &Size) -> Result<Vec<(Frac, Frac)>, AllocError>
    requires num_low { 0 < size.now.num }
    requires num_high { size.now.num < 2 ^ 63 }
    requires den_low { 0 < size.now.den }
    requires den_high { size.now.den < 2 ^ 63 }
{
    let mut random = Random {
        state: 88172645463325252,
    };
    let mut pairs = Vec::new(alloc);
    for _ in 0..PAIRS {
        if let (Some(left), Some(right)) = (random.fraction(size), random.fraction(size)) {
            pairs.push((left, right))?;
        }
    }
    Ok(pairs)
}

fn weight(answer: Result<Frac, Wide<Frac>>) -> u64 {
    match answer {
        Ok(number) => {
            let num = number.num().unsigned_abs();
            num.wrapping_mul(3)
                .wrapping_add(number.den().unsigned_abs())
        }
        Err(_) => 1,
    }
}

// The sum over all pairs, so many times, of what an operation on a pair weighs.
fn summed<F: Fn(Frac, Frac) -> u64>(pairs: &[(Frac, Frac)], rounds: u64, one: F) -> u64
    requires { F.IsAlwaysCallable one }
{
    let mut sum = 0u64;
    for _ in 0..rounds {
        for (left, right) in pairs {
            sum = sum.wrapping_add(one(*left, *right));
        }
    }
    sum
}

fn plus(left: Frac, right: Frac) -> u64 {
    weight(left.plus(right))
}

fn times(left: Frac, right: Frac) -> u64 {
    weight(left.times(right))
}

fn add_product(left: Frac, right: Frac) -> u64 {
    weight(left.add_product(left, right))
}

fn over(left: Frac, right: Frac) -> u64 {
    if right.is_zero() {
        0
    } else {
        weight(left.over(right))
    }
}

fn cmp(left: Frac, right: Frac) -> u64 {
    u64::from(left.cmp(&right) == Ordering::Greater)
}

fn main(rt: HostRuntime) -> anyhow::Result<()> {
    let words: Vec<String> = env::args(&rt)?.skip(1).collect(rt.alloc())?;
    let rounds: u64 = match words.first() {
        Some(word) => word.as_str().parse().unwrap_or(1),
        None => 1,
    };
    let sizes = [
        ("whole", 999, 1),
        ("small", 999, 999),
        ("middle", 999999999, 999999999),
        ("large", 9223372036854775807, 9223372036854775807),
    ];
    for (size, num, den) in sizes {
        if words.len() == 3 && words[2].as_str() != size {
            continue;
        }
        let pairs = operands(rt.alloc(), &Size { num, den })?;
        for op in ["plus", "times", "add_product", "over", "cmp"] {
            if words.len() == 3 && words[1].as_str() != op {
                continue;
            }
            let sum = match op {
                "plus" => summed(pairs.as_slice(), rounds, plus),
                "times" => summed(pairs.as_slice(), rounds, times),
                "add_product" => summed(pairs.as_slice(), rounds, add_product),
                "over" => summed(pairs.as_slice(), rounds, over),
                _ => summed(pairs.as_slice(), rounds, cmp),
            };
            println!(rt; "{op} {size} {sum}")?;
        }
    }
    Ok(())
}
