//! What calls give, as one line: the bounds of all unknowns, numbers, steps. An item of a step has its unknown and its edge.

use base_fractions::{Ext, Frac};
use cert_types::{Item, JumpItem, RayItem, Step};
use flow_systems::{Bounds, Trace};
use itoa::Buffer;
use std::alloc::AllocError;

/// Appends a word and then a number.
pub(crate) fn add_number(line: &mut Vec<u8>, word: &[u8], number: u64) -> Result<(), AllocError> {
    line.extend_from_slice(word)?;
    let mut buffer = Buffer::new();
    line.extend_from_slice(buffer.format(number).as_bytes())
}

/// Appends a blank and then a fraction.
pub(crate) fn add_fraction(line: &mut Vec<u8>, number: Frac) -> Result<(), AllocError> {
    line.extend_from_slice(b" ")?;
    line.extend_from_slice(number.text().bytes())
}

// Appends a word and then the values of a trace.
fn add_trace(line: &mut Vec<u8>, word: &[u8], trace: &Trace) -> Result<(), AllocError> {
    line.extend_from_slice(word)?;
    for number in trace.start.as_slice() {
        add_fraction(line, *number)?;
    }
    for number in trace.free.as_slice() {
        line.extend_from_slice(b" free")?;
        add_fraction(line, *number)?;
    }
    Ok(())
}

// Appends a bound and a blank.
fn add_bound(line: &mut Vec<u8>, bound: Ext) -> Result<(), AllocError> {
    line.extend_from_slice(bound.text().bytes())?;
    line.extend_from_slice(b" ")
}

/// Appends the bounds of a vector.
pub(crate) fn add_bounds(line: &mut Vec<u8>, bounds: &Bounds) -> Result<(), AllocError> {
    for bound in bounds.as_slice() {
        add_bound(line, *bound)?;
    }
    Ok(())
}

// Appends an item's unknown and edge.
fn add_names(line: &mut Vec<u8>, unknown: u32, edge: u32) -> Result<(), AllocError> {
    add_number(line, b" ", unknown as u64)?;
    add_number(line, b" by ", edge as u64)
}

// Appends an item of a plain step.
fn add_plain(line: &mut Vec<u8>, item: &Item) -> Result<(), AllocError> {
    add_names(line, item.unknown, item.edge)?;
    add_trace(line, b" low", &item.low)?;
    line.extend_from_slice(b" to")?;
    add_fraction(line, item.to)
}

// Appends an item of a jump.
fn add_jump(line: &mut Vec<u8>, item: &JumpItem) -> Result<(), AllocError> {
    add_names(line, item.unknown, item.edge)?;
    add_trace(line, b" low", &item.low)?;
    add_trace(line, b" high", &item.high)?;
    line.extend_from_slice(b" to")?;
    add_fraction(line, item.to)
}

// Appends an item of a ray.
fn add_ray(line: &mut Vec<u8>, item: &RayItem) -> Result<(), AllocError> {
    add_names(line, item.unknown, item.edge)?;
    add_trace(line, b" low", &item.low)?;
    add_trace(line, b" along", &item.direction)?;
    line.extend_from_slice(b" rate")?;
    add_fraction(line, item.rate)
}

/// Appends a step.
pub(crate) fn add_step(line: &mut Vec<u8>, step: &Step) -> Result<(), AllocError> {
    match step {
        Step::Plain(items) => {
            line.extend_from_slice(b"; plain")?;
            for item in items.as_slice() {
                add_plain(line, item)?;
            }
        }
        Step::Jump(items) => {
            line.extend_from_slice(b"; jump")?;
            for item in items.as_slice() {
                add_jump(line, item)?;
            }
        }
        Step::Ray(items) => {
            line.extend_from_slice(b"; ray")?;
            for item in items.as_slice() {
                add_ray(line, item)?;
            }
        }
    }
    Ok(())
}
