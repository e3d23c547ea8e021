//! The joint problem of a list of unknowns.

ghost use Rattle.std.specs.Prelude.{◌≡◌, ◌+◌, ◌*◌, ◌%◌, ◌<◌, ◌≤◌, ◌++◌, ◌∷◌, [], ℕ, List, OnOk, IfErr, None, MatchResult, Ok, length, map};
ghost use Rattle.std.specs.Prelude.{get_or};
ghost use Rattle.base_numbers.specs.Extended.{neg_inf};
ghost use Rattle.base_fractions.specs.Extended.{extended};
ghost use Rattle.base_fractions.specs.Fits.{long_limit};
ghost use Rattle.base_fractions.specs.Operation.{first_wide};
ghost use Rattle.flow_systems.specs.declared.spot.PartFault.TheVariants.{NoMemory};
ghost use Rattle.flow_systems.specs.View.{equations_of};
ghost use Rattle.theory_validity.specs.Words.{width};
ghost use Rattle.theory_validity.specs.Certificates.{num};
ghost use Rattle.theory_transformers.specs.Limits.{Limit};
ghost use Rattle.solve_composition.specs.Composed.{AreComposed};
ghost use Rattle.solve_joint.specs.Numbers.{edge_of};
ghost use Rattle.solve_joint.specs.Rows.{AllStand, IsSideFault};
ghost use Rattle.solve_joint.specs.Blocks.{edge_at, sources_of, guards_of, own_of, side_of, split_width};
ghost use Rattle.flow_edges.specs.declared.limits.TheConstants.{MOST_ACTIONS};
ghost use Rattle.lang_tree.specs.declared.limits.TheConstants.{MOST_VARIABLES};

use crate::based::Based;
use crate::block::{own_side, push_guard, push_own_row, push_source};
use crate::span::Span;
use base_fractions::{Ext, Frac, OrderedField};
use flow_systems::{Bounds, PartFault, Pick, System};
use lp_simplex::Row;
use solve_composition::Paths;
use std::alloc::{AllocError, Global};

/// The number of the picked edge.
pub fn picked_edge(pick: &Pick, unknown: u32) -> u32
    requires { unknown < length pick.now }
    ensures { result ≡ edge_of (get_or pick.now unknown None) }
{
    match pick.at(unknown) {
        Some(edge) => edge,
        None => 0,
    }
}

/// A finite bound; 0 for another.
pub fn finite(bound: Ext) -> Frac
    ensures { result ≡ num (extended bound) }
{
    match bound {
        Ext::Fin(value) => value,
        Ext::NegInf => Frac::zero(),
        Ext::PosInf => Frac::zero(),
    }
}

/// How many columns a word of an edge has.
pub fn word_width(system: &System, paths: &Paths, edge: u32) -> usize
    requires composed { AreComposed (equations_of system.now) paths.now }
    requires edge { edge < length system.now.flow.edges }
    ensures width { result ≡ width (length system.now.flow.names) (edge_at system.now edge).actions }
    ensures few { result ≤ MOST_VARIABLES + MOST_ACTIONS }
{
    system.flow.names.as_slice().len() + paths.frees(edge) as usize
}

/// The rows of the template at a point whose bound is finite.
pub fn push_sources(
    alloc: Global,
    rows: &mut Vec<Row<Frac>>,
    at: &Based,
    point: u32,
    span: &Span,
) -> Result<(), AllocError>
    requires point { point < length at.now.system.now.flow.points }
    requires fits { length span.now.list.now
        + (span.now.offset + (length at.now.system.now.flow.names + length at.now.system.now.flow.names)) ≤ span.now.cols }
    ensures { OnOk result ((ls : List Limit) → AllStand span.now.cols (map (λ r. r.coeffs) rows.old.items)
        (map (λ r. r.side) rows.old.items) ls →
        AllStand span.now.cols (map (λ r. r.coeffs) rows.new.items) (map (λ r. r.side) rows.new.items) (ls
        ++ sources_of at.now.system.now at.now.base.now span.now.list.now span.now.offset point)) }
{
    let template = at.system.template.as_slice();
    let first = point as usize * template.len();
    for (i, row) in template.iter().enumerate() {
        let number = (first + i) as u32;
        let bound = at.base.at(number);
        push_source(alloc, rows, bound, row.as_slice(), number, span)?;
    }
    Ok(())
}

/// The rows of the guards of an edge.
pub fn push_guards(
    alloc: Global,
    rows: &mut Vec<Row<Frac>>,
    at: &Based,
    edge: u32,
    span: &Span,
) -> Result<(), AllocError>
    requires edge { edge < length at.now.system.now.flow.edges }
    requires fits { length span.now.list.now + (span.now.offset + split_width at.now.system.now edge) ≤ span.now.cols }
    ensures { OnOk result ((ls : List Limit) → AllStand span.now.cols (map (λ r. r.coeffs) rows.old.items)
        (map (λ r. r.side) rows.old.items) ls →
        AllStand span.now.cols (map (λ r. r.coeffs) rows.new.items) (map (λ r. r.side) rows.new.items)
        (ls ++ guards_of at.now.system.now span.now.list.now span.now.offset edge)) }
{
    for g in 0..at.paths.guards(edge) {
        let guard = at.paths.guard(edge, g);
        push_guard(alloc, rows, guard.coeffs.as_slice(), guard.constant, span)?;
    }
    Ok(())
}

// The number of an unknown's row in the template.
fn own_row(at: &Based, unknown: u32) -> u32
    requires { unknown < length at.now.system.now.flow.points * length at.now.system.now.template }
    ensures value { result ≡ unknown % length at.now.system.now.template }
    ensures within { result < length at.now.system.now.template }
{
    unknown % at.system.template.as_slice().len() as u32
}

/// The own row of an unknown.
pub fn push_own(
    alloc: Global,
    rows: &mut Vec<Row<Frac>>,
    at: &Based,
    edge: u32,
    unknown: u32,
    span: &Span,
) -> Result<(), PartFault>
    requires unknown { unknown < length at.now.system.now.flow.points * length at.now.system.now.template }
    requires edge { edge < length at.now.system.now.flow.edges }
    requires fits { length span.now.list.now + (span.now.offset + split_width at.now.system.now edge) ≤ span.now.cols }
    ensures stands { OnOk result ((ls : List Limit) → AllStand span.now.cols (map (λ r. r.coeffs) rows.old.items)
        (map (λ r. r.side) rows.old.items) ls →
        AllStand span.now.cols (map (λ r. r.coeffs) rows.new.items) (map (λ r. r.side) rows.new.items) (ls
        ++ own_of at.now.system.now at.now.base.now span.now.list.now span.now.offset edge (unknown % length at.now.system.now.template)
        unknown ∷ [])) }
    ensures side { OnOk result (first_wide long_limit (side_of at.now.system.now at.now.base.now edge (unknown % length
        at.now.system.now.template)
        unknown ∷ []) ≡ None) }
    ensures refused { IfErr result (λ f. IsSideFault (side_of at.now.system.now at.now.base.now edge (unknown % length
        at.now.system.now.template)
        unknown ∷ []) f) }
{
    let row = own_row(at, unknown);
    let end = at.paths.row(edge, row);
    let side = own_side(end.constant, finite(at.base.at(unknown)))?;
    push_own_row(alloc, rows, end.coeffs.as_slice(), side, unknown, span)?;
    Ok(())
}
