//! All rows of a joint problem, and how many columns they have.

ghost use Rattle.std.specs.Prelude.{◌≡◌, ◌+◌, ◌*◌, ◌%◌, ◌<◌, ◌≤◌, ◌++◌, ◌∷◌, [], ℕ, List, OnOk, IfErr, None, MatchResult, length, map};
ghost use Rattle.base_numbers.specs.Rational.{zero_ℚ};
ghost use Rattle.base_fractions.specs.Fits.{long_limit};
ghost use Rattle.base_fractions.specs.Operation.{first_wide};
ghost use Rattle.flow_systems.specs.View.{equations_of};
ghost use Rattle.theory_transformers.specs.Limits.{Limit};
ghost use Rattle.solve_composition.specs.Composed.{AreComposed};
ghost use Rattle.solve_joint.specs.Numbers.{ArePicked, Rises};
ghost use Rattle.solve_joint.specs.Rows.{AllStand, IsSideFault};
ghost use Rattle.solve_joint.specs.Blocks.{edge_at, sources_of, guards_of, side_of, block_of, split_width, blocks_from, split_columns};
ghost use Rattle.solve_joint.specs.Blocks.{side_operations};
ghost use Rattle.flow_systems.specs.declared.limits.TheConstants.{MOST_UNKNOWNS};
ghost use Rattle.flow_edges.specs.declared.limits.TheConstants.{MOST_ACTIONS};
ghost use Rattle.lang_tree.specs.declared.limits.TheConstants.{MOST_VARIABLES};

use crate::based::Based;
use crate::problem::{picked_edge, push_guards, push_own, push_sources, word_width};
use crate::span::Span;
use base_fractions::Frac;
use flow_systems::{Bounds, PartFault, Pick, System};
use lp_simplex::Row;
use solve_composition::Paths;
use std::alloc::{AllocError, Global};

// The rows of the source and of the guards of an edge.
fn push_limits(
    alloc: Global,
    rows: &mut Vec<Row<Frac>>,
    at: &Based,
    edge: u32,
    span: &Span,
) -> Result<(), AllocError>
    requires edge { edge < length at.now.system.now.flow.edges }
    requires fits { length span.now.list.now + (span.now.offset + split_width at.now.system.now edge) ≤ span.now.cols }
    ensures { OnOk result ((ls : List Limit) → AllStand span.now.cols (map (λ r. r.coeffs) rows.old.items) (map (λ r. r.side)
        rows.old.items)
        ls → AllStand span.now.cols (map (λ r. r.coeffs) rows.new.items) (map (λ r. r.side) rows.new.items)
        ((ls ++ sources_of at.now.system.now at.now.base.now span.now.list.now span.now.offset (edge_at at.now.system.now edge).from)
        ++ guards_of at.now.system.now span.now.list.now span.now.offset edge)) }
{
    let edges = at.system.flow.edges.as_slice();
    let point = edges[edge as usize].from;
    push_sources(alloc, rows, at, point, span)?;
    push_guards(alloc, rows, at, edge, span)
}

// The rows of one unknown.
fn push_block(
    alloc: Global,
    rows: &mut Vec<Row<Frac>>,
    at: &Based,
    edge: u32,
    unknown: u32,
    span: &Span,
) -> Result<(), PartFault>
    requires edge { edge < length at.now.system.now.flow.edges }
    requires unknown { unknown < length at.now.system.now.flow.points * length at.now.system.now.template }
    requires fits { length span.now.list.now + (span.now.offset + split_width at.now.system.now edge) ≤ span.now.cols }
    ensures stands { OnOk result ((ls : List Limit) → AllStand span.now.cols (map (λ r. r.coeffs) rows.old.items)
        (map (λ r. r.side) rows.old.items) ls →
        AllStand span.now.cols (map (λ r. r.coeffs) rows.new.items) (map (λ r. r.side) rows.new.items) (ls
        ++ block_of at.now.system.now at.now.base.now span.now.list.now span.now.offset edge unknown)) }
    ensures side { OnOk result (first_wide long_limit (side_of at.now.system.now at.now.base.now edge (unknown % length
        at.now.system.now.template) unknown ∷ [])
        ≡ None) }
    ensures refused { IfErr result (λ f. IsSideFault (side_of at.now.system.now at.now.base.now edge (unknown % length
        at.now.system.now.template) unknown ∷ [])
        f) }
{
    push_limits(alloc, rows, at, edge, span)?;
    push_own(alloc, rows, at, edge, unknown, span)
}

/// How many columns the joint problem of a list has: a rise for each unknown, and the split columns of each picked edge.
pub fn count_columns(system: &System, paths: &Paths, pick: &Pick, list: &[u32]) -> usize
    requires composed { AreComposed (equations_of system.now) paths.now }
    requires pick { length pick.now ≡ length system.now.flow.points * length system.now.template }
    requires rises { Rises 0 list.now }
    requires picked { ArePicked system.now pick.now list.now }
    ensures count { result ≡ length list.now + split_columns system.now pick.now list.now }
    ensures few { result ≤ MOST_UNKNOWNS * (2 * MOST_VARIABLES + 2 * MOST_ACTIONS + 1) }
{
    let mut cols = list.len();
    for unknown in list {
        let columns = word_width(system, paths, picked_edge(pick, *unknown));
        cols += columns + columns;
    }
    cols
}

/// The rows of the joint problem of a list, in order.
pub fn all_rows(
    alloc: Global,
    at: &Based,
    pick: &Pick,
    list: &[u32],
    cols: usize,
) -> Result<Vec<Row<Frac>>, PartFault>
    requires pick { length pick.now ≡ length at.now.system.now.flow.points * length at.now.system.now.template }
    requires picked { ArePicked at.now.system.now pick.now list.now }
    requires cols { cols ≡ length list.now + split_columns at.now.system.now pick.now list.now }
    ensures { MatchResult result (λ rows. AllStand cols (map (λ r. r.coeffs) rows.items) (map (λ r. r.side) rows.items)
        (blocks_from at.now.system.now pick.now at.now.base.now list.now 0 list.now)
        × (first_wide long_limit (side_operations at.now.system.now pick.now at.now.base.now list.now) ≡ None))
        (λ f. IsSideFault (side_operations at.now.system.now pick.now at.now.base.now list.now) f) }
{
    let mut rows = Vec::new(alloc);
    let mut offset = 0;
    for unknown in list {
        let edge = picked_edge(pick, *unknown);
        let span = Span { list, offset, cols };
        push_block(alloc, &mut rows, at, edge, *unknown, &span)?;
        let columns = word_width(at.system, at.paths, edge);
        offset += columns + columns;
    }
    Ok(rows)
}
