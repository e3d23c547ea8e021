//! The transformer of an edge and a row at a vector.

ghost use Rattle.std.specs.Prelude.{◌≡◌, ◌≤◌, ◌<◌, ◌+◌, ◌*◌, ℤ, List, false, IfOk, IfErr, OnOk, None, length};
ghost use Rattle.base_numbers.specs.Rational.{ℚ};
ghost use Rattle.base_fractions.specs.Fits.{long_limit};
ghost use Rattle.base_fractions.specs.Operation.{first_wide};
ghost use Rattle.flow_systems.specs.Equations.{Vector};
ghost use Rattle.flow_systems.specs.View.{equations_of, vector_at, edge_at, row_at, IsVectorOf};
ghost use Rattle.lp_theory.specs.Simplex.{lp};
ghost use Rattle.lp_dictionary.specs.Exact.{exact, IsShaped};
ghost use Rattle.lp_simplex.specs.Operations.{first_refused, run_operations};
ghost use Rattle.solve_composition.specs.Composed.{AreComposed};
ghost use Rattle.solve_transformer.specs.Values.{IsValue, NoneWide, IsOperatorFault, ReadsOutcome, reading_operations};
ghost use Rattle.theory_transformers.specs.EdgeProblems.{lost, transformer};
ghost use Rattle.solve_composition.specs.Value.{number_of};
ghost use Rattle.solve_transformer.specs.Meanings.{HasEvidence, Operates};
ghost use Rattle.solve_transformer.specs.Splits.{bounds_at, IsSource, HasSource};
ghost use Rattle.flow_edges.specs.declared.edge.Edge.{Edge};
ghost use Rattle.solve_transformer.specs.Readings.{HasSizes, IsProblemFault};
ghost use Rattle.flow_edges.specs.declared.limits.TheConstants.{MOST_ACTIONS};
ghost use Rattle.flow_templates.specs.declared.limits.TheConstants.{MOST_ROWS};

use crate::build::{edge_problem, lowest_lost};
use crate::read::{Sizes, read_outcome};
use crate::tableaus::outcome;
use base_fractions::{Ext, Frac};
use flow_systems::{Bounds, Part, PartFault, System};
use lp_dictionary::Problem;
use lp_simplex::SolveFault;
use solve_composition::{Affine, FormFault, Paths, Value};
use std::alloc::Global;

// The value of a problem over split columns.
fn solve_problem(
    alloc: Global,
    sizes: Sizes,
    source: &[Ext],
    constant: Frac,
    problem: &Problem<Frac>,
) -> Result<Value, PartFault>
    requires shaped { IsShaped problem.now }
    requires room { sizes.rows ≤ length source.now }
    requires few { sizes.rows ≤ MOST_ROWS }
    ensures value { (template : List (List ℤ)) → sizes.rows ≡ length template →
        HasSizes (exact (λ q. q) problem.now) (sizes.variables + sizes.frees) (bounds_at source.now) template sizes.guards →
        IfOk result (ReadsOutcome sizes.variables (sizes.variables + sizes.frees) constant (bounds_at source.now) template sizes.guards
        (lp (exact (λ q. q) problem.now))) }
    ensures pivots { OnOk result (first_refused long_limit (run_operations (exact (λ q. q) problem.now)) ≡ None) }
    ensures reading { (template : List (List ℤ)) → sizes.rows ≡ length template →
        HasSizes (exact (λ q. q) problem.now) (sizes.variables + sizes.frees) (bounds_at source.now) template sizes.guards →
        OnOk result (first_wide long_limit (reading_operations (sizes.variables + sizes.frees) constant (lp (exact (λ q. q) problem.now)))
        ≡ None) }
    ensures refused { (template : List (List ℤ)) → sizes.rows ≡ length template →
        HasSizes (exact (λ q. q) problem.now) (sizes.variables + sizes.frees) (bounds_at source.now) template sizes.guards →
        IfErr result (IsProblemFault (exact (λ q. q) problem.now)
        (reading_operations (sizes.variables + sizes.frees) constant (lp (exact (λ q. q) problem.now)))) }
{
    match outcome(alloc, problem) {
        Ok(outcome) => match read_outcome(alloc, sizes, source, constant, outcome) {
            Ok(value) => Ok(value),
            Err(FormFault::Wide(wide)) => Err(PartFault::Wide {
                part: Part::Reading,
                wide,
            }),
            Err(FormFault::NoMemory) => Err(PartFault::NoMemory),
        },
        Err(SolveFault::Wide { pivot, wide }) => Err(PartFault::Wide {
            part: Part::Pivot(pivot),
            wide,
        }),
        Err(SolveFault::NoMemory) => Err(PartFault::NoMemory),
    }
}

// The value of the problem of these guards and this form, at a source of which no bound is `-inf`. The forms are over the
// variables and so many free values.
pub(crate) fn solve_forms(
    alloc: Global,
    system: &System,
    source: &[Ext],
    frees: usize,
    guards: &[Affine],
    form: &Affine,
) -> Result<Value, PartFault>
    requires room { length system.now.template ≤ length source.now }
    requires few_frees { frees ≤ MOST_ACTIONS }
    requires few_guards { length guards.now ≤ 2 * MOST_ACTIONS }
    requires forms { HasSource (equations_of system.now) (length system.now.flow.names + frees) system.now.template source.now guards.now
        form.now }
    ensures { (z : Vector) (edge : Edge) (row : List ℤ) →
        IsSource (equations_of system.now) z edge row (length system.now.flow.names + frees) system.now.template source.now guards.now
        form.now →
        lost (z edge.from) system.now.template ≡ false → Operates (equations_of system.now) z edge row result }
{
    let template = system.template.as_slice();
    let sizes = Sizes {
        variables: system.flow.names.as_slice().len(),
        frees,
        rows: template.len(),
        guards: guards.len(),
    };
    let width = sizes.variables + sizes.frees;
    match edge_problem(alloc, template, source, guards, form, width) {
        Ok(problem) => solve_problem(alloc, sizes, source, form.constant, &problem),
        Err(_) => Err(PartFault::NoMemory),
    }
}

// The transformer at a source of which no bound is `-inf`.
fn solve_edge(
    alloc: Global,
    system: &System,
    paths: &Paths,
    source: &[Ext],
    edge: u32,
    row: u32,
) -> Result<Value, PartFault>
    requires paths { AreComposed (equations_of system.now) paths.now }
    requires room { length system.now.template ≤ length source.now }
    requires edge { edge < length system.now.flow.edges }
    requires row { row < length system.now.template }
    ensures { (z : Vector) → bounds_at source.now ≡ z (edge_at system.now edge).from →
        lost (z (edge_at system.now edge).from) system.now.template ≡ false →
        Operates (equations_of system.now) z (edge_at system.now edge) (row_at system.now row) result }
{
    let path = paths.path(edge);
    let form = &path.rows.as_slice()[row as usize];
    let frees = paths.frees(edge) as usize;
    solve_forms(alloc, system, source, frees, path.guards.as_slice(), form)
}

/// The transformer of an edge and a row at a vector: the supremum of the row after the edge, over all states before it that fit
/// the bounds there, by one exact linear program (docs/FORMATS.md, "Linear programs"). Its columns are the start variables and
/// the free values, each split into a positive and a negative one; its rows are the template rows with a finite bound at the
/// source and then the guards; its goal is the row's end value without its constant. The trace, the direction and the multipliers
/// are those of the last dictionary.
///
/// # Errors
///
/// `Wide` exactly where an operation is too wide for a fraction, with the first: a pivot with its number, and then the
/// reading, first of the value and then of the trace's entries and of the direction's. The sides have no operation.
pub fn operator(
    alloc: Global,
    system: &System,
    paths: &Paths,
    bounds: &Bounds,
    edge: u32,
    row: u32,
) -> Result<Value, PartFault>
    requires paths { AreComposed (equations_of system.now) paths.now }
    requires bounds { IsVectorOf system.now bounds.now }
    requires edge { edge < length system.now.flow.edges }
    requires row { row < length system.now.template }
    ensures value { IfOk result (IsValue (equations_of system.now) (vector_at system.now bounds.now) (edge_at system.now edge)
        (row_at system.now row)) }
    ensures supremum { IfOk result (λ v. transformer (equations_of system.now) (vector_at system.now bounds.now) (edge_at system.now edge)
        (row_at system.now row) ≡ number_of v) }
    ensures evidence { IfOk result (HasEvidence (equations_of system.now) (vector_at system.now bounds.now) (edge_at system.now edge)
        (row_at system.now row)) }
    ensures fits { OnOk result (NoneWide (equations_of system.now) (vector_at system.now bounds.now) (edge_at system.now edge)
        (row_at system.now row)) }
    ensures refused { IfErr result (IsOperatorFault (equations_of system.now) (vector_at system.now bounds.now) (edge_at system.now edge)
        (row_at system.now row)) }
{
    let rows = system.template.as_slice().len();
    let from = system.flow.edges.as_slice()[edge as usize].from as usize;
    let source = &bounds.as_slice()[from * rows..];
    match lowest_lost(source, rows) {
        Some(lost) => Ok(Value::Unreached { row: lost }),
        None => solve_edge(alloc, system, paths, source, edge, row),
    }
}
