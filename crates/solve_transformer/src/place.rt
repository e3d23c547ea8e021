//! The states at a place inside an edge that pass guards.

ghost use Rattle.std.specs.Prelude.{◌≡◌, ◌≤◌, ◌<◌, ◌+◌, ◌*◌, ◌++◌, List, [], None, IfOk, IfErr, OnOk, IsTrue, false, length, map};
ghost use Rattle.std.specs.List.{list_all};
ghost use Rattle.base_numbers.specs.Rational.{zero_ℚ};
ghost use Rattle.base_numbers.specs.Vector.{dot};
ghost use Rattle.base_fractions.specs.Fits.{long_limit};
ghost use Rattle.base_fractions.specs.Operation.{Answers, first_wide};
ghost use Rattle.lang_tree.specs.Limits.{is_form};
ghost use Rattle.flow_edges.specs.FlowLimits.{is_action};
ghost use Rattle.flow_edges.specs.declared.edge.Action.{Action as ActionValue};
ghost use Rattle.lang_tree.specs.declared.form.Form.{Form as FormValue};
ghost use Rattle.flow_systems.specs.Equations.{Vector};
ghost use Rattle.flow_systems.specs.Faults.{AnswersBy};
ghost use Rattle.flow_systems.specs.View.{equations_of, vector_at, IsVectorOf};
ghost use Rattle.theory_validity.specs.Words.{val};
ghost use Rattle.theory_transformers.specs.EdgeProblems.{lost};
ghost use Rattle.solve_composition.specs.Composed.{dense};
ghost use Rattle.solve_composition.specs.ComposedLaws.{form_of};
ghost use Rattle.solve_composition.specs.Behind.{placed_actions, placed_forms};
ghost use Rattle.solve_transformer.specs.Meanings.{HasEvidence};
ghost use Rattle.solve_transformer.specs.Splits.{bounds_at};
ghost use Rattle.solve_transformer.specs.Places.{placed_edge, nothing, state_after, sides_of, ends_at, ends_reading, form_reading};
ghost use Rattle.solve_transformer.specs.Places.{forms_reading, products_reading, AnswersAt, IsPartFault, IsPlaced, IsPlaceFault};
ghost use Rattle.solve_transformer.specs.Places.{NoneWideAt};
ghost use Rattle.solve_transformer.specs.Values.{IsValue};
ghost use Rattle.flow_edges.specs.declared.limits.TheConstants.{MOST_ACTIONS};
ghost use Rattle.lang_tree.specs.declared.limits.TheConstants.{MOST_HIDDEN};

use crate::build::lowest_lost;
use crate::transform::solve_forms;
use base_fractions::{Ext, Frac, OrderedField, Wide};
use flow_edges::Action;
use flow_systems::{Bounds, Fracs, Part, PartFault, System, Trace};
use lang_tree::Form;
use solve_composition::{Affine, FormFault, PlacedForms, Value, compose_placed};
use std::alloc::{AllocError, Global};

/// What is answered at a place: the value there, and the variables where the trace of `Best` ends. Of another value there are
/// none.
#[derive(Drop)]
pub struct Placed {
    pub value: Value,
    pub state: Option<Fracs>,
}

// The form that is 0 everywhere.
fn no_form(alloc: Global, width: usize) -> Result<Affine, AllocError>
    ensures { IfOk result (λ form. form ≡ dense width nothing) }
{
    let mut coeffs = Vec::with_capacity(alloc, width)?;
    'columns: for _ in 0..width {
        coeffs.push(Frac::zero())?;
    }
    Ok(Affine {
        coeffs: Fracs::new(coeffs),
        constant: Frac::zero(),
    })
}

// The products of coefficients and entries, summed from the left.
fn products_at(coeffs: &[Frac], word: &[Frac]) -> Result<Frac, Wide<Frac>>
    ensures { Answers (λ q. q) long_limit (dot coeffs.now word.now) (products_reading zero_ℚ coeffs.now word.now) result }
{
    let mut sum = Frac::zero();
    for column in 0..coeffs.len().min(word.len()) {
        sum = sum.add_product(coeffs[column], word[column])?;
    }
    Ok(sum)
}

// The value of a form at the entries of a trace.
fn form_at(form: &Affine, word: &[Frac]) -> Result<Frac, Wide<Frac>>
    ensures { Answers (λ q. q) long_limit (val (form_of form.now) word.now) (form_reading word.now form.now) result }
{
    let sum = products_at(form.coeffs.as_slice(), word)?;
    sum.plus(form.constant)
}

// The values of forms at the entries of a trace.
fn forms_at(alloc: Global, forms: &[Affine], word: &[Frac]) -> Result<Fracs, FormFault>
    ensures { AnswersBy (λ list. list ≡ map (λ f. val (form_of f) word.now) forms.now) (forms_reading forms.now word.now) result }
{
    let mut list = Vec::with_capacity(alloc, forms.len())?;
    for form in forms {
        list.push(form_at(form, word)?)?;
    }
    Ok(Fracs::new(list))
}

// The entries of a trace: its start, and then its free values.
fn entries(alloc: Global, trace: &Trace) -> Result<Vec<Frac>, AllocError>
    ensures { IfOk result (λ word. word.items ≡ trace.now.start ++ trace.now.free) }
{
    let mut word = trace.start.as_slice().to_vec(alloc)?;
    word.extend_from_slice(trace.free.as_slice())?;
    Ok(word)
}

// Where the trace of a best value ends.
fn read_state(alloc: Global, value: &Value, ends: &[Affine]) -> Result<Option<Fracs>, FormFault>
    ensures { AnswersBy (λ state. state ≡ ends_at ends.now value.now) (ends_reading ends.now value.now) result }
{
    match value {
        Value::Best { trace, .. } => {
            let word = entries(alloc, trace)?;
            Ok(Some(forms_at(alloc, ends, &word)?))
        }
        Value::Unreached { .. } => Ok(None),
        Value::Empty { .. } => Ok(None),
        Value::Unbounded { .. } => Ok(None),
    }
}

// The fault of a part that composes forms or reads them.
fn part_fault(part: Part, fault: FormFault) -> PartFault
    ensures { IsPartFault part fault result }
{
    match fault {
        FormFault::Wide(wide) => PartFault::Wide { part, wide },
        FormFault::NoMemory => PartFault::NoMemory,
    }
}

// The same over composed forms, where no bound at the point is `-inf`.
fn solve_composed(
    alloc: Global,
    system: &System,
    source: &[Ext],
    forms: &PlacedForms,
) -> Result<Placed, PartFault>
    requires room { length system.now.template ≤ length source.now }
    requires few_frees { forms.now.frees ≤ MOST_ACTIONS }
    requires few_guards { length forms.now.guards ≤ 2 * MOST_ACTIONS }
    requires forms { IsPlaced (length system.now.flow.names) forms.now }
    ensures { (z : Vector) (point : _) (before : List ActionValue) (guards : List FormValue) →
        forms.now ≡ placed_forms (length system.now.flow.names) before guards →
        bounds_at source.now ≡ z point → lost (z point) system.now.template ≡ false →
        first_wide long_limit (sides_of (equations_of system.now) (placed_edge point before guards)) ≡ None →
        AnswersAt (equations_of system.now) z (placed_edge point before guards) result }
{
    let width = system.flow.names.as_slice().len() + forms.frees as usize;
    let form = no_form(alloc, width)?;
    let guards = forms.guards.as_slice();
    let value = solve_forms(alloc, system, source, forms.frees as usize, guards, &form)?;
    match read_state(alloc, &value, forms.ends.as_slice()) {
        Ok(state) => Ok(Placed { value, state }),
        Err(fault) => Err(part_fault(Part::Reading, fault)),
    }
}

// The same where no bound at the point is `-inf`.
fn solve_placed(
    alloc: Global,
    system: &System,
    source: &[Ext],
    before: &[Action],
    guards: &[Form],
) -> Result<Placed, PartFault>
    requires room { length system.now.template ≤ length source.now }
    requires few_before { length before.now ≤ MOST_ACTIONS }
    requires few_guards { length guards.now ≤ MOST_ACTIONS }
    requires actions { IsTrue (list_all (is_action (length system.now.flow.names + MOST_HIDDEN)) before.now) }
    requires forms { IsTrue (list_all (is_form (length system.now.flow.names + MOST_HIDDEN)) guards.now) }
    ensures { (z : Vector) (point : _) → bounds_at source.now ≡ z point → lost (z point) system.now.template ≡ false →
        AnswersAt (equations_of system.now) z (placed_edge point before.now guards.now) result }
{
    match compose_placed(alloc, system.flow.names.as_slice().len(), before, guards) {
        Ok(forms) => solve_composed(alloc, system, source, &forms),
        Err(fault) => Err(part_fault(Part::Side, fault)),
    }
}

/// The value of a row without coefficients, which is 0, over an edge that goes from a point along actions and then passes
/// guards: so it says whether actions lead from a state that fits the bounds at the point to one that passes the guards, and is
/// found as `operator` finds a transformer. The trace of `Best` is such a way, and its end is told with it; by `Unreached` and
/// `Empty` there is none, and `Unbounded` never comes.
///
/// # Errors
///
/// `Wide` exactly where an operation is too wide for a fraction, with the first: a side, which is where the actions and
/// the guards are composed; a pivot with its number; and then the reading, first of the trace's entries and then of the variables
/// at its end, each form from the left with its constant last.
pub fn placed_value(
    alloc: Global,
    system: &System,
    bounds: &Bounds,
    point: u32,
    before: &[Action],
    guards: &[Form],
) -> Result<Placed, PartFault>
    requires bounds { IsVectorOf system.now bounds.now }
    requires point { point < length system.now.flow.points }
    requires few_before { length before.now ≤ MOST_ACTIONS }
    requires few_guards { length guards.now ≤ MOST_ACTIONS }
    requires actions { IsTrue (list_all (is_action (length system.now.flow.names + MOST_HIDDEN)) before.now) }
    requires forms { IsTrue (list_all (is_form (length system.now.flow.names + MOST_HIDDEN)) guards.now) }
    ensures value { IfOk result (λ answer. IsValue (equations_of system.now) (vector_at system.now bounds.now)
        (placed_edge point before.now guards.now) [] answer.value) }
    ensures evidence { IfOk result (λ answer. HasEvidence (equations_of system.now) (vector_at system.now bounds.now)
        (placed_edge point before.now guards.now) [] answer.value) }
    ensures state { IfOk result (λ answer. answer.state ≡ state_after (length system.now.flow.names)
        (placed_actions before.now guards.now) answer.value) }
    ensures fits { OnOk result (NoneWideAt (equations_of system.now) (vector_at system.now bounds.now)
        (placed_edge point before.now guards.now)) }
    ensures refused { IfErr result (IsPlaceFault (equations_of system.now) (vector_at system.now bounds.now)
        (placed_edge point before.now guards.now)) }
{
    let rows = system.template.as_slice().len();
    let source = &bounds.as_slice()[point as usize * rows..];
    match lowest_lost(source, rows) {
        Some(lost) => Ok(Placed {
            value: Value::Unreached { row: lost },
            state: None,
        }),
        None => solve_placed(alloc, system, source, before, guards),
    }
}
