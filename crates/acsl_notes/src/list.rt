//! The comments of a program's text.

ghost use Rattle.std.specs.Prelude.{◌≡◌, ◌+◌, ◌*◌, ◌<◌, ◌≤◌, ◌++◌, IfOk, List, drop, get_or, length, map, take};
ghost use Rattle.base_fractions.specs.Extended.{extended};
ghost use Rattle.flow_systems.specs.View.{IsVectorOf, vector_at, vector_of};
ghost use Rattle.acsl_anchors.specs.Anchors.{Anchor as AnAnchor};
ghost use Rattle.acsl_anchors.specs.Laws.{is_anchored};
ghost use Rattle.acsl_anchors.specs.View.{plain_anchors};
ghost use Rattle.acsl_notes.specs.Clauses.{clauses};
ghost use Rattle.acsl_notes.specs.Texts.{comment_at, comment_unless_silent, comments_from};
ghost use Rattle.acsl_notes.specs.View.{anchor_of, clauses_of_said, comment_of, comments_left};

use crate::clause::{Said, clauses};
use crate::indent::line_before;
use crate::note::note;
use acsl_anchors::Anchor;
use acsl_comments::{Bytes, Comment};
use base_fractions::Ext;
use flow_edges::Place;
use flow_systems::{Bounds, System};
use lang_tree::Coeffs;
use std::alloc::{AllocError, Global};

/// Whether a point of this kind has an anchor.
fn is_anchored(place: &Place) -> bool
    ensures { result ≡ is_anchored place.now }
{
    match place {
        Place::Loop => true,
        Place::Label(_) => true,
        Place::Exit => true,
        _ => false,
    }
}

/// The comment that says these conditions at an anchor.
fn comment(
    alloc: Global,
    text: &[u8],
    anchor: &Anchor,
    system: &System,
    said: &[Said],
) -> Result<Comment, AllocError>
    ensures { IfOk result (λ made. made ≡ comment_of text.now system.now.flow.names (anchor_of anchor.now)
        (clauses_of_said system.now.template said.now)) }
{
    let line = line_before(text, anchor.place);
    let names = system.flow.names.as_slice();
    let rows = system.template.as_slice();
    let bytes = note(alloc, names, rows, anchor.what, line, said)?;
    Ok(Comment {
        place: anchor.place,
        bytes: Bytes::new(bytes),
    })
}

/// Adds the comment that says these conditions at an anchor, if there are any.
fn push_unless_silent(
    alloc: Global,
    found: &mut Vec<Comment>,
    text: &[u8],
    anchor: &Anchor,
    system: &System,
    said: &[Said],
) -> Result<(), AllocError>
    ensures { IfOk result (λ _. found.new.items ≡ found.old.items ++ comment_unless_silent text.now system.now.flow.names
        (anchor_of anchor.now)
        (clauses_of_said system.now.template said.now)) }
{
    if said.is_empty() {
        return Ok(());
    }
    found.push(comment(alloc, text, anchor, system, said)?)?;
    Ok(())
}

/// The bounds of a point, where each point has so many.
fn point_bounds(bounds: &[Ext], rows: usize, point: usize) -> &[Ext]
    requires { point * rows + rows ≤ length bounds.now }
    ensures { result.now ≡ take rows (drop (point * rows) bounds.now) }
{
    &bounds[point * rows..point * rows + rows]
}

/// What the bounds of a point say where these variables are known.
fn point_clauses(
    alloc: Global,
    known: &[u32],
    rows: &[Coeffs],
    bounds: &[Ext],
    point: usize,
) -> Result<Vec<Said>, AllocError>
    requires some { 0 < length rows.now }
    requires within { point * length rows.now + length rows.now ≤ length bounds.now }
    ensures { IfOk result (λ said. clauses_of_said rows.now said.items
        ≡ clauses known.now rows.now (vector_of (length rows.now) (map extended bounds.now) point)) }
{
    clauses(alloc, known, rows, point_bounds(bounds, rows.len(), point))
}

/// Adds the comment at an anchor, if the bounds of the point say anything. Points are counted from 0.
fn push_comment(
    alloc: Global,
    found: &mut Vec<Comment>,
    text: &[u8],
    anchor: &Anchor,
    system: &System,
    bounds: &[Ext],
    point: usize,
) -> Result<(), AllocError>
    requires point { point < length system.now.flow.points }
    requires bounds { length bounds.now ≡ length system.now.flow.points * length system.now.template }
    ensures { IfOk result (λ _. found.new.items ≡ found.old.items ++ comment_at text.now system.now.flow.names system.now.template
        (vector_of (length system.now.template) (map extended bounds.now)) point (anchor_of anchor.now)) }
{
    let rows = system.template.as_slice();
    let said = point_clauses(alloc, anchor.known.as_slice(), rows, bounds, point)?;
    push_unless_silent(alloc, found, text, anchor, system, &said)
}

/// Adds the comment at the next anchor, if the point has one, and says how many anchors that takes.
fn push_point(
    alloc: Global,
    found: &mut Vec<Comment>,
    text: &[u8],
    anchors: &[Anchor],
    system: &System,
    bounds: &[Ext],
    point: usize,
) -> Result<usize, AllocError>
    requires point { point < length system.now.flow.points }
    requires bounds { length bounds.now ≡ length system.now.flow.points * length system.now.template }
    ensures within { IfOk result (λ used. used ≤ length anchors.now) }
    ensures comments { IfOk result (λ used. found.new.items ++ comments_left text.now system.now (map extended bounds.now) (point + 1)
        (drop used anchors.now)
        ≡ found.old.items ++ comments_left text.now system.now (map extended bounds.now) point anchors.now) }
{
    if anchors.is_empty() {
        return Ok(0);
    }
    if !is_anchored(&system.flow.points.as_slice()[point].place) {
        return Ok(0);
    }
    push_comment(alloc, found, text, &anchors[0], system, bounds, point)?;
    Ok(1)
}

/// The comments that say, at each anchor, what the bounds of its point say (docs/USING.md, "Annotations"): the anchors belong,
/// in order, to the points that have one.
pub fn comments(
    alloc: Global,
    text: &[u8],
    anchors: &[Anchor],
    system: &System,
    bounds: &Bounds,
) -> Result<Vec<Comment>, AllocError>
    requires { IsVectorOf system.now bounds.now }
    ensures { (list : List AnAnchor) → anchors.now ≡ plain_anchors list →
        IfOk result (λ found. found.items ≡ comments_from text.now system.now.flow.names system.now.template
        (vector_at system.now bounds.now) 0 system.now.flow.points list) }
{
    let mut found = Vec::new(alloc);
    let mut used = 0;
    for point in 0..system.flow.points.as_slice().len() {
        used += push_point(
            alloc,
            &mut found,
            text,
            &anchors[used..],
            system,
            bounds.as_slice(),
            point,
        )?;
    }
    Ok(found)
}
