//! Bounds: a list for each point, of one bound for each row.

ghost use Rattle.std.specs.Prelude.{◌≡◌, ◌<◌, ◌==◌, ◌*◌, ◌/◌, IfOk, List, Some, length, map, true};
ghost use Rattle.serde_json.specs.View.{view};
ghost use Rattle.base_fractions.specs.Extended.{extended};
ghost use Rattle.base_fractions.specs.declared.ext.Ext.{Ext};
ghost use Rattle.cert_text.specs.BoundLines.{bounds_data, ext_line_data, is_line, joined, line_in, lines_of};
ghost use Rattle.cert_text.specs.Lists.{is_list, list_in};

use crate::entry::{Entry, is_list, read_list, write_list};
use crate::keys::item_count;
use crate::numbering::Numbering;
use crate::setting::Setting;
use base_fractions::Ext;
use flow_systems::Bounds;
use serde_json::Value;
use std::alloc::{AllocError, Global};
use std::marker::Model;

/// The bounds of one point, one for each row.
#[derive(Drop)]
pub(crate) struct Line {
    list: Vec<Ext>,
}

impl Model for Line {
    ghost use Rattle.std.specs.Prelude.{List};
    ghost use Rattle.base_fractions.specs.declared.ext.Ext.{Ext};

    ghost Value = { List Ext };

    ghost view = { λ line. line.list.items };
}

// Whether the value is a list of texts, one for each row.
fn is_line(setting: &Setting, value: &Value) -> bool
    ensures { result ≡ is_line setting.now.rows (view value.now) }
{
    is_list::<Ext>(setting, value) && item_count(value) == setting.rows
}

// The bounds that the value is.
fn read_line(alloc: Global, setting: &Setting, value: &Value) -> Result<Option<Line>, AllocError>
    ensures { IfOk result (λ line. line ≡ line_in (view value.now)) }
{
    match read_list::<Ext>(alloc, setting, value)? {
        Some(list) => Ok(Some(Line { list })),
        None => Ok(None),
    }
}

// The bounds as a value.
fn line_value(
    alloc: Global,
    rows: usize,
    names: &Numbering,
    line: &Line,
) -> Result<Value, AllocError>
    requires { length line.now ≡ rows }
    ensures value { IfOk result (λ v. view v ≡ ext_line_data line.now) }
    ensures shape { IfOk result (λ _. is_line rows (ext_line_data line.now) ≡ true) }
    ensures back { IfOk result (λ _. line_in (ext_line_data line.now) ≡ Some line.now) }
{
    write_list(alloc, rows, names, line.list.as_slice())
}

impl Entry for Line {
    ghost use Rattle.std.specs.Prelude.{◌==◌, length};
    ghost use Rattle.cert_text.specs.BoundLines.{ext_line_data, is_line, line_in};

    ghost shaped = { λ setting d. is_line setting.rows d };

    ghost element_in = { λ _ d. line_in d };

    ghost element_data = { λ _ _ line. ext_line_data line };

    ghost bare = { λ line. line };

    ghost writable = { λ rows _ line. length line == rows };

    fn has_shape(setting: &Setting, value: &Value) -> bool {
        is_line(setting, value)
    }

    fn read(alloc: Global, setting: &Setting, value: &Value) -> Result<Option<Line>, AllocError> {
        read_line(alloc, setting, value)
    }

    fn write(&self, alloc: Global, rows: usize, names: &Numbering) -> Result<Value, AllocError> {
        line_value(alloc, rows, names, self)
    }
}

/// The bounds of all points, one after another, with room for `rows` of each.
pub(crate) fn joined(alloc: Global, rows: usize, lines: &[Line]) -> Result<Vec<Ext>, AllocError>
    ensures { IfOk result (λ list. list.items ≡ joined lines.now) }
{
    let mut list = Vec::with_capacity(alloc, lines.len().saturating_mul(rows))?;
    for line in lines {
        list.extend_from_slice(line.list.as_slice())?;
    }
    Ok(list)
}

// The bounds of each point, where there are `rows` rows.
fn cut(alloc: Global, rows: usize, bounds: &[Ext]) -> Result<Vec<Line>, AllocError>
    ensures { IfOk result (λ lines. lines.items ≡ lines_of rows (length bounds.now / rows) bounds.now) }
{
    let mut lines = Vec::new(alloc);
    if rows == 0 {
        return Ok(lines);
    }
    for point in 0..bounds.len() / rows {
        let list = bounds[point * rows..point * rows + rows].to_vec(alloc)?;
        lines.push(Line { list })?;
    }
    Ok(lines)
}

/// The bounds of whole points as a value.
pub(crate) fn bounds_value(
    alloc: Global,
    rows: usize,
    names: &Numbering,
    bounds: &Bounds,
) -> Result<Value, AllocError>
    requires { length bounds.now / rows * rows ≡ length bounds.now }
    ensures value { IfOk result (λ v. view v ≡ bounds_data rows bounds.now) }
    ensures shape { IfOk result (λ _. is_list (is_line rows) (bounds_data rows bounds.now) ≡ true) }
    ensures back { IfOk result (λ _. (lines : List (List Ext)) × (list_in line_in (bounds_data rows bounds.now) ≡ Some lines) ×
        (map extended (joined lines) ≡ bounds.now)) }
{
    let lines = cut(alloc, rows, bounds.as_slice())?;
    write_list(alloc, rows, names, lines.as_slice())
}
