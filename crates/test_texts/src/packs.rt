//! Packs: the rows of groups, and how many there may be.

use crate::rows::has_rows;
use crate::texts::{Case, first_wrong};
use flow_packs::packs;
use flow_templates::{RowFault, Template};
use lang_groups::Groups;
use std::alloc::{AllocError, Global};

// These groups.
fn groups_of(alloc: Global, groups: &[&[u32]]) -> Result<Groups, AllocError> {
    let mut kept = Groups::none(alloc);
    for group in groups {
        kept.add(alloc, group)?;
    }
    Ok(kept)
}

// The packs of these groups, or why there are none; nothing where a program can't have so many variables.
fn packs_of(alloc: Global, vars: u32, groups: &[&[u32]]) -> Option<Result<Template, RowFault>> {
    if vars == 0 || vars > 64 {
        return None;
    }
    let groups = groups_of(alloc, groups).ok()?;
    Some(packs(alloc, vars, &groups))
}

// Groups of some variables, and the rows.
impl Case for (u32, &[&[u32]], &[&[i64]]) {
    fn is_right(&self, alloc: Global) -> bool {
        match packs_of(alloc, self.0, self.1) {
            Some(Ok(template)) => has_rows(&template, self.2),
            _ => false,
        }
    }
}

const TWO_ALONE: &[&[i64]] = &[&[1, 0], &[-1, 0], &[0, 1], &[0, -1]];

const TWO_TOGETHER: &[&[i64]] = &[
    &[1, 0],
    &[-1, 0],
    &[0, 1],
    &[0, -1],
    &[1, 1],
    &[1, -1],
    &[-1, 1],
    &[-1, -1],
];

const ROWS: &[(u32, &[&[u32]], &[&[i64]])] = &[
    (1, &[], &[&[1], &[-1]]),
    // a group of one variable, or of one that stands twice, ties nothing
    (2, &[], TWO_ALONE),
    (2, &[&[0], &[1, 1]], TWO_ALONE),
    // the order in a group is nothing to the rows, and neither is a pair that stands twice
    (2, &[&[0, 1]], TWO_TOGETHER),
    (2, &[&[1, 0], &[0, 1]], TWO_TOGETHER),
    // pairs come by their first variable and then by the second one, whatever the order of the groups
    (
        3,
        &[&[2, 1], &[2, 0]],
        &[
            &[1, 0, 0],
            &[-1, 0, 0],
            &[0, 1, 0],
            &[0, -1, 0],
            &[0, 0, 1],
            &[0, 0, -1],
            &[1, 0, 1],
            &[1, 0, -1],
            &[-1, 0, 1],
            &[-1, 0, -1],
            &[0, 1, 1],
            &[0, 1, -1],
            &[0, -1, 1],
            &[0, -1, -1],
        ],
    ),
];

#[test]
fn packs_have_their_rows(rt: HostRuntime) {
    assert_eq!(rt; first_wrong(rt.alloc(), ROWS), None);
}

// The number of variables, their groups, whether there is a template, and how many rows it has or would have.
impl Case for (u32, &[&[u32]], bool, u32) {
    fn is_right(&self, alloc: Global) -> bool {
        match packs_of(alloc, self.0, self.1) {
            Some(Ok(template)) => self.2 && template.as_slice().len() == self.3 as usize,
            Some(Err(fault)) => !self.2 && fault == RowFault::Large { count: self.3 },
            None => false,
        }
    }
}

const THIRTY_ONE: &[u32] = &[
    0, 1, 2, 3, 4, 5, 6, 7, 8, 9, 10, 11, 12, 13, 14, 15, 16, 17, 18, 19, 20, 21, 22, 23, 24, 25,
    26, 27, 28, 29, 30,
];

const SIX: &[u32] = &[31, 32, 33, 34, 35, 36];

const SIZES: &[(u32, &[&[u32]], bool, u32)] = &[
    (64, &[], true, 128),
    (64, &[&[0, 63]], true, 132),
    (64, &[THIRTY_ONE], true, 1988),
    (64, &[THIRTY_ONE, SIX], true, 2048),
    (64, &[THIRTY_ONE, SIX, &[0, 63]], false, 2052),
];

#[test]
fn packs_have_so_many_rows(rt: HostRuntime) {
    assert_eq!(rt; first_wrong(rt.alloc(), SIZES), None);
}
