//! The groups of rows that bind the same variables.
ghost use Rattle.std.specs.Prelude.{◌<◌, IfOk, length};
ghost use Rattle.null_best.specs.steps.Keys.{bound_set};
ghost use Rattle.null_best.specs.steps.Groups.{AreGroups, BindSet, row_at};

use crate::row_key::RowKey;
use std::alloc::{AllocError, Global};

/// Rows that bind the same variables, which stand from one place up to another in the list of all rows.
#[derive(Drop)]
pub(crate) struct Group {
    pub(crate) vars: u64,
    pub(crate) start: usize,
    pub(crate) end: usize,
}

/// The groups of the rows of a list.
pub(crate) fn groups_of(alloc: Global, keys: &[RowKey<'_>]) -> Result<Vec<Group>, AllocError>
    ensures { IfOk result (λ groups. AreGroups keys.now groups.items) }
{
    let mut groups = Vec::new(alloc);
    let mut start = 0;
    while start < keys.len() {
        let end = group_end(keys, start);
        groups.push(Group {
            vars: keys[start].vars(),
            start,
            end,
        })?;
        start = end;
    }
    Ok(groups)
}

/// Where the group ends that begins at a place.
fn group_end(keys: &[RowKey<'_>], start: usize) -> usize
    requires { start < length keys.now }
    ensures more { start < result }
    ensures same { BindSet keys.now (bound_set (row_at keys.now start)) start result }
{
    let vars = keys[start].vars();
    let mut end = start + 1;
    while end < keys.len() && keys[end].vars() == vars {
        end += 1;
    }
    end
}
