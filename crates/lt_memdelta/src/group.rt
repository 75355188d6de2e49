//! A group: the row versions of a table under one schema version; and lists of groups, which are few.

ghost use Rattle.std.specs.Prelude.{IfOk, IsTrue, OnErr, OnOk, ◌≡◌, ◌+◌, ◌≤◌, ◌<◌, ◌^◌, length, filter, map};
ghost use Rattle.std.specs.List.{position};
ghost use Rattle.lt_core.specs.View.{view_range};
ghost use Rattle.lt_tables.specs.Version.{clip, is_ordered};
ghost use Rattle.lt_version.specs.View.{view_version};
ghost use Rattle.lt_memdelta.specs.Deltas as deltas;
ghost use Rattle.lt_memdelta.specs.Walks.{walk_rest};
ghost use Rattle.lt_memdelta.specs.Deltas.{group_rows, is_group, is_kept, regrouped, table_in, total, with_rows};
ghost use Rattle.lt_memdelta.specs.Groups.{rows_below, rows_from, without};

use crate::rows::Rows;
use crate::walk::Walk;
use lt_core::{KeyBytes, Memory, Range, Ts};
use lt_version::RowVersion;
use std::alloc::Global;

/// The row versions of a table, under the layout of one of its schema versions.
#[derive(Drop)]
pub struct Group {
    pub table: u32,
    pub version: u32,
    pub rows: Rows,
}

/// The table's number, which a key begins with.
pub(crate) fn table_of(key: &[u8]) -> u32
    requires { 4 ≤ length key.now }
    ensures { result ≡ table_in key.now }
{
    match key.split_first_chunk::<4>() {
        Some((table, _)) => u32::from_be_bytes(*table),
        None => 0,
    }
}

/// Where a group stands.
pub(crate) fn position_of(groups: &[Group], table: u32, version: u32) -> Option<usize>
    ensures { result ≡ position (is_group table version) groups.now }
{
    groups
        .iter()
        .position(|group| group.table == table && group.version == version)
}

/// Puts a version in its group, which is new where there is none. An `Err` changes nothing.
pub(crate) fn put_in(
    groups: &mut Vec<Group>,
    alloc: Global,
    table: u32,
    version: u32,
    row: RowVersion,
) -> Result<(), Memory>
    ensures ok { OnOk result (groups.new.items ≡ deltas.put_in table version (view_version row) groups.old.items) }
    ensures err { OnErr result (groups.new.items ≡ groups.old.items) }
{
    let Some(i) = position_of(groups, table, version) else {
        let mut rows = Rows::new(alloc);
        rows.put(alloc, row)?;
        groups.push(Group {
            table,
            version,
            rows,
        })?;
        return Ok(());
    };
    groups[i].rows.put(alloc, row)
}

/// Walks over the versions of a group in a range.
pub(crate) fn walk_in<'a>(
    groups: &'a [Group],
    table: u32,
    version: u32,
    range: &'a Range,
) -> Walk<'a>
    ensures rest { walk_rest result ≡ clip (view_range range.now) (group_rows table version groups.now) }
    ensures ordered { IsTrue (is_ordered (group_rows table version groups.now)) }
{
    match position_of(groups, table, version) {
        Some(i) => groups[i].rows.walk(range),
        None => Walk::none(),
    }
}

/// Takes out the row versions of a name, and answers how many there were.
pub(crate) fn take_out(groups: &mut [Group], key: &KeyBytes, ts: Ts) -> usize
    requires { total groups.old < 2 ^ 64 }
    ensures taken { groups.new ≡ map (with_rows (without key.now ts)) groups.old }
    ensures count { total groups.new + result ≡ total groups.old }
{
    let mut removed = 0;
    for i in 0..groups.len() {
        if groups[i].rows.remove(key, ts) {
            removed += 1;
        }
    }
    removed
}

/// Copies of the groups, with their rows whose key is this one or above it, and how many rows these are.
pub(crate) fn copy_from(
    groups: &[Group],
    alloc: Global,
    low: &KeyBytes,
) -> Result<(Vec<Group>, usize), Memory>
    ensures groups { IfOk result (λ copies. copies.0.items ≡ map (with_rows (rows_from low.now)) groups.now) }
    ensures count { IfOk result (λ copies. copies.1 ≡ total copies.0.items) }
{
    let mut copies = Vec::new(alloc);
    let mut count: usize = 0;
    for group in groups {
        let (rows, len) = group.rows.copy_from(alloc, low)?;
        count = count.checked_add(len).ok_or(Memory)?;
        copies.push(Group {
            table: group.table,
            version: group.version,
            rows,
        })?;
    }
    Ok((copies, count))
}

/// Lets the rows go whose key is this one or above it, and then the groups that have none.
pub(crate) fn keep_below(groups: &mut Vec<Group>, low: &KeyBytes)
    ensures { groups.new.items ≡ regrouped (rows_below low.now) groups.old.items }
{
    cut(groups, low);
    drop_empty(groups);
}

/// Lets the rows go whose key is this one or above it.
fn cut(groups: &mut [Group], low: &KeyBytes)
    ensures { groups.new ≡ map (with_rows (rows_below low.now)) groups.old }
{
    for i in 0..groups.len() {
        groups[i].rows.cut(low);
    }
}

/// Lets the groups go that have no rows.
pub(crate) fn drop_empty(groups: &mut Vec<Group>)
    ensures kept { groups.new.items ≡ filter is_kept groups.old.items }
    ensures count { total groups.new.items ≡ total groups.old.items }
{
    groups.retain(|group| group.rows.has_rows());
}
