//! The rows that are present: the fold of a table's changes up to a moment.

ghost use Rattle.std.specs.Prelude.{◌≡◌, [], IfOk, OnOk};
ghost use Rattle.lt_core.specs.View.{view_parts, view_settings};
ghost use Rattle.lt_terms.specs.declared.Op.TheVariants as ops;
ghost use Rattle.lt_records.specs.View.{view_change};
ghost use Rattle.lt_rows.specs.Present.{laid_over, present_by, rows_by, updated, with_change, with_counted};
ghost use Rattle.lt_rows.specs.View.{view_changes, view_rows, view_set};

use lt_core::{KeyBytes, KeyParts, Memory, Op, Settings, Ts, Value, encode_prefix};
use lt_records::ChangeRecord;
use std::alloc::Global;
use std::collections::BTreeMap;

/// What was set last of each column, by the column's number.
pub(crate) type Set<'a> = BTreeMap<u16, &'a Value>;

/// A present row: the parts of its key, and what was set.
#[derive(Debug, Drop)]
pub(crate) struct Present<'a> {
    pub parts: &'a KeyParts,
    pub set: Set<'a>,
}

/// The present rows by the bytes of their keys.
pub(crate) type Rows<'a> = BTreeMap<KeyBytes, Present<'a>>;

/// The rows that the changes of a table up to a timestamp leave.
pub(crate) fn present_at<'a>(
    alloc: Global,
    changes: &[&'a ChangeRecord],
    table: u32,
    at: Ts,
) -> Result<Rows<'a>, Memory>
    ensures { IfOk result (λ rows. view_rows rows.entries ≡ present_by table at [] (view_changes changes.now)) }
{
    let mut rows = BTreeMap::new(alloc);
    for change in changes {
        take_counted(alloc, &mut rows, change, table, at)?;
    }
    Ok(rows)
}

/// Goes on by a change of the table up to the timestamp. Any other changes no row.
fn take_counted<'a>(
    alloc: Global,
    rows: &mut Rows<'a>,
    change: &'a ChangeRecord,
    table: u32,
    at: Ts,
) -> Result<(), Memory>
    ensures { OnOk result (view_rows rows.new.entries ≡ with_counted table at (view_rows rows.old.entries)
        (view_change change.now)) }
{
    if change.table == table && change.ts <= at {
        take_change(alloc, rows, change)
    } else {
        Ok(())
    }
}

/// Goes on by a change.
fn take_change<'a>(
    alloc: Global,
    rows: &mut Rows<'a>,
    change: &'a ChangeRecord,
) -> Result<(), Memory>
    ensures { OnOk result (view_rows rows.new.entries ≡ with_change (view_rows rows.old.entries)
        (view_change change.now)) }
{
    let key = encode_prefix(alloc, change.table, &change.key)?;
    match change.op {
        Op::Insert => put_row(alloc, rows, key, &change.key, &change.set),
        Op::Update => update_row(rows, &key, &change.set),
        Op::Delete => {
            rows.remove(&key);
            Ok(())
        }
    }
}

/// Puts a row in place of what stood at its key.
fn put_row<'a>(
    alloc: Global,
    rows: &mut Rows<'a>,
    key: KeyBytes,
    parts: &'a KeyParts,
    settings: &'a Settings,
) -> Result<(), Memory>
    ensures { OnOk result (view_rows rows.new.entries ≡ rows_by ops.Insert key (view_parts parts.now)
        (view_settings settings.now) (view_rows rows.old.entries)) }
{
    let mut set = BTreeMap::new(alloc);
    lay_over(&mut set, settings)?;
    rows.insert(key, Present { parts, set })?;
    Ok(())
}

/// Sets columns of the row at a key; an absent row stays absent.
fn update_row<'a>(rows: &mut Rows<'a>, key: &KeyBytes, settings: &'a Settings) -> Result<(), Memory>
    ensures { OnOk result (view_rows rows.new.entries ≡ updated key.now (view_settings settings.now)
        (view_rows rows.old.entries)) }
{
    match rows.get_mut(key) {
        None => Ok(()),
        Some(row) => lay_over(&mut row.set, settings),
    }
}

/// Lays settings over what was set before. Of several settings of a column the first counts.
fn lay_over<'a>(was: &mut Set<'a>, settings: &'a Settings) -> Result<(), Memory>
    ensures { OnOk result (view_set was.new.entries ≡ laid_over (view_settings settings.now)
        (view_set was.old.entries)) }
{
    for (number, value) in settings.as_slice().iter().rev() {
        was.insert(*number, value)?;
    }
    Ok(())
}
