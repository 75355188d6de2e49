//! Tables by rising number. There are at most 64, so each look-up is a plain scan.

ghost use Rattle.std.specs.Prelude.{◌≡◌, ◌==◌, ◌<◌, ◌≤◌, if◌then◌else◌, length, map, OnErr, OnOk};
ghost use Rattle.std.specs.Option.{option_copied};
ghost use Rattle.lt_tables.specs.Schema.{is_key_changed, is_mismatch, same_key_columns, same_key_kind, table_named, table_numbered, versions_of, with_retired, with_version, without_version};
ghost use Rattle.lt_schema.specs.Catalogues.{IsNext, IsPlace, is_at, tables_with};
ghost use Rattle.lt_schema.specs.Tables.{view_registered};
ghost use Rattle.lt_schema.specs.View.{view_key, view_version};

use crate::table::{Registered, Table};
use crate::version::{KeyColumn, SchemaVersion};
use lt_core::{KeyKind, Memory};
use std::alloc::Global;

/// The most columns of a key.
const MAX_KEY_COLUMNS: usize = 8;

/// The table with a number.
pub fn numbered(tables: &[Table], number: u32) -> Option<&Table>
    ensures { option_copied result ≡ table_numbered tables.now number }
{
    for table in tables {
        if table.number() == number {
            return Some(table);
        }
    }
    None
}

/// The table with a name.
pub fn named<'a>(tables: &'a [Table], name: &[u8]) -> Option<&'a Table>
    ensures { option_copied result ≡ table_named tables.now name.now }
{
    for table in tables {
        if table.name() == name {
            return Some(table);
        }
    }
    None
}

/// The versions of the table with a number, none of an unknown one.
pub fn versions_of(tables: &[Table], number: u32) -> &[Registered]
    ensures { map view_registered result.now ≡ versions_of tables.now number }
{
    match numbered(tables, number) {
        None => &[],
        Some(table) => table.versions(),
    }
}

/// How many tables there are once a version of that table stands.
pub fn count_with(tables: &[Table], number: u32) -> usize
    ensures { result ≡ tables_with tables.now number }
{
    match numbered(tables, number) {
        None => tables.len() + 1,
        Some(_) => tables.len(),
    }
}

/// Whether the version's number goes with another name, or its name with another number.
pub fn mismatches(tables: &[Table], version: &SchemaVersion) -> bool
    ensures { result ≡ is_mismatch tables.now (view_version version.now) }
{
    for table in tables {
        if (table.number() == version.number) != (table.name() == version.table.as_slice()) {
            return true;
        }
    }
    false
}

/// Whether the key columns differ from those of the table, or number 0 or more than 8.
pub fn changes_key(tables: &[Table], version: &SchemaVersion) -> bool
    ensures { result ≡ is_key_changed tables.now (view_version version.now) }
{
    if version.key.is_empty() || version.key.len() > MAX_KEY_COLUMNS {
        return true;
    }
    match numbered(tables, version.number) {
        None => false,
        Some(table) => !are_same(table.key(), version.key.as_slice()),
    }
}

fn are_same(one: &[KeyColumn], other: &[KeyColumn]) -> bool
    ensures { result ≡ same_key_columns (view_key one.now) (view_key other.now) }
{
    let mut left = other;
    for column in one {
        let [first, rest @ ..] = left else {
            return false;
        };
        if column.name.as_slice() != first.name.as_slice() {
            return false;
        }
        if !is_same_kind(column.kind, first.kind) {
            return false;
        }
        left = rest;
    }
    left.is_empty()
}

fn is_same_kind(one: KeyKind, other: KeyKind) -> bool
    ensures { result ≡ same_key_kind one other }
{
    matches!(
        (one, other),
        (KeyKind::Int64, KeyKind::Int64) | (KeyKind::Text, KeyKind::Text)
    )
}

/// How many tables at the front have a lower number.
pub fn place_of(tables: &[Table], number: u32) -> usize
    ensures { IsPlace tables.now number result }
{
    let mut at = 0;
    for table in tables {
        if table.number() >= number {
            return at;
        }
        at += 1;
    }
    at
}

/// Whether the table at a place has a number.
fn is_at(tables: &[Table], at: usize, number: u32) -> bool
    ensures { result ≡ is_at tables.now at number }
{
    match tables.get(at) {
        None => false,
        Some(table) => table.number() == number,
    }
}

/// Puts a version behind those of its table, or a fresh table in its place. An `Err` changes nothing.
pub fn put_version(tables: &mut Vec<Table>, version: SchemaVersion) -> Result<(), Memory>
    requires { IsNext tables.old.items (view_version version) }
    ensures ok { OnOk result (tables.new.items ≡ with_version tables.old.items (view_version version)) }
    ensures err { OnErr result (tables.new.items ≡ tables.old.items) }
{
    let at = place_of(tables, version.number);
    if is_at(tables, at, version.number) {
        let table = &mut tables[at];
        table.add(version)?;
    } else {
        let table = Table::new(*tables.allocator(), version)?;
        tables.insert(at, table)?;
    }
    Ok(())
}

/// Retires a version of the table with a number.
pub fn retire_version(tables: &mut Vec<Table>, number: u32, version: u32)
    ensures { tables.new.items ≡ without_version tables.old.items number version }
{
    for table in tables.iter_mut() {
        retire_of(table, number, version);
    }
}

/// Retires a version of a table, where that is the table's number.
fn retire_of(table: &mut Table, number: u32, version: u32)
    ensures { table.new ≡ (if table.old.number == number then with_retired version table.old else table.old) }
{
    if table.number() == number {
        table.retire(version);
    }
}
