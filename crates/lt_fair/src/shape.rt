//! Whether a change has the shape of a version.
//!
//! It takes time by the change's parts and settings, each looked up among at most 256 columns.

ghost use Rattle.std.specs.Prelude.{◌≡◌, map};
ghost use Rattle.lt_terms.specs.Key.{is_key_of, is_part_of};
ghost use Rattle.lt_tables.specs.Schema.{key_kinds, same_numbers, sets_shape, shapes_of};
ghost use Rattle.lt_core.specs.View.{view_part, view_parts, view_setting, view_settings};
ghost use Rattle.lt_records.specs.View.{view_change};
ghost use Rattle.lt_schema.specs.View.{view_columns, view_key, view_version};
ghost use Rattle.lt_fair.specs.Faults.{fits_column, fits_version};

use lt_core::{KeyKind, KeyPart, Op, Settings, Value};
use lt_records::ChangeRecord;
use lt_schema::{Column, KeyColumn, SchemaVersion, column_of, fits_64, has_shape, is_utf8};

/// Whether the key has the kinds of the version's key, and the settings are those that the operation makes.
pub fn fits_version(version: &SchemaVersion, change: &ChangeRecord) -> bool
    ensures { result ≡ fits_version (view_version version.now) (view_change change.now) }
{
    is_key_of(version.key.as_slice(), change.key.as_slice())
        && sets_shape(change.op, version.columns.as_slice(), &change.set)
}

fn is_key_of(columns: &[KeyColumn], parts: &[KeyPart]) -> bool
    ensures { result ≡ is_key_of (key_kinds (view_key columns.now)) (view_parts parts.now) }
{
    let mut left = parts;
    for column in columns {
        let [first, rest @ ..] = left else {
            return false;
        };
        if !is_part_of(column.kind, first) {
            return false;
        }
        left = rest;
    }
    left.is_empty()
}

fn is_part_of(kind: KeyKind, part: &KeyPart) -> bool
    ensures { result ≡ is_part_of kind (view_part part.now) }
{
    match (kind, part) {
        (KeyKind::Int64, KeyPart::Int(number)) => fits_64(*number),
        (KeyKind::Text, KeyPart::Text(text)) => is_utf8(text),
        _ => false,
    }
}

/// An insert sets exactly the columns, an update some of them, and a delete none.
fn sets_shape(op: Op, columns: &[Column], set: &Settings) -> bool
    ensures { result ≡ sets_shape op (view_columns columns.now) (view_settings set.now) }
{
    match op {
        Op::Insert => are_numbers_of(set.as_slice(), columns) && all_fit(columns, set.as_slice()),
        Op::Update => all_fit(columns, set.as_slice()),
        Op::Delete => set.is_empty(),
    }
}

/// Whether the numbers are those of all columns, in order.
fn are_numbers_of(set: &[(u16, Value)], columns: &[Column]) -> bool
    ensures { result ≡ same_numbers (map (λ s. s.0) (view_settings set.now))
        (map (λ c. c.number) (view_columns columns.now)) }
{
    let mut left = columns;
    for (number, _) in set {
        let [first, rest @ ..] = left else {
            return false;
        };
        if *number != first.number {
            return false;
        }
        left = rest;
    }
    left.is_empty()
}

fn all_fit(columns: &[Column], set: &[(u16, Value)]) -> bool
    ensures { result ≡ shapes_of (view_columns columns.now) (view_settings set.now) }
{
    for setting in set {
        if !fits_column(columns, setting) {
            return false;
        }
    }
    true
}

/// Whether the value may be set in its column.
fn fits_column(columns: &[Column], setting: &(u16, Value)) -> bool
    ensures { result ≡ fits_column (view_columns columns.now) (view_setting setting.now) }
{
    match column_of(columns, setting.0) {
        None => false,
        Some(column) => has_shape(&setting.1, &column.kind),
    }
}
