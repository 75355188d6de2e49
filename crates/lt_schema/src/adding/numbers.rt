//! Numbers of tables, versions, columns, fields and enums.

ghost use Rattle.std.specs.Prelude.{◌≡◌, ℕ, pos, map};
ghost use Rattle.lt_terms.specs.Kind.{enumeration};
ghost use Rattle.lt_tables.specs.Schema.{any_number_fault, column_number_fault, field_numbers, not_rising, number_fault_in, number_fault_within, numbers_fault};
ghost use Rattle.lt_core.specs.View.{view_kind};
ghost use Rattle.lt_schema.specs.Numbers.{not_above};
ghost use Rattle.lt_schema.specs.View.{view_columns, view_fields, view_version};

use crate::version::{Column, SchemaVersion};
use lt_core::{FieldKinds, Kind, Names};

/// The greatest number of a table.
const MAX_NUMBER: u32 = 65_535;

/// The first number that is out of its range, or not above the one before it.
pub fn bad_number(version: &SchemaVersion) -> Option<i64>
    ensures { result ≡ any_number_fault (view_version version.now) }
{
    if version.number == 0 || version.number > MAX_NUMBER {
        return Some(i64::from(version.number));
    }
    if version.version == 0 {
        return Some(0);
    }
    bad_column(version.columns.as_slice())
}

fn bad_column(columns: &[Column]) -> Option<i64>
    ensures { result ≡ column_number_fault 0 (view_columns columns.now) }
{
    let mut before = 0;
    for column in columns {
        if column.number <= before {
            return Some(i64::from(column.number));
        }
        let inner = bad_in_kind(&column.kind);
        if inner.is_some() {
            return inner;
        }
        before = column.number;
    }
    None
}

#[cycle(numbers)]
fn bad_in_kind(kind: &Kind) -> Option<i64>
    ensures { result ≡ number_fault_in (view_kind kind.now) }
{
    match kind {
        Kind::Plain(_) => None,
        Kind::Enum(names) => not_above(names),
        Kind::Struct(fields) => {
            let fault = bad_field(fields);
            if fault.is_some() {
                return fault;
            }
            bad_within(fields)
        }
    }
}

#[cycle(numbers)]
fn bad_within(fields: &FieldKinds) -> Option<i64>
    ensures { result ≡ number_fault_within (view_fields fields.now) }
{
    for (_, _, kind) in fields.as_slice() {
        let fault = bad_in_kind(kind);
        if fault.is_some() {
            return fault;
        }
    }
    None
}

fn bad_field(fields: &FieldKinds) -> Option<i64>
    ensures { result ≡ numbers_fault 0 (field_numbers (view_fields fields.now)) }
{
    let mut before = 0;
    for (number, _, _) in fields.as_slice() {
        if *number <= before {
            return Some(i64::from(*number));
        }
        before = *number;
    }
    None
}

/// The first number of an enum that is not above the one before it.
fn not_above(names: &Names) -> Option<i64>
    ensures { result ≡ number_fault_in (enumeration names.now) }
{
    let mut fault = None;
    let mut before = None;
    for (number, _) in names.as_slice() {
        fault = fault.or(unless_above(before, *number));
        before = Some(*number);
    }
    fault
}

/// The number, where it is not above the one before it.
fn unless_above(before: Option<i32>, number: i32) -> Option<i64>
    ensures { result ≡ not_above before number }
{
    match before {
        Some(before) if number <= before => Some(i64::from(number)),
        _ => None,
    }
}
