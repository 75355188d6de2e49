//! How deep kinds nest, and which defaults are lawful.
//!
//! Looking takes time linear in the kinds and the defaults. The recursion is at most as deep as kinds and values may nest.

ghost use Rattle.std.specs.Prelude.{◌≡◌, ◌≤◌, ◌&&◌, nat_le, not};
ghost use Rattle.lt_terms.specs.Kind.{nesting, nestings};
ghost use Rattle.lt_terms.specs.Value.{are_fields, fields_of, is_value};
ghost use Rattle.lt_tables.specs.Schema.{bad_default_of, is_too_deep};
ghost use Rattle.lt_core.specs.View.{view_kind, view_settings, view_value};
ghost use Rattle.lt_schema.specs.Defaults.{is_fallback, nest_low};
ghost use Rattle.lt_schema.specs.View.{view_column, view_columns, view_fields, view_version};

use crate::shape::{fits_64, has_shape, is_utf8};
use crate::version::{Column, SchemaVersion};
use lt_core::{FieldKinds, Fields, Kind, Value};

/// How deep structs may nest.
const MAX_DEPTH: u8 = 4;

/// One more than the most bytes of a text or of bytes.
const BYTES_END: usize = 1 << 32;

/// Whether a struct is nested deeper than structs may be.
pub fn is_too_deep(version: &SchemaVersion) -> bool
    ensures { result ≡ is_too_deep (view_version version.now) }
{
    !nest_low(version.columns.as_slice())
}

fn nest_low(columns: &[Column]) -> bool
    ensures { result ≡ nest_low (view_columns columns.now) }
{
    for column in columns {
        if !nests_within(&column.kind, MAX_DEPTH) {
            return false;
        }
    }
    true
}

#[cycle(nesting)]
fn nests_within(kind: &Kind, depth: u8) -> bool
    ensures { result ≡ nat_le (nesting (view_kind kind.now)) depth }
{
    match kind {
        Kind::Plain(_) | Kind::Enum(_) => true,
        Kind::Struct(fields) => depth > 0 && nest_within(fields, depth - 1),
    }
}

#[cycle(nesting)]
fn nest_within(fields: &FieldKinds, depth: u8) -> bool
    ensures { result ≡ nat_le (nestings (view_fields fields.now)) depth }
{
    for (_, _, kind) in fields.as_slice() {
        if !nests_within(kind, depth) {
            return false;
        }
    }
    true
}

/// The first column whose default is not of its kind, or is no value of a log.
pub fn bad_default(version: &SchemaVersion) -> Option<u16>
    ensures { result ≡ bad_default_of (view_version version.now) }
{
    for column in version.columns.as_slice() {
        if !has_fallback(column) {
            return Some(column.number);
        }
    }
    None
}

fn has_fallback(column: &Column) -> bool
    ensures { result ≡ is_fallback (view_column column.now) }
{
    match &column.fallback {
        None => true,
        Some(value) => has_shape(value, &column.kind) && is_value(value, MAX_DEPTH),
    }
}

/// Whether a log can spell a value that nests at most so deep.
#[cycle(values)]
fn is_value(value: &Value, depth: u8) -> bool
    ensures { result ≡ is_value depth (view_value value.now) }
{
    match value {
        Value::Null | Value::Bool(_) => true,
        Value::Int(number) => fits_64(*number),
        Value::Text(text) => is_utf8(text) && text.len() < BYTES_END,
        Value::Bytes(bytes) => bytes.len() < BYTES_END,
        Value::Struct(fields) => depth > 0 && are_fields(fields, depth - 1),
    }
}

/// Whether the numbers rise from 1 on, and the values nest at most so deep.
#[cycle(values)]
fn are_fields(fields: &Fields, depth: u8) -> bool
    ensures { result ≡ are_fields depth 0 (fields_of (view_settings fields.now)) }
{
    let mut before = 0;
    for (number, value) in fields.as_slice() {
        if *number <= before || !is_value(value, depth) {
            return false;
        }
        before = *number;
    }
    true
}
