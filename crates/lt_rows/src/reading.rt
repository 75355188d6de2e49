//! Present rows, as a version of their table reads them.

ghost use Rattle.std.specs.Prelude.{◌≡◌, map, IfOk};
ghost use Rattle.lt_core.specs.View.{view_parts, view_row, view_value, view_part};
ghost use Rattle.lt_terms.specs.Key as model;
ghost use Rattle.lt_rows.specs.Present.{full_row, read_set, reading_of, row_of};
ghost use Rattle.lt_rows.specs.View.{view_present, view_reading, view_readings, view_rows, view_set};
ghost use Rattle.lt_schema.specs.View.{view_column, view_columns};

use crate::present::{Present, Rows, Set};
use lt_coerce::convert;
use lt_core::{KeyPart, KeyParts, Kind, List, Memory, Row, Value};
use lt_schema::{Catalogue, Column, SchemaVersion};
use std::alloc::Global;

/// How a column is read: its number and kind, and what it reads as where nothing set it.
#[derive(Debug, Drop)]
struct Reading<'a> {
    number: u16,
    kind: &'a Kind,
    default: Value,
}

/// The rows in key order, as the version reads them.
pub(crate) fn read_rows(
    alloc: Global,
    rows: &Rows<'_>,
    catalogue: &Catalogue,
    version: &SchemaVersion,
) -> Result<List<Row>, Memory>
    ensures { IfOk result (λ list. map view_row list ≡ map
        (full_row catalogue.now version.now.number (view_columns version.now.columns))
        (view_rows rows.now.entries)) }
{
    let readings = readings_of(alloc, catalogue, version)?;
    let mut list = List::new(alloc);
    for (_, present) in rows.iter() {
        list.push(read_row(alloc, present, &readings)?)?;
    }
    Ok(list)
}

/// How the version reads each of its columns.
fn readings_of<'a>(
    alloc: Global,
    catalogue: &Catalogue,
    version: &'a SchemaVersion,
) -> Result<Vec<Reading<'a>>, Memory>
    ensures { IfOk result (λ readings. view_readings readings.items ≡ map (reading_of catalogue.now version.now.number)
        (view_columns version.now.columns)) }
{
    let mut readings = Vec::new(alloc);
    for column in version.columns.as_slice() {
        readings.push(reading_of(alloc, catalogue, version.number, column)?)?;
    }
    Ok(readings)
}

/// How a column of a table is read. A column without a default reads as Null.
fn reading_of<'a>(
    alloc: Global,
    catalogue: &Catalogue,
    table: u32,
    column: &'a Column,
) -> Result<Reading<'a>, Memory>
    ensures { IfOk result (λ reading. view_reading reading ≡ reading_of catalogue.now table (view_column column.now)) }
{
    let default = match catalogue.fallback(table, column.number) {
        Some(value) => convert(alloc, value, &column.kind)?,
        None => convert(alloc, &Value::Null, &column.kind)?,
    };
    Ok(Reading {
        number: column.number,
        kind: &column.kind,
        default,
    })
}

/// The parts of a row's key, and then its columns.
fn read_row(
    alloc: Global,
    present: &Present<'_>,
    readings: &Vec<Reading<'_>>,
) -> Result<Row, Memory>
    ensures { IfOk result (λ row. view_row row ≡ row_of (view_readings readings.now.items) (view_present present.now)) }
{
    let mut row = List::new(alloc);
    for part in present.parts.as_slice() {
        row.push(part_value(part)?)?;
    }
    for reading in readings {
        row.push(read_column(alloc, &present.set, reading)?)?;
    }
    Ok(row)
}

/// The value that a part of a key shows as.
fn part_value(part: &KeyPart) -> Result<Value, Memory>
    ensures { IfOk result (λ value. view_value value ≡ model.part_value (view_part part.now)) }
{
    match part {
        KeyPart::Int(number) => Ok(Value::Int(*number)),
        KeyPart::Text(text) => Ok(Value::Text(text.copy()?)),
    }
}

/// What was set of a column, at the kind that it is read at.
fn read_column(alloc: Global, set: &Set<'_>, reading: &Reading<'_>) -> Result<Value, Memory>
    ensures { IfOk result (λ value. view_value value ≡ read_set (view_set set.now.entries) (view_reading reading.now)) }
{
    match set.get(&reading.number) {
        Some(value) => convert(alloc, value, reading.kind),
        None => reading.default.copy(),
    }
}
