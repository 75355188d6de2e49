//! The lines of rows, each a JSON array.

ghost use Rattle.std.specs.Prelude.{◌≡◌, ◌++◌, flat_map, length, map, string_bytes, IfOk, OnOk};
ghost use Rattle.serde_json.specs.Data.{array};
ghost use Rattle.serde_json.specs.View.{view};
ghost use Rattle.serde_json.specs.Written.{compact_text};
ghost use Rattle.lt_words.specs.Reply.{reply_text as reply_line, row_text, scan_done, shown_row};
ghost use Rattle.lt_words.specs.SchemaText.{plain_data};
ghost use Rattle.lt_core.specs.View.{view_row};
ghost use Rattle.lt_schema.specs.View.{view_columns, view_version};
ghost use Rattle.lt_reply.specs.Rows.{column_kinds, row_kinds, shown_each};

mod value;

use crate::reply::Reply;
use crate::rows::value::shown_json;
use crate::text::reply_text;
use lt_core::{Blob, List, Memory, Row, Value};
use lt_schema::{Columns, SchemaVersion};
use lt_schema_json::value_json;
use serde_json::Value as Json;
use std::alloc::Global;

/// The lines of rows, and the reply that counts them.
pub fn rows_text(alloc: Global, version: &SchemaVersion, rows: &[Row]) -> Result<Blob, Memory>
    ensures { IfOk result (λ text. text ≡ flat_map (row_text (row_kinds (view_version version.now)))
        (map view_row rows.now) ++ reply_line (scan_done (length rows.now))) }
{
    let mut text = List::new(alloc);
    for row in rows {
        put_row(alloc, &mut text, version, row)?;
    }
    let reply = Reply::Scan {
        rows: rows.len() as u64,
    };
    text.extend_from_slice(reply_text(alloc, &reply)?.as_slice())?;
    Ok(text)
}

/// Appends a row's line: each value as its column's kind shows it. After an `Err` some first bytes of it may stand.
#[tactic(auto, unfolding(lt_words::specs::Reply::row_text))]
pub fn put_row(
    alloc: Global,
    text: &mut Blob,
    version: &SchemaVersion,
    row: &Row,
) -> Result<(), Memory>
    ensures { OnOk result (text.new ≡ text.old ++ row_text (row_kinds (view_version version.now)) (view_row row.now)) }
{
    let json = row_json(alloc, version, row)?;
    text.extend_from_slice(b"row ")?;
    text.extend_from_slice(json.as_bytes())?;
    text.extend_from_slice(b"\n")
}

/// A row as a JSON array: the parts of the key, and then the columns.
fn row_json(alloc: Global, version: &SchemaVersion, row: &Row) -> Result<String, Memory>
    ensures { IfOk result (λ s. string_bytes s ≡ compact_text
        (array (shown_row (row_kinds (view_version version.now)) (view_row row.now)))) }
{
    let values = row.as_slice();
    let (parts, values) = values.split_at(values.len().min(version.key.len()));
    let mut items = Vec::new(alloc);
    put_parts(alloc, &mut items, parts)?;
    put_values(alloc, &mut items, &version.columns, values)?;
    Ok(Json::Array(items).to_string(alloc)?)
}

/// Appends the parts of a key, whose kinds are plain.
fn put_parts(alloc: Global, items: &mut Vec<Json>, parts: &[Value]) -> Result<(), Memory>
    ensures { OnOk result (map view items.new.items ≡ map view items.old.items ++ map plain_data (view_row parts.now)) }
{
    for part in parts {
        items.push(value_json(alloc, part)?)?;
    }
    Ok(())
}

/// Appends the values of columns, as their kinds show them.
fn put_values(
    alloc: Global,
    items: &mut Vec<Json>,
    columns: &Columns,
    values: &[Value],
) -> Result<(), Memory>
    ensures { OnOk result (map view items.new.items ≡ map view items.old.items ++ shown_each
        (column_kinds (view_columns columns.now)) (view_row values.now)) }
{
    let mut rest = values;
    for column in columns.as_slice() {
        let [value, behind @ ..] = rest else {
            break;
        };
        items.push(shown_json(alloc, &column.kind, value)?)?;
        rest = behind;
    }
    Ok(())
}
