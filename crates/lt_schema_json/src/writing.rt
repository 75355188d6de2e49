//! Writing schema texts.

ghost use Rattle.std.specs.Prelude.{◌≡◌, map, Ok, IfOk, IsTrue};
ghost use Rattle.serde_json.specs.View.{view};
ghost use Rattle.lt_words.specs.SchemaText.{column_data, is_spellable, key_kind_name, version_data, version_of_text, version_text};
ghost use Rattle.lt_schema.specs.View.{view_column, view_columns, view_key, view_key_column, view_version};
ghost use Rattle.lt_schema_json.specs.Writing.{key_data, list_data};

mod kind;
mod value;

use crate::writing::kind::kind_json;
pub use crate::writing::value::value_json;
use lt_core::{Blob, KeyKind, List, Memory};
use lt_schema::{Column, Columns, KeyColumn, KeyColumns, SchemaVersion};
use serde_json::{Map, Value as Json, json, put};
use std::alloc::Global;

/// Writes the text of a version, which reads back where the version can be spelled.
pub fn write_version(alloc: Global, version: &SchemaVersion) -> Result<Blob, Memory>
    ensures text { IfOk result (λ text. text ≡ version_text (view_version version.now)) }
    ensures reads_back { IfOk result (λ text. IsTrue (is_spellable (view_version version.now))
        → version_of_text text ≡ Ok (view_version version.now)) }
{
    let json = version_json(alloc, version)?;
    Ok(List::from_vec(json.to_vec(alloc)?))
}

fn version_json(alloc: Global, version: &SchemaVersion) -> Result<Json, Memory>
    ensures { IfOk result (λ json. view json ≡ version_data (view_version version.now)) }
{
    let mut members = Map::new(alloc);
    put(
        &mut members,
        alloc,
        "columns",
        columns_json(alloc, &version.columns)?,
    )?;
    put(&mut members, alloc, "key", key_json(alloc, &version.key)?)?;
    put(&mut members, alloc, "number", Json::from(version.number))?;
    put(
        &mut members,
        alloc,
        "table",
        Json::try_from_str(alloc, version.table.as_str())?,
    )?;
    put(&mut members, alloc, "version", Json::from(version.version))?;
    Ok(Json::Object(members))
}

fn columns_json(alloc: Global, columns: &Columns) -> Result<Json, Memory>
    ensures { IfOk result (λ json. view json ≡ list_data (map column_data (view_columns columns.now))) }
{
    let mut items = Vec::new(alloc);
    for column in columns.as_slice() {
        items.push(column_json(alloc, column)?)?;
    }
    Ok(Json::Array(items))
}

fn column_json(alloc: Global, column: &Column) -> Result<Json, Memory>
    ensures { IfOk result (λ json. view json ≡ column_data (view_column column.now)) }
{
    let mut members = Map::new(alloc);
    if let Some(fallback) = &column.fallback {
        put(&mut members, alloc, "default", value_json(alloc, fallback)?)?;
    }
    put(&mut members, alloc, "kind", kind_json(alloc, &column.kind)?)?;
    put(
        &mut members,
        alloc,
        "name",
        Json::try_from_str(alloc, column.name.as_str())?,
    )?;
    put(&mut members, alloc, "number", Json::from(column.number))?;
    Ok(Json::Object(members))
}

fn key_json(alloc: Global, key: &KeyColumns) -> Result<Json, Memory>
    ensures { IfOk result (λ json. view json ≡ list_data (map key_data (view_key key.now))) }
{
    let mut items = Vec::new(alloc);
    for column in key.as_slice() {
        items.push(key_column_json(alloc, column)?)?;
    }
    Ok(Json::Array(items))
}

fn key_column_json(alloc: Global, column: &KeyColumn) -> Result<Json, Memory>
    ensures { IfOk result (λ json. view json ≡ key_data (view_key_column column.now)) }
{
    let json = json!(in alloc; [column.name.as_str(), key_kind_name(column.kind)]);
    Ok(json?)
}

fn key_kind_name(kind: KeyKind) -> &'static str
    ensures { result.now ≡ key_kind_name kind }
{
    match kind {
        KeyKind::Int64 => "int64",
        KeyKind::Text => "text",
    }
}
