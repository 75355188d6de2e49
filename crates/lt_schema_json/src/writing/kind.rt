//! Kinds as JSON.

ghost use Rattle.std.specs.Prelude.{◌≡◌, map, pos, IfOk};
ghost use Rattle.serde_json.specs.Data.{array, member, no_members, object, string};
ghost use Rattle.serde_json.specs.View.{view};
ghost use Rattle.lt_core.specs.View.{view_kind};
ghost use Rattle.lt_words.specs.SchemaText.{field_items, kind_data, number_data, rank_name, three};
ghost use Rattle.lt_schema.specs.View.{view_fields};
ghost use Rattle.lt_schema_json.specs.Writing.{list_data, name_data};

use lt_core::{FieldKinds, Kind, Memory, Names, Rank, Text};
use serde_json::{Value as Json, json};
use std::alloc::Global;

#[cycle(kind)]
pub fn kind_json(alloc: Global, kind: &Kind) -> Result<Json, Memory>
    ensures { IfOk result (λ json. view json ≡ kind_data (view_kind kind.now)) }
{
    match kind {
        Kind::Plain(rank) => Ok(Json::try_from_str(alloc, rank_name(*rank))?),
        Kind::Enum(names) => member_json(alloc, "enum", names_json(alloc, names)?),
        Kind::Struct(fields) => member_json(alloc, "struct", fields_json(alloc, fields)?),
    }
}

/// An object of one member.
fn member_json(alloc: Global, name: &str, value: Json) -> Result<Json, Memory>
    ensures { IfOk result (λ json. view json ≡ object (member name.now (view value) no_members)) }
{
    let json = json!(in alloc; {name: value});
    Ok(json?)
}

fn rank_name(rank: Rank) -> &'static str
    ensures { result.now ≡ rank_name rank }
{
    match rank {
        Rank::Bool => "bool",
        Rank::Int32 => "int32",
        Rank::Int64 => "int64",
        Rank::Text => "text",
        Rank::Bytes => "bytes",
    }
}

fn names_json(alloc: Global, names: &Names) -> Result<Json, Memory>
    ensures { IfOk result (λ json. view json ≡ list_data (map name_data names.now)) }
{
    let mut items = Vec::new(alloc);
    for (number, name) in names.as_slice() {
        items.push(name_json(alloc, *number, name)?)?;
    }
    Ok(Json::Array(items))
}

/// A number of an enum, and its name.
fn name_json(alloc: Global, number: i32, name: &Text) -> Result<Json, Memory>
    ensures { IfOk result (λ json. view json ≡ name_data (number, name.now)) }
{
    let json = json!(in alloc; [number, name.as_str()]);
    Ok(json?)
}

#[cycle(kind)]
fn fields_json(alloc: Global, fields: &FieldKinds) -> Result<Json, Memory>
    ensures { IfOk result (λ json. view json ≡ array (field_items (view_fields fields.now))) }
{
    let mut items = Vec::new(alloc);
    for (number, name, kind) in fields.as_slice() {
        let kind = kind_json(alloc, kind)?;
        items.push(field_json(alloc, *number, name, kind)?)?;
    }
    Ok(Json::Array(items))
}

/// A field of a struct, given its kind.
fn field_json(alloc: Global, number: u16, name: &Text, kind: Json) -> Result<Json, Memory>
    ensures { IfOk result (λ json. view json ≡ three (number_data (pos number)) (string name.now) (view kind)) }
{
    let json = json!(in alloc; [number, name.as_str(), kind]);
    Ok(json?)
}
