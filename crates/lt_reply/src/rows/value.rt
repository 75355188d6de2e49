//! A value as JSON, as its kind shows it.

ghost use Rattle.std.specs.Prelude.{◌≡◌, option_map, IfOk};
ghost use Rattle.serde_json.specs.Data.{array};
ghost use Rattle.serde_json.specs.View.{view};
ghost use Rattle.lt_words.specs.Reply.{name_of_number, shown, shown_fields};
ghost use Rattle.lt_terms.specs.Value.{null_value, value_at};
ghost use Rattle.lt_core.specs.View.{view_kind, view_value};
ghost use Rattle.lt_schema.specs.View.{view_fields};
ghost use Rattle.lt_schema_json.specs.Reading.{view_struct};
ghost use Rattle.lt_reply.specs.Rows.{number_shown};

use lt_core::{FieldKinds, Fields, Kind, Memory, Names, Text, Value};
use lt_schema_json::value_json;
use serde_json::Value as Json;
use std::alloc::Global;

/// The value as JSON: an enum by its name where the kind names the number, a struct as the array of the kind's fields. The
/// recursion goes down the kind.
#[cycle(kind)]
pub fn shown_json(alloc: Global, kind: &Kind, value: &Value) -> Result<Json, Memory>
    ensures { IfOk result (λ json. view json ≡ shown (view_value value.now) (view_kind kind.now)) }
{
    match kind {
        Kind::Plain(_) => value_json(alloc, value),
        Kind::Enum(names) => match value {
            Value::Int(number) => number_json(alloc, names, *number),
            _ => value_json(alloc, value),
        },
        Kind::Struct(kinds) => match value {
            Value::Struct(fields) => fields_json(alloc, kinds, fields),
            _ => value_json(alloc, value),
        },
    }
}

/// A value for each of the kinds, in their order; null where the struct has no such field.
#[cycle(kind)]
#[tactic(auto, using(lt_core::proofs::ViewLaws::view_null))]
fn fields_json(alloc: Global, kinds: &FieldKinds, fields: &Fields) -> Result<Json, Memory>
    ensures { IfOk result (λ json. view json ≡ array (shown_fields (view_struct fields.now) (view_fields kinds.now))) }
{
    let null = Value::Null;
    let mut items = Vec::new(alloc);
    for (number, _, kind) in kinds.as_slice() {
        let value = field_or(fields, *number, &null);
        items.push(shown_json(alloc, kind, value)?)?;
    }
    Ok(Json::Array(items))
}

/// The value of the first field with the number, else null, which is passed.
fn field_or<'a>(fields: &'a Fields, number: u16, null: &'a Value) -> &'a Value
    requires { view_value null.now ≡ null_value }
    ensures { view_value result.now ≡ value_at number (view_struct fields.now) }
{
    for (named, value) in fields.as_slice() {
        if number == *named {
            return value;
        }
    }
    null
}

/// A number of an enum: its name, else the number.
fn number_json(alloc: Global, names: &Names, number: i64) -> Result<Json, Memory>
    ensures { IfOk result (λ json. view json ≡ number_shown names.now number) }
{
    match name_of(names, number) {
        Some(name) => Ok(Json::try_from_str(alloc, name.as_str())?),
        None => Ok(Json::from(number)),
    }
}

/// The first name of a number.
fn name_of(names: &Names, number: i64) -> Option<&Text>
    ensures { option_map (λ name. name.now) result ≡ name_of_number names.now number }
{
    for (named, name) in names.as_slice() {
        if i64::from(*named) == number {
            return Some(name);
        }
    }
    None
}
