//! Values as JSON.

ghost use Rattle.std.specs.Prelude.{◌≡◌, ◌<◌, IfOk, string_bytes};
ghost use Rattle.serde_json.specs.Data.{array};
ghost use Rattle.serde_json.specs.View.{view};
ghost use Rattle.lt_core.specs.View.{view_value};
ghost use Rattle.lt_words.specs.SchemaText.{hex_glyph, hex_string, plain_data, plain_items};
ghost use Rattle.lt_schema_json.specs.Reading.{view_struct};

use lt_core::{Blob, Fields, Memory, Value};
use serde_json::Value as Json;
use std::alloc::Global;

/// A value as JSON, an enum's by its number: bytes as a text of `0x` and lower-case pairs of hexadecimal digits, a struct as the array
/// of its fields' values.
#[cycle(value)]
pub fn value_json(alloc: Global, value: &Value) -> Result<Json, Memory>
    ensures { IfOk result (λ json. view json ≡ plain_data (view_value value.now)) }
{
    match value {
        Value::Null => Ok(Json::Null),
        Value::Bool(truth) => Ok(Json::Bool(*truth)),
        Value::Int(number) => Ok(Json::from(*number)),
        Value::Text(text) => Ok(Json::try_from_str(alloc, text.as_str())?),
        Value::Bytes(bytes) => Ok(Json::String(hex_string(alloc, bytes)?)),
        Value::Struct(fields) => values_json(alloc, fields),
    }
}

#[cycle(value)]
fn values_json(alloc: Global, fields: &Fields) -> Result<Json, Memory>
    ensures { IfOk result (λ json. view json ≡ array (plain_items (view_struct fields.now))) }
{
    let mut items = Vec::new(alloc);
    for (_, value) in fields.as_slice() {
        items.push(value_json(alloc, value)?)?;
    }
    Ok(Json::Array(items))
}

/// `0x` and lower-case pairs of hexadecimal digits.
fn hex_string(alloc: Global, bytes: &Blob) -> Result<String, Memory>
    ensures { IfOk result (λ text. string_bytes text ≡ hex_string bytes.now) }
{
    let mut text = String::from_str(alloc, "0x")?;
    for byte in bytes.as_slice() {
        text.push(hex_glyph(byte / 16))?;
        text.push(hex_glyph(byte % 16))?;
    }
    Ok(text)
}

/// The lower-case hexadecimal digit of a value below 16.
fn hex_glyph(value: u8) -> char
    requires { value < 16 }
    ensures { result ≡ hex_glyph value }
{
    if value < 10 {
        char::from(b'0' + value)
    } else {
        char::from(b'a' - 10 + value)
    }
}
