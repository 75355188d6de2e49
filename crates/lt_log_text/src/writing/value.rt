//! Values as JSON: bytes as an object of one text, a struct as pairs of a number and a value.

ghost use Rattle.std.specs.Prelude.{◌≡◌, ◌<◌, IfOk, codes, map, string_bytes};
ghost use Rattle.serde_json.specs.Data.{array, member, no_members, object};
ghost use Rattle.serde_json.specs.View.{view};
ghost use Rattle.lt_terms.specs.Value.{fields_of};
ghost use Rattle.lt_core.specs.View.{view_settings, view_value};
ghost use Rattle.lt_words.specs.SchemaText.{hex_glyph, hex_string, two};
ghost use Rattle.lt_log_text.specs.Lines.{count_data, hex_data, list_data, pair_items, setting_data, value_data};

use lt_core::{Blob, Fields, Memory, Settings, Value};
use serde_json::{Value as Json, json};
use std::alloc::Global;

#[cycle(value)]
fn value_json(alloc: Global, value: &Value) -> Result<Json, Memory>
    ensures { IfOk result (λ json. view json ≡ value_data (view_value value.now)) }
{
    match value {
        Value::Null => Ok(Json::Null),
        Value::Bool(truth) => Ok(Json::Bool(*truth)),
        Value::Int(number) => Ok(Json::from(*number)),
        Value::Text(text) => Ok(Json::try_from_str(alloc, text.as_str())?),
        Value::Bytes(bytes) => bytes_json(alloc, bytes),
        Value::Struct(fields) => struct_json(alloc, fields),
    }
}

#[cycle(value)]
#[tactic(auto, using(crate::proofs::Written::pairs_written))]
fn struct_json(alloc: Global, fields: &Fields) -> Result<Json, Memory>
    ensures { IfOk result (λ json. view json ≡ array (pair_items (fields_of (view_settings fields.now)))) }
{
    settings_json(alloc, fields)
}

/// Pairs of a number and a value.
#[cycle(value)]
pub fn settings_json(alloc: Global, settings: &Settings) -> Result<Json, Memory>
    ensures { IfOk result (λ json. view json ≡ list_data (map setting_data (view_settings settings.now))) }
{
    let mut items = Vec::new(alloc);
    for (number, value) in settings.as_slice() {
        let value = value_json(alloc, value)?;
        items.push(pair_json(alloc, *number, value)?)?;
    }
    Ok(Json::Array(items))
}

fn pair_json(alloc: Global, number: u16, value: Json) -> Result<Json, Memory>
    ensures { IfOk result (λ json. view json ≡ two (count_data number) (view value)) }
{
    let json = json!(in alloc; [number, value]);
    Ok(json?)
}

/// An object of one member.
fn bytes_json(alloc: Global, bytes: &Blob) -> Result<Json, Memory>
    ensures { IfOk result (λ json. view json ≡ object (member (codes "bytes") (hex_data bytes.now) no_members)) }
{
    let text = hex_json(alloc, bytes)?;
    let json = json!(in alloc; {"bytes": text});
    Ok(json?)
}

/// A text of `0x` and lower-case pairs of hexadecimal digits.
pub fn hex_json(alloc: Global, bytes: &Blob) -> Result<Json, Memory>
    ensures { IfOk result (λ json. view json ≡ hex_data bytes.now) }
{
    Ok(Json::String(hex_string(alloc, bytes)?))
}

fn hex_string(alloc: Global, bytes: &Blob) -> Result<String, Memory>
    ensures { IfOk result (λ text. string_bytes text ≡ hex_string bytes.now) }
{
    let mut text = String::from_str(alloc, "0x")?;
    for byte in bytes.as_slice() {
        text.push(hex_glyph(byte / 16))?;
        text.push(hex_glyph(byte % 16))?;
    }
    Ok(text)
}

/// The lower-case hexadecimal digit of a value below 16.
fn hex_glyph(value: u8) -> char
    requires { value < 16 }
    ensures { result ≡ hex_glyph value }
{
    if value < 10 {
        char::from(b'0' + value)
    } else {
        char::from(b'a' - 10 + value)
    }
}
