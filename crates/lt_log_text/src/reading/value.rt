//! Values, key parts and bytes. The recursion goes down the JSON.

ghost use Rattle.std.specs.Prelude.{◌≡◌, ◌<◌, IfOk, IfSome};
ghost use Rattle.serde_json.specs.View.{members_view, view};
ghost use Rattle.lt_core.specs.View.{view_part, view_parts, view_setting, view_settings, view_value};
ghost use Rattle.lt_tables.specs.Query.{hex_bytes, hex_digit};
ghost use Rattle.lt_words.specs.SchemaText.{as_list, as_number_up_to};
ghost use Rattle.lt_schema_json.specs.Reading.{hex_byte, values_view, view_struct};
ghost use Rattle.lt_log_text.specs.Lines.{bytes_in, hex_in, key_in, part_in, set_in, setting_in, struct_in, value_in};
ghost use Rattle.lt_log_text.specs.Reading.{Reads};

use crate::reading::Members;
use crate::refusal::Stop;
use lt_core::{Blob, Fields, KeyPart, KeyParts, List, Memory, Settings, Text, Value};
use serde_json::Value as Json;
use std::alloc::Global;

#[cycle(value)]
fn value_in(alloc: Global, value: &Json) -> Result<Value, Stop>
    ensures { Reads view_value (value_in (view value.now)) result }
{
    match value {
        Json::Null => Ok(Value::Null),
        Json::Bool(truth) => Ok(Value::Bool(*truth)),
        Json::Number(number) => Ok(Value::Int(number.as_i64().ok_or(Stop::Unlike)?)),
        Json::String(text) => Ok(Value::Text(copied(alloc, text.as_str())?)),
        Json::Array(_) => Ok(Value::Struct(struct_in(alloc, value)?)),
        Json::Object(members) => Ok(Value::Bytes(bytes_in(alloc, members)?)),
    }
}

/// The fields of a struct.
#[cycle(value)]
#[tactic(auto, using(crate::proofs::Forms::struct_all))]
fn struct_in(alloc: Global, value: &Json) -> Result<Fields, Stop>
    ensures { Reads view_struct (struct_in (view value.now)) result }
{
    settings_in(alloc, value)
}

/// Pairs of a number and a value.
#[cycle(value)]
#[tactic(auto, using(lt_schema_json::proofs::KindForms::array_list))]
pub fn settings_in(alloc: Global, value: &Json) -> Result<Settings, Stop>
    ensures { Reads view_settings (set_in (view value.now)) result }
{
    let Json::Array(items) = value else {
        return Err(Stop::Unlike);
    };
    let mut settings = List::new(alloc);
    for item in items {
        let setting = setting_in(alloc, item)?;
        settings.push(setting)?;
    }
    Ok(settings)
}

/// A number and a value.
#[cycle(value)]
#[tactic(auto, using(lt_schema_json::proofs::KindForms::array_list))]
fn setting_in(alloc: Global, value: &Json) -> Result<(u16, Value), Stop>
    ensures { Reads view_setting (setting_in (view value.now)) result }
{
    let Json::Array(items) = value else {
        return Err(Stop::Unlike);
    };
    let [number, value] = items.as_slice() else {
        return Err(Stop::Unlike);
    };
    Ok((small_in(number)?, value_in(alloc, value)?))
}

/// The number of a column or field.
fn small_in(value: &Json) -> Result<u16, Stop>
    ensures { Reads (λ n. n) (as_number_up_to 65535 (view value.now)) result }
{
    let whole = value.as_i64().ok_or(Stop::Unlike)?;
    match u16::try_from(whole) {
        Ok(number) => Ok(number),
        Err(_) => Err(Stop::Unlike),
    }
}

/// The bytes of an object whose one member is `bytes`.
fn bytes_in(alloc: Global, members: &Members) -> Result<Blob, Stop>
    ensures { Reads (λ bytes. bytes) (bytes_in (members_view members.now.entries)) result }
{
    let mut members = members.iter();
    let Some((name, value)) = members.next() else {
        return Err(Stop::Unlike);
    };
    if members.next().is_some() {
        return Err(Stop::Unlike);
    }
    match name.as_str() {
        "bytes" => hex_in(alloc, value),
        _ => Err(Stop::Unlike),
    }
}

/// The parts of a key.
pub fn key_in(alloc: Global, value: &Json) -> Result<KeyParts, Stop>
    ensures { Reads view_parts (key_in (view value.now)) result }
{
    let items = array_in(value)?;
    let mut parts = List::new(alloc);
    for item in items {
        let part = part_in(alloc, item)?;
        parts.push(part)?;
    }
    Ok(parts)
}

#[tactic(auto, using(lt_schema_json::proofs::Members::list_of_array, lt_schema_json::proofs::Members::list_of_items))]
fn array_in(value: &Json) -> Result<&[Json], Stop>
    ensures { Reads (λ items. values_view items.now) (as_list (view value.now)) result }
{
    match value.as_array() {
        Some(items) => Ok(items.as_slice()),
        None => Err(Stop::Unlike),
    }
}

fn part_in(alloc: Global, value: &Json) -> Result<KeyPart, Stop>
    ensures { Reads view_part (part_in (view value.now)) result }
{
    match value {
        Json::Number(number) => Ok(KeyPart::Int(number.as_i64().ok_or(Stop::Unlike)?)),
        Json::String(text) => Ok(KeyPart::Text(copied(alloc, text.as_str())?)),
        _ => Err(Stop::Unlike),
    }
}

/// A copy of a text.
fn copied(alloc: Global, text: &str) -> Result<Text, Memory>
    ensures { IfOk result (λ copy. copy ≡ text.now) }
{
    // A `&str` is UTF-8, so memory alone can lack.
    match Text::from_slice(alloc, text.as_bytes()) {
        Ok(copy) => Ok(copy),
        Err(_) => Err(Memory),
    }
}

/// The bytes that a text spells.
pub fn hex_in(alloc: Global, value: &Json) -> Result<Blob, Stop>
    ensures { Reads (λ bytes. bytes) (hex_in (view value.now)) result }
{
    let text = value.as_str().ok_or(Stop::Unlike)?;
    hex_bytes(alloc, text)
}

/// The bytes that `0x` and lower-case pairs of hexadecimal digits spell.
fn hex_bytes(alloc: Global, text: &str) -> Result<Blob, Stop>
    ensures { Reads (λ bytes. bytes) (hex_bytes text.now) result }
{
    let [b'0', b'x', pairs @ ..] = text.as_bytes() else {
        return Err(Stop::Unlike);
    };
    let mut bytes = List::new(alloc);
    let mut rest = pairs;
    while let [high, low, behind @ ..] = rest {
        let byte = hex_byte(*high, *low).ok_or(Stop::Unlike)?;
        bytes.push(byte)?;
        rest = behind;
    }
    if rest.is_empty() {
        Ok(bytes)
    } else {
        Err(Stop::Unlike)
    }
}

/// The byte that a pair of digits spells.
fn hex_byte(high: u8, low: u8) -> Option<u8>
    ensures { result ≡ hex_byte high low }
{
    let high = hex_digit(high)?;
    let low = hex_digit(low)?;
    Some(16 * high + low)
}

/// The value of a lower-case hexadecimal digit.
fn hex_digit(digit: u8) -> Option<u8>
    ensures value { result ≡ hex_digit digit }
    ensures small { IfSome result (λ value. value < 16) }
{
    match digit {
        b'0'..=b'9' => Some(digit - b'0'),
        b'a'..=b'f' => Some(digit - b'a' + 10),
        _ => None,
    }
}
