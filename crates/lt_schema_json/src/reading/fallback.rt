//! Defaults, which are read by the kind of their column.

ghost use Rattle.std.specs.Prelude.{◌≡◌, ◌<◌, IfSome};
ghost use Rattle.serde_json.specs.View.{view};
ghost use Rattle.lt_core.specs.View.{view_kind, view_value};
ghost use Rattle.lt_tables.specs.Query.{hex_bytes, hex_digit};
ghost use Rattle.lt_words.specs.SchemaText.{default_at, default_in};
ghost use Rattle.lt_schema_json.specs.Reading.{Reads, hex_byte, struct_in, view_struct};

use crate::reading::form::{array_in, text_in, whole_in};
use crate::reading::stop::Stop;
use lt_core::{Blob, FieldKinds, Fields, Kind, List, Rank, Value};
use serde_json::Value as Json;
use std::alloc::Global;

#[cycle(fallback)]
pub fn value_in(alloc: Global, kind: &Kind, value: &Json) -> Result<Value, Stop>
    ensures { Reads view_value (default_in (view value.now) (view_kind kind.now)) result }
{
    if value.is_null() {
        return Ok(Value::Null);
    }
    match kind {
        Kind::Plain(rank) => scalar_in(alloc, *rank, value),
        Kind::Enum(_) => Ok(Value::Int(whole_in(value)?)),
        Kind::Struct(fields) => Ok(Value::Struct(values_in(alloc, fields, value)?)),
    }
}

/// A value that is not null.
fn scalar_in(alloc: Global, rank: Rank, value: &Json) -> Result<Value, Stop>
    ensures { Reads view_value (default_at rank (view value.now)) result }
{
    match rank {
        Rank::Bool => Ok(Value::Bool(value.as_bool().ok_or(Stop::Unlike)?)),
        Rank::Int32 | Rank::Int64 => Ok(Value::Int(whole_in(value)?)),
        Rank::Text => Ok(Value::Text(text_in(alloc, value)?)),
        Rank::Bytes => {
            let text = value.as_str().ok_or(Stop::Unlike)?;
            Ok(Value::Bytes(hex_bytes(alloc, text)?))
        }
    }
}

/// The values of a struct's fields, in the order of the fields.
#[cycle(fallback)]
fn values_in(alloc: Global, fields: &FieldKinds, value: &Json) -> Result<Fields, Stop>
    ensures { Reads view_struct (struct_in (view value.now) fields.now) result }
{
    let mut items = array_in(value)?.iter();
    let mut values = List::new(alloc);
    for (number, _, kind) in fields.as_slice() {
        let Some(item) = items.next() else {
            return Err(Stop::Unlike);
        };
        let value = value_in(alloc, kind, item)?;
        values.push((*number, value))?;
    }
    match items.next() {
        None => Ok(values),
        Some(_) => Err(Stop::Unlike),
    }
}

/// The bytes that `0x` and lower-case pairs of hexadecimal digits spell.
fn hex_bytes(alloc: Global, text: &str) -> Result<Blob, Stop>
    ensures { Reads (λ bytes. bytes) (hex_bytes text.now) result }
{
    let [b'0', b'x', pairs @ ..] = text.as_bytes() else {
        return Err(Stop::Unlike);
    };
    let mut bytes = List::new(alloc);
    let mut rest = pairs;
    while let [high, low, behind @ ..] = rest {
        let byte = hex_byte(*high, *low).ok_or(Stop::Unlike)?;
        bytes.push(byte)?;
        rest = behind;
    }
    if rest.is_empty() {
        Ok(bytes)
    } else {
        Err(Stop::Unlike)
    }
}

/// The byte that a pair of digits spells.
fn hex_byte(high: u8, low: u8) -> Option<u8>
    ensures { result ≡ hex_byte high low }
{
    let high = hex_digit(high)?;
    let low = hex_digit(low)?;
    Some(16 * high + low)
}

/// The value of a lower-case hexadecimal digit.
fn hex_digit(digit: u8) -> Option<u8>
    ensures value { result ≡ hex_digit digit }
    ensures small { IfSome result (λ value. value < 16) }
{
    match digit {
        b'0'..=b'9' => Some(digit - b'0'),
        b'a'..=b'f' => Some(digit - b'a' + 10),
        _ => None,
    }
}
