//! Whole numbers and their decimal texts.

ghost use Rattle.std.specs.Prelude.{◌≡◌, IfOk, if◌then◌else◌, pos, string_bytes};
ghost use Rattle.std.specs.Fmt.{signed_decimal};
ghost use Rattle.lt_terms.specs.Conversion.{at_rank, lowered_to_bool, lowered_to_int32, number_of_text, number_or_null};
ghost use Rattle.lt_terms.specs.declared.Rank.TheVariants as ranks;
ghost use Rattle.lt_core.specs.View.{view_value};

use lt_core::{Memory, Value};
use std::alloc::Global;

/// The value as a whole number of 64 bits, or Null.
pub fn long(alloc: Global, value: &Value) -> Result<Value, Memory>
    ensures { IfOk result (λ r. view_value r ≡ at_rank ranks.Int64 (view_value value.now)) }
{
    match value {
        Value::Null => Ok(Value::Null),
        Value::Bool(truth) => Ok(Value::Int(bit(*truth))),
        Value::Int(number) => Ok(Value::Int(*number)),
        Value::Text(text) => spelled(alloc, text.as_slice()),
        Value::Bytes(bytes) => spelled(alloc, bytes.as_slice()),
        Value::Struct(_) => Ok(Value::Null),
    }
}

const LEAST: i64 = i32::MIN as i64;

const GREATEST: i64 = i32::MAX as i64;

/// A whole number where it fits 32 bits, else Null.
pub fn short_of(value: Value) -> Value
    ensures { view_value result ≡ lowered_to_int32 (view_value value) }
{
    match value {
        Value::Int(number) if number < LEAST || GREATEST < number => Value::Null,
        other => other,
    }
}

/// A whole number as a truth value: false of 0, true of 1, else Null.
pub fn truth_of(value: Value) -> Value
    ensures { view_value result ≡ lowered_to_bool (view_value value) }
{
    match value {
        Value::Int(0) => Value::Bool(false),
        Value::Int(1) => Value::Bool(true),
        Value::Int(_) => Value::Null,
        other => other,
    }
}

pub fn bit(truth: bool) -> i64
    ensures { result ≡ (if truth then pos 1 else pos 0) }
{
    if truth { 1 } else { 0 }
}

/// The number whose decimal text the bytes are, or Null.
fn spelled(alloc: Global, bytes: &[u8]) -> Result<Value, Memory>
    ensures { IfOk result (λ r. view_value r ≡ number_or_null (number_of_text bytes.now)) }
{
    let Ok(text) = str::from_utf8(bytes) else {
        return Ok(Value::Null);
    };
    let Ok(number) = text.parse::<i64>() else {
        return Ok(Value::Null);
    };
    let again = decimal(alloc, number)?;
    if again.as_bytes() == bytes {
        Ok(Value::Int(number))
    } else {
        Ok(Value::Null)
    }
}

/// The decimal text of a number.
pub fn decimal(alloc: Global, number: i64) -> Result<String, Memory>
    ensures { IfOk result (λ text. string_bytes text ≡ signed_decimal number) }
{
    Ok(format!(in alloc; "{number}")?)
}
