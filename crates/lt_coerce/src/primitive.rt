//! Values at primitive kinds.

ghost use Rattle.std.specs.Prelude.{◌≡◌, IfOk};
ghost use Rattle.lt_terms.specs.Value.{bytes_value};
ghost use Rattle.lt_terms.specs.Conversion as conversion;
ghost use Rattle.lt_terms.specs.Conversion.{lowered_to_text};
ghost use Rattle.lt_terms.specs.declared.Rank.TheVariants as ranks;
ghost use Rattle.lt_core.specs.View.{view_value};

use crate::number::{bit, decimal, long, short_of, truth_of};
use lt_core::{List, Memory, Rank, Text, TextRefusal, Value};
use std::alloc::Global;

/// The value at the rank.
pub fn at_rank(alloc: Global, value: &Value, rank: Rank) -> Result<Value, Memory>
    ensures { IfOk result (λ r. view_value r ≡ conversion.at_rank rank (view_value value.now)) }
{
    match rank {
        Rank::Bool => Ok(truth_of(short_of(long(alloc, value)?))),
        Rank::Int32 => Ok(short_of(long(alloc, value)?)),
        Rank::Int64 => long(alloc, value),
        Rank::Text => text(alloc, value),
        Rank::Bytes => bytes(alloc, value),
    }
}

fn text(alloc: Global, value: &Value) -> Result<Value, Memory>
    ensures { IfOk result (λ r. view_value r ≡ conversion.at_rank ranks.Text (view_value value.now)) }
{
    match value {
        Value::Null => Ok(Value::Null),
        Value::Bool(truth) => text_of(alloc, decimal(alloc, bit(*truth))?.as_bytes()),
        Value::Int(number) => text_of(alloc, decimal(alloc, *number)?.as_bytes()),
        Value::Text(text) => Ok(Value::Text(text.copy()?)),
        Value::Bytes(bytes) => text_of(alloc, bytes.as_slice()),
        Value::Struct(_) => Ok(Value::Null),
    }
}

fn bytes(alloc: Global, value: &Value) -> Result<Value, Memory>
    ensures { IfOk result (λ r. view_value r ≡ conversion.at_rank ranks.Bytes (view_value value.now)) }
{
    match value {
        Value::Null => Ok(Value::Null),
        Value::Bool(truth) => bytes_of(alloc, decimal(alloc, bit(*truth))?.as_bytes()),
        Value::Int(number) => bytes_of(alloc, decimal(alloc, *number)?.as_bytes()),
        Value::Text(text) => bytes_of(alloc, text.as_slice()),
        Value::Bytes(bytes) => bytes_of(alloc, bytes.as_slice()),
        Value::Struct(_) => Ok(Value::Null),
    }
}

/// The text that the bytes are, or Null.
fn text_of(alloc: Global, bytes: &[u8]) -> Result<Value, Memory>
    ensures { IfOk result (λ r. view_value r ≡ lowered_to_text (bytes_value bytes.now)) }
{
    match Text::from_slice(alloc, bytes) {
        Ok(text) => Ok(Value::Text(text)),
        Err(TextRefusal::NotUtf8) => Ok(Value::Null),
        Err(TextRefusal::Memory) => Err(Memory),
    }
}

fn bytes_of(alloc: Global, bytes: &[u8]) -> Result<Value, Memory>
    ensures { IfOk result (λ r. view_value r ≡ bytes_value bytes.now) }
{
    Ok(Value::Bytes(List::from_slice(alloc, bytes)?))
}
