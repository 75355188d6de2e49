//! Conversion by kinds, field by field.

ghost use Rattle.std.specs.Prelude.{◌≡◌, IfOk};
ghost use Rattle.lt_terms.specs.Value.{value_at};
ghost use Rattle.lt_terms.specs.Conversion.{conv, conv_fields};
ghost use Rattle.lt_core.specs.View.{view_kind, view_value};
ghost use Rattle.lt_coerce.specs.Fields.{value_found, view_field_kinds, view_fields};

use crate::primitive::at_rank;
use lt_core::{FieldKinds, Fields, Kind, List, Memory, Rank, Value};
use std::alloc::Global;

/// The value at the kind: up the chain of ranks its one image, down the chain the value that it is the image of, else Null. A struct goes
/// field by field, by number: one that the value lacks is Null, and one that the kind lacks is dropped.
pub fn convert(alloc: Global, value: &Value, kind: &Kind) -> Result<Value, Memory>
    ensures { IfOk result (λ r. view_value r ≡ conv (view_value value.now) (view_kind kind.now)) }
{
    at_kind(alloc, kind, value)
}

/// The value at the kind. The recursion goes down the kind.
#[cycle(kind)]
fn at_kind(alloc: Global, kind: &Kind, value: &Value) -> Result<Value, Memory>
    ensures { IfOk result (λ r. view_value r ≡ conv (view_value value.now) (view_kind kind.now)) }
{
    match kind {
        Kind::Plain(rank) => at_rank(alloc, value, *rank),
        Kind::Enum(_) => at_rank(alloc, value, Rank::Int32),
        Kind::Struct(kinds) => match value {
            Value::Struct(fields) => Ok(Value::Struct(at_kinds(alloc, kinds, fields)?)),
            _ => Ok(Value::Null),
        },
    }
}

/// A field for each of the kinds, in their order.
#[cycle(kind)]
fn at_kinds(alloc: Global, kinds: &FieldKinds, fields: &Fields) -> Result<Fields, Memory>
    ensures { IfOk result (λ r. view_fields r ≡ conv_fields (view_fields fields.now) (view_field_kinds kinds.now)) }
{
    let mut converted = List::new(alloc);
    for (number, _, kind) in kinds.as_slice() {
        let value = match field(fields, *number) {
            Some(value) => at_kind(alloc, kind, value)?,
            None => Value::Null,
        };
        converted.push((*number, value))?;
    }
    Ok(converted)
}

/// The value of the first field with the number.
fn field(fields: &Fields, number: u16) -> Option<&Value>
    ensures { value_found result ≡ value_at number (view_fields fields.now) }
{
    for (named, value) in fields.as_slice() {
        if number == *named {
            return Some(value);
        }
    }
    None
}
