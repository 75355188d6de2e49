//! Whether a value has the shape of a kind.
//!
//! It takes time by the value's fields. The recursion goes down the kind, and kinds nest at most 4 deep.

ghost use Rattle.std.specs.Prelude.{◌≡◌};
ghost use Rattle.std.specs.Str.{is_utf8};
ghost use Rattle.lt_terms.specs.Kind.{has_rank, has_shape, have_shapes};
ghost use Rattle.lt_terms.specs.Value.{fields_of, fits_32, fits_64};
ghost use Rattle.lt_core.specs.View.{view_kind, view_settings, view_value};
ghost use Rattle.lt_schema.specs.View.{view_fields};

use lt_core::{FieldKinds, Fields, Kind, Rank, Text, Value};

/// The least number of 32 bits, and one more than the greatest.
const LEAST_32: i64 = -(1 << 31);

const END_32: i64 = 1 << 31;

/// Whether a value is null or of the kind.
#[cycle(shapes)]
pub fn has_shape(value: &Value, kind: &Kind) -> bool
    ensures { result ≡ has_shape (view_value value.now) (view_kind kind.now) }
{
    match (value, kind) {
        (Value::Null, _) => true,
        (Value::Struct(fields), Kind::Struct(kinds)) => have_shapes(fields, kinds),
        (Value::Int(number), Kind::Enum(_)) => fits_32(*number),
        (value, Kind::Plain(rank)) => has_rank(value, *rank),
        _ => false,
    }
}

/// Whether the fields are exactly the kind's, in order, each with its shape.
#[cycle(shapes)]
#[tactic(auto, using(crate::proofs::Shapes::shapes_other, crate::proofs::Shapes::shapes_past, crate::proofs::Shapes::shapes_all))]
pub fn have_shapes(fields: &Fields, kinds: &FieldKinds) -> bool
    ensures { result ≡ have_shapes (fields_of (view_settings fields.now)) (view_fields kinds.now) }
{
    let mut at = 0;
    for (number, value) in fields.as_slice() {
        let Some((named, _, kind)) = kinds.get(at) else {
            return false;
        };
        if number != named {
            return false;
        }
        if !has_shape(value, kind) {
            return false;
        }
        at += 1;
    }
    at == kinds.len()
}

/// Whether a value that is not null is of the rank.
pub fn has_rank(value: &Value, rank: Rank) -> bool
    ensures { result ≡ has_rank rank (view_value value.now) }
{
    match (value, rank) {
        (Value::Bool(_), Rank::Bool) => true,
        (Value::Int(number), Rank::Int32) => fits_32(*number),
        (Value::Int(number), Rank::Int64) => fits_64(*number),
        (Value::Text(text), Rank::Text) => is_utf8(text),
        (Value::Bytes(_), Rank::Bytes) => true,
        _ => false,
    }
}

/// Whether the number has 32 signed bits.
pub fn fits_32(number: i64) -> bool
    ensures { result ≡ fits_32 number }
{
    LEAST_32 <= number && number < END_32
}

/// Every number of the type fits.
pub fn fits_64(_number: i64) -> bool
    ensures { result ≡ fits_64 _number }
{
    true
}

/// Every text is UTF-8.
pub fn is_utf8(text: &Text) -> bool
    ensures { result ≡ is_utf8 text.now }
{
    let _bytes = text.as_slice();
    true
}
