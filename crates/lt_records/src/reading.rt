//! Reading records and values off the front of bytes.

ghost use Rattle.std.specs.Prelude.{◌≡◌, ◌-◌, drop, length, IfOk, IfErr, OnOk, OnErr};
ghost use Rattle.lt_terms.specs.Log.{IsValueFront};
ghost use Rattle.lt_core.specs.View.{view_value};
ghost use Rattle.lt_records.specs.Reading.{NoOtherValue, ValueRefused};

mod change;
pub mod fault;
mod field;
mod frame;
mod header;
mod key_length;
mod value;

use crate::reading::value::{MAX_DEPTH, value_at};
use crate::refusal::ValueRefusal;
pub use frame::{CHANGE, CHECKPOINT, HEADER, MAX_BODY, next};
pub use header::MAGIC;
use lt_core::{Reader, Value};
use std::alloc::Global;

/// Takes one value from the front of what is left. `NotAValue` exactly where no value stands there. An `Err` takes nothing.
pub fn read_value(alloc: Global, from: &mut Reader<'_>) -> Result<Value, ValueRefusal>
    ensures value { IfOk result (λ v. IsValueFront from.old (view_value v) (length from.old - length from.new)) }
    ensures only { IfOk result (λ v. NoOtherValue from.old (view_value v)) }
    ensures rest { OnOk result (from.new ≡ drop (length from.old - length from.new) from.old) }
    ensures refused { IfErr result (ValueRefused from.old) }
    ensures unchanged { OnErr result (from.new ≡ from.old) }
{
    let bytes = all_left(from);
    match value_of(alloc, bytes) {
        Ok((value, behind)) => {
            *from = behind;
            Ok(value)
        }
        Err(refusal) => {
            *from = Reader::new(bytes);
            Err(refusal)
        }
    }
}

/// Takes all bytes that are left.
#[tactic(auto, using(crate::proofs::Front::all_left))]
fn all_left<'a>(from: &mut Reader<'a>) -> &'a [u8]
    ensures { result.now ≡ from.old }
{
    let left = from.left();
    match from.bytes(left) {
        Ok(bytes) => bytes,
        Err(_) => &[],
    }
}

/// The value at the front of bytes, and what is behind it.
fn value_of<'a>(alloc: Global, bytes: &'a [u8]) -> Result<(Value, Reader<'a>), ValueRefusal>
    ensures value { IfOk result (λ x. IsValueFront bytes.now (view_value x.0) (length bytes.now - length x.1)) }
    ensures only { IfOk result (λ x. NoOtherValue bytes.now (view_value x.0)) }
    ensures rest { IfOk result (λ x. x.1 ≡ drop (length bytes.now - length x.1) bytes.now) }
    ensures refused { IfErr result (ValueRefused bytes.now) }
{
    let mut ahead = Reader::new(bytes);
    let value = value_at(alloc, MAX_DEPTH, &mut ahead)?;
    Ok((value, ahead))
}
