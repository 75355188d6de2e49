//! Writing records and values. What may not be written whole is spelled aside first, and then copied.

ghost use Rattle.std.specs.Prelude.{◌≡◌, ◌++◌, IsTrue, OnErr, OnOk};
ghost use Rattle.lt_terms.specs.Log.{is_log_value, value_bytes};
ghost use Rattle.lt_core.specs.View.{view_value};

mod change;
mod field;
mod frame;
mod header;
mod value;

use crate::writing::value::put_value;
pub use frame::write;
use lt_core::{Memory, Value, Writer};
use std::alloc::Global;

/// Appends the spelling of a value. An `Err` appends nothing.
#[tactic(auto, unfolding(lt_codecs::specs::LogCodec::log_value, lt_codecs::specs::LogCodec::value))]
pub fn write_value(alloc: Global, to: &mut Writer, value: &Value) -> Result<(), Memory>
    requires { IsTrue (is_log_value (view_value value.now)) }
    ensures ok { OnOk result (to.new ≡ to.old ++ value_bytes (view_value value.now)) }
    ensures err { OnErr result (to.new ≡ to.old) }
{
    let mut spelling = Writer::new(alloc);
    put_value(&mut spelling, value)?;
    to.bytes(spelling.finish().as_slice())
}
