//! Writing values, and the numbers and values that a struct or a change holds.
//!
//! Writing takes time linear in what is written. The recursion goes down the value, which nests at most 4 deep.

ghost use Rattle.std.specs.Prelude.{◌≡◌, ◌++◌, OnOk};
ghost use Rattle.lt_terms.specs.Log.{bit as log_bit};
ghost use Rattle.lt_core.specs.View.{view_settings, view_value};
ghost use Rattle.lt_codecs.specs.LogCodec as log;
ghost use Rattle.lt_records.specs.Writing.{AreSettings, HasSpelling};

use crate::writing::field::{put_bytes32, put_i64};
use lt_core::{Memory, Settings, Value, Writer};

#[cycle(put)]
#[tactic(auto, using(crate::proofs::Spellings::text_fits, crate::proofs::Spellings::bytes_fit, crate::proofs::Spellings::struct_settings))]
pub fn put_value(to: &mut Writer, value: &Value) -> Result<(), Memory>
    requires { HasSpelling value.now }
    ensures { OnOk result (to.new ≡ to.old ++ log.log_value.spell (view_value value.now)) }
{
    match value {
        Value::Null => to.u8(0)?,
        Value::Bool(truth) => {
            to.u8(1)?;
            to.u8(bit(*truth))?;
        }
        Value::Int(number) => {
            to.u8(2)?;
            put_i64(to, *number)?;
        }
        Value::Text(text) => {
            to.u8(3)?;
            put_bytes32(to, text.as_slice())?;
        }
        Value::Bytes(bytes) => {
            to.u8(4)?;
            put_bytes32(to, bytes.as_slice())?;
        }
        Value::Struct(fields) => {
            to.u8(5)?;
            put_settings(to, fields)?;
        }
    }
    Ok(())
}

/// How many there are, and each with its number.
#[cycle(put)]
#[tactic(auto, unfolding(lt_codecs::specs::LogCodec::settings))]
pub fn put_settings(to: &mut Writer, settings: &Settings) -> Result<(), Memory>
    requires { AreSettings settings.now }
    ensures { OnOk result (to.new ≡ to.old ++ log.settings.spell (view_settings settings.now)) }
{
    to.u16(settings.len() as u16)?;
    for (number, value) in settings.as_slice() {
        to.u16(*number)?;
        put_value(to, value)?;
    }
    Ok(())
}

fn bit(truth: bool) -> u8
    ensures { result ≡ log_bit truth }
{
    if truth { 1 } else { 0 }
}
