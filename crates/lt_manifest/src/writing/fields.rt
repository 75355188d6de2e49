//! The small parts of a manifest.

ghost use Rattle.std.specs.Prelude.{◌≡◌, ◌++◌, OnOk, codes, option_map};
ghost use Rattle.lt_core.specs.View.{view_value};
ghost use Rattle.lt_codecs.specs.Codec as codec;
ghost use Rattle.lt_codecs.specs.LogCodec as log;

use crate::reading::MAGIC;
use lt_core::{Memory, Value, Writer};
use lt_records::write_value;
use std::alloc::Global;

pub fn put_magic(to: &mut Writer) -> Result<(), Memory>
    ensures { OnOk result (to.new ≡ to.old ++ codes "LTM1") }
{
    to.bytes(MAGIC)
}

/// A length of two bytes, and so many bytes.
#[tactic(auto, unfolding(lt_codecs::specs::Codec::bytes16, lt_codecs::specs::Codec::u16))]
pub fn put_bytes16(to: &mut Writer, bytes: &[u8]) -> Result<(), Memory>
    requires { codec.bytes16.Lawful bytes.now }
    ensures { OnOk result (to.new ≡ to.old ++ codec.bytes16.spell bytes.now) }
{
    to.u16(bytes.len() as u16)?;
    to.bytes(bytes)?;
    Ok(())
}

/// A signed number.
#[tactic(auto, unfolding(lt_codecs::specs::Codec::i32))]
pub fn put_i32(to: &mut Writer, number: i32) -> Result<(), Memory>
    ensures { OnOk result (to.new ≡ to.old ++ codec.i32.spell number) }
{
    to.u32(number.cast_unsigned())
}

#[tactic(auto, unfolding(lt_codecs::specs::LogCodec::flag, lt_codecs::specs::Codec::u8))]
pub fn put_flag(to: &mut Writer, truth: bool) -> Result<(), Memory>
    ensures { OnOk result (to.new ≡ to.old ++ log.flag.spell truth) }
{
    if truth { to.u8(1) } else { to.u8(0) }
}

/// A default, where there is one.
#[tactic(auto, unfolding(lt_codecs::specs::Codec::u8))]
pub fn put_fallback(alloc: Global, to: &mut Writer, fallback: &Option<Value>) -> Result<(), Memory>
    requires { (codec.optional log.log_value).Lawful (option_map view_value fallback.now) }
    ensures { OnOk result (to.new ≡ to.old ++ (codec.optional log.log_value).spell
        (option_map view_value fallback.now)) }
{
    match fallback {
        None => to.u8(0),
        Some(value) => {
            to.u8(1)?;
            put_value(alloc, to, value)
        }
    }
}

#[tactic(auto, unfolding(lt_codecs::specs::LogCodec::log_value, lt_codecs::specs::LogCodec::value))]
fn put_value(alloc: Global, to: &mut Writer, value: &Value) -> Result<(), Memory>
    requires { log.log_value.Lawful (view_value value.now) }
    ensures { OnOk result (to.new ≡ to.old ++ log.log_value.spell (view_value value.now)) }
{
    write_value(alloc, to, value)
}
