//! Writing bytes behind their lengths.

ghost use Rattle.std.specs.Prelude.{◌≡◌, ◌<◌, ◌^◌, ◌++◌, length, OnOk};
ghost use Rattle.lt_codecs.specs.Codec as codec;

use lt_core::{Memory, Writer};

/// A length of two bytes, and so many bytes.
#[tactic(auto, unfolding(lt_codecs::specs::Codec::bytes16))]
pub fn put_bytes16(to: &mut Writer, bytes: &[u8]) -> Result<(), Memory>
    requires { length bytes.now < 2 ^ 16 }
    ensures { OnOk result (to.new ≡ to.old ++ codec.bytes16.spell bytes.now) }
{
    to.u16(bytes.len() as u16)?;
    to.bytes(bytes)?;
    Ok(())
}

/// A length of four bytes, and so many bytes.
#[tactic(auto, unfolding(lt_codecs::specs::Codec::bytes32))]
pub fn put_bytes32(to: &mut Writer, bytes: &[u8]) -> Result<(), Memory>
    requires { length bytes.now < 2 ^ 32 }
    ensures { OnOk result (to.new ≡ to.old ++ codec.bytes32.spell bytes.now) }
{
    to.u32(bytes.len() as u32)?;
    to.bytes(bytes)?;
    Ok(())
}

/// A signed number.
#[tactic(auto, unfolding(lt_codecs::specs::Codec::i64))]
pub fn put_i64(to: &mut Writer, number: i64) -> Result<(), Memory>
    ensures { OnOk result (to.new ≡ to.old ++ codec.i64.spell number) }
{
    to.u64(number.cast_unsigned())
}
