//! Writing headers. It takes time linear in what is written.

ghost use Rattle.std.specs.Prelude.{◌≡◌, ◌<◌, ◌^◌, ◌++◌, length, IsTrue, OnOk};
ghost use Rattle.std.specs.Option.{IfSome};
ghost use Rattle.lt_terms.specs.declared.Format.TheVariants as format;
ghost use Rattle.lt_terms.specs.Log.{is_header, magic};
ghost use Rattle.lt_codecs.specs.Codec as codec;
ghost use Rattle.lt_records.specs.View.{view_header};

use crate::reading::MAGIC;
use crate::record::StreamHeader;
use crate::writing::field::put_bytes16;
use lt_core::{KeyBytes, Memory, Writer};

#[tactic(auto, using(crate::proofs::Spellings::short_low, crate::proofs::Spellings::short_high))]
pub fn put_header(to: &mut Writer, header: &StreamHeader) -> Result<(), Memory>
    requires { IsTrue (is_header format.One (view_header header.now)) }
    ensures { OnOk result (to.new ≡ to.old ++
        (magic format.One ++ (codec.u32.spell header.now.stream ++
        (codec.bytes16.spell header.now.range.low ++ (codec.optional codec.bytes16).spell
        header.now.range.high)))) }
{
    to.bytes(MAGIC)?;
    to.u32(header.stream)?;
    put_bytes16(to, header.range.low.as_slice())?;
    put_high(to, &header.range.high)?;
    Ok(())
}

#[tactic(auto, unfolding(lt_codecs::specs::Codec::u8))]
fn put_high(to: &mut Writer, high: &Option<KeyBytes>) -> Result<(), Memory>
    requires { IfSome high.now (λ high. length high < 2 ^ 16) }
    ensures { OnOk result (to.new ≡ to.old ++ (codec.optional codec.bytes16).spell high.now) }
{
    match high {
        None => to.u8(0)?,
        Some(high) => {
            to.u8(1)?;
            put_bytes16(to, high.as_slice())?;
        }
    }
    Ok(())
}
