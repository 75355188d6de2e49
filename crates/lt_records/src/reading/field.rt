//! The small parts of records. Each reader takes time linear in the bytes that it takes.

ghost use Rattle.std.specs.Prelude.{◌≡◌};
ghost use Rattle.lt_codecs.specs.Codec as codec;
ghost use Rattle.lt_codecs.specs.LogCodec as log;
ghost use Rattle.lt_records.specs.Reading.{Gives};

use crate::reading::fault::Stop;
use lt_core::{Blob, KeyBytes, List, Reader, Text, TextRefusal};
use std::alloc::Global;

#[tactic(auto, unfolding(lt_codecs::specs::LogCodec::flag))]
pub fn flag_at(from: &mut Reader<'_>) -> Result<bool, Stop>
    ensures { Gives (λ b. b) (log.flag.read from.old) result from.new }
{
    match from.u8()? {
        0 => Ok(false),
        1 => Ok(true),
        _ => Err(Stop::Unlike),
    }
}

#[tactic(auto, unfolding(lt_codecs::specs::Codec::i64))]
pub fn i64_at(from: &mut Reader<'_>) -> Result<i64, Stop>
    ensures { Gives (λ z. z) (codec.i64.read from.old) result from.new }
{
    Ok(from.u64()?.cast_signed())
}

#[tactic(auto, unfolding(lt_codecs::specs::Codec::bytes32))]
fn bytes32_at<'a>(from: &mut Reader<'a>) -> Result<&'a [u8], Stop>
    ensures { Gives (λ bytes. bytes.now) (codec.bytes32.read from.old) result from.new }
{
    let length = from.u32()?;
    Ok(from.bytes(length as usize)?)
}

#[tactic(auto, unfolding(lt_codecs::specs::Codec::bytes16))]
fn bytes16_at<'a>(from: &mut Reader<'a>) -> Result<&'a [u8], Stop>
    ensures { Gives (λ bytes. bytes.now) (codec.bytes16.read from.old) result from.new }
{
    let length = from.u16()?;
    Ok(from.bytes(usize::from(length))?)
}

pub fn blob_at(alloc: Global, from: &mut Reader<'_>) -> Result<Blob, Stop>
    ensures { Gives (λ bytes. bytes) (codec.bytes32.read from.old) result from.new }
{
    let bytes = bytes32_at(from)?;
    Ok(List::from_slice(alloc, bytes)?)
}

#[tactic(auto, unfolding(lt_codecs::specs::Codec::text32))]
pub fn text_at(alloc: Global, from: &mut Reader<'_>) -> Result<Text, Stop>
    ensures { Gives (λ text. text) (codec.text32.read from.old) result from.new }
{
    let bytes = bytes32_at(from)?;
    match Text::from_slice(alloc, bytes) {
        Ok(text) => Ok(text),
        Err(TextRefusal::NotUtf8) => Err(Stop::Unlike),
        Err(TextRefusal::Memory) => Err(Stop::Memory),
    }
}

/// A bound of a range.
pub fn bound_at(alloc: Global, from: &mut Reader<'_>) -> Result<KeyBytes, Stop>
    ensures { Gives (λ bytes. bytes) (codec.bytes16.read from.old) result from.new }
{
    let bytes = bytes16_at(from)?;
    Ok(List::from_slice(alloc, bytes)?)
}
