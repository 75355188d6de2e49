//! The small parts of a manifest. Each reader takes time linear in the bytes that it takes.

ghost use Rattle.std.specs.Prelude.{◌≡◌, codes, option_map};
ghost use Rattle.lt_core.specs.View.{view_value};
ghost use Rattle.lt_codecs.specs.Codec as codec;
ghost use Rattle.lt_codecs.specs.LogCodec as log;
ghost use Rattle.lt_manifest.specs.Reading.{Gives, GivesWhole};
ghost use Rattle.lt_manifest.specs.Texts as texts;

use crate::reading::fault::Stop;
use lt_core::{KeyBytes, List, Reader, Text, TextRefusal, Value};
use lt_records::{ValueRefusal, read_value};
use std::alloc::Global;

/// What a manifest begins with.
pub const MAGIC: &[u8] = b"LTM1";

pub fn magic_at(from: &mut Reader<'_>) -> Result<(), Stop>
    ensures { Gives (λ _. tt) ((codec.literal (codes "LTM1")).read from.old) result from.new }
{
    let first = from.bytes(MAGIC.len())?;
    if first == MAGIC {
        Ok(())
    } else {
        Err(Stop::Unlike)
    }
}

#[tactic(auto, unfolding(lt_codecs::specs::LogCodec::flag))]
pub fn flag_at(from: &mut Reader<'_>) -> Result<bool, Stop>
    ensures { Gives (λ b. b) (log.flag.read from.old) result from.new }
{
    match from.u8()? {
        0 => Ok(false),
        1 => Ok(true),
        _ => Err(Stop::Unlike),
    }
}

#[tactic(auto, unfolding(lt_codecs::specs::Codec::i32))]
pub fn i32_at(from: &mut Reader<'_>) -> Result<i32, Stop>
    ensures { Gives (λ z. z) (codec.i32.read from.old) result from.new }
{
    Ok(from.u32()?.cast_signed())
}

/// A count of one byte.
#[tactic(auto, unfolding(lt_codecs::specs::Codec::byte))]
pub fn byte_at(from: &mut Reader<'_>) -> Result<u8, Stop>
    ensures { Gives (λ n. n) (codec.byte.read from.old) result from.new }
{
    Ok(from.u8()?)
}

#[tactic(auto, unfolding(lt_codecs::specs::Codec::bytes16))]
fn bytes16_at<'a>(from: &mut Reader<'a>) -> Result<&'a [u8], Stop>
    ensures { Gives (λ bytes. bytes.now) (codec.bytes16.read from.old) result from.new }
{
    let length = from.u16()?;
    Ok(from.bytes(usize::from(length))?)
}

/// A bound or a key.
pub fn key_at(alloc: Global, from: &mut Reader<'_>) -> Result<KeyBytes, Stop>
    ensures { Gives (λ bytes. bytes) (codec.bytes16.read from.old) result from.new }
{
    let bytes = bytes16_at(from)?;
    Ok(List::from_slice(alloc, bytes)?)
}

/// A name. Whether it is a lawful one is not looked at.
#[tactic(auto, unfolding(crate::specs::Texts::text16))]
pub fn text_at(alloc: Global, from: &mut Reader<'_>) -> Result<Text, Stop>
    ensures { Gives (λ text. text) (texts.text16.read from.old) result from.new }
{
    let bytes = bytes16_at(from)?;
    match Text::from_slice(alloc, bytes) {
        Ok(text) => Ok(text),
        Err(TextRefusal::NotUtf8) => Err(Stop::Unlike),
        Err(TextRefusal::Memory) => Err(Stop::Memory),
    }
}

/// A default, where one is given.
pub fn fallback_at(alloc: Global, from: &mut Reader<'_>) -> Result<Option<Value>, Stop>
    ensures { Gives (option_map view_value) ((codec.optional log.log_value).read from.old) result from.new }
{
    match from.u8()? {
        0 => Ok(None),
        1 => Ok(Some(value_at(alloc, from)?)),
        _ => Err(Stop::Unlike),
    }
}

fn value_at(alloc: Global, from: &mut Reader<'_>) -> Result<Value, Stop>
    ensures { Gives view_value (log.log_value.read from.old) result from.new }
{
    let bytes = all_left(from);
    let (value, behind) = value_of(alloc, bytes)?;
    *from = behind;
    Ok(value)
}

/// Takes all bytes that are left.
#[tactic(auto, using(lt_records::proofs::Front::all_left))]
fn all_left<'a>(from: &mut Reader<'a>) -> &'a [u8]
    ensures { result.now ≡ from.old }
{
    let left = from.left();
    match from.bytes(left) {
        Ok(bytes) => bytes,
        Err(_) => &[],
    }
}

/// The value at the front of bytes, and what is behind it.
fn value_of<'a>(alloc: Global, bytes: &'a [u8]) -> Result<(Value, Reader<'a>), Stop>
    ensures { GivesWhole (λ x. (view_value x.0, x.1)) (log.log_value.read bytes.now) result }
{
    let mut ahead = Reader::new(bytes);
    match read_value(alloc, &mut ahead) {
        Ok(value) => Ok((value, ahead)),
        Err(ValueRefusal::NotAValue) => Err(Stop::Unlike),
        Err(ValueRefusal::Memory) => Err(Stop::Memory),
    }
}
