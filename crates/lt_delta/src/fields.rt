//! The small parts of an index: keys, ranks and truth values.

ghost use Rattle.std.specs.Prelude.{◌≡◌, ◌++◌, ◌<◌, ◌^◌, length, OnOk};
ghost use Rattle.lt_terms.specs.Kind.{rank_number};
ghost use Rattle.lt_codecs.specs.Codec as codec;
ghost use Rattle.lt_codecs.specs.LogCodec as log;
ghost use Rattle.lt_store_codecs.specs.StoreCodec as store;
ghost use Rattle.lt_delta.specs.Reading.{Gives};

use crate::stop::Stop;
use lt_core::{KeyBytes, List, Memory, Rank, Reader, Writer};
use std::alloc::Global;

#[tactic(auto, unfolding(lt_codecs::specs::Codec::bytes16))]
fn bytes16_at<'a>(from: &mut Reader<'a>) -> Result<&'a [u8], Stop>
    ensures { Gives (λ bytes. bytes.now) (codec.bytes16.read from.old) result from.new }
{
    let length = from.u16()?;
    Ok(from.bytes(usize::from(length))?)
}

pub fn key_at(alloc: Global, from: &mut Reader<'_>) -> Result<KeyBytes, Stop>
    ensures { Gives (λ bytes. bytes) (codec.bytes16.read from.old) result from.new }
{
    let bytes = bytes16_at(from)?;
    Ok(List::from_slice(alloc, bytes)?)
}

#[tactic(auto, unfolding(lt_codecs::specs::Codec::bytes16))]
pub fn put_key(to: &mut Writer, key: &KeyBytes) -> Result<(), Memory>
    requires { length key.now < 2 ^ 16 }
    ensures { OnOk result (to.new ≡ to.old ++ codec.bytes16.spell key.now) }
{
    to.u16(key.len() as u16)?;
    to.bytes(key.as_slice())?;
    Ok(())
}

#[tactic(auto, unfolding(lt_codecs::specs::LogCodec::flag))]
pub fn flag_at(from: &mut Reader<'_>) -> Result<bool, Stop>
    ensures { Gives (λ b. b) (log.flag.read from.old) result from.new }
{
    match from.u8()? {
        0 => Ok(false),
        1 => Ok(true),
        _ => Err(Stop::Unlike),
    }
}

#[tactic(auto, unfolding(lt_store_codecs::specs::StoreCodec::rank))]
pub fn rank_at(from: &mut Reader<'_>) -> Result<Rank, Stop>
    ensures { Gives (λ r. r) (store.rank.read from.old) result from.new }
{
    match from.u8()? {
        1 => Ok(Rank::Bool),
        2 => Ok(Rank::Int32),
        3 => Ok(Rank::Int64),
        4 => Ok(Rank::Text),
        5 => Ok(Rank::Bytes),
        _ => Err(Stop::Unlike),
    }
}

/// How a rank is spelled.
pub fn rank_byte(rank: Rank) -> u8
    ensures { result ≡ rank_number rank }
{
    match rank {
        Rank::Bool => 1,
        Rank::Int32 => 2,
        Rank::Int64 => 3,
        Rank::Text => 4,
        Rank::Bytes => 5,
    }
}
