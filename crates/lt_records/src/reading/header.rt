//! Headers. Reading one takes time linear in the bytes that are taken.

ghost use Rattle.std.specs.Prelude.{◌≡◌, ◌&&◌, length, nat_le};
ghost use Rattle.lt_terms.specs.declared.Format.TheVariants as format;
ghost use Rattle.lt_terms.specs.Key.{max_key};
ghost use Rattle.lt_terms.specs.Log.{fits_high, magic};
ghost use Rattle.lt_codecs.specs.Codec as codec;
ghost use Rattle.lt_codecs.specs.LogCodec as log;
ghost use Rattle.lt_records.specs.Reading.{Gives};
ghost use Rattle.lt_records.specs.View.{view_header};

use crate::reading::fault::Stop;
use crate::reading::field::bound_at;
use crate::record::StreamHeader;
use lt_core::{KeyBytes, MAX_KEY, Range, Reader};
use std::alloc::Global;

/// What the body of a header begins with.
pub const MAGIC: &[u8] = b"LTLOG1";

#[tactic(auto, unfolding(lt_codecs::specs::LogCodec::header, lt_codecs::specs::LogCodec::header_parts))]
pub fn header_at(alloc: Global, from: &mut Reader<'_>) -> Result<StreamHeader, Stop>
    ensures { Gives view_header ((log.header format.One).read from.old) result from.new }
{
    magic_at(from)?;
    let stream = from.u32()?;
    let low = bound_at(alloc, from)?;
    let high = high_at(alloc, from)?;
    if are_bounds(&low, &high) {
        Ok(StreamHeader {
            stream,
            range: Range { low, high },
        })
    } else {
        Err(Stop::Unlike)
    }
}

fn magic_at(from: &mut Reader<'_>) -> Result<(), Stop>
    ensures { Gives (λ _. tt) ((codec.literal (magic format.One)).read from.old) result from.new }
{
    let first = from.bytes(MAGIC.len())?;
    if first == MAGIC {
        Ok(())
    } else {
        Err(Stop::Unlike)
    }
}

fn high_at(alloc: Global, from: &mut Reader<'_>) -> Result<Option<KeyBytes>, Stop>
    ensures { Gives (λ high. high) ((codec.optional codec.bytes16).read from.old) result from.new }
{
    match from.u8()? {
        0 => Ok(None),
        1 => Ok(Some(bound_at(alloc, from)?)),
        _ => Err(Stop::Unlike),
    }
}

/// Whether the bounds are short enough, and the high one is above the low one.
fn are_bounds(low: &KeyBytes, high: &Option<KeyBytes>) -> bool
    ensures { result ≡ (nat_le (length low.now) max_key && fits_high low.now high.now) }
{
    low.len() <= MAX_KEY
        && match high {
            None => true,
            Some(high) => low.as_slice().cmp(high.as_slice()).is_lt() && high.len() <= MAX_KEY,
        }
}
