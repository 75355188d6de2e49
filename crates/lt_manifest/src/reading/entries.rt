//! Streams, partitions and deltas. Whether they are lawful is not looked at.

ghost use Rattle.std.specs.Prelude.{◌≡◌, map};
ghost use Rattle.lt_codecs.specs.Codec as codec;
ghost use Rattle.lt_store_codecs.specs.StoreCodec as store;
ghost use Rattle.lt_manifest.specs.Reading.{Gives};
ghost use Rattle.lt_manifest.specs.View.{view_delta, view_part, view_stream};

use crate::reading::fault::Stop;
use crate::reading::fields::{byte_at, key_at};
use crate::reading::items::{Reads, items_at};
use crate::stored::{DeltaStored, Deltas, PartStored, Parts, Stored, StreamEntry, Streams};
use lt_core::{KeyBytes, Reader, Ts};
use lt_fair::Point;
use lt_terms::Extent;
use std::alloc::Global;

pub fn streams_at(alloc: Global, from: &mut Reader<'_>) -> Result<Streams, Stop>
    ensures { Gives (map view_stream) ((codec.counted codec.u32 store.stream).read from.old) result from.new }
{
    let count = from.u32()?;
    items_at(alloc, count, from)
}

pub fn parts_at(alloc: Global, from: &mut Reader<'_>) -> Result<Parts, Stop>
    ensures { Gives (map view_part) ((codec.counted codec.u32 store.partition).read from.old) result from.new }
{
    let count = from.u32()?;
    items_at(alloc, count, from)
}

pub fn deltas_at(alloc: Global, from: &mut Reader<'_>) -> Result<Deltas, Stop>
    ensures { Gives (map view_delta) ((codec.counted codec.u32 store.delta).read from.old) result from.new }
{
    let count = from.u32()?;
    items_at(alloc, count, from)
}

impl Reads for StreamEntry {
    ghost use Rattle.lt_storage.specs.Store.{Stream};
    ghost use Rattle.lt_store_codecs.specs.StoreCodec.{stream};
    ghost use Rattle.lt_manifest.specs.View.{view_stream};

    ghost Seen = { Stream };

    ghost view = { view_stream };

    ghost reading = { stream.read };

    #[tactic(auto, unfolding(lt_store_codecs::specs::StoreCodec::stream))]
    fn read(alloc: Global, from: &mut Reader<'_>) -> Result<StreamEntry, Stop> {
        let low = key_at(alloc, from)?;
        let count = byte_at(from)?;
        let points = items_at(alloc, u32::from(count), from)?;
        Ok(StreamEntry { low, points })
    }
}

impl Reads for Stored {
    ghost use Rattle.std.specs.Prelude.{ℕ};
    ghost use Rattle.lt_tables.specs.Fair as fair;
    ghost use Rattle.lt_store_codecs.specs.StoreCodec.{point};
    ghost use Rattle.lt_manifest.specs.View.{view_stored};

    ghost Seen = { ℕ × fair.Point };

    ghost view = { view_stored };

    ghost reading = { point.read };

    #[tactic(auto, unfolding(lt_store_codecs::specs::StoreCodec::point))]
    fn read(alloc: Global, from: &mut Reader<'_>) -> Result<Stored, Stop> {
        let offset = from.u64()?;
        let checkpoint = from.u64()?;
        let greatest = from.u64()?;
        let count = from.u32()?;
        let window = items_at(alloc, count, from)?;
        Ok(Stored {
            offset,
            point: Point {
                checkpoint,
                greatest,
                window,
            },
        })
    }
}

/// A key of a window, and its timestamp.
impl Reads for (KeyBytes, Ts) {
    ghost use Rattle.std.specs.Prelude.{List as Listed, ℕ};
    ghost use Rattle.lt_codecs.specs.Codec.{bytes16, u64, ◌then◌};

    ghost Seen = { Listed ℕ × ℕ };

    ghost view = { λ w. w };

    ghost reading = { (bytes16 then u64).read };

    fn read(alloc: Global, from: &mut Reader<'_>) -> Result<(KeyBytes, Ts), Stop> {
        let key = key_at(alloc, from)?;
        let ts = from.u64()?;
        Ok((key, ts))
    }
}

impl Reads for PartStored {
    ghost use Rattle.lt_tables.specs.Pump.{Part};
    ghost use Rattle.lt_store_codecs.specs.StoreCodec.{partition};
    ghost use Rattle.lt_manifest.specs.View.{view_part};

    ghost Seen = { Part };

    ghost view = { view_part };

    ghost reading = { partition.read };

    #[tactic(auto, unfolding(lt_store_codecs::specs::StoreCodec::partition))]
    fn read(alloc: Global, from: &mut Reader<'_>) -> Result<PartStored, Stop> {
        let low = key_at(alloc, from)?;
        let resume = from.u64()?;
        let count = from.u32()?;
        let deltas = items_at(alloc, count, from)?;
        Ok(PartStored {
            low,
            resume,
            deltas,
        })
    }
}

/// The id of a delta.
impl Reads for u64 {
    ghost use Rattle.std.specs.Prelude.{ℕ};
    ghost use Rattle.lt_codecs.specs.Codec as codec;

    ghost Seen = { ℕ };

    ghost view = { λ n. n };

    ghost reading = { codec.u64.read };

    fn read(_: Global, from: &mut Reader<'_>) -> Result<u64, Stop> {
        Ok(from.u64()?)
    }
}

impl Reads for DeltaStored {
    ghost use Rattle.std.specs.Prelude.{ℕ};
    ghost use Rattle.lt_terms.specs.declared.Extent as extents;
    ghost use Rattle.lt_store_codecs.specs.StoreCodec.{delta};
    ghost use Rattle.lt_manifest.specs.View.{view_delta};

    ghost Seen = { ℕ × extents.Extent };

    ghost view = { view_delta };

    ghost reading = { delta.read };

    #[tactic(auto, unfolding(lt_store_codecs::specs::StoreCodec::delta))]
    fn read(_: Global, from: &mut Reader<'_>) -> Result<DeltaStored, Stop> {
        let id = from.u64()?;
        let place = from.u64()?;
        let length = from.u64()?;
        Ok(DeltaStored {
            id,
            index: Extent { place, length },
        })
    }
}
