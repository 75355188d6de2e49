//! Streams, partitions and deltas.

use crate::stored::{DeltaStored, PartStored, Stored, StreamEntry};
use crate::writing::fields::put_bytes16;
use crate::writing::items::{Writes, put_list, put_list8};
use lt_core::{KeyBytes, Memory, Ts, Writer};
use std::alloc::Global;

impl Writes for StreamEntry {
    ghost use Rattle.lt_storage.specs.Store.{Stream};
    ghost use Rattle.lt_store_codecs.specs.StoreCodec.{stream};
    ghost use Rattle.lt_manifest.specs.View.{view_stream};

    ghost Seen = { Stream };

    ghost view = { view_stream };

    ghost spelling = { stream.spell };

    ghost Fits = { stream.Lawful };

    #[tactic(auto, unfolding(lt_store_codecs::specs::StoreCodec::stream))]
    fn put(&self, alloc: Global, to: &mut Writer) -> Result<(), Memory> {
        put_bytes16(to, self.low.as_slice())?;
        put_list8(alloc, to, self.points.as_slice())?;
        Ok(())
    }
}

impl Writes for Stored {
    ghost use Rattle.std.specs.Prelude.{ℕ};
    ghost use Rattle.lt_tables.specs.Fair as fair;
    ghost use Rattle.lt_store_codecs.specs.StoreCodec.{point};
    ghost use Rattle.lt_manifest.specs.View.{view_stored};

    ghost Seen = { ℕ × fair.Point };

    ghost view = { view_stored };

    ghost spelling = { point.spell };

    ghost Fits = { point.Lawful };

    #[tactic(auto, unfolding(lt_store_codecs::specs::StoreCodec::point))]
    fn put(&self, alloc: Global, to: &mut Writer) -> Result<(), Memory> {
        to.u64(self.offset)?;
        to.u64(self.point.checkpoint)?;
        to.u64(self.point.greatest)?;
        put_list(alloc, to, self.point.window.as_slice())?;
        Ok(())
    }
}

/// A key of a window, and its timestamp.
impl Writes for (KeyBytes, Ts) {
    ghost use Rattle.std.specs.Prelude.{List as Listed, ℕ};
    ghost use Rattle.lt_codecs.specs.Codec.{bytes16, u64, ◌then◌};

    ghost Seen = { Listed ℕ × ℕ };

    ghost view = { λ w. w };

    ghost spelling = { (bytes16 then u64).spell };

    ghost Fits = { (bytes16 then u64).Lawful };

    fn put(&self, _: Global, to: &mut Writer) -> Result<(), Memory> {
        let (key, ts) = self;
        put_bytes16(to, key.as_slice())?;
        to.u64(*ts)?;
        Ok(())
    }
}

impl Writes for PartStored {
    ghost use Rattle.lt_tables.specs.Pump.{Part};
    ghost use Rattle.lt_store_codecs.specs.StoreCodec.{partition};
    ghost use Rattle.lt_manifest.specs.View.{view_part};

    ghost Seen = { Part };

    ghost view = { view_part };

    ghost spelling = { partition.spell };

    ghost Fits = { partition.Lawful };

    #[tactic(auto, unfolding(lt_store_codecs::specs::StoreCodec::partition))]
    fn put(&self, alloc: Global, to: &mut Writer) -> Result<(), Memory> {
        put_bytes16(to, self.low.as_slice())?;
        to.u64(self.resume)?;
        put_list(alloc, to, self.deltas.as_slice())?;
        Ok(())
    }
}

/// The id of a delta.
impl Writes for u64 {
    ghost use Rattle.std.specs.Prelude.{ℕ};
    ghost use Rattle.lt_codecs.specs.Codec as codec;

    ghost Seen = { ℕ };

    ghost view = { λ n. n };

    ghost spelling = { codec.u64.spell };

    ghost Fits = { codec.u64.Lawful };

    fn put(&self, _: Global, to: &mut Writer) -> Result<(), Memory> {
        to.u64(*self)
    }
}

impl Writes for DeltaStored {
    ghost use Rattle.std.specs.Prelude.{ℕ};
    ghost use Rattle.lt_terms.specs.declared.Extent as extents;
    ghost use Rattle.lt_store_codecs.specs.StoreCodec.{delta};
    ghost use Rattle.lt_manifest.specs.View.{view_delta};

    ghost Seen = { ℕ × extents.Extent };

    ghost view = { view_delta };

    ghost spelling = { delta.spell };

    ghost Fits = { delta.Lawful };

    #[tactic(auto, unfolding(lt_store_codecs::specs::StoreCodec::delta))]
    fn put(&self, _: Global, to: &mut Writer) -> Result<(), Memory> {
        to.u64(self.id)?;
        to.u64(self.index.place)?;
        to.u64(self.index.length)?;
        Ok(())
    }
}
