//! What a manifest says. Copying takes time linear in what is copied.

ghost use Rattle.std.specs.Prelude.{◌≡◌, IfOk};

use lt_core::{Ids, KeyBytes, List, ListItem, Memory, Ts};
use lt_fair::Point;
use lt_schema::Catalogue;
use lt_terms::Extent;
use std::alloc::Global;

/// A restart point of a stream: where it stands, and what the check keeps there.
#[derive(Debug, Drop)]
pub struct Stored {
    /// In bytes from the stream's start.
    pub offset: u64,
    pub point: Point,
}

/// Restart points, by rising offset.
pub type Points = List<Stored>;

/// A stream. Its number is its place in `Streams`.
#[derive(Debug, Drop)]
pub struct StreamEntry {
    /// The low bound of its keys.
    pub low: KeyBytes,
    pub points: Points,
}

/// The streams, by number.
pub type Streams = List<StreamEntry>;

/// A partition.
#[derive(Debug, Drop)]
pub struct PartStored {
    /// The low bound of its keys.
    pub low: KeyBytes,
    /// Up to it every change of its keys is durable: in a delta, or collapsed by a compaction.
    pub resume: Ts,
    /// Its deltas, rising.
    pub deltas: Ids,
}

/// The partitions, by rising low bound.
pub type Parts = List<PartStored>;

/// A delta, and where its index stands.
#[derive(Clone, Copy, Debug, PartialEq, Eq)]
pub struct DeltaStored {
    pub id: u64,
    pub index: Extent,
}

/// The deltas, by rising id.
pub type Deltas = List<DeltaStored>;

/// What a store holds, and where.
#[derive(Debug, Drop)]
pub struct Manifest {
    /// How many bytes the store file may have.
    pub limit: u64,
    /// The least timestamp that may be asked.
    pub minimum: Ts,
    /// The id of the next delta.
    pub next_id: u64,
    pub catalogue: Catalogue,
    pub streams: Streams,
    pub parts: Parts,
    pub deltas: Deltas,
}

impl Stored {
    /// A copy equals what it copies.
    pub fn copy(&self) -> Result<Stored, Memory>
        ensures { IfOk result (λ stored. stored ≡ self.now) }
    {
        Ok(Stored {
            offset: self.offset,
            point: self.point.copy()?,
        })
    }
}

impl StreamEntry {
    /// A copy equals what it copies.
    pub fn copy(&self) -> Result<StreamEntry, Memory>
        ensures { IfOk result (λ stream. stream ≡ self.now) }
    {
        Ok(StreamEntry {
            low: self.low.copy()?,
            points: self.points.copy()?,
        })
    }
}

impl PartStored {
    /// A copy equals what it copies.
    pub fn copy(&self) -> Result<PartStored, Memory>
        ensures { IfOk result (λ part. part ≡ self.now) }
    {
        Ok(PartStored {
            low: self.low.copy()?,
            resume: self.resume,
            deltas: self.deltas.copy()?,
        })
    }
}

impl Manifest {
    /// A copy equals what it copies.
    pub fn copy(&self) -> Result<Manifest, Memory>
        ensures { IfOk result (λ manifest. manifest ≡ self.now) }
    {
        Ok(Manifest {
            limit: self.limit,
            minimum: self.minimum,
            next_id: self.next_id,
            catalogue: self.catalogue.copy()?,
            streams: self.streams.copy()?,
            parts: self.parts.copy()?,
            deltas: self.deltas.copy()?,
        })
    }
}

impl ListItem for Stored {
    fn copy_item(&self) -> Result<Stored, Memory> {
        self.copy()
    }
}

impl ListItem for StreamEntry {
    fn copy_item(&self) -> Result<StreamEntry, Memory> {
        self.copy()
    }
}

impl ListItem for PartStored {
    fn copy_item(&self) -> Result<PartStored, Memory> {
        self.copy()
    }
}

impl ListItem for DeltaStored {
    fn copy_item(&self) -> Result<DeltaStored, Memory> {
        Ok(*self)
    }

    fn copy_items(alloc: Global, items: &[DeltaStored]) -> Result<Deltas, Memory> {
        List::from_slice(alloc, items)
    }
}
