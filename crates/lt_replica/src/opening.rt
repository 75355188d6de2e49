//! How a session begins on a store: at a start, and at a reopening.
//!
//! It takes time by the store's manifest and the streams: memory begins empty.

ghost use Rattle.std.specs.Prelude.{◌≡◌, [], IfErr, IfOk, false, map, true};
ghost use Rattle.std.specs.List.{AllByRecursion};
ghost use Rattle.lt_manifest.specs.View.{view_manifest, view_part, view_stream};
ghost use Rattle.lt_world.specs.Disk.{DiskGoes, LeftOnly};
ghost use Rattle.lt_world.specs.Feed.{FeedGoes};
ghost use Rattle.lt_replica.specs.BareStore.{IsBare};
ghost use Rattle.lt_replica.specs.Opening.{HoldsNothing, Opens, RefusesOpening, begun_entry};

use crate::ranges::settle;
use crate::refusal::OpeningRefusal;
use crate::replica::Replica;
use lt_core::Memory;
use lt_disk::Disk;
use lt_io::Feed;
use lt_manifest::{Manifest, Parts, Streams};
use lt_parts::{PartEntry, PartMap};
use lt_pending::Changes;
use lt_pump::{Lows, Pump};
use std::alloc::Global;

impl Replica {
    /// Begins on the store that the disk has, over the streams of a feed.
    pub(crate) fn open<D: Disk, F: Feed>(
        alloc: Global,
        disk: &mut D,
        feed: &mut F,
    ) -> Result<Replica, OpeningRefusal>
        ensures opened { IfOk result (Opens (D.state disk.old) (D.state disk.new) (F.state feed.old) (F.state feed.new)) }
        ensures refused { IfErr result (RefusesOpening (D.state disk.old) (D.state disk.new) (F.state feed.old)
            (F.state feed.new)) }
        ensures images { LeftOnly (D.state disk.old) (D.state disk.new) (D.state disk.old).leaves }
        ensures told { (D.state disk.new).told ≡ (D.state disk.old).told }
        ensures goes { DiskGoes (D.state disk.old) (D.state disk.new) }
        ensures feed { FeedGoes (F.state feed.old) (F.state feed.new) }
    {
        let opened = lt_store::open(alloc, disk)?;
        if !is_bare(&opened.manifest) {
            let at = opened.store.manifest_at();
            return Err(OpeningRefusal::Laden {
                place: at.place,
                length: at.length,
            });
        }
        let lows = lows_of(alloc, &opened.manifest.streams)?;
        let pump = Pump::attach(alloc, feed, Some(&lows))?;
        let mut map = PartMap::of(entries_of(alloc, &opened.manifest.parts)?);
        settle(&mut map, &pump);
        let parts = empty_parts(alloc, map.len())?;
        Ok(Replica {
            store: opened.store,
            catalogue: opened.manifest.catalogue,
            next_id: opened.manifest.next_id,
            pump,
            map,
            parts,
        })
    }
}

/// Whether a store has neither deltas nor restart points, and its minimum is 0.
fn is_bare(manifest: &Manifest) -> bool
    ensures bare { result ≡ true → IsBare (view_manifest manifest.now) }
    ensures laden { result ≡ false → IsBare (view_manifest manifest.now) → ⊥ }
{
    manifest.minimum == 0 && manifest.deltas.is_empty() && have_no_points(&manifest.streams)
}

/// Whether no stream has a restart point.
fn have_no_points(streams: &Streams) -> bool
    ensures none { result ≡ true → AllByRecursion (λ s. s.points ≡ []) (map view_stream streams.now) }
    ensures some { result ≡ false → AllByRecursion (λ s. s.points ≡ []) (map view_stream streams.now) → ⊥ }
{
    for stream in streams.as_slice() {
        if !stream.points.is_empty() {
            return false;
        }
    }
    true
}

/// The low bounds of the streams.
fn lows_of(alloc: Global, streams: &Streams) -> Result<Lows, Memory>
    ensures { IfOk result (λ lows. lows ≡ map (λ s. s.low) (map view_stream streams.now)) }
{
    let mut lows = Lows::new(alloc);
    for stream in streams.as_slice() {
        lows.push(stream.low.copy()?)?;
    }
    Ok(lows)
}

/// The partitions, each safe up to where it is durable.
fn entries_of(alloc: Global, parts: &Parts) -> Result<Vec<PartEntry>, Memory>
    ensures { IfOk result (λ entries. entries.items ≡ map begun_entry (map view_part parts.now)) }
{
    let mut entries = Vec::new(alloc);
    for part in parts.as_slice() {
        entries.push(PartEntry {
            low: part.low.copy()?,
            resume: part.resume,
            checkpoint: part.resume,
        })?;
    }
    Ok(entries)
}

/// As many partitions that hold nothing.
fn empty_parts(alloc: Global, count: usize) -> Result<Vec<Changes>, Memory>
    ensures { IfOk result (λ parts. HoldsNothing count parts.items) }
{
    let mut parts = Vec::new(alloc);
    for _ in 0..count {
        parts.push(Changes::new(alloc))?;
    }
    Ok(parts)
}
