//! What the commands share that change the durable part: it is made aside, committed, and only then put in place.
//!
//! A commit takes time linear in the whole manifest.

ghost use Rattle.std.specs.Prelude.{[], ◌≡◌, ◌<◌, ◌-◌, ◌^◌, IfErr, IfOk, OnOk, false, map as mapped};
ghost use Rattle.lt_manifest.specs.View.{view_manifest, view_part, view_stream};
ghost use Rattle.lt_pump.specs.Pumps.{streams_of};
ghost use Rattle.lt_storage.specs.Store.{IsLawfulManifest, bare_manifest};
ghost use Rattle.lt_store.specs.Commits.{HasTaken};
ghost use Rattle.lt_store.specs.Making.{bare_stream};
ghost use Rattle.lt_replica.specs.Committing.{HasRun, IsNoWrite, MayWrite, WritesNothing};
ghost use Rattle.lt_replica.specs.Numbers.{durable_with, numbers_of};
ghost use Rattle.lt_replica.specs.Settling.{part_of_entry};

use crate::replica::Replica;
use lt_core::{Ids, KeyBytes, List, Memory};
use lt_disk::Disk;
use lt_manifest::{Manifest, PartStored, Parts, Points, StreamEntry, Streams};
use lt_parts::PartMap;
use lt_reply::Refusal;
use lt_schema::Catalogue;
use lt_store::{CommitRefusal, Store};
use std::alloc::Global;

impl Replica {
    /// Tests that a command may write: no write has failed since the last opening, and neither the generation nor the next id is at its end.
    pub(crate) fn test_writable(&self) -> Result<(), Refusal>
        ensures ok { OnOk result (MayWrite self.now) }
        ensures err { IfErr result (WritesNothing self.now) }
        ensures named { IfErr result IsNoWrite }
    {
        if self.store.is_broken() {
            return Err(Refusal::NeedsReopen);
        }
        if self.store.generation() == u64::MAX || self.next_id == u64::MAX {
            return Err(Refusal::Worn);
        }
        Ok(())
    }

    /// The manifest of the store with this catalogue and these partitions.
    pub(crate) fn manifest_with(
        &self,
        catalogue: Catalogue,
        map: &PartMap,
    ) -> Result<Manifest, Memory>
        ensures { IfOk result (λ m. view_manifest m ≡ bare_manifest (durable_with catalogue
            (numbers_of self.now.store self.now.next_id) map.now (streams_of self.now.pump))) }
    {
        let alloc = self.allocator();
        Ok(Manifest {
            limit: self.store.limit(),
            minimum: 0,
            next_id: self.next_id,
            catalogue,
            streams: bare_streams(alloc, self.pump.lows().as_slice())?,
            parts: bare_parts(alloc, map)?,
            deltas: List::new(alloc),
        })
    }
}

/// Makes a manifest count in which no delta comes or goes. An `Err` but a failed write leaves the store as it was.
pub(crate) fn commit<D: Disk>(
    store: &mut Store,
    disk: &mut D,
    alloc: Global,
    next: &Manifest,
) -> Result<(), Refusal>
    requires whole { store.old.broken ≡ false }
    requires generation { store.old.root.generation < 2 ^ 64 - 1 }
    requires lawful { IsLawfulManifest (view_manifest next.now) }
    requires taken { HasTaken store.old [] }
    ensures { HasRun (D.state disk.old) (D.state disk.new) store.old store.new (view_manifest next.now) result }
{
    match store.commit(alloc, disk, next, &[]) {
        Ok(()) => Ok(()),
        Err(CommitRefusal::Disk) => Err(Refusal::DiskFault),
        Err(CommitRefusal::StoreFull { need, room }) => Err(Refusal::StoreFull { need, room }),
        Err(CommitRefusal::Memory) => Err(Refusal::Memory),
    }
}

/// Streams with these low bounds, and no restart points.
fn bare_streams(alloc: Global, lows: &[KeyBytes]) -> Result<Streams, Memory>
    ensures { IfOk result (λ streams. mapped view_stream streams ≡ mapped bare_stream lows.now) }
{
    let mut streams = Streams::new(alloc);
    for low in lows {
        streams.push(StreamEntry {
            low: low.copy()?,
            points: Points::new(alloc),
        })?;
    }
    Ok(streams)
}

/// The partitions, without deltas.
fn bare_parts(alloc: Global, map: &PartMap) -> Result<Parts, Memory>
    ensures { IfOk result (λ parts. mapped view_part parts ≡ mapped part_of_entry map.now) }
{
    let mut parts = Parts::new(alloc);
    for part in 0..map.len() {
        if let Some(entry) = map.get(part) {
            parts.push(PartStored {
                low: entry.low.copy()?,
                resume: entry.resume,
                deltas: Ids::new(alloc),
            })?;
        }
    }
    Ok(parts)
}
