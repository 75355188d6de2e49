//! The making of a store: a manifest behind the slots, and then the first root. It takes time linear in the bounds of the streams.

ghost use Rattle.std.specs.Prelude.{◌≡◌, ◌<◌, ◌⊎◌, IfErr, IfOk, IfSome, List, OnOk, length, map};
ghost use Rattle.lt_terms.specs.Log.{Header};
ghost use Rattle.lt_world.specs.Disk.{DiskGoes, HasCause, LeavesNow, LeftOnly};
ghost use Rattle.lt_world.specs.Slots.{HasNoStore};
ghost use Rattle.lt_storage.specs.Store.{IsLawfulManifest, manifest_bytes};
ghost use Rattle.lt_machine.specs.Sound.{low_bounds};
ghost use Rattle.lt_manifest.specs.View.{view_manifest, view_stream};
ghost use Rattle.lt_store.specs.Making.{HasMade, IsFirst, RefusesMaking, bare_stream, fresh_manifest, of_disk};
ghost use Rattle.lt_store.specs.declared.making.MakeRefusal.TheVariants as refusals;

use lt_core::{Blob, Ids, KeyBytes, List, Memory};
use lt_disk::{Disk, DiskFault};
use lt_manifest::{Manifest, PartStored, Parts, Points, StreamEntry, Streams};
use lt_root::RootRefusal;
use lt_schema::Catalogue;
use std::alloc::Global;
use thiserror::Error;

/// Where the first manifest stands: behind the slots.
const FIRST: u64 = 1024;

/// Why no store is made.
#[derive(Clone, Copy, Debug, Drop, PartialEq, Eq, Error)]
pub enum MakeRefusal {
    /// A gate is open.
    #[error("there is a store")]
    StoreThere,
    #[error("the disk has failed")]
    Disk,
    #[error("out of memory")]
    Memory,
}

/// Tests that the disk has no store. `StoreThere` exactly where a gate is open. It makes one read.
pub fn test_vacant<D: Disk>(disk: &mut D) -> Result<(), MakeRefusal>
    ensures ok { OnOk result (IfSome (D.state disk.old).told HasNoStore) }
    ensures refused { IfErr result (RefusesMaking (D.state disk.old).told) }
    ensures told { (D.state disk.new).told ≡ (D.state disk.old).told }
    ensures images { LeftOnly (D.state disk.old) (D.state disk.new) (D.state disk.old).leaves }
    ensures goes { DiskGoes (D.state disk.old) (D.state disk.new) }
    ensures cause { HasCause (D.state disk.old).faults (D.state disk.new).faults (of_disk result) }
    ensures written { (D.state disk.new).write_faults ≡ (D.state disk.old).write_faults }
{
    match lt_root::load(disk) {
        Err(RootRefusal::NoStore) => Ok(()),
        Err(RootRefusal::Disk) => Err(MakeRefusal::Disk),
        _ => Err(MakeRefusal::StoreThere),
    }
}

/// Makes the fresh store of a limit, for streams with these low bounds. All memory is taken before the first write. A fault of the disk
/// may leave any bytes.
pub fn make<D: Disk>(
    alloc: Global,
    disk: &mut D,
    limit: u64,
    lows: &[KeyBytes],
) -> Result<(), MakeRefusal>
    requires lawful { IsLawfulManifest (fresh_manifest limit lows.now) }

    // Each image that a crash may leave has the fresh store, in which the streams have the bounds of these headers.
    ensures made { OnOk result (IfSome (D.state disk.old).told (λ seen. (hs : List Header) → low_bounds hs ≡ lows.now
        → LeavesNow (D.state disk.new) (HasMade limit hs))) }

    ensures refused { IfErr result (λ e. (e ≡ refusals.Disk)
        ⊎ ((e ≡ refusals.Memory) × (disk.new ≡ disk.old))) }
    ensures goes { DiskGoes (D.state disk.old) (D.state disk.new) }
    ensures cause { HasCause (D.state disk.old).faults (D.state disk.new).faults (of_disk result) }
    ensures written { HasCause (D.state disk.old).write_faults (D.state disk.new).write_faults (of_disk result) }
    ensures read { (D.state disk.new).reads ≡ (D.state disk.old).reads }
{
    let bytes = first_bytes(alloc, limit, lows)?;
    write_first(disk, bytes.as_slice())?;
    Ok(())
}

/// The bytes of a fresh store's manifest.
fn first_bytes(alloc: Global, limit: u64, lows: &[KeyBytes]) -> Result<Blob, Memory>
    requires { IsLawfulManifest (fresh_manifest limit lows.now) }
    ensures { IfOk result (λ bytes. bytes ≡ manifest_bytes (fresh_manifest limit lows.now)) }
{
    let manifest = fresh(alloc, limit, lows)?;
    lt_manifest::write(alloc, &manifest)
}

/// Writes the first manifest, and makes the root that names it.
fn write_first<D: Disk>(disk: &mut D, bytes: &[u8]) -> Result<(), DiskFault>
    requires { 0 < length bytes.now }
    ensures made { OnOk result (IfSome (D.state disk.old).told (λ seen.
        LeavesNow (D.state disk.new) (IsFirst bytes.now))) }
    ensures goes { DiskGoes (D.state disk.old) (D.state disk.new) }
    ensures cause { HasCause (D.state disk.old).faults (D.state disk.new).faults result }
    ensures written { HasCause (D.state disk.old).write_faults (D.state disk.new).write_faults result }
    ensures read { (D.state disk.new).reads ≡ (D.state disk.old).reads }
{
    disk.write_at(FIRST, bytes)?;
    lt_root::format(disk, FIRST, bytes.len() as u64)?;
    Ok(())
}

/// The manifest of a fresh store: one partition without deltas, and no table.
fn fresh(alloc: Global, limit: u64, lows: &[KeyBytes]) -> Result<Manifest, Memory>
    ensures { IfOk result (λ m. view_manifest m ≡ fresh_manifest limit lows.now) }
{
    let mut parts = Parts::new(alloc);
    parts.push(PartStored {
        low: KeyBytes::new(alloc),
        resume: 0,
        deltas: Ids::new(alloc),
    })?;
    Ok(Manifest {
        limit,
        minimum: 0,
        next_id: 0,
        catalogue: Catalogue::new(alloc),
        streams: streams_of(alloc, lows)?,
        parts,
        deltas: List::new(alloc),
    })
}

/// Streams with these low bounds, and no restart points.
fn streams_of(alloc: Global, lows: &[KeyBytes]) -> Result<Streams, Memory>
    ensures { IfOk result (λ streams. map view_stream streams ≡ map bare_stream lows.now) }
{
    let mut streams = Streams::new(alloc);
    for low in lows {
        streams.push(StreamEntry {
            low: low.copy()?,
            points: Points::new(alloc),
        })?;
    }
    Ok(streams)
}

impl From<Memory> for MakeRefusal {
    ghost from_gives = { λ _ e. e ≡ refusals.Memory };

    fn from(_: Memory) -> Self {
        MakeRefusal::Memory
    }
}

impl From<DiskFault> for MakeRefusal {
    ghost from_gives = { λ _ e. e ≡ refusals.Disk };

    fn from(_: DiskFault) -> Self {
        MakeRefusal::Disk
    }
}
