//! A commit: the next manifest is written to free space, and then made to count. It takes all its memory before the first write.

ghost use Rattle.std.specs.Prelude.{◌≡◌, ◌<◌, ◌+◌, ◌++◌, ◌-◌, ◌^◌, ◌⊎◌, IfErr, IfOk, List, OnErr, OnOk, false, length};
ghost use Rattle.std.specs.List.Sorted.{IsPermutation};
ghost use Rattle.lt_terms.specs.declared.Extent.{Extent};
ghost use Rattle.lt_world.specs.Disk.{CountsOne, DiskGoes, HasCause};
ghost use Rattle.lt_storage.specs.Store.{IsLawfulManifest, manifest_bytes};
ghost use Rattle.lt_manifest.specs.View.{view_manifest};
ghost use Rattle.lt_delta.specs.Writing.{TakesGap};
ghost use Rattle.lt_root.specs.Roots.{next_root};
ghost use Rattle.lt_root.specs.Steps.{of_write};
ghost use Rattle.lt_store.specs.Commits.{HasKept, HasTaken, IsNextRoot, LeadsTo, RefusesCommit, RefusesGap, Replaces, fault_if, of_disk};
ghost use Rattle.lt_store.specs.declared.committing.CommitRefusal.TheVariants as refusals;

use crate::store::Store;
use lt_core::Memory;
use lt_disk::{Disk, DiskFault};
use lt_manifest::Manifest;
use lt_root::{CommitFault, Root};
use lt_space::{Space, SpaceRefusal};
use lt_terms::Extent;
use std::alloc::Global;
use thiserror::Error;

/// Why nothing is committed.
#[derive(Clone, Copy, Debug, Drop, PartialEq, Eq, Error)]
pub enum CommitRefusal {
    /// The disk has failed. The store is broken, unless it failed in the one read of a commit.
    #[error("the disk has failed")]
    Disk,
    /// No gap is long enough for the manifest.
    #[error("no gap has {need} bytes, the longest has {room}")]
    StoreFull { need: u64, room: u64 },
    #[error("out of memory")]
    Memory,
}

impl Store {
    /// Makes the next manifest count. `leaving` are the extents of the deltas that it no longer names: they are free after Ok. A refusal
    /// leaves the store as it was, but for a write or a sync that failed: that breaks it, and what was taken stays taken.
    pub fn commit<D: Disk>(
        &mut self,
        alloc: Global,
        disk: &mut D,
        next: &Manifest,
        leaving: &[Extent],
    ) -> Result<(), CommitRefusal>
        requires whole { self.old.broken ≡ false }
        requires generation { self.old.root.generation < 2 ^ 64 - 1 }
        requires lawful { IsLawfulManifest (view_manifest next.now) }
        requires taken { HasTaken self.old leaving.now }

        // From a session that stands on every image to the next one.
        ensures leads { LeadsTo (D.state disk.old) (D.state disk.new) self.old self.new (view_manifest next.now)
            leaving.now result }

        // On any disk: one commit more, or all as it was, or broken.
        ensures ok { OnOk result (IsNextRoot self.old.root self.new.root
            (length (manifest_bytes (view_manifest next.now)))) }
        ensures kept { HasKept self.old self.new leaving.now result }
        ensures refused { IfErr result (RefusesCommit self.old (view_manifest next.now)) }
        ensures untouched { IfErr result (λ e. (e ≡ refusals.Disk) ⊎ (disk.new ≡ disk.old)) }

        ensures goes { DiskGoes (D.state disk.old) (D.state disk.new) }
        ensures cause { HasCause (D.state disk.old).faults (D.state disk.new).faults (of_disk result) }
        // It breaks exactly where a write or a sync failed.
        ensures breaks { HasCause (D.state disk.old).write_faults (D.state disk.new).write_faults
            (fault_if self.new.broken) }
        ensures read { CountsOne (D.state disk.old).reads (D.state disk.new).reads }
    {
        let bytes = lt_manifest::write(alloc, next)?;
        let extent = take_gap(&mut self.space, bytes.len() as u64)?;
        let former = Extent {
            place: self.root.place,
            length: self.root.length,
        };
        match replace(disk, &mut self.root, extent, bytes.as_slice()) {
            Ok(()) => {
                self.space.give(former);
                give_all(&mut self.space, leaving);
                Ok(())
            }
            Err(CommitFault::Read) => {
                self.space.give(extent);
                Err(CommitRefusal::Disk)
            }
            Err(CommitFault::Write) => {
                self.broken = true;
                Err(CommitRefusal::Disk)
            }
        }
    }
}

/// Writes the bytes of a manifest to an extent, and makes the root count that names it.
fn replace<D: Disk>(
    disk: &mut D,
    root: &mut Root,
    extent: Extent,
    bytes: &[u8],
) -> Result<(), CommitFault>
    requires slot { root.old.slot < 2 }
    requires generation { root.old.generation < 2 ^ 64 - 1 }
    requires some { 0 < length bytes.now }
    ensures ok { OnOk result (root.new ≡ next_root root.old extent.place extent.length) }
    ensures err { OnErr result (root.new ≡ root.old) }
    ensures leads { Replaces (D.state disk.old) (D.state disk.new) root.old extent bytes.now result }
    ensures goes { DiskGoes (D.state disk.old) (D.state disk.new) }
    ensures cause { HasCause (D.state disk.old).faults (D.state disk.new).faults result }
    ensures written { HasCause (D.state disk.old).write_faults (D.state disk.new).write_faults (of_write result) }
    ensures read { CountsOne (D.state disk.old).reads (D.state disk.new).reads }
{
    match disk.write_at(extent.place, bytes) {
        Ok(()) => lt_root::try_commit(disk, root, extent.place, extent.length),
        Err(DiskFault) => Err(CommitFault::Write),
    }
}

/// Takes the lowest gap that fits. An `Err` changes nothing.
fn take_gap(space: &mut Space, len: u64) -> Result<Extent, CommitRefusal>
    requires { 0 < len }
    ensures taken { IfOk result (TakesGap space.old space.new len) }
    ensures refused { IfErr result (RefusesGap space.old len) }
    ensures err { OnErr result (space.new ≡ space.old) }
{
    match space.take(len) {
        Ok(extent) => Ok(extent),
        Err(SpaceRefusal::StoreFull { need, room }) => Err(CommitRefusal::StoreFull { need, room }),
        Err(_) => Err(CommitRefusal::Memory),
    }
}

/// Gives back extents that are taken.
fn give_all(space: &mut Space, extents: &[Extent])
    requires { (rest : List Extent) × IsPermutation (extents.now ++ rest) space.old.taken }
    ensures limit { space.new.limit ≡ space.old.limit }
    ensures rest { (rest : List Extent) → IsPermutation (extents.now ++ rest) space.old.taken
        → IsPermutation rest space.new.taken }
{
    for extent in extents {
        space.give(*extent);
    }
}

impl From<Memory> for CommitRefusal {
    ghost from_gives = { λ _ e. e ≡ refusals.Memory };

    fn from(_: Memory) -> Self {
        CommitRefusal::Memory
    }
}
