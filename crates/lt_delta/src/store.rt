//! Indexes in the store file. Sealing makes one write and reading at most one read; both take time linear in the index's bytes.

ghost use Rattle.std.specs.Prelude.{◌≡◌, ◌⊎◌, IfErr, IfOk, IfSome, OnErr};
ghost use Rattle.lt_world.specs.Disk.{DiskGoes, HasCause, bytes_in};
ghost use Rattle.lt_storage.specs.Store.{IsIndex};
ghost use Rattle.lt_delta.specs.declared.refusal.DeltaRefusal.TheVariants as refusals;
ghost use Rattle.lt_delta.specs.Reading.{IsLawful, IsNoIndex, OnlyReads, RefusesRead};
ghost use Rattle.lt_delta.specs.Writing.{RefusesWrite, Wrote, of_disk};
ghost use Rattle.lt_delta.specs.View.{spelled, view_index};

use crate::extents::{read_extent, write_aside};
use crate::index::DeltaIndex;
use crate::refusal::DeltaRefusal;
use crate::stop::Stop;
use crate::whole::{bytes_of, index_of};
use lt_disk::Disk;
use lt_space::{Extent, Space};
use std::alloc::Global;

/// Writes an index to the lowest gap that fits, and takes that extent. It does not sync. `StoreFull` exactly where no gap fits;
/// a refusal leaves the space as it was.
pub fn seal<D: Disk>(
    alloc: Global,
    disk: &mut D,
    space: &mut Space,
    index: &DeltaIndex,
) -> Result<Extent, DeltaRefusal>
    requires { IsLawful (view_index index.now) }
    ensures ok { IfOk result (Wrote (D.state disk.old) (D.state disk.new) space.old space.new (spelled index.now)) }
    ensures refused { IfErr result (RefusesWrite (D.state disk.old) (D.state disk.new) space.old (spelled index.now)) }
    ensures untouched { IfErr result (λ e. (e ≡ refusals.Disk) ⊎ (disk.new ≡ disk.old)) }
    ensures err { OnErr result (space.new ≡ space.old) }

    ensures goes { DiskGoes (D.state disk.old) (D.state disk.new) }
    ensures cause { HasCause (D.state disk.old).faults (D.state disk.new).faults (of_disk result) }
    ensures written { HasCause (D.state disk.old).write_faults (D.state disk.new).write_faults (of_disk result) }
    ensures read { (D.state disk.new).reads ≡ (D.state disk.old).reads }
{
    let bytes = bytes_of(alloc, index)?;
    write_aside(disk, space, bytes.as_slice())
}

/// The index that stands at an extent, a lawful one. `Damaged` exactly where the disk exposes its bytes and those there are no
/// index. It sets as many bytes aside as the extent has. As many bytes are allocated as the
/// extent has, so a length that was read is to be compared with the file's limit before.
pub fn read_index<D: Disk>(
    alloc: Global,
    disk: &mut D,
    at: Extent,
) -> Result<DeltaIndex, DeltaRefusal>
    ensures ok { IfOk result (λ i. IfSome (D.state disk.old).told (λ a. IsIndex (view_index i) (bytes_in a at))) }
    ensures lawful { IfOk result (λ i. IsLawful (view_index i)) }
    ensures refused { IfErr result (RefusesRead IsNoIndex (D.state disk.old).told at) }

    ensures goes { DiskGoes (D.state disk.old) (D.state disk.new) }
    ensures reads { OnlyReads (D.state disk.old) (D.state disk.new) }
    ensures cause { HasCause (D.state disk.old).faults (D.state disk.new).faults (of_disk result) }
{
    let bytes = read_extent(alloc, disk, at)?;
    match index_of(alloc, &bytes) {
        Ok(index) => Ok(index),
        Err(Stop::Unlike) => Err(DeltaRefusal::Damaged {
            place: at.place,
            length: at.length,
        }),
        Err(Stop::Memory) => Err(DeltaRefusal::Memory),
    }
}
