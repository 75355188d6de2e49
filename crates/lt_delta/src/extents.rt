//! Bytes written to free space, and bytes read from an extent. Each makes at most one call of the disk.

ghost use Rattle.std.specs.Prelude.{◌≡◌, ◌<◌, ◌⊎◌, IfErr, IfOk, IfSome, OnErr, length};
ghost use Rattle.lt_world.specs.Disk.{DiskGoes, HasCause, bytes_in};
ghost use Rattle.lt_delta.specs.declared.refusal.DeltaRefusal.TheVariants as refusals;
ghost use Rattle.lt_delta.specs.Reading.{OnlyReads, RefusesBytes};
ghost use Rattle.lt_delta.specs.Writing.{RefusesGap, RefusesWrite, TakesGap, Wrote, of_disk};

use crate::refusal::DeltaRefusal;
use lt_core::Memory;
use lt_disk::{Disk, DiskFault};
use lt_space::{Extent, Space, SpaceRefusal};
use std::alloc::Global;

/// Writes bytes to the lowest gap that fits, and takes that extent. It does not sync. A refusal leaves the space as it was.
pub fn write_aside<D: Disk>(
    disk: &mut D,
    space: &mut Space,
    bytes: &[u8],
) -> Result<Extent, DeltaRefusal>
    requires { 0 < length bytes.now }
    ensures ok { IfOk result (Wrote (D.state disk.old) (D.state disk.new) space.old space.new bytes.now) }
    ensures refused { IfErr result (RefusesWrite (D.state disk.old) (D.state disk.new) space.old bytes.now) }
    ensures untouched { IfErr result (λ e. (e ≡ refusals.Disk) ⊎ (disk.new ≡ disk.old)) }
    ensures err { OnErr result (space.new ≡ space.old) }

    ensures goes { DiskGoes (D.state disk.old) (D.state disk.new) }
    ensures cause { HasCause (D.state disk.old).faults (D.state disk.new).faults (of_disk result) }
    ensures written { HasCause (D.state disk.old).write_faults (D.state disk.new).write_faults (of_disk result) }
    ensures read { (D.state disk.new).reads ≡ (D.state disk.old).reads }
{
    let extent = take_gap(space, bytes.len() as u64)?;
    match disk.write_at(extent.place, bytes) {
        Ok(()) => Ok(extent),
        Err(DiskFault) => {
            space.give(extent);
            Err(DeltaRefusal::Disk)
        }
    }
}

/// Takes the lowest gap that fits. An `Err` changes nothing.
fn take_gap(space: &mut Space, length: u64) -> Result<Extent, DeltaRefusal>
    requires { 0 < length }
    ensures taken { IfOk result (TakesGap space.old space.new length) }
    ensures refused { IfErr result (RefusesGap space.old length) }
    ensures err { OnErr result (space.new ≡ space.old) }
{
    match space.take(length) {
        Ok(extent) => Ok(extent),
        Err(SpaceRefusal::StoreFull { need, room }) => Err(DeltaRefusal::StoreFull { need, room }),
        Err(_) => Err(DeltaRefusal::Memory),
    }
}

/// The bytes of an extent, which are allocated: a length that was read is to be compared with the file's limit before.
pub fn read_extent<D: Disk>(
    alloc: Global,
    disk: &mut D,
    at: Extent,
) -> Result<Vec<u8>, DeltaRefusal>
    ensures bytes { IfOk result (λ v. IfSome (D.state disk.old).told (λ a. v.items ≡ bytes_in a at)) }
    ensures refused { IfErr result RefusesBytes }

    ensures goes { DiskGoes (D.state disk.old) (D.state disk.new) }
    ensures reads { OnlyReads (D.state disk.old) (D.state disk.new) }
    ensures cause { HasCause (D.state disk.old).faults (D.state disk.new).faults (of_disk result) }
{
    let mut bytes = Vec::new(alloc);
    bytes.resize(at.length as usize, 0).map_err(|_| Memory)?;
    if !bytes.is_empty() {
        disk.read_at(at.place, &mut bytes)?;
    }
    Ok(bytes)
}
