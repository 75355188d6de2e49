//! The steps of which a commit is made. Each makes at most three calls of the disk.

ghost use Rattle.std.specs.Prelude.{◌≡◌, ◌*◌, ◌<◌, ◌≤◌, Some, IfSome, OnOk, false, length};
ghost use Rattle.lt_world.specs.Disk.{CountsOne, DiskGoes, HasCause, LeftOnly, with_bytes};
ghost use Rattle.lt_world.specs.Slots.{is_open, slot_place};
ghost use Rattle.lt_root.specs.Roots.{gate_place};
ghost use Rattle.lt_disk.specs.Within.{IsStable, IsWithin, ReadsWithin};
ghost use Rattle.lt_root.specs.Steps.{IsClosing, of_write};

use crate::refusal::CommitFault;
use crate::slot::{BODY, OPEN, SLOT};
use lt_disk::{Disk, DiskFault};

const CLOSED: u8 = 0;

/// Where a slot stands.
pub fn place_of_slot(slot: u8) -> u64
    ensures { result ≡ slot_place slot }
{
    SLOT as u64 * u64::from(slot)
}

/// Where a slot's gate stands.
pub fn place_of_gate(slot: u8) -> u64
    ensures { result ≡ gate_place slot }
{
    place_of_slot(slot) + BODY as u64
}

/// Writes the bytes from a place on, and syncs.
pub fn put<D: Disk>(disk: &mut D, place: u64, bytes: &[u8]) -> Result<(), DiskFault>
    requires { 0 < length bytes.now }
    ensures images { LeftOnly (D.state disk.old) (D.state disk.new)
        (IsWithin (D.state disk.old) place (length bytes.now)) }
    ensures reads { ReadsWithin place (length bytes.now) (D.state disk.old) (D.state disk.new) }
    ensures bytes { OnOk result (IfSome (D.state disk.old).told
        (λ a. (D.state disk.new).told ≡ Some (with_bytes a place bytes.now))) }
    ensures stable { OnOk result (IsStable (D.state disk.new)) }
    ensures goes { DiskGoes (D.state disk.old) (D.state disk.new) }
    ensures cause { HasCause (D.state disk.old).faults (D.state disk.new).faults result }
    ensures written { HasCause (D.state disk.old).write_faults (D.state disk.new).write_faults result }
    ensures read { (D.state disk.new).reads ≡ (D.state disk.old).reads }
{
    disk.write_at(place, bytes)?;
    disk.sync()
}

/// Closes the gate of a slot, where it is open.
pub fn close_gate<D: Disk>(disk: &mut D, slot: u8) -> Result<(), CommitFault>
    ensures images { LeftOnly (D.state disk.old) (D.state disk.new) (IsClosing (D.state disk.old) slot) }
    ensures reads { ReadsWithin (gate_place slot) 1 (D.state disk.old) (D.state disk.new) }
    ensures closed { OnOk result (IfSome (D.state disk.new).told (λ image. is_open image slot ≡ false)) }
    ensures stable { IsStable (D.state disk.old) → OnOk result (IsStable (D.state disk.new)) }
    ensures goes { DiskGoes (D.state disk.old) (D.state disk.new) }
    ensures cause { HasCause (D.state disk.old).faults (D.state disk.new).faults result }
    ensures written { HasCause (D.state disk.old).write_faults (D.state disk.new).write_faults (of_write result) }
    ensures read { CountsOne (D.state disk.old).reads (D.state disk.new).reads }
{
    let mut gate = [0; 1];
    match disk.read_at(place_of_gate(slot), &mut gate) {
        Err(DiskFault) => return Err(CommitFault::Read),
        Ok(()) => {}
    }
    if gate[0] != OPEN {
        return Ok(());
    }
    put(disk, place_of_gate(slot), &[CLOSED])?;
    Ok(())
}
