//! The commit: by writes in an order of which a crash can leave only the old root or the new one. The slot that counts is never
//! written. It makes at most eight calls of the disk.

ghost use Rattle.std.specs.Prelude.{◌≡◌, ◌+◌, ◌-◌, ◌<◌, ◌≤◌, ◌^◌, ◌⊎◌, IfErr, IfSome, OnOk, OnErr};
ghost use Rattle.lt_world.specs.Disk.{CountsOne, DiskGoes, HasCause, LeftOnly, Rose};
ghost use Rattle.lt_world.specs.Slots.{HasRoot};
ghost use Rattle.lt_world.specs.Disk.{LeavesNow};
ghost use Rattle.lt_world.specs.Slots.{slot_place};
ghost use Rattle.lt_root.specs.Roots.{next_root};
ghost use Rattle.lt_root.specs.Steps.{HasCommitted, KeepsOthers, KeepsRoot, of_write};
ghost use Rattle.lt_root.specs.declared.refusal.CommitFault.TheVariants as faults;
ghost use Rattle.lt_disk.specs.Within.{IsStable, IsWithin, ReadsWithin};

use crate::refusal::CommitFault;
use crate::slot::{OPEN, body};
use crate::writing::{close_gate, place_of_gate, place_of_slot, put};
use lt_disk::{Disk, DiskFault};
use lt_terms::Root;

/// Makes the next root count, for the manifest at this place. What was written before is made stable first. The fault says whether the disk
/// failed in a write or a sync.
pub fn try_commit<D: Disk>(
    disk: &mut D,
    root: &mut Root,
    place: u64,
    length: u64,
) -> Result<(), CommitFault>
    requires slot { root.old.slot < 2 }
    requires generation { root.old.generation < 2 ^ 64 - 1 }
    ensures ok { OnOk result (root.new ≡ next_root root.old place length) }
    ensures err { OnErr result (root.new ≡ root.old) }

    // Where a manifest may stand at this place, and each image has the root as the call begins: at each moment of it each has the old or the new one, the new one with
    // all else as it read; after Ok each has the new one, and after a fault that was no write fault the old one.
    ensures any_moment { IfSome (D.state disk.old).told (λ seen. 1024 ≤ place → 0 < length
        → LeavesNow (D.state disk.old) (HasRoot root.old)
        → LeftOnly (D.state disk.old) (D.state disk.new) (λ image. HasRoot root.old image
        ⊎ HasCommitted (next_root root.old place length) seen image)) }
    ensures acknowledged { IfSome (D.state disk.old).told (λ seen. 1024 ≤ place → 0 < length
        → LeavesNow (D.state disk.old) (HasRoot root.old)
        → OnOk result (LeavesNow (D.state disk.new) (HasRoot (next_root root.old place length)))) }
    ensures unwritten { IfSome (D.state disk.old).told (λ seen. 1024 ≤ place → 0 < length
        → LeavesNow (D.state disk.old) (HasRoot root.old)
        → IfErr result (λ e. e ≡ faults.Read → LeftOnly (D.state disk.old) (D.state disk.new) (HasRoot root.old))) }
    // After any fault, whatever the images were before: the old one still counts in each, or each has all that read before but in the other slot.
    ensures torn { OnErr result (KeepsRoot (D.state disk.old) (D.state disk.new) root.old place length
        ⊎ KeepsOthers (D.state disk.old) (D.state disk.new) root.old place length) }

    // Nothing but the other slot changes, in what reads and in each image, and after Ok a crash leaves what reads.
    ensures others { ReadsWithin (slot_place (1 - root.old.slot)) 512 (D.state disk.old) (D.state disk.new) }
    ensures images { LeftOnly (D.state disk.old) (D.state disk.new)
        (IsWithin (D.state disk.old) (slot_place (1 - root.old.slot)) 512) }
    ensures stable { OnOk result (IsStable (D.state disk.new)) }

    ensures goes { DiskGoes (D.state disk.old) (D.state disk.new) }
    ensures cause { HasCause (D.state disk.old).faults (D.state disk.new).faults result }
    ensures written { HasCause (D.state disk.old).write_faults (D.state disk.new).write_faults (of_write result) }
    ensures read { CountsOne (D.state disk.old).reads (D.state disk.new).reads }
{
    let next = Root {
        generation: root.generation + 1,
        place,
        length,
        slot: 1 - root.slot,
    };
    disk.sync()?;
    close_gate(disk, next.slot)?;
    put(disk, place_of_slot(next.slot), &body(&next))?;
    put(disk, place_of_gate(next.slot), &[OPEN])?;
    *root = next;
    Ok(())
}

/// Makes the next root count, for the manifest at this place. What was written before is made stable first.
pub fn commit<D: Disk>(
    disk: &mut D,
    root: &mut Root,
    place: u64,
    length: u64,
) -> Result<(), DiskFault>
    requires slot { root.old.slot < 2 }
    requires generation { root.old.generation < 2 ^ 64 - 1 }
    ensures ok { OnOk result (root.new ≡ next_root root.old place length) }
    ensures err { OnErr result (root.new ≡ root.old) }

    // Where a manifest may stand at this place, and each image has the root as the call begins: at each moment of it each has the old or the new one, the new one with
    // all else as it read; after Ok each has the new one, and after a fault that was no write fault the old one.
    ensures any_moment { IfSome (D.state disk.old).told (λ seen. 1024 ≤ place → 0 < length
        → LeavesNow (D.state disk.old) (HasRoot root.old)
        → LeftOnly (D.state disk.old) (D.state disk.new) (λ image. HasRoot root.old image
        ⊎ HasCommitted (next_root root.old place length) seen image)) }
    ensures acknowledged { IfSome (D.state disk.old).told (λ seen. 1024 ≤ place → 0 < length
        → LeavesNow (D.state disk.old) (HasRoot root.old)
        → OnOk result (LeavesNow (D.state disk.new) (HasRoot (next_root root.old place length)))) }
    ensures unwritten { IfSome (D.state disk.old).told (λ seen. 1024 ≤ place → 0 < length
        → LeavesNow (D.state disk.old) (HasRoot root.old)
        → OnErr result (Rose (D.state disk.old).write_faults (D.state disk.new).write_faults
        ⊎ LeftOnly (D.state disk.old) (D.state disk.new) (HasRoot root.old))) }
    // After any fault, whatever the images were before: the old one still counts in each, or each has all that read before but in the other slot.
    ensures torn { OnErr result (KeepsRoot (D.state disk.old) (D.state disk.new) root.old place length
        ⊎ KeepsOthers (D.state disk.old) (D.state disk.new) root.old place length) }

    // Nothing but the other slot changes, in what reads and in each image, and after Ok a crash leaves what reads.
    ensures others { ReadsWithin (slot_place (1 - root.old.slot)) 512 (D.state disk.old) (D.state disk.new) }
    ensures images { LeftOnly (D.state disk.old) (D.state disk.new)
        (IsWithin (D.state disk.old) (slot_place (1 - root.old.slot)) 512) }
    ensures stable { OnOk result (IsStable (D.state disk.new)) }

    ensures goes { DiskGoes (D.state disk.old) (D.state disk.new) }
    ensures cause { HasCause (D.state disk.old).faults (D.state disk.new).faults result }
    ensures later { (D.state disk.old).write_faults ≤ (D.state disk.new).write_faults }
    ensures kept { OnOk result ((D.state disk.new).write_faults ≡ (D.state disk.old).write_faults) }
    ensures read { CountsOne (D.state disk.old).reads (D.state disk.new).reads }
{
    match try_commit(disk, root, place, length) {
        Ok(()) => Ok(()),
        Err(_) => Err(DiskFault),
    }
}
