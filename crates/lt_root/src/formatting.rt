//! The first root. Making it takes four calls of the disk.

ghost use Rattle.std.specs.Prelude.{◌≡◌, ◌++◌, ◌<◌, ◌≤◌, IfOk, IfSome, OnOk, Some};
ghost use Rattle.lt_world.specs.Disk.{DiskGoes, HasCause, LeftOnly, with_bytes, zeros};
ghost use Rattle.lt_world.specs.Slots.{HasRoot};
ghost use Rattle.lt_world.specs.Disk.{LeavesNow};
ghost use Rattle.lt_disk.specs.Within.{IsStable, IsWithin, ReadsWithin};
ghost use Rattle.lt_root.specs.Roots.{body_of, first_root, first_slots};

use crate::slot::{BODY, OPEN, SLOT, body};
use crate::writing::{place_of_gate, put};
use lt_disk::{Disk, DiskFault};
use lt_terms::Root;

/// Makes the first root, for the manifest at this place. A crash within the call, or a fault, may leave any bytes as the slots.
pub fn format<D: Disk>(disk: &mut D, place: u64, length: u64) -> Result<Root, DiskFault>
    ensures ok { IfOk result (λ r. r ≡ first_root place length) }
    ensures bytes { OnOk result (IfSome (D.state disk.old).told
        (λ image. (D.state disk.new).told ≡ Some (with_bytes image 0 (first_slots place length)))) }
    ensures made { OnOk result (IfSome (D.state disk.old).told (λ seen. 1024 ≤ place → 0 < length
        → LeavesNow (D.state disk.new) (HasRoot (first_root place length)))) }

    // Nothing but the slots changes, in what reads and in each image, and after Ok a crash leaves what reads.
    ensures others { ReadsWithin 0 1024 (D.state disk.old) (D.state disk.new) }
    ensures images { LeftOnly (D.state disk.old) (D.state disk.new) (IsWithin (D.state disk.old) 0 1024) }
    ensures stable { OnOk result (IsStable (D.state disk.new)) }

    ensures goes { DiskGoes (D.state disk.old) (D.state disk.new) }
    ensures cause { HasCause (D.state disk.old).faults (D.state disk.new).faults result }
    ensures written { HasCause (D.state disk.old).write_faults (D.state disk.new).write_faults result }
    ensures read { (D.state disk.new).reads ≡ (D.state disk.old).reads }
{
    let root = Root {
        generation: 1,
        place,
        length,
        slot: 0,
    };
    put(disk, 0, &closed_slots(&root))?;
    put(disk, place_of_gate(0), &[OPEN])?;
    Ok(root)
}

/// Both slots: the root with its gate closed, and an empty one.
fn closed_slots(root: &Root) -> [u8; 1024]
    ensures { result ≡ body_of root.now ++ zeros 513 }
{
    let mut slots = [0; 2 * SLOT];
    let (first, _) = slots.split_at_mut(BODY);
    first.copy_from_slice(&body(root));
    slots
}
