//! Which root counts, read in one call of the disk.

ghost use Rattle.std.specs.Prelude.{◌≡◌, ◌<◌, ◌≤◌, IsTrue, List, Ok, ℕ, IfOk, IfErr, IfSome, length};
ghost use Rattle.lt_world.specs.Disk.{CountsOne, DiskGoes, HasCause, LeftOnly};
ghost use Rattle.lt_world.specs.Object.{StaysTold};
ghost use Rattle.lt_world.specs.Slots.{CountsAsRoot, is_root};
ghost use Rattle.lt_root.specs.Roots.{AreSlots, RefusesRoot, of_disk};

use crate::refusal::RootRefusal;
use crate::slot::{SLOT, read_slot};
use lt_disk::Disk;
use lt_terms::Root;
use std::cmp::Ordering;

/// The root that counts. `NoStore` where no gate is open; `Damaged` where an open slot is not of the format, or both are of one
/// generation.
pub fn load<D: Disk>(disk: &mut D) -> Result<Root, RootRefusal>
    ensures ok { IfOk result (λ r. IfSome (D.state disk.old).told (λ image. CountsAsRoot image r)) }
    ensures refused { IfErr result (λ e. IfSome (D.state disk.old).told (λ image. RefusesRoot image e)) }
    ensures lawful { IfOk result (λ r. IsTrue (is_root r.generation r.place r.length) × (r.slot < 2)) }
    ensures goes { DiskGoes (D.state disk.old) (D.state disk.new) }
    ensures cause { HasCause (D.state disk.old).faults (D.state disk.new).faults (of_disk result) }
    ensures same { (D.state disk.new).told ≡ (D.state disk.old).told }
    ensures images { LeftOnly (D.state disk.old) (D.state disk.new) (D.state disk.old).leaves }
    ensures read { CountsOne (D.state disk.old).reads (D.state disk.new).reads }
    ensures written { (D.state disk.new).write_faults ≡ (D.state disk.old).write_faults }
{
    let mut slots = [0; 2 * SLOT];
    disk.read_at(0, &mut slots)?;
    choose(&slots)
}

/// Which of the two slots counts.
fn choose(slots: &[u8]) -> Result<Root, RootRefusal>
    requires { length slots.now ≡ 1024 }
    ensures ok { IfOk result (CountsAsRoot slots.now) }
    ensures refused { IfErr result (RefusesRoot slots.now) }
    ensures own { of_disk result ≡ Ok tt }
{
    let first = read_slot(slots, 0)?;
    let second = read_slot(slots, 1)?;
    match (first, second) {
        (None, None) => Err(RootRefusal::NoStore),
        (Some(root), None) => Ok(root),
        (None, Some(root)) => Ok(root),
        (Some(first), Some(second)) => later(first, second),
    }
}

/// Which of two open slots counts.
fn later(first: Root, second: Root) -> Result<Root, RootRefusal>
    ensures ok { IfOk result (λ r. (image : List ℕ) → AreSlots image first second → CountsAsRoot image r) }
    ensures refused { IfErr result (λ e. (image : List ℕ) → AreSlots image first second → RefusesRoot image e) }
    ensures own { of_disk result ≡ Ok tt }
{
    match first.generation.cmp(&second.generation) {
        Ordering::Greater => Ok(first),
        Ordering::Less => Ok(second),
        Ordering::Equal => Err(RootRefusal::Damaged {
            place: 0,
            length: 2 * SLOT as u64,
        }),
    }
}
