//! A root slot: 511 bytes that say where the manifest stands, and a gate. Writing or reading one takes constant time.

ghost use Rattle.std.specs.Prelude.{◌≡◌, ◌↔◌, ◌+◌, ◌<◌, ◌≤◌, IsTrue, IfOk, IfErr, IfSome, IfNone, drop, false, length, take};
ghost use Rattle.std.specs.Int.{from_be_bytes, w64};
ghost use Rattle.lt_terms.specs.declared.Root.{Root};
ghost use Rattle.lt_world.specs.Disk.{zeros};
ghost use Rattle.lt_world.specs.Slots.{IsSlot, is_open, is_root};
ghost use Rattle.lt_root.specs.Roots.{body_of, IsHurt};

use crate::refusal::RootRefusal;
use lt_terms::Root;

/// How many bytes a slot has.
pub const SLOT: usize = 512;

/// How many bytes stand before its gate.
pub const BODY: usize = 511;

/// The gate of an open slot.
pub const OPEN: u8 = 0xA5;

/// Where the first manifest may stand: behind the two slots.
const FIRST: u64 = 1024;

const MAGIC: [u8; 6] = *b"LTROOT";

/// The bytes before the gate.
pub fn body(root: &Root) -> [u8; 511]
    ensures { result ≡ body_of root.now }
{
    let mut bytes = [0; BODY];
    spell(&mut bytes, root);
    bytes
}

fn spell(bytes: &mut [u8], root: &Root)
    requires { bytes.old ≡ zeros 511 }
    ensures { bytes.new ≡ body_of root.now }
{
    let (magic, rest) = bytes.split_at_mut(6);
    magic.copy_from_slice(&MAGIC);
    let (generation, rest) = rest.split_at_mut(8);
    generation.copy_from_slice(&root.generation.to_be_bytes());
    let (place, rest) = rest.split_at_mut(8);
    place.copy_from_slice(&root.place.to_be_bytes());
    let (length, _) = rest.split_at_mut(8);
    length.copy_from_slice(&root.length.to_be_bytes());
}

/// What a slot says, of the two as they stand in the file: none where its gate is closed, and `Damaged` where what stands
/// before an open gate is no root.
pub fn read_slot(slots: &[u8], slot: u8) -> Result<Option<Root>, RootRefusal>
    requires slots { length slots.now ≡ 1024 }
    requires slot { slot < 2 }
    ensures closed { IfOk result (λ o. IfNone o (is_open slots.now slot ≡ false)) }
    ensures open { IfOk result (λ o. IfSome o (λ r. IsSlot slots.now r × (r.slot ≡ slot))) }
    ensures damaged { IfErr result (IsHurt slots.now slot) }
{
    let at = SLOT * usize::from(slot);
    if slots[at + BODY] != OPEN {
        return Ok(None);
    }
    match spelled(&slots[at..at + BODY], slot) {
        Some(root) => Ok(Some(root)),
        None => Err(RootRefusal::Damaged {
            place: at as u64,
            length: SLOT as u64,
        }),
    }
}

/// The root that these bytes spell. It is read, spelled again, and compared.
fn spelled(bytes: &[u8], slot: u8) -> Option<Root>
    requires { length bytes.now ≡ 511 }
    ensures some { IfSome result (λ r. (bytes.now ≡ body_of r) × IsTrue (is_root r.generation r.place r.length)
        × (r.slot ≡ slot)) }
    ensures none { IfNone result ((r : Root) → IsTrue (is_root r.generation r.place r.length)
        → bytes.now ≡ body_of r → ⊥) }
{
    let root = read_root(bytes, slot);
    if is_lawful(&root) && is_spelled(&root, bytes) {
        Some(root)
    } else {
        None
    }
}

fn read_root(bytes: &[u8], slot: u8) -> Root
    requires { length bytes.now ≡ 511 }
    ensures slot { result.slot ≡ slot }
    // What a root spells gives that root again.
    ensures again { (r : Root) → IsTrue (is_root r.generation r.place r.length) → bytes.now ≡ body_of r
        → result ≡ record r { slot = slot } }
{
    Root {
        generation: number_at(bytes, 6),
        place: number_at(bytes, 14),
        length: number_at(bytes, 22),
        slot,
    }
}

fn is_spelled(root: &Root, bytes: &[u8]) -> bool
    ensures { IsTrue result ↔ (bytes.now ≡ body_of root.now) }
{
    bytes == body(root).as_slice()
}

fn is_lawful(root: &Root) -> bool
    ensures { result ≡ is_root root.now.generation root.now.place root.now.length }
{
    0 < root.generation && FIRST <= root.place && 0 < root.length
}

fn number_at(bytes: &[u8], at: usize) -> u64
    requires { at + 8 ≤ length bytes.now }
    ensures { result ≡ from_be_bytes w64 (take 8 (drop at bytes.now)) }
{
    let (_, rest) = bytes.split_at(at);
    match rest.split_first_chunk::<8>() {
        Some((first, _)) => u64::from_be_bytes(*first),
        None => 0,
    }
}
