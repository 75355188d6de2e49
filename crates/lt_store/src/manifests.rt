//! The manifest behind a root. A root may say anything: no memory is set aside for a manifest before its place and length were held
//! against the limit that its first bytes state.

ghost use Rattle.std.specs.Prelude.{◌≡◌, IfErr, IfOk, IfSome, drop, nat_le, take};
ghost use Rattle.std.specs.Int.{from_be_bytes, w64};
ghost use Rattle.lt_world.specs.Disk.{HasCause, bytes_in};
ghost use Rattle.lt_world.specs.Extents.{end_of};
ghost use Rattle.lt_storage.specs.Store as store;
ghost use Rattle.lt_storage.specs.Store.{IsLawfulManifest, IsManifest, root_extent};
ghost use Rattle.lt_manifest.specs.View.{view_manifest};
ghost use Rattle.lt_store.specs.Looking.{LooksOnly};
ghost use Rattle.lt_store.specs.Opening.{HurtsManifest, ReadsManifest, RefusesStep, of_disk};
ghost use Rattle.lt_store.specs.declared.refusal.OpenRefusal.TheVariants as refusals;

use crate::refusal::OpenRefusal;
use lt_disk::{Disk, DiskFault};
use lt_manifest::{Manifest, ReadRefusal};
use lt_terms::{Extent, Root};
use std::alloc::Global;

/// The longest store file, in bytes.
const MOST: u64 = 1 << 40;

/// How many bytes state the limit: four of the magic, and the limit.
const HEAD: usize = 12;

/// Whether an extent ends within a limit.
pub fn ends_within(at: Extent, limit: u64) -> bool
    ensures { result ≡ nat_le (end_of at) limit }
{
    match at.place.checked_add(at.length) {
        Some(end) => end <= limit,
        None => false,
    }
}

/// The refusal that names an extent.
pub fn damaged(at: Extent) -> OpenRefusal
    ensures { result ≡ refusals.Damaged at.place at.length }
{
    OpenRefusal::Damaged {
        place: at.place,
        length: at.length,
    }
}

/// The manifest that a root names. `Damaged` where none stands there, or where it goes on past its own limit.
pub fn read_manifest<D: Disk>(
    alloc: Global,
    disk: &mut D,
    root: &Root,
) -> Result<Manifest, OpenRefusal>
    ensures read { IfOk result (λ m. IfSome (D.state disk.old).told (λ image. ReadsManifest image root.now m)) }
    ensures lawful { IfOk result (λ m. IsLawfulManifest (view_manifest m)) }
    ensures refused { IfErr result (RefusesStep (HurtsManifest (D.state disk.old).told root.now)) }
    ensures looks { LooksOnly 2 (D.state disk.old) (D.state disk.new) }
    ensures cause { HasCause (D.state disk.old).faults (D.state disk.new).faults (of_disk result) }
{
    let at = Extent {
        place: root.place,
        length: root.length,
    };
    if !ends_within(at, MOST) || !ends_within(at, stated_limit(disk, at)?) {
        return Err(damaged(at));
    }
    let bytes = lt_delta::read_extent(alloc, disk, at)?;
    match lt_manifest::read(alloc, &bytes) {
        Ok(manifest) => Ok(manifest),
        Err(ReadRefusal::NotAManifest) => Err(damaged(at)),
        Err(ReadRefusal::Memory) => Err(OpenRefusal::Memory),
    }
}

/// The limit that a manifest's first bytes state, if one stands there.
fn stated_limit<D: Disk>(disk: &mut D, at: Extent) -> Result<u64, DiskFault>
    ensures limit { IfOk result (λ limit. IfSome (D.state disk.old).told
        (λ image. (m : store.Manifest) → IsManifest m (bytes_in image at) → limit ≡ m.limit)) }
    ensures looks { LooksOnly 1 (D.state disk.old) (D.state disk.new) }
    ensures cause { HasCause (D.state disk.old).faults (D.state disk.new).faults result }
{
    let mut head = [0; HEAD];
    disk.read_at(at.place, &mut head)?;
    Ok(limit_in(&head))
}

/// The limit that stands in a manifest's first bytes.
fn limit_in(head: &[u8; 12]) -> u64
    ensures { result ≡ from_be_bytes w64 (take 8 (drop 4 head.now)) }
{
    let (_, limit) = head.split_at(4);
    match limit.split_first_chunk::<8>() {
        Some((limit, _)) => u64::from_be_bytes(*limit),
        None => 0,
    }
}
