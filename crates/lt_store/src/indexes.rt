//! The indexes of a manifest's deltas, one read for each.

ghost use Rattle.std.specs.Prelude.{◌≡◌, IfErr, IfOk, IfSome, length, map, true};
ghost use Rattle.std.specs.List.{AllByRecursion};
ghost use Rattle.lt_world.specs.Disk.{HasCause, bytes_in};
ghost use Rattle.lt_storage.specs.Store.{IsIndex};
ghost use Rattle.lt_machine.specs.Program.{ReadsAll};
ghost use Rattle.lt_machine.specs.Run.{is_known_index};
ghost use Rattle.lt_delta.specs.Reading.{IsLawful};
ghost use Rattle.lt_delta.specs.View.{view_index};
ghost use Rattle.lt_manifest.specs.View.{view_delta, view_manifest};
ghost use Rattle.lt_store.specs.Looking.{LooksOnly};
ghost use Rattle.lt_store.specs.Opening.{HurtsIndex, HurtsIndexes, RefusesStep, of_disk};

use crate::covering::is_known;
use crate::manifests::{damaged, ends_within};
use crate::refusal::OpenRefusal;
use lt_delta::DeltaIndex;
use lt_disk::Disk;
use lt_manifest::Manifest;
use lt_terms::Extent;
use std::alloc::Global;

/// The index of each delta, in the manifest's order. `Damaged` names the first that is none, that goes on past the limit, or that has a
/// table or a layout which the catalogue does not know.
pub fn read_indexes<D: Disk>(
    alloc: Global,
    disk: &mut D,
    manifest: &Manifest,
) -> Result<Vec<DeltaIndex>, OpenRefusal>
    ensures read { IfOk result (λ v. IfSome (D.state disk.old).told (λ image. ReadsAll image manifest.now.catalogue
        (map view_delta manifest.now.deltas) (map view_index v.items))) }
    ensures lawful { IfOk result (λ v. AllByRecursion IsLawful (map view_index v.items)) }
    ensures many { IfOk result (λ v. length v.items ≡ length manifest.now.deltas) }
    ensures refused { IfErr result (RefusesStep (HurtsIndexes (D.state disk.old).told (view_manifest manifest.now))) }
    ensures looks { LooksOnly (length manifest.now.deltas) (D.state disk.old) (D.state disk.new) }
    ensures cause { HasCause (D.state disk.old).faults (D.state disk.new).faults (of_disk result) }
{
    let mut indexes = Vec::new(alloc);
    for delta in manifest.deltas.as_slice() {
        let index = read_known(alloc, disk, manifest, delta.index)?;
        indexes.push(index)?;
    }
    Ok(indexes)
}

/// The index at an extent, where the catalogue knows its tables and layouts.
fn read_known<D: Disk>(
    alloc: Global,
    disk: &mut D,
    manifest: &Manifest,
    at: Extent,
) -> Result<DeltaIndex, OpenRefusal>
    ensures read { IfOk result (λ i. IfSome (D.state disk.old).told
        (λ image. IsIndex (view_index i) (bytes_in image at))) }
    ensures known { IfOk result (λ i. is_known_index manifest.now.catalogue (view_index i) ≡ true) }
    ensures lawful { IfOk result (λ i. IsLawful (view_index i)) }
    ensures refused { IfErr result (RefusesStep (HurtsIndex (D.state disk.old).told (view_manifest manifest.now) at)) }
    ensures looks { LooksOnly 1 (D.state disk.old) (D.state disk.new) }
    ensures cause { HasCause (D.state disk.old).faults (D.state disk.new).faults (of_disk result) }
{
    if !ends_within(at, manifest.limit) {
        return Err(damaged(at));
    }
    let index = lt_delta::read_index(alloc, disk, at)?;
    if is_known(alloc, &manifest.catalogue, &index)? {
        Ok(index)
    } else {
        Err(damaged(at))
    }
}
