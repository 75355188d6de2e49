//! All that a store names of the file, and the space in which that is taken.

ghost use Rattle.std.specs.Prelude.{◌≡◌, ◌++◌, Contains, IfErr, IfOk, IsTrue, Ok, OnOk, flat_map, map};
ghost use Rattle.std.specs.List.Sorted.{IsPermutation};
ghost use Rattle.lt_terms.specs.declared.Extent.{Extent};
ghost use Rattle.lt_world.specs.Extents.{are_apart};
ghost use Rattle.lt_storage.specs.Store.{entry_extent};
ghost use Rattle.lt_image_laws.specs.Opening.{named_extents};
ghost use Rattle.lt_delta.specs.View.{view_entries, view_index, view_tables};
ghost use Rattle.lt_manifest.specs.View.{view_manifest};
ghost use Rattle.lt_store.specs.Opening.{MeetsFirst, RefusesStep, of_disk};

use crate::manifests::damaged;
use crate::refusal::OpenRefusal;
use lt_core::Memory;
use lt_delta::{DeltaIndex, TableIndex};
use lt_manifest::Manifest;
use lt_space::{Space, SpaceRefusal};
use lt_terms::{Extent, Root};
use std::alloc::Global;

/// The extents of the manifest, of the indexes and of the bundles.
pub fn extents_of(
    alloc: Global,
    root: &Root,
    manifest: &Manifest,
    indexes: &[DeltaIndex],
) -> Result<Vec<Extent>, Memory>
    ensures { IfOk result (λ all. all.items ≡ named_extents root.now (view_manifest manifest.now)
        (map view_index indexes.now)) }
{
    let mut all = Vec::new(alloc);
    all.push(Extent {
        place: root.place,
        length: root.length,
    })?;
    for delta in manifest.deltas.as_slice() {
        all.push(delta.index)?;
    }
    for index in indexes {
        add_index(&mut all, index)?;
    }
    Ok(all)
}

fn add_index(all: &mut Vec<Extent>, index: &DeltaIndex) -> Result<(), Memory>
    ensures { OnOk result (all.new.items ≡ all.old.items
        ++ flat_map (λ t. map entry_extent t.entries) (view_index index.now)) }
{
    for table in index.tables.as_slice() {
        add_table(all, table)?;
    }
    Ok(())
}

fn add_table(all: &mut Vec<Extent>, table: &TableIndex) -> Result<(), Memory>
    ensures { OnOk result (all.new.items ≡ all.old.items ++ map entry_extent (view_entries table.now.entries)) }
{
    for entry in table.entries.as_slice() {
        all.push(Extent {
            place: entry.place,
            length: entry.length,
        })?;
    }
    Ok(())
}

/// The space in which all these are taken. `Damaged` names the one with the least place that meets another one, the slots or the limit.
pub fn space_of(alloc: Global, limit: u64, live: &[Extent]) -> Result<Space, OpenRefusal>
    ensures limit { IfOk result (λ s. s.limit ≡ limit) }
    ensures taken { IfOk result (λ s. IsPermutation live.now s.taken) }
    ensures apart { OnOk result (IsTrue (are_apart limit live.now)) }
    ensures refused { IfErr result (RefusesStep (MeetsFirst limit live.now)) }
    ensures own { of_disk result ≡ Ok tt }
{
    match Space::new(alloc, limit, live) {
        Ok(space) => Ok(space),
        Err(SpaceRefusal::Overlap { place }) => Err(damaged(standing_at(live, place))),
        Err(SpaceRefusal::StoreFull { .. }) => unreachable!(),
        Err(SpaceRefusal::Memory) => Err(OpenRefusal::Memory),
    }
}

/// The first extent at a place.
fn standing_at(live: &[Extent], place: u64) -> Extent
    requires { (e : Extent) × Contains live.now e × (e.place ≡ place) }
    ensures there { Contains live.now result }
    ensures place { result.place ≡ place }
{
    for extent in live {
        if extent.place == place {
            return *extent;
        }
    }
    unreachable!()
}
