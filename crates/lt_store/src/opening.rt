//! The opening of a store. It begins with a sync, and makes three reads and one for each delta. Damage is looked for in the order of
//! the reading: in the slots, in the manifest, in each index, and last in where all these and the bundles stand.

ghost use Rattle.std.specs.Prelude.{◌≡◌, ◌-◌, [], IfErr, IfOk, IfSome, OnOk, false, length};
ghost use Rattle.std.specs.List.{AllByRecursion};
ghost use Rattle.lt_world.specs.Disk.{DiskGoes, HasCause, LeftOnly};
ghost use Rattle.lt_world.specs.Feed.{Feed};
ghost use Rattle.lt_disk.specs.Within.{IsStable};
ghost use Rattle.lt_storage.specs.Store.{IsLawfulManifest};
ghost use Rattle.lt_machine.specs.Program.{IsOpened, OpensIn};
ghost use Rattle.lt_machine.specs.Sound.{IsSound};
ghost use Rattle.lt_delta.specs.Reading.{IsLawful};
ghost use Rattle.lt_manifest.specs.View.{view_manifest};
ghost use Rattle.lt_store.specs.Opening.{IsNoDamage, NamesDamage, OpensSynced, RefusesOpening, of_disk, of_sync, placing_read};
ghost use Rattle.lt_store.specs.Standing.{StandsAt};

use crate::extents::{extents_of, space_of};
use crate::indexes::read_indexes;
use crate::manifests::read_manifest;
use crate::refusal::OpenRefusal;
use crate::store::Store;
use lt_delta::DeltaIndex;
use lt_disk::{Disk, DiskFault};
use lt_manifest::Manifest;
use std::alloc::Global;

/// An opened store, with what was read of it.
#[derive(Debug, Drop)]
pub struct Opened {
    pub store: Store,
    pub manifest: Manifest,
    /// The index of each delta of the manifest, in its order.
    pub indexes: Vec<DeltaIndex>,
}

/// Opens the store that the disk has. It writes nothing.
pub fn open<D: Disk>(alloc: Global, disk: &mut D) -> Result<Opened, OpenRefusal>
    // The store stands where the root, the manifest and the indexes say that were read, and these are what the disk has.
    ensures opened { IfOk result (λ o. IfSome (D.state disk.old).told (λ image. IsOpened image (placing_read o))) }
    ensures stands { IfOk result (λ o. StandsAt o.store (placing_read o) []) }
    ensures lawful { IfOk result (λ o. IsLawfulManifest (view_manifest o.manifest)
        × AllByRecursion IsLawful (placing_read o).indexes) }
    ensures whole { IfOk result (λ o. o.store.broken ≡ false) }
    ensures many { IfOk result (λ o. length o.indexes.items ≡ length o.manifest.deltas) }

    // None is opened, by its cause; the first damage is named. On a sound store only the disk or memory is a cause.
    ensures refused { IfErr result (RefusesOpening (D.state disk.old).told) }
    ensures damage { IfErr result (λ e. IfSome (D.state disk.old).told (λ image. NamesDamage image e)) }
    ensures complete { IfErr result (λ e. IfSome (D.state disk.old).told (λ image. (f : Feed) → IsSound image f
        → IsNoDamage e)) }

    // After the sync a crash leaves what reads, and before it what it might have left.
    ensures stable { OnOk result (IsStable (D.state disk.new)) }
    ensures images { LeftOnly (D.state disk.old) (D.state disk.new) (D.state disk.old).leaves }
    ensures told { (D.state disk.new).told ≡ (D.state disk.old).told }

    ensures reads { IfSome (D.state disk.old).told (λ image. OpensIn image
        ((D.state disk.new).reads - (D.state disk.old).reads)) }
    ensures goes { DiskGoes (D.state disk.old) (D.state disk.new) }
    ensures cause { HasCause (D.state disk.old).faults (D.state disk.new).faults (of_disk result) }
    ensures written { HasCause (D.state disk.old).write_faults (D.state disk.new).write_faults (of_sync result) }
{
    match disk.sync() {
        Ok(()) => open_synced(alloc, disk),
        Err(DiskFault) => Err(OpenRefusal::Unsynced),
    }
}

/// Opens the store that a synced disk has.
fn open_synced<D: Disk>(alloc: Global, disk: &mut D) -> Result<Opened, OpenRefusal>
    ensures opens { OpensSynced (D.state disk.old) (D.state disk.new) result }
    ensures many { IfOk result (λ o. length o.indexes.items ≡ length o.manifest.deltas) }
{
    let root = lt_root::load(disk)?;
    let manifest = read_manifest(alloc, disk, &root)?;
    let indexes = read_indexes(alloc, disk, &manifest)?;
    let live = extents_of(alloc, &root, &manifest, &indexes)?;
    let space = space_of(alloc, manifest.limit, &live)?;
    let store = Store {
        root,
        space,
        broken: false,
    };
    Ok(Opened {
        store,
        manifest,
        indexes,
    })
}
