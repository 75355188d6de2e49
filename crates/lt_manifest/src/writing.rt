//! Writing a manifest. It takes time linear in what is written.

ghost use Rattle.std.specs.Prelude.{◌≡◌, ◌++◌, IfOk, OnOk};
ghost use Rattle.lt_storage.specs.Store.{IsLawfulManifest, manifest_bytes};
ghost use Rattle.lt_store_codecs.specs.StoreCodec as store;
ghost use Rattle.lt_manifest.specs.View.{view_manifest};

mod entries;
mod fields;
mod items;
mod kinds;
mod tables;

use crate::stored::Manifest;
use crate::writing::fields::put_magic;
use crate::writing::items::put_list;
use crate::writing::tables::put_tables;
use lt_core::{Blob, Memory, Writer};
use std::alloc::Global;

/// The bytes of a lawful manifest.
pub fn write(alloc: Global, manifest: &Manifest) -> Result<Blob, Memory>
    requires { IsLawfulManifest (view_manifest manifest.now) }
    ensures { IfOk result (λ bytes. bytes ≡ manifest_bytes (view_manifest manifest.now)) }
{
    let mut to = Writer::new(alloc);
    put_manifest(alloc, &mut to, manifest)?;
    Ok(to.finish())
}

#[tactic(auto, unfolding(lt_store_codecs::specs::StoreCodec::manifest))]
fn put_manifest(alloc: Global, to: &mut Writer, manifest: &Manifest) -> Result<(), Memory>
    requires { store.manifest.Lawful (view_manifest manifest.now) }
    ensures { OnOk result (to.new ≡ to.old ++ manifest_bytes (view_manifest manifest.now)) }
{
    put_magic(to)?;
    to.u64(manifest.limit)?;
    to.u64(manifest.minimum)?;
    to.u64(manifest.next_id)?;
    put_tables(alloc, to, manifest.catalogue.tables())?;
    put_list(alloc, to, manifest.streams.as_slice())?;
    put_list(alloc, to, manifest.parts.as_slice())?;
    put_list(alloc, to, manifest.deltas.as_slice())?;
    Ok(())
}
