//! Reading a manifest: first what its bytes spell, part by part, then whether that is lawful, then the catalogue.

ghost use Rattle.std.specs.Prelude.{IfErr, IfOk};
ghost use Rattle.lt_storage.specs.Store.{IsManifest};
ghost use Rattle.lt_codecs.specs.Codec.{whole};
ghost use Rattle.lt_manifest.specs.Reading.{Gives, GivesManifest, GivesWhole, NothingElse, ReadRefused};
ghost use Rattle.lt_manifest.specs.Texts as texts;
ghost use Rattle.lt_manifest.specs.View.{view_manifest, view_unbuilt};

mod catalogue;
mod entries;
mod fault;
mod fields;
mod ids;
mod items;
mod kinds;
mod rules;
mod tables;

use crate::reading::catalogue::rebuilt;
use crate::reading::entries::{deltas_at, parts_at, streams_at};
pub use crate::reading::fault::Stop;
pub use crate::reading::fields::MAGIC;
use crate::reading::fields::magic_at;
use crate::reading::rules::has_lawful_parts;
use crate::reading::tables::{TablesRead, tables_at};
use crate::refusal::ReadRefusal;
use crate::stored::{Deltas, Manifest, Parts, Streams};
use lt_core::{Reader, Ts};
use std::alloc::Global;

/// A manifest as it is read, with the tables of its catalogue.
#[derive(Debug, Drop)]
pub struct Unbuilt {
    pub limit: u64,
    pub minimum: Ts,
    pub next_id: u64,
    pub tables: TablesRead,
    pub streams: Streams,
    pub parts: Parts,
    pub deltas: Deltas,
}

/// The manifest that bytes spell. `NotAManifest` exactly where no lawful manifest has these bytes.
pub fn read(alloc: Global, bytes: &[u8]) -> Result<Manifest, ReadRefusal>
    ensures manifest { IfOk result (λ m. IsManifest (view_manifest m) bytes.now) }
    ensures only { IfOk result (λ m. NothingElse bytes.now (view_manifest m)) }
    ensures refused { IfErr result (ReadRefused bytes.now) }
{
    Ok(manifest_of(alloc, bytes)?)
}

/// The manifest that bytes spell, or why reading stopped.
fn manifest_of(alloc: Global, bytes: &[u8]) -> Result<Manifest, Stop>
    ensures { GivesManifest bytes.now result }
{
    let unbuilt = unbuilt_of(alloc, bytes)?;
    let catalogue = rebuilt(alloc, unbuilt.tables.as_slice())?;
    Ok(Manifest {
        limit: unbuilt.limit,
        minimum: unbuilt.minimum,
        next_id: unbuilt.next_id,
        catalogue,
        streams: unbuilt.streams,
        parts: unbuilt.parts,
        deltas: unbuilt.deltas,
    })
}

/// What the whole of some bytes spells.
fn unbuilt_of(alloc: Global, bytes: &[u8]) -> Result<Unbuilt, Stop>
    ensures { GivesWhole view_unbuilt (whole texts.manifest bytes.now) result }
{
    let mut from = Reader::new(bytes);
    let unbuilt = lawful_at(alloc, &mut from)?;
    if from.left() == 0 {
        Ok(unbuilt)
    } else {
        Err(Stop::Unlike)
    }
}

/// A manifest whose parts besides the catalogue are lawful.
#[tactic(auto, unfolding(crate::specs::Texts::manifest))]
fn lawful_at(alloc: Global, from: &mut Reader<'_>) -> Result<Unbuilt, Stop>
    ensures { Gives view_unbuilt (texts.manifest.read from.old) result from.new }
{
    let unbuilt = unbuilt_at(alloc, from)?;
    if has_lawful_parts(alloc, &unbuilt)? {
        Ok(unbuilt)
    } else {
        Err(Stop::Unlike)
    }
}

#[tactic(auto, unfolding(crate::specs::Texts::manifest_parts))]
fn unbuilt_at(alloc: Global, from: &mut Reader<'_>) -> Result<Unbuilt, Stop>
    ensures { Gives view_unbuilt (texts.manifest_parts.read from.old) result from.new }
{
    magic_at(from)?;
    let limit = from.u64()?;
    let minimum = from.u64()?;
    let next_id = from.u64()?;
    let tables = tables_at(alloc, from)?;
    let streams = streams_at(alloc, from)?;
    let parts = parts_at(alloc, from)?;
    let deltas = deltas_at(alloc, from)?;
    Ok(Unbuilt {
        limit,
        minimum,
        next_id,
        tables,
        streams,
        parts,
        deltas,
    })
}
