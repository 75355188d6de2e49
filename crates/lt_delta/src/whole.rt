//! A whole index: its bytes, and the index that bytes spell. Both take time linear in the bytes.

ghost use Rattle.std.specs.Prelude.{◌≡◌, ◌++◌, ◌<◌, ◌^◌, IfOk, IfErr, OnOk, codes, length};
ghost use Rattle.std.specs.List.{AllByRecursion};
ghost use Rattle.lt_storage.specs.Store.{IsIndex};
ghost use Rattle.lt_codecs.specs.Codec as codec;
ghost use Rattle.lt_store_codecs.specs.StoreCodec as store;
ghost use Rattle.lt_delta.specs.Reading.{Gives, GivesWhole, IsLawful, StopsIndex};
ghost use Rattle.lt_delta.specs.View.{spelled, view_index, view_tables};

use crate::coding::{counted, put_all};
use crate::index::{DeltaIndex, TableIndexes};
use crate::layout::are_layouts;
use crate::order::tables_rise;
use crate::stop::Stop;
use lt_core::{Blob, Memory, Reader, Writer};
use std::alloc::Global;

const MAGIC: [u8; 4] = *b"LTI1";

/// The index that bytes spell. `Unlike` exactly where no index has these bytes.
pub fn index_of(alloc: Global, bytes: &[u8]) -> Result<DeltaIndex, Stop>
    ensures ok { IfOk result (λ index. IsIndex (view_index index) bytes.now) }
    ensures stopped { IfErr result (StopsIndex bytes.now) }
{
    let tables = tables_of(alloc, bytes)?;
    if are_layouts(&tables) {
        Ok(DeltaIndex { tables })
    } else {
        Err(Stop::Unlike)
    }
}

/// The tables that whole bytes spell, under whatever layouts.
fn tables_of(alloc: Global, bytes: &[u8]) -> Result<TableIndexes, Stop>
    ensures { GivesWhole view_tables (codec.whole store.index bytes.now) result }
{
    let mut from = Reader::new(bytes);
    let tables = tables_at(alloc, &mut from)?;
    if from.left() == 0 {
        Ok(tables)
    } else {
        Err(Stop::Unlike)
    }
}

#[tactic(auto, unfolding(lt_store_codecs::specs::StoreCodec::index))]
fn tables_at(alloc: Global, from: &mut Reader<'_>) -> Result<TableIndexes, Stop>
    ensures { Gives view_tables (store.index.read from.old) result from.new }
{
    magic_at(from)?;
    let count = from.u32()?;
    let tables = counted(alloc, u64::from(count), from)?;
    if tables_rise(&tables) {
        Ok(tables)
    } else {
        Err(Stop::Unlike)
    }
}

fn magic_at(from: &mut Reader<'_>) -> Result<(), Stop>
    ensures { Gives (λ u. u) ((codec.literal (codes "LTI1")).read from.old) result from.new }
{
    if from.bytes(MAGIC.len())? == MAGIC.as_slice() {
        Ok(())
    } else {
        Err(Stop::Unlike)
    }
}

/// The bytes of an index of the grammar.
pub fn bytes_of(alloc: Global, index: &DeltaIndex) -> Result<Blob, Memory>
    requires { IsLawful (view_index index.now) }
    ensures { IfOk result (λ bytes. bytes ≡ spelled index.now) }
{
    let mut to = Writer::new(alloc);
    put_index(&mut to, index)?;
    Ok(to.finish())
}

fn put_index(to: &mut Writer, index: &DeltaIndex) -> Result<(), Memory>
    requires few { length index.now.tables < 2 ^ 32 }
    requires each { AllByRecursion store.table_index.Lawful (view_index index.now) }
    ensures { OnOk result (to.new ≡ to.old ++ spelled index.now) }
{
    to.bytes(&MAGIC)?;
    to.u32(index.tables.len() as u32)?;
    put_all(to, index.tables.as_slice())?;
    Ok(())
}
