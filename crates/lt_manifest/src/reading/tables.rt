//! The tables of a catalogue, with their versions. Whether they are lawful is not looked at.

ghost use Rattle.std.specs.Prelude.{◌≡◌, map};
ghost use Rattle.lt_store_codecs.specs.StoreCodec as store;
ghost use Rattle.lt_manifest.specs.Reading.{Gives};
ghost use Rattle.lt_manifest.specs.Texts as texts;
ghost use Rattle.lt_manifest.specs.View.{view_table};

use crate::reading::fault::Stop;
use crate::reading::fields::{byte_at, fallback_at, flag_at, text_at};
use crate::reading::items::{Reads, items_at};
use crate::reading::kinds::{MAX_DEPTH, kind_at};
use lt_core::{KeyKind, List, Reader, Text};
use lt_schema::{Column, Columns, KeyColumn, KeyColumns};
use std::alloc::Global;

/// A version as it is read.
#[derive(Debug, Drop)]
pub struct VersionRead {
    pub live: bool,
    pub columns: Columns,
}

/// A table as it is read.
#[derive(Debug, Drop)]
pub struct TableRead {
    pub number: u32,
    pub name: Text,
    pub key: KeyColumns,
    pub versions: List<VersionRead>,
}

pub type TablesRead = List<TableRead>;

/// The tables.
#[tactic(auto, unfolding(crate::specs::Texts::catalogue))]
pub fn tables_at(alloc: Global, from: &mut Reader<'_>) -> Result<TablesRead, Stop>
    ensures { Gives (map view_table) (texts.catalogue.read from.old) result from.new }
{
    let count = from.u32()?;
    items_at(alloc, count, from)
}

impl Reads for TableRead {
    ghost use Rattle.lt_tables.specs.Schema.{Table};
    ghost use Rattle.lt_manifest.specs.Texts.{table};
    ghost use Rattle.lt_manifest.specs.View.{view_table};

    ghost Seen = { Table };

    ghost view = { view_table };

    ghost reading = { table.read };

    #[tactic(auto, unfolding(crate::specs::Texts::table))]
    fn read(alloc: Global, from: &mut Reader<'_>) -> Result<TableRead, Stop> {
        let number = from.u32()?;
        let name = text_at(alloc, from)?;
        let keys = byte_at(from)?;
        let key = items_at(alloc, u32::from(keys), from)?;
        let count = from.u16()?;
        let versions = items_at(alloc, u32::from(count), from)?;
        Ok(TableRead {
            number,
            name,
            key,
            versions,
        })
    }
}

impl Reads for VersionRead {
    ghost use Rattle.lt_tables.specs.Schema.{Registered};
    ghost use Rattle.lt_manifest.specs.Texts.{version};
    ghost use Rattle.lt_manifest.specs.View.{view_read};

    ghost Seen = { Registered };

    ghost view = { view_read };

    ghost reading = { version.read };

    #[tactic(auto, unfolding(crate::specs::Texts::version))]
    fn read(alloc: Global, from: &mut Reader<'_>) -> Result<VersionRead, Stop> {
        let live = flag_at(from)?;
        let count = from.u16()?;
        let columns = items_at(alloc, u32::from(count), from)?;
        Ok(VersionRead { live, columns })
    }
}

impl Reads for Column {
    ghost use Rattle.lt_tables.specs.Schema as schema;
    ghost use Rattle.lt_schema.specs.View.{view_column};
    ghost use Rattle.lt_manifest.specs.Texts.{column};

    ghost Seen = { schema.Column };

    ghost view = { view_column };

    ghost reading = { column.read };

    #[tactic(auto, unfolding(crate::specs::Texts::column))]
    fn read(alloc: Global, from: &mut Reader<'_>) -> Result<Column, Stop> {
        let number = from.u16()?;
        let name = text_at(alloc, from)?;
        let kind = kind_at(alloc, MAX_DEPTH, from)?;
        let fallback = fallback_at(alloc, from)?;
        Ok(Column {
            number,
            name,
            kind,
            fallback,
        })
    }
}

impl Reads for KeyColumn {
    ghost use Rattle.lt_tables.specs.Schema as schema;
    ghost use Rattle.lt_schema.specs.View.{view_key_column};
    ghost use Rattle.lt_manifest.specs.Texts.{key_column};

    ghost Seen = { schema.KeyColumn };

    ghost view = { view_key_column };

    ghost reading = { key_column.read };

    #[tactic(auto, unfolding(crate::specs::Texts::key_column))]
    fn read(alloc: Global, from: &mut Reader<'_>) -> Result<KeyColumn, Stop> {
        let name = text_at(alloc, from)?;
        let kind = key_kind_at(from)?;
        Ok(KeyColumn { name, kind })
    }
}

#[tactic(auto, unfolding(lt_store_codecs::specs::StoreCodec::key_kind))]
fn key_kind_at(from: &mut Reader<'_>) -> Result<KeyKind, Stop>
    ensures { Gives (λ kind. kind) (store.key_kind.read from.old) result from.new }
{
    match from.u8()? {
        1 => Ok(KeyKind::Int64),
        2 => Ok(KeyKind::Text),
        _ => Err(Stop::Unlike),
    }
}
