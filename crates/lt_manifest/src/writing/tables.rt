//! The tables of a catalogue, with their versions.

ghost use Rattle.std.specs.Prelude.{◌≡◌, ◌++◌, OnOk};
ghost use Rattle.lt_store_codecs.specs.StoreCodec as store;

use crate::writing::fields::{put_bytes16, put_fallback, put_flag};
use crate::writing::items::{Writes, put_list, put_list8, put_list16};
use crate::writing::kinds::put_kind;
use lt_core::{KeyKind, Memory, Writer};
use lt_schema::{Column, KeyColumn, Registered, Table};
use std::alloc::Global;

/// How many tables there are, and each of them.
#[tactic(auto, unfolding(lt_store_codecs::specs::StoreCodec::catalogue))]
pub fn put_tables(alloc: Global, to: &mut Writer, tables: &[Table]) -> Result<(), Memory>
    requires { store.catalogue.Lawful tables.now }
    ensures { OnOk result (to.new ≡ to.old ++ store.catalogue.spell tables.now) }
{
    put_list(alloc, to, tables)
}

impl Writes for Table {
    ghost use Rattle.lt_tables.specs.Schema as schema;
    ghost use Rattle.lt_store_codecs.specs.StoreCodec.{table};

    ghost Seen = { schema.Table };

    ghost view = { λ t. t };

    ghost spelling = { table.spell };

    ghost Fits = { table.Lawful };

    #[tactic(auto, unfolding(lt_store_codecs::specs::StoreCodec::table))]
    fn put(&self, alloc: Global, to: &mut Writer) -> Result<(), Memory> {
        to.u32(self.number())?;
        put_bytes16(to, self.name())?;
        put_list8(alloc, to, self.key())?;
        put_list16(alloc, to, self.versions())?;
        Ok(())
    }
}

impl Writes for Registered {
    ghost use Rattle.lt_tables.specs.Schema as schema;
    ghost use Rattle.lt_store_codecs.specs.StoreCodec.{version};
    ghost use Rattle.lt_schema.specs.Tables.{view_registered};

    ghost Seen = { schema.Registered };

    ghost view = { view_registered };

    ghost spelling = { version.spell };

    ghost Fits = { version.Lawful };

    #[tactic(auto, unfolding(lt_store_codecs::specs::StoreCodec::version))]
    fn put(&self, alloc: Global, to: &mut Writer) -> Result<(), Memory> {
        put_flag(to, self.live)?;
        put_list16(alloc, to, self.version.columns.as_slice())?;
        Ok(())
    }
}

impl Writes for Column {
    ghost use Rattle.lt_tables.specs.Schema as schema;
    ghost use Rattle.lt_schema.specs.View.{view_column};
    ghost use Rattle.lt_store_codecs.specs.StoreCodec.{column};

    ghost Seen = { schema.Column };

    ghost view = { view_column };

    ghost spelling = { column.spell };

    ghost Fits = { column.Lawful };

    #[tactic(auto, unfolding(lt_store_codecs::specs::StoreCodec::column))]
    fn put(&self, alloc: Global, to: &mut Writer) -> Result<(), Memory> {
        to.u16(self.number)?;
        put_bytes16(to, self.name.as_slice())?;
        put_kind(alloc, to, &self.kind)?;
        put_fallback(alloc, to, &self.fallback)?;
        Ok(())
    }
}

impl Writes for KeyColumn {
    ghost use Rattle.lt_tables.specs.Schema as schema;
    ghost use Rattle.lt_schema.specs.View.{view_key_column};
    ghost use Rattle.lt_store_codecs.specs.StoreCodec.{key_column};

    ghost Seen = { schema.KeyColumn };

    ghost view = { view_key_column };

    ghost spelling = { key_column.spell };

    ghost Fits = { key_column.Lawful };

    #[tactic(auto, unfolding(lt_store_codecs::specs::StoreCodec::key_column))]
    fn put(&self, _: Global, to: &mut Writer) -> Result<(), Memory> {
        put_bytes16(to, self.name.as_slice())?;
        put_key_kind(to, self.kind)?;
        Ok(())
    }
}

#[tactic(auto, unfolding(lt_store_codecs::specs::StoreCodec::key_kind, lt_codecs::specs::Codec::u8))]
fn put_key_kind(to: &mut Writer, kind: KeyKind) -> Result<(), Memory>
    ensures { OnOk result (to.new ≡ to.old ++ store.key_kind.spell kind) }
{
    match kind {
        KeyKind::Int64 => to.u8(1),
        KeyKind::Text => to.u8(2),
    }
}
