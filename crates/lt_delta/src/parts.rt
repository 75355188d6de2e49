//! The items of an index: leaves, entries of bundles, and tables.

ghost use Rattle.std.specs.Prelude.{◌≡◌, ◌++◌, ◌∷◌, [], OnOk};
ghost use Rattle.lt_codecs.specs.Codec as codec;
ghost use Rattle.lt_delta.specs.Reading.{Gives};

use crate::coding::{Coded, counted, put_all};
use crate::fields::{flag_at, key_at, put_key, rank_at, rank_byte};
use crate::index::{BundleEntry, TableIndex};
use crate::order::are_lawful;
use crate::stop::Stop;
use lt_core::{Leaf, Memory, Path, Reader, Writer};
use std::alloc::Global;

impl Coded for u16 {
    ghost use Rattle.std.specs.Prelude.{ℕ};
    ghost use Rattle.lt_codecs.specs.Codec.{u16};

    ghost Seen = { ℕ };

    ghost view = { λ n. n };

    ghost codec = { u16 };

    fn read(_alloc: Global, from: &mut Reader<'_>) -> Result<u16, Stop> {
        Ok(from.u16()?)
    }

    fn put(&self, to: &mut Writer) -> Result<(), Memory> {
        to.u16(*self)
    }
}

impl Coded for Leaf {
    ghost use Rattle.lt_terms.specs.Layout.{Leaf};
    ghost use Rattle.lt_store_codecs.specs.StoreCodec.{leaf};
    ghost use Rattle.lt_core.specs.View.{view_leaf};

    ghost Seen = { Leaf };

    ghost view = { view_leaf };

    ghost codec = { leaf };

    #[tactic(auto, unfolding(lt_store_codecs::specs::StoreCodec::leaf))]
    fn read(alloc: Global, from: &mut Reader<'_>) -> Result<Leaf, Stop> {
        let column = from.u16()?;
        let path = path_at(alloc, from)?;
        let rank = rank_at(from)?;
        let presence = flag_at(from)?;
        Ok(Leaf {
            column,
            path,
            rank,
            presence,
        })
    }

    #[tactic(auto, unfolding(lt_store_codecs::specs::StoreCodec::leaf, lt_codecs::specs::Codec::u16, lt_codecs::specs::Codec::byte))]
    fn put(&self, to: &mut Writer) -> Result<(), Memory> {
        to.u16(self.column)?;
        put_byte(to, self.path.len() as u8)?;
        put_all(to, self.path.as_slice())?;
        put_byte(to, rank_byte(self.rank))?;
        put_byte(to, u8::from(self.presence))?;
        Ok(())
    }
}

/// A count of one byte, and so many numbers.
#[tactic(auto, unfolding(lt_codecs::specs::Codec::byte))]
fn path_at(alloc: Global, from: &mut Reader<'_>) -> Result<Path, Stop>
    ensures { Gives (λ path. path) ((codec.counted codec.byte codec.u16).read from.old) result from.new }
{
    let count = from.u8()?;
    counted(alloc, u64::from(count), from)
}

fn put_byte(to: &mut Writer, byte: u8) -> Result<(), Memory>
    ensures { OnOk result (to.new ≡ to.old ++ byte ∷ []) }
{
    to.bytes(&[byte])
}

impl Coded for BundleEntry {
    ghost use Rattle.lt_storage.specs.Store.{BundleEntry};
    ghost use Rattle.lt_store_codecs.specs.StoreCodec.{entry};
    ghost use Rattle.lt_delta.specs.View.{view_entry};

    ghost Seen = { BundleEntry };

    ghost view = { view_entry };

    ghost codec = { entry };

    #[tactic(auto, unfolding(lt_store_codecs::specs::StoreCodec::entry))]
    fn read(alloc: Global, from: &mut Reader<'_>) -> Result<BundleEntry, Stop> {
        let place = from.u64()?;
        let length = from.u64()?;
        let versions = from.u64()?;
        let first = key_at(alloc, from)?;
        let last = key_at(alloc, from)?;
        let least = from.u64()?;
        let greatest = from.u64()?;
        Ok(BundleEntry {
            place,
            length,
            versions,
            first,
            last,
            least,
            greatest,
        })
    }

    #[tactic(auto, unfolding(lt_store_codecs::specs::StoreCodec::entry, lt_codecs::specs::Codec::u64, lt_codecs::specs::Codec::bytes16, lt_codecs::specs::Codec::u16))]
    fn put(&self, to: &mut Writer) -> Result<(), Memory> {
        to.u64(self.place)?;
        to.u64(self.length)?;
        to.u64(self.versions)?;
        put_key(to, &self.first)?;
        put_key(to, &self.last)?;
        to.u64(self.least)?;
        to.u64(self.greatest)?;
        Ok(())
    }
}

impl Coded for TableIndex {
    ghost use Rattle.lt_storage.specs.Store.{TableIndex};
    ghost use Rattle.lt_store_codecs.specs.StoreCodec.{table_index};
    ghost use Rattle.lt_delta.specs.View.{view_table};

    ghost Seen = { TableIndex };

    ghost view = { view_table };

    ghost codec = { table_index };

    #[tactic(auto, unfolding(lt_store_codecs::specs::StoreCodec::table_index))]
    fn read(alloc: Global, from: &mut Reader<'_>) -> Result<TableIndex, Stop> {
        let table = from.u32()?;
        let leaves = from.u32()?;
        let layout = counted(alloc, u64::from(leaves), from)?;
        let bundles = from.u64()?;
        let entries = counted(alloc, bundles, from)?;
        if are_lawful(&entries) {
            Ok(TableIndex {
                table,
                layout,
                entries,
            })
        } else {
            Err(Stop::Unlike)
        }
    }

    #[tactic(auto, unfolding(lt_store_codecs::specs::StoreCodec::table_index, lt_codecs::specs::Codec::u32, lt_codecs::specs::Codec::u64))]
    fn put(&self, to: &mut Writer) -> Result<(), Memory> {
        to.u32(self.table)?;
        to.u32(self.layout.len() as u32)?;
        put_all(to, self.layout.as_slice())?;
        to.u64(self.entries.len() as u64)?;
        put_all(to, self.entries.as_slice())?;
        Ok(())
    }
}
