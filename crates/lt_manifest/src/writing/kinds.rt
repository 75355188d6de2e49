//! Kinds. The recursion goes down the kind, which nests at most 4 deep.

ghost use Rattle.std.specs.Prelude.{◌≡◌, ◌++◌, OnOk};
ghost use Rattle.lt_terms.specs.declared.Rank as ranks;
ghost use Rattle.lt_terms.specs.Kind.{rank_number};
ghost use Rattle.lt_storage.specs.Store.{kind_bytes};
ghost use Rattle.lt_core.specs.View.{view_kind};
ghost use Rattle.lt_codecs.specs.Codec as codec;
ghost use Rattle.lt_store_codecs.specs.StoreCodec as store;
ghost use Rattle.lt_manifest.specs.Writing.{AreFields, HasSpelling, fields_bytes};

use crate::writing::fields::{put_bytes16, put_i32};
use crate::writing::items::{Writes, put_list16};
use lt_core::{FieldKinds, Kind, Memory, Names, Rank, Text, Writer};
use std::alloc::Global;

#[cycle(put)]
pub fn put_kind(alloc: Global, to: &mut Writer, kind: &Kind) -> Result<(), Memory>
    requires { HasSpelling kind.now }
    ensures { OnOk result (to.new ≡ to.old ++ kind_bytes (view_kind kind.now)) }
{
    match kind {
        Kind::Plain(rank) => to.u8(number_of(*rank))?,
        Kind::Enum(names) => {
            to.u8(6)?;
            put_names(alloc, to, names)?;
        }
        Kind::Struct(fields) => {
            to.u8(7)?;
            put_fields(alloc, to, fields)?;
        }
    }
    Ok(())
}

/// How many there are, and each with its number and name.
#[cycle(put)]
fn put_fields(alloc: Global, to: &mut Writer, fields: &FieldKinds) -> Result<(), Memory>
    requires { AreFields fields.now }
    ensures { OnOk result (to.new ≡ to.old ++ fields_bytes fields.now) }
{
    to.u16(fields.len() as u16)?;
    for (number, name, kind) in fields.as_slice() {
        to.u16(*number)?;
        put_bytes16(to, name.as_slice())?;
        put_kind(alloc, to, kind)?;
    }
    Ok(())
}

fn number_of(rank: Rank) -> u8
    ensures { result ≡ rank_number rank }
{
    match rank {
        Rank::Bool => 1,
        Rank::Int32 => 2,
        Rank::Int64 => 3,
        Rank::Text => 4,
        Rank::Bytes => 5,
    }
}

/// The names of an enum's numbers.
#[tactic(auto, unfolding(lt_store_codecs::specs::StoreCodec::enum_names))]
fn put_names(alloc: Global, to: &mut Writer, names: &Names) -> Result<(), Memory>
    requires { store.enum_names.Lawful names.now }
    ensures { OnOk result (to.new ≡ to.old ++ store.enum_names.spell names.now) }
{
    put_list16(alloc, to, names.as_slice())
}

/// A number, and its name.
impl Writes for (i32, Text) {
    ghost use Rattle.std.specs.Prelude.{List as Listed, ℕ, ℤ};
    ghost use Rattle.lt_codecs.specs.Codec.{bytes16, i32, ◌then◌};

    ghost Seen = { ℤ × Listed ℕ };

    ghost view = { λ n. n };

    ghost spelling = { (i32 then bytes16).spell };

    ghost Fits = { (i32 then bytes16).Lawful };

    fn put(&self, _: Global, to: &mut Writer) -> Result<(), Memory> {
        let (number, name) = self;
        put_i32(to, *number)?;
        put_bytes16(to, name.as_slice())?;
        Ok(())
    }
}
