//! Writing changes. It takes time linear in what is written.

ghost use Rattle.std.specs.Prelude.{◌≡◌, ◌++◌, IsTrue, OnOk};
ghost use Rattle.lt_terms.specs.Log.{is_change, is_log_part};
ghost use Rattle.lt_core.specs.View.{view_part, view_parts};
ghost use Rattle.lt_codecs.specs.Codec as codec;
ghost use Rattle.lt_codecs.specs.LogCodec as log;
ghost use Rattle.lt_records.specs.View.{parts_of, view_change};
ghost use Rattle.lt_records.specs.Writing.{AreParts};

use crate::record::ChangeRecord;
use crate::writing::field::{put_bytes32, put_i64};
use crate::writing::value::put_settings;
use lt_core::{KeyPart, KeyParts, Memory, Op, Writer};

#[tactic(auto, using(crate::proofs::Spellings::change_parts_spelled, crate::proofs::Spellings::change_settings_spelled), unfolding(lt_codecs::specs::LogCodec::change_parts, lt_codecs::specs::LogCodec::table_number, lt_codecs::specs::LogCodec::version_number))]
pub fn put_change(to: &mut Writer, change: &ChangeRecord) -> Result<(), Memory>
    requires { IsTrue (is_change (view_change change.now)) }
    ensures { OnOk result (to.new ≡ to.old ++
        (codec.u64.spell change.now.ts ++ log.change_parts.spell (parts_of change.now))) }
{
    to.u64(change.ts)?;
    to.u32(change.table)?;
    to.u32(change.version)?;
    put_op(to, change.op)?;
    put_parts(to, &change.key)?;
    put_settings(to, &change.set)?;
    Ok(())
}

#[tactic(auto, unfolding(lt_codecs::specs::LogCodec::op, lt_codecs::specs::Codec::u8))]
fn put_op(to: &mut Writer, op: Op) -> Result<(), Memory>
    ensures { OnOk result (to.new ≡ to.old ++ log.op.spell op) }
{
    match op {
        Op::Insert => to.u8(1),
        Op::Update => to.u8(2),
        Op::Delete => to.u8(3),
    }
}

/// How many there are, and each of them.
#[tactic(auto, unfolding(lt_codecs::specs::LogCodec::parts, lt_codecs::specs::LogCodec::part_count))]
fn put_parts(to: &mut Writer, parts: &KeyParts) -> Result<(), Memory>
    requires { AreParts parts.now }
    ensures { OnOk result (to.new ≡ to.old ++ log.parts.spell (view_parts parts.now)) }
{
    to.u8(parts.len() as u8)?;
    for part in parts.as_slice() {
        put_part(to, part)?;
    }
    Ok(())
}

#[tactic(auto, using(crate::proofs::Spellings::int_part_spells, crate::proofs::Spellings::text_part_spells, crate::proofs::Spellings::text_part_fits))]
fn put_part(to: &mut Writer, part: &KeyPart) -> Result<(), Memory>
    requires { IsTrue (is_log_part (view_part part.now)) }
    ensures { OnOk result (to.new ≡ to.old ++ log.part.spell (view_part part.now)) }
{
    match part {
        KeyPart::Int(number) => {
            to.u8(1)?;
            put_i64(to, *number)?;
        }
        KeyPart::Text(text) => {
            to.u8(2)?;
            put_bytes32(to, text.as_slice())?;
        }
    }
    Ok(())
}
