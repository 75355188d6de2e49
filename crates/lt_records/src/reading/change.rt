//! Changes, part by part. Reading takes time linear in the bytes that are taken.

ghost use Rattle.std.specs.Prelude.{◌≡◌};
ghost use Rattle.lt_core.specs.View.{view_part, view_parts};
ghost use Rattle.lt_codecs.specs.Codec.{read_times};
ghost use Rattle.lt_codecs.specs.LogCodec as log;
ghost use Rattle.lt_records.specs.Reading.{Gives};
ghost use Rattle.lt_records.specs.View.{parts_of, view_change};

use crate::reading::fault::Stop;
use crate::reading::field::{i64_at, text_at};
use crate::reading::key_length::key_fits;
use crate::reading::value::{MAX_DEPTH, settings_at};
use crate::record::ChangeRecord;
use lt_core::{KeyPart, KeyParts, List, Op, Reader, Ts};
use std::alloc::Global;

/// The most parts that a key may have.
const MAX_PARTS: u8 = 8;

/// The greatest number of a table.
const MAX_TABLE: u32 = 65_535;

/// The greatest number of a version.
const MAX_VERSION: u32 = 256;

/// One more than the greatest timestamp.
const TS_END: Ts = 1 << 63;

#[tactic(auto, unfolding(lt_codecs::specs::LogCodec::change))]
pub fn change_at(alloc: Global, from: &mut Reader<'_>) -> Result<ChangeRecord, Stop>
    ensures { Gives view_change (log.change.read from.old) result from.new }
{
    let ts = timestamp_at(from)?;
    change_behind(alloc, ts, from)
}

/// The rest of a change at a timestamp.
#[tactic(auto, unfolding(lt_codecs::specs::LogCodec::change_parts, lt_codecs::specs::LogCodec::settings, lt_codecs::specs::LogCodec::log_value))]
fn change_behind(alloc: Global, ts: Ts, from: &mut Reader<'_>) -> Result<ChangeRecord, Stop>
    ensures { Gives view_change ((log.change_at ts).read from.old) result from.new }
{
    let table = table_at(from)?;
    let version = version_at(from)?;
    let op = op_at(from)?;
    let key = parts_at(alloc, from)?;
    let set = settings_at(alloc, MAX_DEPTH, from)?;
    let change = ChangeRecord {
        ts,
        table,
        version,
        op,
        key,
        set,
    };
    if fits_together(&change) {
        Ok(change)
    } else {
        Err(Stop::Unlike)
    }
}

#[tactic(auto, unfolding(lt_codecs::specs::LogCodec::timestamp))]
pub fn timestamp_at(from: &mut Reader<'_>) -> Result<Ts, Stop>
    ensures { Gives (λ t. t) (log.timestamp.read from.old) result from.new }
{
    let ts = from.u64()?;
    if 0 < ts && ts < TS_END {
        Ok(ts)
    } else {
        Err(Stop::Unlike)
    }
}

#[tactic(auto, unfolding(lt_codecs::specs::LogCodec::table_number))]
fn table_at(from: &mut Reader<'_>) -> Result<u32, Stop>
    ensures { Gives (λ n. n) (log.table_number.read from.old) result from.new }
{
    let table = from.u32()?;
    if 0 < table && table <= MAX_TABLE {
        Ok(table)
    } else {
        Err(Stop::Unlike)
    }
}

#[tactic(auto, unfolding(lt_codecs::specs::LogCodec::version_number))]
fn version_at(from: &mut Reader<'_>) -> Result<u32, Stop>
    ensures { Gives (λ n. n) (log.version_number.read from.old) result from.new }
{
    let version = from.u32()?;
    if 0 < version && version <= MAX_VERSION {
        Ok(version)
    } else {
        Err(Stop::Unlike)
    }
}

#[tactic(auto, unfolding(lt_codecs::specs::LogCodec::op))]
fn op_at(from: &mut Reader<'_>) -> Result<Op, Stop>
    ensures { Gives (λ o. o) (log.op.read from.old) result from.new }
{
    match from.u8()? {
        1 => Ok(Op::Insert),
        2 => Ok(Op::Update),
        3 => Ok(Op::Delete),
        _ => Err(Stop::Unlike),
    }
}

#[tactic(auto, unfolding(lt_codecs::specs::LogCodec::parts))]
fn parts_at(alloc: Global, from: &mut Reader<'_>) -> Result<KeyParts, Stop>
    ensures { Gives view_parts (log.parts.read from.old) result from.new }
{
    let count = part_count_at(from)?;
    counted_at(alloc, count, from)
}

#[tactic(auto, unfolding(lt_codecs::specs::LogCodec::part_count))]
fn part_count_at(from: &mut Reader<'_>) -> Result<u8, Stop>
    ensures { Gives (λ n. n) (log.part_count.read from.old) result from.new }
{
    let count = from.u8()?;
    if 0 < count && count <= MAX_PARTS {
        Ok(count)
    } else {
        Err(Stop::Unlike)
    }
}

/// So many parts.
fn counted_at(alloc: Global, count: u8, from: &mut Reader<'_>) -> Result<KeyParts, Stop>
    ensures { Gives view_parts (read_times log.part.read count from.old) result from.new }
{
    let mut parts = List::new(alloc);
    for _ in 0..count {
        let part = part_at(alloc, from)?;
        parts.push(part)?;
    }
    Ok(parts)
}

#[tactic(auto, unfolding(lt_codecs::specs::LogCodec::part))]
fn part_at(alloc: Global, from: &mut Reader<'_>) -> Result<KeyPart, Stop>
    ensures { Gives view_part (log.part.read from.old) result from.new }
{
    match from.u8()? {
        1 => Ok(KeyPart::Int(i64_at(from)?)),
        2 => Ok(KeyPart::Text(text_at(alloc, from)?)),
        _ => Err(Stop::Unlike),
    }
}

/// Whether the encoded key is short enough, and a delete has no columns.
fn fits_together(change: &ChangeRecord) -> bool
    ensures { result ≡ log.fit_together (parts_of change.now) }
{
    key_fits(&change.key) && (change.op != Op::Delete || change.set.len() == 0)
}
