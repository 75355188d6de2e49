//! Records as lines. Writing takes time linear in the line.

ghost use Rattle.std.specs.Prelude.{◌≡◌, ◌<◌, ◌^◌, IfOk, IsTrue, Some, map, string_bytes};
ghost use Rattle.serde_json.specs.View.{view};
ghost use Rattle.lt_terms.specs.declared.Format.TheVariants as format;
ghost use Rattle.lt_terms.specs.Log.{is_content};
ghost use Rattle.lt_core.specs.View.{view_part, view_parts, view_settings};
ghost use Rattle.lt_records.specs.View.{view_change, view_header, view_item};
ghost use Rattle.lt_log_text.specs.Lines.{change_members, checkpoint_members, header_members, item_data, item_has_bytes, item_of_line, line_of, list_data, op_name, part_data, setting_data};
ghost use Rattle.serde_json.specs.Data.{object};

mod value;

use crate::writing::value::{hex_json, settings_json};
use lt_core::{Blob, KeyPart, KeyParts, List, Memory, Op};
use lt_records::{ChangeRecord, LogRecord, StreamHeader};
use serde_json::{Map, Value as Json, put};
use std::alloc::Global;

/// The line of a record that stands at an offset of a log, without its end.
pub fn write_line(alloc: Global, offset: u64, item: &LogRecord) -> Result<Blob, Memory>
    ensures line { IfOk result (λ line. line ≡ line_of offset (view_item item.now)) }
    ensures reads_back { IfOk result (λ line. IsTrue (item_has_bytes (view_item item.now))
        → IsTrue (is_content format.One (view_item item.now)) → item_of_line line ≡ Some (view_item item.now)) }
{
    let json = item_json(alloc, offset, item)?;
    Ok(List::from_vec(json.to_vec(alloc)?))
}

fn item_json(alloc: Global, offset: u64, item: &LogRecord) -> Result<Json, Memory>
    ensures { IfOk result (λ json. view json ≡ item_data offset (view_item item.now)) }
{
    match item {
        LogRecord::Header(header) => header_json(alloc, offset, header),
        LogRecord::Change(change) => change_json(alloc, offset, change),
        LogRecord::Checkpoint(ts) => checkpoint_json(alloc, offset, *ts),
    }
}

fn header_json(alloc: Global, offset: u64, header: &StreamHeader) -> Result<Json, Memory>
    ensures { IfOk result (λ json. view json ≡ object (header_members offset (view_header header.now))) }
{
    let mut members = Map::new(alloc);
    put(&mut members, alloc, "header", Json::from(header.stream))?;
    if let Some(high) = &header.range.high {
        put(&mut members, alloc, "high", hex_json(alloc, high)?)?;
    }
    put(
        &mut members,
        alloc,
        "low",
        hex_json(alloc, &header.range.low)?,
    )?;
    put(&mut members, alloc, "offset", Json::from(offset))?;
    Ok(Json::Object(members))
}

fn change_json(alloc: Global, offset: u64, change: &ChangeRecord) -> Result<Json, Memory>
    ensures { IfOk result (λ json. view json ≡ object (change_members offset (view_change change.now))) }
{
    let mut members = Map::new(alloc);
    put(&mut members, alloc, "at", Json::from(change.ts))?;
    put(
        &mut members,
        alloc,
        "change",
        Json::try_from_str(alloc, op_name(change.op))?,
    )?;
    put(&mut members, alloc, "key", key_json(alloc, &change.key)?)?;
    put(&mut members, alloc, "offset", Json::from(offset))?;
    put(
        &mut members,
        alloc,
        "set",
        settings_json(alloc, &change.set)?,
    )?;
    put(&mut members, alloc, "table", Json::from(change.table))?;
    put(&mut members, alloc, "version", Json::from(change.version))?;
    Ok(Json::Object(members))
}

fn checkpoint_json(alloc: Global, offset: u64, ts: u64) -> Result<Json, Memory>
    ensures { IfOk result (λ json. view json ≡ object (checkpoint_members offset ts)) }
{
    let mut members = Map::new(alloc);
    put(&mut members, alloc, "checkpoint", Json::from(ts))?;
    put(&mut members, alloc, "offset", Json::from(offset))?;
    Ok(Json::Object(members))
}

fn op_name(op: Op) -> &'static str
    ensures { result.now ≡ op_name op }
{
    match op {
        Op::Insert => "insert",
        Op::Update => "update",
        Op::Delete => "delete",
    }
}

fn key_json(alloc: Global, key: &KeyParts) -> Result<Json, Memory>
    ensures { IfOk result (λ json. view json ≡ list_data (map part_data (view_parts key.now))) }
{
    let mut items = Vec::new(alloc);
    for part in key.as_slice() {
        items.push(part_json(alloc, part)?)?;
    }
    Ok(Json::Array(items))
}

fn part_json(alloc: Global, part: &KeyPart) -> Result<Json, Memory>
    ensures { IfOk result (λ json. view json ≡ part_data (view_part part.now)) }
{
    match part {
        KeyPart::Int(number) => Ok(Json::from(*number)),
        KeyPart::Text(text) => Ok(Json::try_from_str(alloc, text.as_str())?),
    }
}
