//! Lines as records. Reading takes time linear in the line, but for the look-up of members.

ghost use Rattle.std.specs.Prelude.{◌≡◌, option_and_then, option_map};
ghost use Rattle.serde_json.specs.Find.{get_member};
ghost use Rattle.serde_json.specs.View.{members_view, view};
ghost use Rattle.lt_words.specs.SchemaText.{as_members};
ghost use Rattle.lt_schema_json.specs.Reading.{json_of};
ghost use Rattle.lt_records.specs.View.{view_change, view_header, view_item};
ghost use Rattle.lt_log_text.specs.Lines.{change_in, header_in, hex_in, high_in, item_in, item_of_line, key_in, large_in, op_in, op_named, record_in, set_in, time_in, wanted};
ghost use Rattle.lt_log_text.specs.Reading.{Gives, Reads};
ghost use Rattle.lt_core.specs.View.{view_parts, view_settings};
ghost use Rattle.std.specs.Prelude.{codes};

mod value;

use crate::lawful::check;
use crate::reading::value::{hex_in, key_in, settings_in};
use crate::refusal::{LineRefusal, Member, Stop};
use lt_core::{Blob, KeyBytes, KeyParts, Op, Range, Settings};
use lt_records::{ChangeRecord, LogRecord, StreamHeader};
use serde_json::{Map, Value as Json};
use std::alloc::Global;

/// The members of a line's object.
pub type Members = Map<String, Json>;

/// The record that a line says, without its end. What it says has a frame where its body is not too long. Members of other
/// names, as the offset, are not looked at.
#[tactic(auto, unfolding(crate::specs::Lines::item_of_line))]
pub fn read_line(alloc: Global, line: &[u8]) -> Result<LogRecord, LineRefusal>
    ensures { Gives view_item (item_of_line line.now) result }
{
    let json = json_in(alloc, line)?;
    let record = record_in(alloc, &json)?;
    check(alloc, &record)?;
    Ok(record)
}

fn json_in(alloc: Global, line: &[u8]) -> Result<Json, LineRefusal>
    ensures { Gives view (json_of line.now) result }
{
    match Json::from_slice(alloc, line) {
        Ok(json) => Ok(json),
        Err(error) if error.is_memory() => Err(LineRefusal::Memory),
        Err(_) => Err(LineRefusal::NotJson),
    }
}

fn record_in(alloc: Global, json: &Json) -> Result<LogRecord, LineRefusal>
    ensures { Gives view_item (option_and_then record_in (as_members (view json.now))) result }
{
    let Some(members) = json.as_object() else {
        return Err(LineRefusal::NotAnObject);
    };
    members_in(alloc, members)
}

fn members_in(alloc: Global, members: &Members) -> Result<LogRecord, LineRefusal>
    ensures { Gives view_item (record_in (members_view members.now.entries)) result }
{
    if get(members, "change").is_some() {
        return Ok(LogRecord::Change(change_in(alloc, members)?));
    }
    if get(members, "checkpoint").is_some() {
        return Ok(LogRecord::Checkpoint(time_at(members, "checkpoint", Member::Checkpoint)?));
    }
    Ok(LogRecord::Header(header_in(alloc, members)?))
}

fn header_in(alloc: Global, members: &Members) -> Result<StreamHeader, LineRefusal>
    ensures { Gives view_header (header_in (members_view members.now.entries)) result }
{
    let stream = large_at(members, "header", Member::Header)?;
    let low = hex_at(alloc, members, "low", Member::Low)?;
    let high = high_in(alloc, members)?;
    Ok(StreamHeader {
        stream,
        range: Range { low, high },
    })
}

fn high_in(alloc: Global, members: &Members) -> Result<Option<KeyBytes>, LineRefusal>
    ensures { Gives (λ high. high) (high_in (get_member (codes "high") (members_view members.now.entries))) result }
{
    match get(members, "high") {
        None => Ok(None),
        Some(value) => match hex_in(alloc, value) {
            Ok(high) => Ok(Some(high)),
            Err(stop) => Err(stop.at(Member::High)),
        },
    }
}

fn change_in(alloc: Global, members: &Members) -> Result<ChangeRecord, LineRefusal>
    ensures { Gives view_change (change_in (members_view members.now.entries)) result }
{
    let op = op_at(members)?;
    let ts = time_at(members, "at", Member::At)?;
    let table = large_at(members, "table", Member::Table)?;
    let version = large_at(members, "version", Member::Version)?;
    let key = key_at(alloc, members)?;
    let set = set_at(alloc, members)?;
    Ok(ChangeRecord {
        ts,
        table,
        version,
        op,
        key,
        set,
    })
}

fn op_at(members: &Members) -> Result<Op, LineRefusal>
    ensures { Gives (λ op. op) (wanted op_in (get_member (codes "change") (members_view members.now.entries))) result }
{
    let value = member(members, "change", Member::Change)?;
    match value.as_str().and_then(op_named) {
        Some(op) => Ok(op),
        None => Err(LineRefusal::Wrong {
            member: Member::Change,
        }),
    }
}

fn op_named(name: &str) -> Option<Op>
    ensures { result ≡ op_named name.now }
{
    match name {
        "insert" => Some(Op::Insert),
        "update" => Some(Op::Update),
        "delete" => Some(Op::Delete),
        _ => None,
    }
}

fn key_at(alloc: Global, members: &Members) -> Result<KeyParts, LineRefusal>
    ensures { Gives view_parts (wanted key_in (get_member (codes "key") (members_view members.now.entries))) result }
{
    let value = member(members, "key", Member::Key)?;
    key_in(alloc, value).map_err(|stop| stop.at(Member::Key))
}

fn set_at(alloc: Global, members: &Members) -> Result<Settings, LineRefusal>
    ensures { Gives view_settings (wanted set_in (get_member (codes "set") (members_view members.now.entries))) result }
{
    let value = member(members, "set", Member::Set)?;
    settings_in(alloc, value).map_err(|stop| stop.at(Member::Set))
}

/// A member that is bytes.
fn hex_at(alloc: Global, members: &Members, name: &str, at: Member) -> Result<Blob, LineRefusal>
    ensures { Gives (λ bytes. bytes) (wanted hex_in (get_member name.now (members_view members.now.entries))) result }
{
    let value = member(members, name, at)?;
    hex_in(alloc, value).map_err(|stop| stop.at(at))
}

/// A member that is a timestamp.
fn time_at(members: &Members, name: &str, at: Member) -> Result<u64, LineRefusal>
    ensures { Gives (λ n. n) (wanted time_in (get_member name.now (members_view members.now.entries))) result }
{
    let value = member(members, name, at)?;
    time_in(value).map_err(|stop| stop.at(at))
}

fn time_in(value: &Json) -> Result<u64, Stop>
    ensures { Reads (λ n. n) (time_in (view value.now)) result }
{
    let whole = value.as_i64().ok_or(Stop::Unlike)?;
    match u64::try_from(whole) {
        Ok(number) => Ok(number),
        Err(_) => Err(Stop::Unlike),
    }
}

/// A member that is a number of 32 bits.
fn large_at(members: &Members, name: &str, at: Member) -> Result<u32, LineRefusal>
    ensures { Gives (λ n. n) (wanted large_in (get_member name.now (members_view members.now.entries))) result }
{
    let value = member(members, name, at)?;
    large_in(value).map_err(|stop| stop.at(at))
}

fn large_in(value: &Json) -> Result<u32, Stop>
    ensures { Reads (λ n. n) (large_in (view value.now)) result }
{
    let whole = value.as_i64().ok_or(Stop::Unlike)?;
    match u32::try_from(whole) {
        Ok(number) => Ok(number),
        Err(_) => Err(Stop::Unlike),
    }
}

/// A member, which has to be there.
fn member<'m>(members: &'m Members, name: &str, at: Member) -> Result<&'m Json, LineRefusal>
    ensures { Gives (λ v. view v.now) (get_member name.now (members_view members.now.entries)) result }
{
    get(members, name).ok_or(LineRefusal::Missing { member: at })
}

/// The member of this name.
fn get<'m>(members: &'m Members, name: &str) -> Option<&'m Json>
    ensures { option_map (λ v. view v.now) result ≡ get_member name.now (members_view members.now.entries) }
{
    members.get(name)
}
