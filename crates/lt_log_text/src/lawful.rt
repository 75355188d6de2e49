//! Which records have a frame, if its body is not too long.
//!
//! Each test takes time linear in what it looks at. The recursion goes down values, and the levels are counted down.

ghost use Rattle.std.specs.Prelude.{◌≡◌, ◌&&◌, ◌||◌, ◌==◌, ◌^◌, not, length, map, nat_le, nat_lt, IfOk};
ghost use Rattle.std.specs.List.{list_all};
ghost use Rattle.std.specs.Str.{is_utf8};
ghost use Rattle.lt_terms.specs.declared.Format.TheVariants as format;
ghost use Rattle.lt_terms.specs.Key.{key_bytes, max_key};
ghost use Rattle.lt_terms.specs.Log.{fits_high, is_change, is_header, is_log_part, is_log_value, op_byte};
ghost use Rattle.lt_terms.specs.Value.{are_fields, fields_of, fits_64, is_number, is_timestamp, is_value, rises_above};
ghost use Rattle.lt_core.specs.View.{view_part, view_parts, view_settings, view_value};
ghost use Rattle.lt_records.specs.View.{view_change, view_header, view_item};
ghost use Rattle.lt_log_text.specs.Lines.{lawful};
ghost use Rattle.lt_log_text.specs.Reading.{Gives};

use crate::refusal::{LineRefusal, Rule};
use lt_core::{
    Fields, KeyBytes, KeyPart, KeyParts, MAX_KEY, Memory, Op, Settings, Text, Value, encode_prefix,
};
use lt_records::{ChangeRecord, LogRecord, StreamHeader};
use std::alloc::Global;

/// One more than the greatest timestamp.
const TS_END: u64 = 1 << 63;

/// One more than the length that the longest text or bytes may have.
const LENGTH_END: usize = 1 << 32;

/// How deep the values of logs may nest.
const MAX_DEPTH: u8 = 4;

/// The most parts that a key may have.
const MAX_PARTS: usize = 8;

/// The record has a frame where its body is not too long.
pub fn check(alloc: Global, record: &LogRecord) -> Result<(), LineRefusal>
    ensures { Gives (λ _. view_item record.now) (lawful (view_item record.now)) result }
{
    match record {
        LogRecord::Header(header) if is_header(header) => Ok(()),
        LogRecord::Change(change) if is_change(alloc, change)? => Ok(()),
        LogRecord::Checkpoint(ts) if is_timestamp(*ts) => Ok(()),
        _ => Err(LineRefusal::Unlawful {
            rule: rule_of(record),
        }),
    }
}

/// A rule that is broken, given that one is.
fn rule_of(record: &LogRecord) -> Rule {
    match record {
        LogRecord::Header(_) => Rule::Bounds,
        LogRecord::Checkpoint(_) => Rule::Timestamp,
        LogRecord::Change(change) => {
            if !is_timestamp(change.ts) {
                Rule::Timestamp
            } else if !is_number(change.table) || change.version < 1 || change.version > 256 {
                Rule::Numbers
            } else if rise(&change.set) && are_values(&change.set) && may_set(change) {
                Rule::Key
            } else {
                Rule::Set
            }
        }
    }
}

fn is_header(header: &StreamHeader) -> bool
    ensures { result ≡ is_header format.One (view_header header.now) }
{
    let _fits = header.stream;
    header.range.low.len() <= MAX_KEY && fits_high(&header.range.low, &header.range.high)
}

fn fits_high(low: &KeyBytes, high: &Option<KeyBytes>) -> bool
    ensures { result ≡ fits_high low.now high.now }
{
    match high {
        None => true,
        Some(high) => low.as_slice().cmp(high.as_slice()).is_lt() && high.len() <= MAX_KEY,
    }
}

fn is_timestamp(ts: u64) -> bool
    ensures { result ≡ is_timestamp ts }
{
    0 < ts && ts < TS_END
}

fn is_number(number: u32) -> bool
    ensures { result ≡ is_number number }
{
    0 < number && number < 65_536
}

fn is_change(alloc: Global, change: &ChangeRecord) -> Result<bool, Memory>
    ensures { IfOk result (λ b. b ≡ is_change (view_change change.now)) }
{
    let key = &change.key;
    let fits = key_fits(alloc, change.table, key)?;
    Ok(
        is_timestamp(change.ts)
            && is_number(change.table)
            && 0 < change.version
            && change.version <= 256
            && 0 < key.len()
            && key.len() <= MAX_PARTS
            && are_parts(key)
            && fits
            && rise(&change.set)
            && are_values(&change.set)
            && may_set(change),
    )
}

/// Whether the key's bytes are few enough.
fn key_fits(alloc: Global, table: u32, key: &KeyParts) -> Result<bool, Memory>
    ensures { IfOk result (λ b. b ≡ nat_le (length (key_bytes table (view_parts key.now))) max_key) }
{
    let bytes = encode_prefix(alloc, table, key)?;
    Ok(bytes.len() <= MAX_KEY)
}

fn are_parts(key: &KeyParts) -> bool
    ensures { result ≡ list_all is_log_part (view_parts key.now) }
{
    for part in key.as_slice() {
        if !is_part(part) {
            return false;
        }
    }
    true
}

fn is_part(part: &KeyPart) -> bool
    ensures { result ≡ is_log_part (view_part part.now) }
{
    match part {
        KeyPart::Int(number) => is_whole(*number),
        KeyPart::Text(text) => is_text(text),
    }
}

/// Every `i64` has a spelling.
fn is_whole(number: i64) -> bool
    ensures { result ≡ fits_64 number }
{
    let _fits = number;
    true
}

fn is_text(text: &Text) -> bool
    ensures { result ≡ (is_utf8 text.now && nat_lt (length text.now) (2 ^ 32)) }
{
    text.as_slice().len() < LENGTH_END
}

/// Whether the numbers rise strictly from 1 on.
fn rise(settings: &Settings) -> bool
    ensures { result ≡ rises_above 0 (map (λ s. s.0) (view_settings settings.now)) }
{
    let mut low = 0;
    for (number, _) in settings.as_slice() {
        if *number <= low {
            return false;
        }
        low = *number;
    }
    true
}

fn are_values(settings: &Settings) -> bool
    ensures { result ≡ list_all (λ s. is_number s.0 && is_log_value s.1) (view_settings settings.now) }
{
    for (number, value) in settings.as_slice() {
        if *number == 0 || !is_value(MAX_DEPTH, value) {
            return false;
        }
    }
    true
}

/// Whether a value nests at most so deep, and its texts and bytes are short enough.
#[cycle(value)]
fn is_value(depth: u8, value: &Value) -> bool
    ensures { result ≡ is_value depth (view_value value.now) }
{
    match value {
        Value::Null | Value::Bool(_) => true,
        Value::Int(number) => is_whole(*number),
        Value::Text(text) => is_text(text),
        Value::Bytes(bytes) => bytes.len() < LENGTH_END,
        Value::Struct(fields) => depth > 0 && are_fields(depth - 1, fields),
    }
}

#[cycle(value)]
fn are_fields(depth: u8, fields: &Fields) -> bool
    ensures { result ≡ are_fields depth 0 (fields_of (view_settings fields.now)) }
{
    let mut low = 0;
    for (number, value) in fields.as_slice() {
        if *number <= low || !is_value(depth, value) {
            return false;
        }
        low = *number;
    }
    true
}

/// A delete sets no column.
fn may_set(change: &ChangeRecord) -> bool
    ensures { result ≡ (not (op_byte change.now.op == 3) || length change.now.set == 0) }
{
    change.op != Op::Delete || change.set.len() == 0
}
