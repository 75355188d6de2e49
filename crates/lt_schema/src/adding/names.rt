//! Names: which are lawful, and the first that is not.
//!
//! Looking takes time linear in the version. The recursion goes down a kind, as deep as it nests.

ghost use Rattle.std.specs.Prelude.{◌≡◌, ◌&&◌, length, map, nat_lt};
ghost use Rattle.std.specs.List.{list_all};
ghost use Rattle.std.specs.Option.{option_copied};
ghost use Rattle.lt_tables.specs.Schema.{any_bad_name, bad_name_in, bad_name_of, bad_name_within, field_names, is_letter, is_name, is_name_byte};
ghost use Rattle.lt_core.specs.View.{view_kind};
ghost use Rattle.lt_schema.specs.Names.{bad_column_name, bad_key_name};
ghost use Rattle.lt_schema.specs.View.{view_columns, view_fields, view_key, view_version};

use crate::version::{Column, KeyColumn, SchemaVersion};
use lt_core::{FieldKinds, Kind, Names, Text};

/// The most bytes of a name.
const MAX_NAME: usize = 64;

/// The first name that is none.
pub fn bad_name(version: &SchemaVersion) -> Option<&Text>
    ensures { option_copied result ≡ any_bad_name (view_version version.now) }
{
    if !is_name(version.table.as_slice()) {
        return Some(&version.table);
    }
    let in_key = bad_in_key(version.key.as_slice());
    if in_key.is_some() {
        return in_key;
    }
    bad_in_columns(version.columns.as_slice())
}

fn bad_in_key(key: &[KeyColumn]) -> Option<&Text>
    ensures { option_copied result ≡ bad_key_name (view_key key.now) }
{
    for column in key {
        if !is_name(column.name.as_slice()) {
            return Some(&column.name);
        }
    }
    None
}

fn bad_in_columns(columns: &[Column]) -> Option<&Text>
    ensures { option_copied result ≡ bad_column_name (view_columns columns.now) }
{
    for column in columns {
        if !is_name(column.name.as_slice()) {
            return Some(&column.name);
        }
        let inner = bad_in_kind(&column.kind);
        if inner.is_some() {
            return inner;
        }
    }
    None
}

#[cycle(names)]
fn bad_in_kind(kind: &Kind) -> Option<&Text>
    ensures { option_copied result ≡ bad_name_in (view_kind kind.now) }
{
    match kind {
        Kind::Plain(_) => None,
        Kind::Enum(names) => bad_in_enum(names),
        Kind::Struct(fields) => {
            let bad = bad_in_fields(fields);
            if bad.is_some() {
                return bad;
            }
            bad_within(fields)
        }
    }
}

#[cycle(names)]
fn bad_within(fields: &FieldKinds) -> Option<&Text>
    ensures { option_copied result ≡ bad_name_within (view_fields fields.now) }
{
    for (_, _, kind) in fields.as_slice() {
        let bad = bad_in_kind(kind);
        if bad.is_some() {
            return bad;
        }
    }
    None
}

fn bad_in_enum(names: &Names) -> Option<&Text>
    ensures { option_copied result ≡ bad_name_of (map (λ n. n.1) names.now) }
{
    for (_, name) in names.as_slice() {
        if !is_name(name.as_slice()) {
            return Some(name);
        }
    }
    None
}

fn bad_in_fields(fields: &FieldKinds) -> Option<&Text>
    ensures { option_copied result ≡ bad_name_of (field_names (view_fields fields.now)) }
{
    for (_, name, _) in fields.as_slice() {
        if !is_name(name.as_slice()) {
            return Some(name);
        }
    }
    None
}

/// A letter, then letters, digits and `_`.
fn is_name(name: &[u8]) -> bool
    ensures { result ≡ is_name name.now }
{
    match name {
        [] => false,
        [first, rest @ ..] => is_letter(*first) && may_follow(rest),
    }
}

/// Whether these bytes make a name behind a letter.
fn may_follow(rest: &[u8]) -> bool
    ensures { result ≡ list_all is_name_byte rest.now && nat_lt (length rest.now) 64 }
{
    are_name_bytes(rest) && rest.len() < MAX_NAME
}

fn are_name_bytes(bytes: &[u8]) -> bool
    ensures { result ≡ list_all is_name_byte bytes.now }
{
    bytes.iter().all(|byte| is_name_byte(*byte))
}

fn is_letter(byte: u8) -> bool
    ensures { result ≡ is_letter byte }
{
    matches!(byte, b'A'..=b'Z' | b'a'..=b'z')
}

fn is_name_byte(byte: u8) -> bool
    ensures { result ≡ is_name_byte byte }
{
    is_letter(byte) || matches!(byte, b'0'..=b'9' | b'_')
}
