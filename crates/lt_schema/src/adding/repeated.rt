//! Names that stand twice: among the key columns and columns, the fields of a struct, or the names of an enum.
//!
//! Looking takes n log n comparisons of names. The recursion goes down a kind, as deep as it nests.

ghost use Rattle.std.specs.Prelude.{◌≡◌, [], map, IfNone, IfOk};
ghost use Rattle.std.specs.Option.{option_copied};
ghost use Rattle.lt_tables.specs.Schema.{any_repeated, field_names, repeated, repeated_column, repeated_in, repeated_within};
ghost use Rattle.lt_core.specs.View.{view_kind};
ghost use Rattle.lt_schema.specs.Names.{key_names};
ghost use Rattle.lt_schema.specs.Seen.{Holds};
ghost use Rattle.lt_schema.specs.View.{view_columns, view_fields, view_key, view_version};

use crate::adding::seen::{Seen, none_seen, see};
use crate::version::{Column, KeyColumn, SchemaVersion};
use lt_core::{FieldKinds, Kind, Memory, Names, Text};
use std::alloc::Global;

/// The first name that stands there for the second time.
#[tactic(auto, using(crate::proofs::NameLists::names_of_key))]
pub fn repeated_name(alloc: Global, version: &SchemaVersion) -> Result<Option<&Text>, Memory>
    ensures { IfOk result (λ name. option_copied name ≡ any_repeated (view_version version.now)) }
{
    let mut seen = none_seen(alloc);
    let in_key = repeated_in_key(&mut seen, version.key.as_slice())?;
    if in_key.is_some() {
        return Ok(in_key);
    }
    repeated_in_columns(alloc, &mut seen, version)
}

fn repeated_in_key<'a>(
    seen: &mut Seen<'a>,
    key: &'a [KeyColumn],
) -> Result<Option<&'a Text>, Memory>
    requires { Holds seen.old [] }
    ensures name { IfOk result (λ name. option_copied name ≡ repeated [] (map (λ c. c.name) key.now)) }
    ensures seen { IfOk result (λ name. IfNone name (Holds seen.new (map (λ c. c.name) key.now))) }
{
    for column in key {
        if !see(seen, &column.name)? {
            return Ok(Some(&column.name));
        }
    }
    Ok(None)
}

/// The same among the columns, where the names of the key were seen.
fn repeated_in_columns<'a>(
    alloc: Global,
    seen: &mut Seen<'a>,
    version: &'a SchemaVersion,
) -> Result<Option<&'a Text>, Memory>
    requires { Holds seen.old (map (λ c. c.name) version.now.key) }
    ensures { IfOk result (λ name. option_copied name ≡ repeated_column (map (λ c. c.name) version.now.key)
        (view_columns version.now.columns)) }
{
    for column in version.columns.as_slice() {
        if !see(seen, &column.name)? {
            return Ok(Some(&column.name));
        }
        let inner = repeated_in_kind(alloc, &column.kind)?;
        if inner.is_some() {
            return Ok(inner);
        }
    }
    Ok(None)
}

#[cycle(names)]
fn repeated_in_kind(alloc: Global, kind: &Kind) -> Result<Option<&Text>, Memory>
    ensures { IfOk result (λ name. option_copied name ≡ repeated_in (view_kind kind.now)) }
{
    match kind {
        Kind::Plain(_) => Ok(None),
        Kind::Enum(names) => repeated_in_enum(alloc, names),
        Kind::Struct(fields) => {
            let here = repeated_in_fields(alloc, fields)?;
            if here.is_some() {
                return Ok(here);
            }
            repeated_within(alloc, fields)
        }
    }
}

#[cycle(names)]
fn repeated_within(alloc: Global, fields: &FieldKinds) -> Result<Option<&Text>, Memory>
    ensures { IfOk result (λ name. option_copied name ≡ repeated_within (view_fields fields.now)) }
{
    for (_, _, kind) in fields.as_slice() {
        let inner = repeated_in_kind(alloc, kind)?;
        if inner.is_some() {
            return Ok(inner);
        }
    }
    Ok(None)
}

fn repeated_in_enum(alloc: Global, names: &Names) -> Result<Option<&Text>, Memory>
    ensures { IfOk result (λ name. option_copied name ≡ repeated [] (map (λ n. n.1) names.now)) }
{
    let mut seen = none_seen(alloc);
    for (_, name) in names.as_slice() {
        if !see(&mut seen, name)? {
            return Ok(Some(name));
        }
    }
    Ok(None)
}

fn repeated_in_fields(alloc: Global, fields: &FieldKinds) -> Result<Option<&Text>, Memory>
    ensures { IfOk result (λ name. option_copied name ≡ repeated [] (field_names (view_fields fields.now))) }
{
    let mut seen = none_seen(alloc);
    for (_, name, _) in fields.as_slice() {
        if !see(&mut seen, name)? {
            return Ok(Some(name));
        }
    }
    Ok(None)
}
