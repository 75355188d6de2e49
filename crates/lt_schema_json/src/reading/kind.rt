//! Kinds: the name of a rank, or an object whose one member says what the kind is made of.

ghost use Rattle.std.specs.Prelude.{◌≡◌, map, option_and_then};
ghost use Rattle.serde_json.specs.Data.{object};
ghost use Rattle.serde_json.specs.View.{members_view, view};
ghost use Rattle.lt_core.specs.View.{view_kind};
ghost use Rattle.lt_words.specs.SchemaText.{all_of, as_list, enum_name, kind_in, rank_named, triples_in};
ghost use Rattle.lt_schema.specs.View.{view_field, view_fields};
ghost use Rattle.lt_schema_json.specs.Reading.{Reads, one_field};

use crate::reading::form::{array_in, small_in, text_in, whole_in};
use crate::reading::member::Members;
use crate::reading::stop::Stop;
use lt_core::{FieldKinds, Kind, List, Names, Rank, Text};
use serde_json::Value as Json;
use std::alloc::Global;

#[cycle(kind)]
pub fn kind_in(alloc: Global, value: &Json) -> Result<Kind, Stop>
    ensures { Reads view_kind (kind_in (view value.now)) result }
{
    match value {
        Json::String(name) => match rank_named(name.as_str()) {
            Some(rank) => Ok(Kind::Plain(rank)),
            None => Err(Stop::Unlike),
        },
        Json::Object(members) => compound_in(alloc, members),
        _ => Err(Stop::Unlike),
    }
}

fn rank_named(name: &str) -> Option<Rank>
    ensures { result ≡ rank_named name.now }
{
    match name {
        "bool" => Some(Rank::Bool),
        "int32" => Some(Rank::Int32),
        "int64" => Some(Rank::Int64),
        "text" => Some(Rank::Text),
        "bytes" => Some(Rank::Bytes),
        _ => None,
    }
}

/// An enum or a struct.
#[cycle(kind)]
fn compound_in(alloc: Global, members: &Members) -> Result<Kind, Stop>
    ensures { Reads view_kind (kind_in (object (members_view members.now.entries))) result }
{
    let mut members = members.iter();
    let Some((name, value)) = members.next() else {
        return Err(Stop::Unlike);
    };
    if members.next().is_some() {
        return Err(Stop::Unlike);
    }
    match name.as_str() {
        "enum" => Ok(Kind::Enum(names_in(alloc, value)?)),
        "struct" => Ok(Kind::Struct(fields_in(alloc, value)?)),
        _ => Err(Stop::Unlike),
    }
}

fn names_in(alloc: Global, value: &Json) -> Result<Names, Stop>
    ensures { Reads (λ names. names) (option_and_then (all_of enum_name) (as_list (view value.now))) result }
{
    let items = array_in(value)?;
    let mut names = List::new(alloc);
    for item in items {
        let name = enum_name(alloc, item)?;
        names.push(name)?;
    }
    Ok(names)
}

/// A number of an enum, and its name.
fn enum_name(alloc: Global, value: &Json) -> Result<(i32, Text), Stop>
    ensures { Reads (λ n. n) (enum_name (view value.now)) result }
{
    let [number, name] = array_in(value)? else {
        return Err(Stop::Unlike);
    };
    let Ok(number) = i32::try_from(whole_in(number)?) else {
        return Err(Stop::Unlike);
    };
    Ok((number, text_in(alloc, name)?))
}

#[cycle(kind)]
#[tactic(auto, using(crate::proofs::KindForms::array_list, crate::proofs::KindForms::triples_all))]
fn fields_in(alloc: Global, value: &Json) -> Result<FieldKinds, Stop>
    ensures { Reads view_fields (triples_in (view value.now)) result }
{
    let Json::Array(items) = value else {
        return Err(Stop::Unlike);
    };
    let mut fields = List::new(alloc);
    for item in items {
        let field = field_in(alloc, item)?;
        fields.push(field)?;
    }
    Ok(fields)
}

/// A field of a struct: number, name and kind.
#[cycle(kind)]
#[tactic(auto, using(crate::proofs::KindForms::array_list))]
fn field_in(alloc: Global, value: &Json) -> Result<(u16, Text, Kind), Stop>
    ensures { Reads view_field (one_field (view value.now)) result }
{
    let Json::Array(items) = value else {
        return Err(Stop::Unlike);
    };
    let [number, name, kind] = items.as_slice() else {
        return Err(Stop::Unlike);
    };
    Ok((
        small_in(number)?,
        text_in(alloc, name)?,
        kind_in(alloc, kind)?,
    ))
}
