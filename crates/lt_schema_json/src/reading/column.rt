//! Columns.

ghost use Rattle.std.specs.Prelude.{codes, option_map};
ghost use Rattle.serde_json.specs.Find.{get_member};
ghost use Rattle.serde_json.specs.View.{members_view, view};
ghost use Rattle.lt_terms.specs.declared.Field.TheVariants as field;
ghost use Rattle.lt_core.specs.View.{view_kind, view_value};
ghost use Rattle.lt_words.specs.SchemaText.{column_in, columns_in, default_of, kind_in, required};
ghost use Rattle.lt_schema.specs.View.{view_column, view_columns};
ghost use Rattle.lt_schema_json.specs.Reading.{Gives, values_view};

use crate::reading::fallback::value_in;
use crate::reading::kind::kind_in;
use crate::reading::member::{Members, get, member, members_of, no_other, small_at, text_at};
use crate::refusal::JsonRefusal;
use lt_core::{Kind, List, Value};
use lt_schema::{Column, Columns};
use lt_terms::Field;
use serde_json::Value as Json;
use std::alloc::Global;

pub fn columns_in(alloc: Global, values: &[Json]) -> Result<Columns, JsonRefusal>
    ensures { Gives view_columns (columns_in (values_view values.now)) result }
{
    let mut columns = List::new(alloc);
    for value in values {
        let column = column_in(alloc, value)?;
        columns.push(column)?;
    }
    Ok(columns)
}

fn column_in(alloc: Global, value: &Json) -> Result<Column, JsonRefusal>
    ensures { Gives view_column (column_in (view value.now)) result }
{
    let members = members_of(value, Field::Column)?;
    no_other(alloc, &["number", "name", "kind", "default"], members)?;
    let number = small_at(members, "number", Field::Number)?;
    let name = text_at(alloc, members, "name", Field::Name)?;
    let kind = kind_at(alloc, members)?;
    let fallback = fallback_at(alloc, members, &kind)?;
    Ok(Column {
        number,
        name,
        kind,
        fallback,
    })
}

/// The member `kind`.
fn kind_at(alloc: Global, members: &Members) -> Result<Kind, JsonRefusal>
    ensures { Gives view_kind (required field.Kind kind_in
        (get_member (codes "kind") (members_view members.now.entries))) result }
{
    let value = member(members, "kind", Field::Kind)?;
    kind_in(alloc, value).map_err(|stop| stop.at(Field::Kind))
}

/// The member `default`, which may be missing.
fn fallback_at(alloc: Global, members: &Members, kind: &Kind) -> Result<Option<Value>, JsonRefusal>
    ensures { Gives (option_map view_value)
        (default_of (view_kind kind.now) (get_member (codes "default") (members_view members.now.entries)))
        result }
{
    match get(members, "default") {
        None => Ok(None),
        Some(value) => match value_in(alloc, kind, value) {
            Ok(fallback) => Ok(Some(fallback)),
            Err(stop) => Err(stop.at(Field::Default)),
        },
    }
}
