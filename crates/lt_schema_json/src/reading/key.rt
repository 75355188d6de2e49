//! Key columns: pairs of a name and a kind.

ghost use Rattle.std.specs.Prelude.{◌≡◌, codes, option_and_then};
ghost use Rattle.lt_terms.specs.declared.Field.TheVariants as field;
ghost use Rattle.serde_json.specs.Find.{get_member};
ghost use Rattle.serde_json.specs.View.{members_view, view};
ghost use Rattle.lt_words.specs.SchemaText.{all_of, as_list, key_column, key_kind_named, required};
ghost use Rattle.lt_schema.specs.View.{view_key, view_key_column};
ghost use Rattle.lt_schema_json.specs.Reading.{Gives, Reads};

use crate::reading::form::{array_in, text_in};
use crate::reading::member::{Members, member};
use crate::reading::stop::Stop;
use crate::refusal::JsonRefusal;
use lt_core::{KeyKind, List};
use lt_schema::{KeyColumn, KeyColumns};
use lt_terms::Field;
use serde_json::Value as Json;
use std::alloc::Global;

/// The member `key`.
pub fn key_at(alloc: Global, members: &Members) -> Result<KeyColumns, JsonRefusal>
    ensures { Gives view_key (required field.Key (λ d. option_and_then (all_of key_column) (as_list d))
        (get_member (codes "key") (members_view members.now.entries))) result }
{
    let value = member(members, "key", Field::Key)?;
    key_in(alloc, value).map_err(|stop| stop.at(Field::Key))
}

fn key_in(alloc: Global, value: &Json) -> Result<KeyColumns, Stop>
    ensures { Reads view_key (option_and_then (all_of key_column) (as_list (view value.now))) result }
{
    let items = array_in(value)?;
    let mut key = List::new(alloc);
    for item in items {
        let column = key_column(alloc, item)?;
        key.push(column)?;
    }
    Ok(key)
}

fn key_column(alloc: Global, value: &Json) -> Result<KeyColumn, Stop>
    ensures { Reads view_key_column (key_column (view value.now)) result }
{
    let [name, kind] = array_in(value)? else {
        return Err(Stop::Unlike);
    };
    let name = text_in(alloc, name)?;
    let kind = kind.as_str().and_then(key_kind_named).ok_or(Stop::Unlike)?;
    Ok(KeyColumn { name, kind })
}

fn key_kind_named(name: &str) -> Option<KeyKind>
    ensures { result ≡ key_kind_named name.now }
{
    match name {
        "int64" => Some(KeyKind::Int64),
        "text" => Some(KeyKind::Text),
        _ => None,
    }
}
