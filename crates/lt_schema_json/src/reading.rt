//! Reading schema texts.

ghost use Rattle.std.specs.Prelude.{◌≡◌, Err, IfErr, IfOk, IfSome, Ok};
ghost use Rattle.serde_json.specs.View.{view};
ghost use Rattle.lt_words.specs.SchemaText.{version_in, version_of_text};
ghost use Rattle.lt_schema.specs.View.{view_version};
ghost use Rattle.lt_schema_json.specs.Reading.{Gives, json_of, or_not_json, view_fault};

mod column;
mod fallback;
mod form;
mod key;
mod kind;
mod member;
mod stop;

use crate::reading::column::columns_in;
use crate::reading::key::key_at;
use crate::reading::member::{array_at, large_at, members_of, no_other, text_at};
use crate::refusal::JsonRefusal;
use lt_schema::SchemaVersion;
use lt_terms::Field;
use serde_json::Value as Json;
use std::alloc::Global;

/// Reads the version that a text spells ("Schema text" in docs/formats.md). Where it spells none, the refusal is its first fault in
/// the order there: `NotJson` where `serde_json` refuses the text for another cause than memory, then `Unknown`, `Missing` and `Wrong`.
/// `Memory` says nothing of the text.
#[tactic(auto, using(crate::proofs::ReadTexts::read_in_steps))]
pub fn read_version(alloc: Global, text: &[u8]) -> Result<SchemaVersion, JsonRefusal>
    ensures accepts { IfOk result (λ version. version_of_text text.now ≡ Ok (view_version version)) }
    ensures refuses { IfErr result (λ refusal. IfSome (view_fault refusal)
        (λ fault. version_of_text text.now ≡ Err fault)) }
{
    let json = json_in(alloc, text)?;
    version_in(alloc, &json)
}

fn json_in(alloc: Global, text: &[u8]) -> Result<Json, JsonRefusal>
    ensures { Gives view (or_not_json (json_of text.now)) result }
{
    match Json::from_slice(alloc, text) {
        Ok(json) => Ok(json),
        Err(error) if error.is_memory() => Err(JsonRefusal::Memory),
        Err(_) => Err(JsonRefusal::NotJson),
    }
}

fn version_in(alloc: Global, value: &Json) -> Result<SchemaVersion, JsonRefusal>
    ensures { Gives view_version (version_in (view value.now)) result }
{
    let members = members_of(value, Field::Top)?;
    no_other(
        alloc,
        &["table", "number", "version", "key", "columns"],
        members,
    )?;
    let table = text_at(alloc, members, "table", Field::Table)?;
    let number = large_at(members, "number", Field::Number)?;
    let version = large_at(members, "version", Field::Version)?;
    let key = key_at(alloc, members)?;
    let columns = array_at(members, "columns", Field::Columns)?;
    let columns = columns_in(alloc, columns)?;
    Ok(SchemaVersion {
        table,
        number,
        version,
        key,
        columns,
    })
}
