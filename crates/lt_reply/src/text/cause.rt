//! Why a schema is refused, in words.

ghost use Rattle.std.specs.Prelude.{◌≡◌, string_bytes, IfOk, IsTrue, is_some};
ghost use Rattle.lt_words.specs.Reply.{cause_words as words_of, member_name, quoted_name, spaced};
ghost use Rattle.lt_schema_json.specs.Reading.{view_fault};
ghost use Rattle.lt_schema.specs.Faults.{view_refusal as view_schema_refusal};
ghost use Rattle.lt_reply.specs.View.{IsCause, json_cause, version_cause, view_cause};

use crate::refusal::Cause;
use lt_core::{Memory, Text};
use lt_schema::SchemaRefusal;
use lt_schema_json::{Field, JsonRefusal};
use serde_json::Value as Json;
use std::alloc::Global;

/// The cause's name, and its kept value.
pub fn cause_words(alloc: Global, cause: &Cause) -> Result<String, Memory>
    requires { IsCause cause.now }
    ensures { IfOk result (λ s. string_bytes s ≡ spaced (words_of (view_cause cause.now))) }
{
    match cause {
        Cause::Json(refusal) => json_words(alloc, refusal),
        Cause::Version(refusal) => version_words(alloc, refusal),
    }
}

fn json_words(alloc: Global, refusal: &JsonRefusal) -> Result<String, Memory>
    requires { IsTrue (is_some (view_fault refusal.now)) }
    ensures { IfOk result (λ s. string_bytes s ≡ spaced (words_of (json_cause refusal.now))) }
{
    Ok(match refusal {
        JsonRefusal::NotJson => format!(in alloc; "NotJson")?,
        JsonRefusal::Unknown { name } => {
            let name = quoted_name(alloc, name)?;
            format!(in alloc; "Unknown {name}")?
        },
        JsonRefusal::Missing(field) => {
            let name = member_name(*field);
            format!(in alloc; "Missing {name}")?
        },
        JsonRefusal::Wrong(field) => {
            let name = member_name(*field);
            format!(in alloc; "Wrong {name}")?
        },
        JsonRefusal::Memory => unreachable!(),
    })
}

fn version_words(alloc: Global, refusal: &SchemaRefusal) -> Result<String, Memory>
    requires { IsTrue (is_some (view_schema_refusal refusal.now)) }
    ensures { IfOk result (λ s. string_bytes s ≡ spaced (words_of (version_cause refusal.now))) }
{
    Ok(match refusal {
        SchemaRefusal::BadNumber { number } => format!(in alloc; "BadNumber {number}")?,
        SchemaRefusal::BadName { name } => {
            let name = quoted_name(alloc, name)?;
            format!(in alloc; "BadName {name}")?
        },
        SchemaRefusal::DuplicateName { name } => {
            let name = quoted_name(alloc, name)?;
            format!(in alloc; "DuplicateName {name}")?
        },
        SchemaRefusal::TooDeep => format!(in alloc; "TooDeep")?,
        SchemaRefusal::BadDefault { column } => format!(in alloc; "BadDefault {column}")?,
        SchemaRefusal::TableMismatch { number } => format!(in alloc; "TableMismatch {number}")?,
        SchemaRefusal::VersionNotNext { expected } => format!(in alloc;
            "VersionNotNext {expected}"
        )?,
        SchemaRefusal::KeyChanged => format!(in alloc; "KeyChanged")?,
        SchemaRefusal::ColumnReused { column } => format!(in alloc; "ColumnReused {column}")?,
        SchemaRefusal::KindChanged { column } => format!(in alloc; "KindChanged {column}")?,
        SchemaRefusal::DefaultGiven { column } => format!(in alloc; "DefaultGiven {column}")?,
        SchemaRefusal::Limit { count } => format!(in alloc; "Limit {count}")?,
        SchemaRefusal::Memory => unreachable!(),
    })
}

/// A kept name, as a JSON text.
pub fn quoted_name(alloc: Global, name: &Text) -> Result<String, Memory>
    ensures { IfOk result (λ s. string_bytes s ≡ quoted_name name.now) }
{
    let json = Json::try_from_str(alloc, name.as_str())?;
    Ok(json.to_string(alloc)?)
}

/// The name of a member of a schema text.
fn member_name(field: Field) -> &'static str
    ensures { result.now ≡ member_name field }
{
    match field {
        Field::Top => "Top",
        Field::Table => "Table",
        Field::Number => "Number",
        Field::Version => "Version",
        Field::Key => "Key",
        Field::Columns => "Columns",
        Field::Column => "Column",
        Field::Name => "Name",
        Field::Kind => "Kind",
        Field::Default => "Default",
    }
}
