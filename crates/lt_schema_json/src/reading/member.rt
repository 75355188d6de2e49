//! The members of JSON objects: which ones there are, and those that have to be there.

ghost use Rattle.std.specs.Prelude.{◌≡◌, ◌-◌, ◌^◌, map, option_map};
ghost use Rattle.serde_json.specs.Find.{get_member};
ghost use Rattle.serde_json.specs.View.{members_view, view};
ghost use Rattle.lt_tables.specs.Schema.{is_among};
ghost use Rattle.lt_words.specs.SchemaText.{as_list, as_members, as_number_up_to, as_text, no_other, required};
ghost use Rattle.lt_schema_json.specs.Reading.{Gives, found, or_wrong, values_view};

use crate::reading::form::{array_in, copied, large_in, small_in, text_in};
use crate::reading::stop::Stop;
use crate::refusal::JsonRefusal;
use lt_core::Text;
use lt_terms::Field;
use serde_json::{Map, Value as Json};
use std::alloc::Global;

/// The members of a JSON object.
pub type Members = Map<String, Json>;

/// The members of an object that stands at this field.
pub fn members_of(value: &Json, field: Field) -> Result<&Members, JsonRefusal>
    ensures { Gives (λ ms. members_view ms.now.entries) (or_wrong field (as_members (view value.now))) result }
{
    value.as_object().ok_or(JsonRefusal::Wrong(field))
}

/// There are no other members than the known ones.
#[tactic(auto, using(crate::proofs::Members::names_of))]
pub fn no_other(alloc: Global, known: &[&str], members: &Members) -> Result<(), JsonRefusal>
    ensures { Gives (λ _. tt) (no_other (map (λ k. k.now) known.now) (members_view members.now.entries)) result }
{
    for name in members.keys() {
        if !is_among(known, name.as_str()) {
            let name = copied(alloc, name.as_str())?;
            return Err(JsonRefusal::Unknown { name });
        }
    }
    Ok(())
}

fn is_among(names: &[&str], name: &str) -> bool
    ensures { result ≡ is_among (map (λ k. k.now) names.now) name.now }
{
    for other in names {
        if name == *other {
            return true;
        }
    }
    false
}

/// The member of this name.
pub fn get<'m>(members: &'m Members, name: &str) -> Option<&'m Json>
    ensures { option_map (λ v. view v.now) result ≡ get_member name.now (members_view members.now.entries) }
{
    members.get(name)
}

/// A member, which has to be there.
pub fn member<'m>(members: &'m Members, name: &str, field: Field) -> Result<&'m Json, JsonRefusal>
    ensures { Gives (λ v. view v.now) (found field (get_member name.now (members_view members.now.entries))) result }
{
    get(members, name).ok_or(JsonRefusal::Missing(field))
}

/// A member that is a text.
pub fn text_at(
    alloc: Global,
    members: &Members,
    name: &str,
    field: Field,
) -> Result<Text, JsonRefusal>
    ensures { Gives (λ text. text) (required field as_text (get_member name.now (members_view members.now.entries)))
        result }
{
    let value = member(members, name, field)?;
    text_in(alloc, value).map_err(|stop| stop.at(field))
}

/// A member that is the number of a column.
pub fn small_at(members: &Members, name: &str, field: Field) -> Result<u16, JsonRefusal>
    ensures { Gives (λ n. n) (required field (as_number_up_to 65535)
        (get_member name.now (members_view members.now.entries))) result }
{
    let value = member(members, name, field)?;
    small_in(value).map_err(|stop| stop.at(field))
}

/// A member that is the number of a table or version.
pub fn large_at(members: &Members, name: &str, field: Field) -> Result<u32, JsonRefusal>
    ensures { Gives (λ n. n) (required field (as_number_up_to (2 ^ 32 - 1))
        (get_member name.now (members_view members.now.entries))) result }
{
    let value = member(members, name, field)?;
    large_in(value).map_err(|stop| stop.at(field))
}

/// A member that is an array.
pub fn array_at<'m>(
    members: &'m Members,
    name: &str,
    field: Field,
) -> Result<&'m [Json], JsonRefusal>
    ensures { Gives (λ vs. values_view vs.now)
        (required field as_list (get_member name.now (members_view members.now.entries))) result }
{
    let value = member(members, name, field)?;
    array_in(value).map_err(|stop| stop.at(field))
}
