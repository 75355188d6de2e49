//! The forms of plain JSON values: texts and whole numbers.

ghost use Rattle.std.specs.Prelude.{◌≡◌, ◌-◌, ◌^◌, IfOk};
ghost use Rattle.serde_json.specs.View.{view};
ghost use Rattle.lt_words.specs.SchemaText.{as_list, as_number_up_to, as_text, as_whole};
ghost use Rattle.lt_schema_json.specs.Reading.{Reads, values_view};

use crate::reading::stop::Stop;
use lt_core::{Memory, Text};
use serde_json::Value as Json;
use std::alloc::Global;

/// A copy of a text.
pub fn copied(alloc: Global, text: &str) -> Result<Text, Memory>
    ensures { IfOk result (λ copy. copy ≡ text.now) }
{
    // A `&str` is UTF-8, so memory alone can lack.
    match Text::from_slice(alloc, text.as_bytes()) {
        Ok(copy) => Ok(copy),
        Err(_) => Err(Memory),
    }
}

pub fn text_in(alloc: Global, value: &Json) -> Result<Text, Stop>
    ensures { Reads (λ text. text) (as_text (view value.now)) result }
{
    let text = value.as_str().ok_or(Stop::Unlike)?;
    Ok(copied(alloc, text)?)
}

pub fn whole_in(value: &Json) -> Result<i64, Stop>
    ensures { Reads (λ z. z) (as_whole (view value.now)) result }
{
    value.as_i64().ok_or(Stop::Unlike)
}

/// The number of a column or field.
pub fn small_in(value: &Json) -> Result<u16, Stop>
    ensures { Reads (λ n. n) (as_number_up_to 65535 (view value.now)) result }
{
    match u16::try_from(whole_in(value)?) {
        Ok(number) => Ok(number),
        Err(_) => Err(Stop::Unlike),
    }
}

/// The number of a table or version.
pub fn large_in(value: &Json) -> Result<u32, Stop>
    ensures { Reads (λ n. n) (as_number_up_to (2 ^ 32 - 1) (view value.now)) result }
{
    match u32::try_from(whole_in(value)?) {
        Ok(number) => Ok(number),
        Err(_) => Err(Stop::Unlike),
    }
}

/// The items of an array.
#[tactic(auto, using(crate::proofs::Members::list_of_array, crate::proofs::Members::list_of_items))]
pub fn array_in(value: &Json) -> Result<&[Json], Stop>
    ensures { Reads (λ items. values_view items.now) (as_list (view value.now)) result }
{
    match value.as_array() {
        Some(items) => Ok(items.as_slice()),
        None => Err(Stop::Unlike),
    }
}
