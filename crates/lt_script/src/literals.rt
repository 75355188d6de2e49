//! Literals, which a JSON array lists: nothing, truth values, whole numbers within 64 signed bits, and texts.

ghost use Rattle.std.specs.Prelude.{◌≡◌, map, option_and_then, option_map, IfOk};
ghost use Rattle.serde_json.specs.Read.{read};
ghost use Rattle.serde_json.specs.View.{view};
ghost use Rattle.lt_words.specs.Script.{literal_in, literals_in};
ghost use Rattle.lt_words.specs.SchemaText.{as_list};
ghost use Rattle.lt_pred.specs.View.{view_literal, view_literals};

use crate::words::copied;
use lt_core::{List, Memory};
use lt_pred::{Literal, Literals};
use serde_json::Value as Json;
use std::alloc::Global;

/// The literals that the text lists, where it is a JSON array of literals.
pub fn read_literals(alloc: Global, text: &str) -> Result<Option<Literals>, Memory>
    ensures { IfOk result (λ found. option_map view_literals found ≡ option_and_then literals_in (read text.now)) }
{
    match Json::from_str(alloc, text) {
        Ok(json) => literals_in(alloc, &json),
        Err(error) if error.is_memory() => Err(Memory),
        Err(_) => Ok(None),
    }
}

fn literals_in(alloc: Global, json: &Json) -> Result<Option<Literals>, Memory>
    ensures { IfOk result (λ found. option_map view_literals found ≡ literals_in (view json.now)) }
{
    let Some(items) = items_of(json) else {
        return Ok(None);
    };
    let mut literals = List::new(alloc);
    for item in items {
        let Some(literal) = literal_in(alloc, item)? else {
            return Ok(None);
        };
        literals.push(literal)?;
    }
    Ok(Some(literals))
}

/// The items of an array.
#[tactic(auto, using(crate::proofs::LiteralLaws::list_of_array, crate::proofs::LiteralLaws::list_of_items))]
fn items_of(json: &Json) -> Option<&[Json]>
    ensures { option_map (λ items. map view items.now) result ≡ as_list (view json.now) }
{
    match json.as_array() {
        Some(items) => Some(items.as_slice()),
        None => None,
    }
}

fn literal_in(alloc: Global, json: &Json) -> Result<Option<Literal>, Memory>
    ensures { IfOk result (λ found. option_map view_literal found ≡ literal_in (view json.now)) }
{
    match json {
        Json::Null => Ok(Some(Literal::Null)),
        Json::Bool(truth) => Ok(Some(Literal::Bool(*truth))),
        Json::Number(number) => Ok(number.as_i64().map(Literal::Int)),
        Json::String(text) => Ok(Some(Literal::Text(copied(alloc, text.as_str())?))),
        Json::Array(_) | Json::Object(_) => Ok(None),
    }
}
