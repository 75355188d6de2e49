//! The commands and their lines. Words are read from the front, so that a long text behind them is not parted.

ghost use Rattle.std.specs.Prelude.{◌≡◌, ◌++◌, codes, option_map, IfOk};
ghost use Rattle.lt_command.specs.View.{view_command};
ghost use Rattle.lt_script.specs.Lines.{NoSpace, command_read};

use crate::jobs::{read_compact, read_job};
use crate::literals::read_literals;
use crate::queries::{read_page, read_scan};
use crate::words::{count, first_word, large_number, small_number, table_name};
use lt_command::Command;
use lt_core::{Blob, Memory};
use std::alloc::Global;

/// The command that a line without options spells.
pub fn read_command(alloc: Global, line: &str) -> Result<Option<Command>, Memory>
    ensures { IfOk result (λ found. option_map view_command found ≡ command_read line.now) }
{
    let Some((first, rest)) = first_word(line) else {
        return Ok(one_word(line));
    };
    match first {
        "schema" => read_schema(alloc, rest),
        "retire" => read_retire(alloc, rest),
        "pump" => read_pump(alloc, rest),
        "flush" => read_flush(alloc, rest),
        "compact" => read_compact(alloc, rest),
        "job" => read_job(alloc, rest),
        "split" => read_split(alloc, rest),
        "retain" => read_retain(alloc, rest),
        "scan" => read_scan(alloc, rest),
        "page" => read_page(alloc, rest),
        "deltas" => read_deltas(alloc, rest),
        _ => Ok(None),
    }
}

/// The command of a line that is one word.
fn one_word(word: &str) -> Option<Command>
    requires alone { NoSpace word.now }
    ensures { option_map view_command result ≡ command_read word.now }
{
    match word {
        "status" => Some(Command::Status),
        "reopen" => Some(Command::Reopen),
        _ => None,
    }
}

/// `schema JSON`, by what stands behind the first word. The JSON is not looked at.
fn read_schema(alloc: Global, rest: &str) -> Result<Option<Command>, Memory>
    ensures { IfOk result (λ found. option_map view_command found ≡ command_read (codes "schema " ++ rest.now)) }
{
    if rest.is_empty() {
        return Ok(None);
    }
    let text = Blob::from_slice(alloc, rest.as_bytes())?;
    Ok(Some(Command::Schema(text)))
}

/// `retire TABLE V`, by what stands behind the first word.
fn read_retire(alloc: Global, rest: &str) -> Result<Option<Command>, Memory>
    ensures { IfOk result (λ found. option_map view_command found ≡ command_read (codes "retire " ++ rest.now)) }
{
    let Some((table, version)) = first_word(rest) else {
        return Ok(None);
    };
    let Some(version) = small_number(alloc, version)? else {
        return Ok(None);
    };
    let Some(table) = table_name(alloc, table)? else {
        return Ok(None);
    };
    Ok(Some(Command::Retire { table, version }))
}

/// `pump S N`, by what stands behind the first word.
fn read_pump(alloc: Global, rest: &str) -> Result<Option<Command>, Memory>
    ensures { IfOk result (λ found. option_map view_command found ≡ command_read (codes "pump " ++ rest.now)) }
{
    let Some((stream, records)) = first_word(rest) else {
        return Ok(None);
    };
    let Some(stream) = small_number(alloc, stream)? else {
        return Ok(None);
    };
    let Some(records) = count(alloc, records)? else {
        return Ok(None);
    };
    Ok(Some(Command::Pump {
        stream,
        count: records,
    }))
}

/// `flush P`, by what stands behind the first word.
#[tactic(auto, using(crate::proofs::LineLaws::flush_read))]
fn read_flush(alloc: Global, rest: &str) -> Result<Option<Command>, Memory>
    ensures { IfOk result (λ found. option_map view_command found ≡ command_read (codes "flush " ++ rest.now)) }
{
    let Some(part) = small_number(alloc, rest)? else {
        return Ok(None);
    };
    Ok(Some(Command::Flush { part }))
}

/// `split TABLE JSON`, by what stands behind the first word; the JSON is an array of literals.
fn read_split(alloc: Global, rest: &str) -> Result<Option<Command>, Memory>
    ensures { IfOk result (λ found. option_map view_command found ≡ command_read (codes "split " ++ rest.now)) }
{
    let Some((table, json)) = first_word(rest) else {
        return Ok(None);
    };
    let Some(table) = table_name(alloc, table)? else {
        return Ok(None);
    };
    let Some(key) = read_literals(alloc, json)? else {
        return Ok(None);
    };
    Ok(Some(Command::Split { table, key }))
}

/// `retain T`, by what stands behind the first word.
#[tactic(auto, using(crate::proofs::LineLaws::retain_read))]
fn read_retain(alloc: Global, rest: &str) -> Result<Option<Command>, Memory>
    ensures { IfOk result (λ found. option_map view_command found ≡ command_read (codes "retain " ++ rest.now)) }
{
    let Some(at) = large_number(alloc, rest)? else {
        return Ok(None);
    };
    Ok(Some(Command::Retain { at }))
}

/// `deltas P`, by what stands behind the first word.
#[tactic(auto, using(crate::proofs::LineLaws::deltas_read))]
fn read_deltas(alloc: Global, rest: &str) -> Result<Option<Command>, Memory>
    ensures { IfOk result (λ found. option_map view_command found ≡ command_read (codes "deltas " ++ rest.now)) }
{
    let Some(part) = small_number(alloc, rest)? else {
        return Ok(None);
    };
    Ok(Some(Command::Deltas { part }))
}
