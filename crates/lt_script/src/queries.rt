//! The lines of queries, without options.

ghost use Rattle.std.specs.Prelude.{◌≡◌, ◌++◌, codes, option_map, IfOk};
ghost use Rattle.lt_words.specs.Script.{large_word, small_word, table_word};
ghost use Rattle.lt_command.specs.View.{view_command, view_query};
ghost use Rattle.lt_script.specs.Lines.{asked, command_read};

use crate::words::{count, first_word, large_number, small_number, table_name};
use lt_command::{Command, Query};
use lt_core::Memory;
use lt_pred::Pred;
use std::alloc::Global;

/// `scan TABLE V T`, by what stands behind the first word.
pub fn read_scan(alloc: Global, rest: &str) -> Result<Option<Command>, Memory>
    ensures { IfOk result (λ found. option_map view_command found ≡ command_read (codes "scan " ++ rest.now)) }
{
    let Some((table, rest)) = first_word(rest) else {
        return Ok(None);
    };
    let Some((version, at)) = first_word(rest) else {
        return Ok(None);
    };
    let Some(query) = plain_query(alloc, table, version, at, None)? else {
        return Ok(None);
    };
    Ok(Some(Command::Scan(query)))
}

/// `page TABLE V T N`, by what stands behind the first word.
pub fn read_page(alloc: Global, rest: &str) -> Result<Option<Command>, Memory>
    ensures { IfOk result (λ found. option_map view_command found ≡ command_read (codes "page " ++ rest.now)) }
{
    let Some((table, rest)) = first_word(rest) else {
        return Ok(None);
    };
    let Some((version, rest)) = first_word(rest) else {
        return Ok(None);
    };
    let Some((at, limit)) = first_word(rest) else {
        return Ok(None);
    };
    let Some(limit) = count(alloc, limit)? else {
        return Ok(None);
    };
    let Some(query) = plain_query(alloc, table, version, at, Some(limit))? else {
        return Ok(None);
    };
    Ok(Some(Command::Page(query)))
}

/// A query for all rows, at most so many.
fn plain_query(
    alloc: Global,
    table: &str,
    version: &str,
    at: &str,
    limit: Option<u64>,
) -> Result<Option<Query>, Memory>
    ensures { IfOk result (λ found. option_map view_query found
        ≡ asked (table_word table.now) (small_word version.now) (large_word at.now) limit) }
{
    let Some(table) = table_name(alloc, table)? else {
        return Ok(None);
    };
    let Some(version) = small_number(alloc, version)? else {
        return Ok(None);
    };
    let Some(at) = large_number(alloc, at)? else {
        return Ok(None);
    };
    Ok(Some(Query {
        table,
        version,
        at,
        columns: None,
        from: None,
        to: None,
        after: None,
        limit,
        filter: Pred::All,
    }))
}
