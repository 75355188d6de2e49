//! Catalogues: that the definitions give the worked answers, and that calls succeed where there is memory.

mod script;
mod words;

use crate::schema::script::{LIMITS, SCRIPT};
use crate::schema::words::{number, read_version, word};
use lt_core::Memory;
use lt_schema::{Catalogue, SchemaVersion};
use lt_schema_json::write_version;
use std::alloc::Global;
use std::fmt::{Debug, Display};
use std::str::SplitWhitespace;
use std::test::Fail;

#[test]
fn calls_answer_as_the_script_says(rt: HostRuntime) -> Result<(), Fail> {
    let told = told(rt.alloc(), SCRIPT)?;
    assert_eq!(rt; told.as_str(), SCRIPT);
    Ok(())
}

#[test]
fn limits_are_kept(rt: HostRuntime) -> Result<(), Fail> {
    let told = told(rt.alloc(), LIMITS)?;
    assert_eq!(rt; told.as_str(), LIMITS);
    Ok(())
}

/// A script with the answers that one catalogue gives to its calls.
fn told(alloc: Global, script: &str) -> Result<String, Memory> {
    let mut catalogue = Catalogue::new(alloc);
    let mut told = String::new(alloc);
    for line in script.lines() {
        tell(alloc, &mut catalogue, line, &mut told)?;
    }
    Ok(told)
}

/// A line, with the answer in place of what is wanted.
fn tell(
    alloc: Global,
    catalogue: &mut Catalogue,
    line: &str,
    told: &mut String,
) -> Result<(), Memory> {
    let Some((call, _)) = line.split_once(" -> ") else {
        return put_line(told, line, "", "");
    };
    let answer = answer_of(alloc, catalogue, call)?;
    put_line(told, call, " -> ", answer.as_str())
}

fn put_line(told: &mut String, call: &str, arrow: &str, answer: &str) -> Result<(), Memory> {
    told.push_str(call)?;
    told.push_str(arrow)?;
    told.push_str(answer)?;
    told.push_str("\n")?;
    Ok(())
}

/// What a call answers.
fn answer_of(alloc: Global, catalogue: &mut Catalogue, call: &str) -> Result<String, Memory> {
    let mut words = call.split_whitespace();
    match word(&mut words) {
        "add" => added(alloc, catalogue, &mut words),
        "wide" => wide_added(alloc, catalogue, &mut words),
        "tables" => all_added(
            alloc,
            catalogue,
            true,
            number(&mut words),
            number(&mut words),
        ),
        "versions" => all_added(
            alloc,
            catalogue,
            false,
            number(&mut words),
            number(&mut words),
        ),
        "retire" => retired(alloc, catalogue, number(&mut words), number(&mut words)),
        "table" => debugged(alloc, &catalogue.table(word(&mut words).as_bytes())),
        "copy" => copied(alloc, catalogue),
        name => look_up(
            alloc,
            catalogue,
            name,
            number(&mut words),
            number(&mut words),
        ),
    }
}

fn shown<T: Display>(alloc: Global, answer: &T) -> Result<String, Memory> {
    Ok(format!(in alloc; "{answer}")?)
}

fn debugged<T: Debug>(alloc: Global, answer: &T) -> Result<String, Memory> {
    Ok(format!(in alloc; "{answer:?}")?)
}

fn added(
    alloc: Global,
    catalogue: &mut Catalogue,
    words: &mut SplitWhitespace<'_>,
) -> Result<String, Memory> {
    match catalogue.add(read_version(alloc, words)?) {
        Ok(()) => shown(alloc, &"Ok"),
        Err(refusal) => shown(alloc, &refusal),
    }
}

fn retired(
    alloc: Global,
    catalogue: &mut Catalogue,
    table: u32,
    version: u32,
) -> Result<String, Memory> {
    match catalogue.retire(table, version) {
        Ok(()) => shown(alloc, &"Ok"),
        Err(refusal) => shown(alloc, &refusal),
    }
}

/// Whether a copy is shown as the catalogue is.
fn copied(alloc: Global, catalogue: &Catalogue) -> Result<String, Memory> {
    let copy = catalogue.copy()?;
    let shows = debugged(alloc, &copy)?;
    let original = debugged(alloc, catalogue)?;
    shown(alloc, &(shows.as_str() == original.as_str()))
}

/// What a look-up in a table answers.
fn look_up(
    alloc: Global,
    catalogue: &Catalogue,
    call: &str,
    table: u32,
    n: u16,
) -> Result<String, Memory> {
    match call {
        "get" => version_text(alloc, catalogue.get(table, u32::from(n))),
        "live" => shown(alloc, &catalogue.live(table, u32::from(n))),
        "column" => shown(alloc, &catalogue.column_live(table, n)),
        "fallback" => debugged(alloc, &catalogue.fallback(table, n)),
        _ => debugged(alloc, &catalogue.carrier(table, n)?),
    }
}

fn version_text(alloc: Global, version: Option<&SchemaVersion>) -> Result<String, Memory> {
    let Some(version) = version else {
        return shown(alloc, &"None");
    };
    let text = write_version(alloc, version)?;
    shown(alloc, &str::from_utf8(text.as_slice()).unwrap_or("no text"))
}

/// Adds the version that is spelled by the first and last number of its columns, of its fields, and how many names it has.
fn wide_added(
    alloc: Global,
    catalogue: &mut Catalogue,
    words: &mut SplitWhitespace<'_>,
) -> Result<String, Memory> {
    let text = wide(alloc, words)?;
    added(alloc, catalogue, &mut text.as_str().split_whitespace())
}

fn wide(alloc: Global, words: &mut SplitWhitespace<'_>) -> Result<String, Memory> {
    let (table, version) = (word(words), word(words));
    let mut text = format!(in alloc; "t{table} {table} {version} [ id int64 ] ")?;
    put_numbered(alloc, &mut text, number(words), number(words), "bool ;")?;
    text.push_str("301 s { ")?;
    put_numbered(alloc, &mut text, number(words), number(words), "text")?;
    text.push_str("} ; 302 e < ")?;
    put_numbered(alloc, &mut text, 1, number(words), "")?;
    text.push_str("> ;")?;
    Ok(text)
}

/// Numbers with names, as the script spells columns, fields and the names of an enum.
fn put_numbered(
    alloc: Global,
    text: &mut String,
    first: u16,
    last: u16,
    behind: &str,
) -> Result<(), Memory> {
    for n in first..=last {
        let one = format!(in alloc; "{n} n{n} {behind} ")?;
        text.push_str(one.as_str())?;
    }
    Ok(())
}

/// Adds tables, or versions of table 9, and tells whether each was added.
fn all_added(
    alloc: Global,
    catalogue: &mut Catalogue,
    tables: bool,
    first: u32,
    last: u32,
) -> Result<String, Memory> {
    let mut all = true;
    for n in first..=last {
        let text = numbered(alloc, tables, n)?;
        let answer = added(alloc, catalogue, &mut text.as_str().split_whitespace())?;
        all = all && answer.as_str() == "Ok";
    }
    shown(alloc, &all)
}

fn numbered(alloc: Global, table: bool, n: u32) -> Result<String, Memory> {
    if table {
        return Ok(format!(in alloc; "t{n} {n} 1 [ id int64 ]")?);
    }
    Ok(format!(in alloc; "t9 9 {n} [ id int64 ]")?)
}
