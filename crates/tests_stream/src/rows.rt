//! Rows at a moment: that the definitions give the worked rows, and that calls succeed where there is memory.

ghost use Rattle.std.specs.Prelude.{◌∷◌, []};
ghost use Rattle.lt_examples.specs.Examples.{inserted, one_table, updated};
ghost use Rattle.lt_rows.specs.Scans.{AreShaped, RiseByKey};

mod story;

use crate::rows::story::{ROWS, catalogue, parsed, story};
use lt_core::Memory;
use lt_records::ChangeRecord;
use lt_rows::rows_at;
use lt_schema::Catalogue;
use std::alloc::Global;
use std::test::Fail;

/// What the clause of `rows_at` supposes can be met.
fn supposed_of_two_changes()
    ensures shaped { AreShaped one_table (inserted ∷ updated ∷ []) }
    ensures in_time { RiseByKey (inserted ∷ updated ∷ []) }
{}

/// A version and a moment, with the rows that are found.
fn tell(
    alloc: Global,
    catalogue: &Catalogue,
    changes: &[&ChangeRecord],
    row: &str,
    told: &mut String,
) -> Result<(), Memory> {
    let Some((asked, _)) = row.split_once(" -> ") else {
        told.push_str("\n")?;
        return Ok(());
    };
    let (number, at) = asked.split_once(' ').unwrap_or(("", ""));
    let Some(version) = catalogue.get(1, parsed(number)) else {
        return Ok(());
    };
    let rows = rows_at(alloc, changes, catalogue, version, parsed(at))?;
    let line = format!(in alloc; "{asked} -> {rows:?}\n")?;
    told.push_str(line.as_str())?;
    Ok(())
}

fn listed(alloc: Global, changes: &[ChangeRecord]) -> Result<Vec<&ChangeRecord>, Memory> {
    let mut list = Vec::new(alloc);
    for change in changes {
        list.push(change)?;
    }
    Ok(list)
}

fn told(alloc: Global) -> Result<String, Memory> {
    let catalogue = catalogue(alloc)?;
    let changes = story(alloc)?;
    let list = listed(alloc, &changes)?;
    let mut told = String::new(alloc);
    for row in ROWS.lines() {
        tell(alloc, &catalogue, &list, row, &mut told)?;
    }
    Ok(told)
}

#[test]
fn worked_rows(rt: HostRuntime) -> Result<(), Fail> {
    let told = told(rt.alloc())?;
    assert_eq!(rt; told.as_str(), ROWS);
    Ok(())
}

fn count_of_no_changes(alloc: Global) -> Result<Option<usize>, Memory> {
    let catalogue = catalogue(alloc)?;
    let Some(version) = catalogue.get(1, 2) else {
        return Ok(None);
    };
    let rows = rows_at(alloc, &[], &catalogue, version, 5)?;
    Ok(Some(rows.len()))
}

#[test]
fn no_changes_no_rows(rt: HostRuntime) -> Result<(), Fail> {
    assert!(rt; count_of_no_changes(rt.alloc())? == Some(0));
    Ok(())
}
