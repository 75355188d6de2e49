//! Adding a version: the tests, in their order.

ghost use Rattle.std.specs.Prelude.{map, option_map};
ghost use Rattle.lt_tables.specs.Schema.{too_many};
ghost use Rattle.lt_schema.specs.Faults.{Finds, fault_after, fault_alone, fault_of_columns};
ghost use Rattle.lt_schema.specs.Limits.{over_counts};
ghost use Rattle.lt_schema.specs.Tables.{view_registered};
ghost use Rattle.lt_schema.specs.View.{view_columns, view_version};

mod defaults;
mod history;
mod limits;
mod names;
mod numbers;
mod repeated;
mod seen;

use crate::adding::defaults::{bad_default, is_too_deep};
use crate::adding::history::{changed, given_again, reused};
use crate::adding::limits::passed_limit;
use crate::adding::names::bad_name;
use crate::adding::numbers::bad_number;
use crate::adding::repeated::repeated_name;
use crate::refusal::SchemaRefusal;
use crate::table::Registered;
use crate::version::{Column, SchemaVersion};
use std::alloc::Global;

/// Tests a version by itself.
#[tactic(auto, unfolding(crate::specs::Faults::fault_alone))]
pub fn test_alone(alloc: Global, version: &SchemaVersion) -> Result<(), SchemaRefusal>
    ensures { Finds (fault_alone (view_version version.now)) result }
{
    if let Some(number) = bad_number(version) {
        return Err(SchemaRefusal::BadNumber { number });
    }
    if let Some(name) = bad_name(version) {
        return Err(SchemaRefusal::BadName { name: name.copy()? });
    }
    if let Some(name) = repeated_name(alloc, version)? {
        return Err(SchemaRefusal::DuplicateName { name: name.copy()? });
    }
    if is_too_deep(version) {
        return Err(SchemaRefusal::TooDeep);
    }
    if let Some(column) = bad_default(version) {
        return Err(SchemaRefusal::BadDefault { column });
    }
    Ok(())
}

/// Tests columns against the older versions of the table, and the limits with so many tables.
#[tactic(auto, using(crate::proofs::FaultLaws::found_first))]
pub fn test_columns(
    alloc: Global,
    tables: usize,
    versions: &[Registered],
    columns: &[Column],
) -> Result<(), SchemaRefusal>
    ensures { Finds (fault_of_columns tables (map view_registered versions.now) (view_columns columns.now)) result }
{
    test_after(versions, columns)?;
    test_limits(alloc, tables, versions, columns)
}

#[tactic(auto, unfolding(crate::specs::Faults::fault_after))]
fn test_after(versions: &[Registered], columns: &[Column]) -> Result<(), SchemaRefusal>
    ensures { Finds (fault_after (map view_registered versions.now) (view_columns columns.now)) result }
{
    if let Some(column) = reused(versions, columns) {
        return Err(SchemaRefusal::ColumnReused { column });
    }
    if let Some(column) = changed(versions, columns) {
        return Err(SchemaRefusal::KindChanged { column });
    }
    if let Some(column) = given_again(versions, columns) {
        return Err(SchemaRefusal::DefaultGiven { column });
    }
    Ok(())
}

fn test_limits(
    alloc: Global,
    tables: usize,
    versions: &[Registered],
    columns: &[Column],
) -> Result<(), SchemaRefusal>
    ensures { Finds (option_map too_many
        (over_counts tables (map view_registered versions.now) (view_columns columns.now))) result }
{
    match passed_limit(alloc, tables, versions, columns)? {
        None => Ok(()),
        Some(count) => Err(SchemaRefusal::Limit { count }),
    }
}
