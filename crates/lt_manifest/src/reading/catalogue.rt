//! The catalogue of the tables that were read: each table's versions are added in turn, and then the dead ones retired.
//!
//! A version that the catalogue refuses is in no manifest. What a version holds is copied once.

ghost use Rattle.std.specs.Prelude.{◌≡◌, ◌<◌, ◌^◌, IfOk, IsSome, IsTrue, false, length, map};
ghost use Rattle.lt_image_laws.specs.Rebuild.{adds, are_in_turn, rebuilds, rebuilds_table, retires};
ghost use Rattle.lt_terms.specs.Value.{rises_above};
ghost use Rattle.lt_schema.specs.Faults.{view_refusal};
ghost use Rattle.lt_schema.specs.View.{view_version};
ghost use Rattle.lt_manifest.specs.Reading.{AddsOne, HasRoom, Makes, have_versions, numbers_rise, Rebuilds, RetiresOne, one_read, table_read};
ghost use Rattle.lt_manifest.specs.View.{view_read, view_table};

use crate::reading::fault::Stop;
use crate::reading::tables::{TableRead, VersionRead};
use lt_core::{Memory, Text};
use lt_schema::{Catalogue, KeyColumns, SchemaRefusal, SchemaVersion};
use std::alloc::Global;

/// The catalogue that has these tables, where it is a lawful one.
pub fn rebuilt(alloc: Global, tables: &[TableRead]) -> Result<Catalogue, Stop>
    requires { HasRoom tables.now }
    ensures { Rebuilds (map view_table tables.now) result }
{
    if !are_in_turn(tables) {
        return Err(Stop::Unlike);
    }
    let mut catalogue = Catalogue::new(alloc);
    if add_tables(&mut catalogue, tables)? {
        Ok(catalogue)
    } else {
        Err(Stop::Unlike)
    }
}

/// Whether tables stand by rising number, each with a version.
fn are_in_turn(tables: &[TableRead]) -> bool
    ensures { result ≡ are_in_turn (map view_table tables.now) }
{
    numbers_rise(tables) && have_versions(tables)
}

fn numbers_rise(tables: &[TableRead]) -> bool
    ensures { result ≡ numbers_rise (map view_table tables.now) }
{
    match tables.split_first() {
        None => true,
        Some((first, rest)) => numbers_rise_above(first.number, rest),
    }
}

fn numbers_rise_above(low: u32, tables: &[TableRead]) -> bool
    ensures { result ≡ rises_above low (map (λ t. t.number) (map view_table tables.now)) }
{
    let mut last = low;
    for table in tables {
        if table.number <= last {
            return false;
        }
        last = table.number;
    }
    true
}

fn have_versions(tables: &[TableRead]) -> bool
    ensures { result ≡ have_versions (map view_table tables.now) }
{
    for table in tables {
        if table.versions.is_empty() {
            return false;
        }
    }
    true
}

/// Adds tables in turn, until one is refused.
fn add_tables(catalogue: &mut Catalogue, tables: &[TableRead]) -> Result<bool, Memory>
    requires { HasRoom tables.now }
    ensures { IfOk result (λ done. Makes done catalogue.new (rebuilds (map view_table tables.now) catalogue.old)) }
{
    for table in tables {
        if !add_table(catalogue, table)? {
            return Ok(false);
        }
    }
    Ok(true)
}

/// Adds the versions of a table in turn, and retires the dead ones.
fn add_table(catalogue: &mut Catalogue, table: &TableRead) -> Result<bool, Memory>
    requires { length table.now.versions < 2 ^ 16 }
    ensures { IfOk result (λ done. Makes done catalogue.new (rebuilds_table (view_table table.now) catalogue.old)) }
{
    let versions = table.versions.as_slice();
    let added = add_versions(catalogue, table.number, &table.name, &table.key, versions)?;
    Ok(added && retire_versions(catalogue, table.number, versions))
}

/// Adds the versions of a table in turn, until one is refused.
fn add_versions(
    catalogue: &mut Catalogue,
    number: u32,
    name: &Text,
    key: &KeyColumns,
    versions: &[VersionRead],
) -> Result<bool, Memory>
    requires { length versions.now < 2 ^ 16 }
    ensures { IfOk result (λ done. Makes done catalogue.new
        (adds (table_read number name.now key.now versions.now) 1 (map view_read versions.now) catalogue.old)) }
{
    let mut version: u32 = 1;
    for read in versions {
        if !add_one(catalogue, number, name, key, version, read)? {
            return Ok(false);
        }
        version += 1;
    }
    Ok(true)
}

/// Adds one version, where it is not refused.
fn add_one(
    catalogue: &mut Catalogue,
    number: u32,
    name: &Text,
    key: &KeyColumns,
    version: u32,
    read: &VersionRead,
) -> Result<bool, Memory>
    ensures { IfOk result (λ done. AddsOne done catalogue.old catalogue.new
        (one_read number name.now key.now version read.now)) }
{
    let next = version_of(number, name, key, version, read)?;
    match catalogue.add(next) {
        Ok(()) => Ok(true),
        Err(refusal) => refused(&refusal),
    }
}

fn version_of(
    number: u32,
    name: &Text,
    key: &KeyColumns,
    version: u32,
    read: &VersionRead,
) -> Result<SchemaVersion, Memory>
    ensures { IfOk result (λ v. view_version v ≡ one_read number name.now key.now version read.now) }
{
    Ok(SchemaVersion {
        table: name.copy()?,
        number,
        version,
        key: key.copy()?,
        columns: read.columns.copy()?,
    })
}

/// Whether it is more than that memory ran out.
fn refused(refusal: &SchemaRefusal) -> Result<bool, Memory>
    ensures { IfOk result (λ done. (done ≡ false) × IsSome (view_refusal refusal.now)) }
{
    match refusal {
        SchemaRefusal::Memory => Err(Memory),
        _ => Ok(false),
    }
}

/// Retires the dead ones of a table's versions in turn.
fn retire_versions(catalogue: &mut Catalogue, number: u32, versions: &[VersionRead]) -> bool
    requires { length versions.now < 2 ^ 16 }
    ensures { Makes result catalogue.new (retires number 1 (map view_read versions.now) catalogue.old) }
{
    let mut version: u32 = 1;
    for read in versions {
        if !retire_one(catalogue, number, version, read.live) {
            return false;
        }
        version += 1;
    }
    true
}

/// Retires one version, where it is dead.
fn retire_one(catalogue: &mut Catalogue, number: u32, version: u32, live: bool) -> bool
    ensures { RetiresOne result live catalogue.old catalogue.new number version }
{
    if live {
        return true;
    }
    match catalogue.retire(number, version) {
        Ok(()) => true,
        Err(_) => false,
    }
}
