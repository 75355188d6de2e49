//! The version of a change's table. A lawful catalogue has at most 64 tables, and a version is found in constant time.

ghost use Rattle.std.specs.Prelude.{◌≡◌, None, option_map, IfErr, IfOk, Some};
ghost use Rattle.lt_tables.specs.Schema.{schema_version};
ghost use Rattle.lt_schema.specs.View.{view_version};
ghost use Rattle.lt_fair.specs.Faults.{version_fault};
ghost use Rattle.lt_fair.specs.View.{view_unfair};

use crate::refusal::Unfair;
use lt_schema::{Catalogue, SchemaVersion};

/// The first version of a table, which each table of a catalogue has.
const FIRST: u32 = 1;

/// The version of a table, live or retired.
pub fn version_of(cat: &Catalogue, table: u32, version: u32) -> Result<&SchemaVersion, Unfair>
    ensures found { IfOk result (λ v. Some (view_version v.now) ≡ schema_version cat.now table version) }
    ensures known { IfOk result (λ v. version_fault cat.now table version ≡ None) }
    ensures refused { IfErr result (λ e. version_fault cat.now table version ≡ Some (view_unfair e)) }
{
    match cat.get(table, version) {
        Some(found) => Ok(found),
        None => Err(unknown(cat, table, version)),
    }
}

/// Which of the two is unknown.
fn unknown(cat: &Catalogue, table: u32, version: u32) -> Unfair
    requires { schema_version cat.now table version ≡ None }
    ensures { version_fault cat.now table version ≡ Some (view_unfair result) }
{
    if cat.get(table, FIRST).is_some() {
        Unfair::UnknownVersion { version }
    } else {
        Unfair::UnknownTable { number: table }
    }
}
