//! Layouts: the leaves of a version's columns in their own kinds, and of a table's live columns in their carriers.

ghost use Rattle.std.specs.Prelude.{◌≡◌, ◌++◌, [], IfOk, OnOk};
ghost use Rattle.std.specs.Option.{option_map_or};
ghost use Rattle.lt_tables.specs.Schema as schema;
ghost use Rattle.lt_tables.specs.Schema.{table_numbered};
ghost use Rattle.lt_core.specs.View.{view_layout};
ghost use Rattle.lt_schema.specs.Limits.{with_numbers};
ghost use Rattle.lt_schema.specs.View.{view_columns};
ghost use Rattle.lt_physical.specs.Leaves.{carrier_leaves};

use crate::leaves::add_leaves;
use lt_core::{Layout, List as Items, Memory, Path};
use lt_schema::{Catalogue, Column, SchemaVersion};
use std::alloc::Global;
use std::collections::BTreeSet;

/// A table has at most so many versions.
const MAX_VERSIONS: u32 = 256;

/// The layout of a version's columns in their own kinds. It takes time by the leaves and their paths.
pub fn version_layout(alloc: Global, version: &SchemaVersion) -> Result<Layout, Memory>
    ensures { IfOk result (λ layout. view_layout layout ≡ schema.version_layout (view_columns version.now.columns)) }
{
    let mut layout = Items::new(alloc);
    let path = Path::new(alloc);
    for column in version.columns.as_slice() {
        add_leaves(&column.kind, column.number, &path, &mut layout)?;
    }
    Ok(layout)
}

/// The layout of a table's live columns in their carriers; an unknown table has none. It takes time for each column
/// by the columns of all versions.
pub fn carrier_layout(alloc: Global, cat: &Catalogue, number: u32) -> Result<Layout, Memory>
    ensures { IfOk result (λ layout. view_layout layout ≡ schema.carriers cat.now number) }
{
    let numbers = column_numbers(alloc, cat, number)?;
    let mut layout = Items::new(alloc);
    let path = Path::new(alloc);
    for column in numbers.iter() {
        add_carrier(cat, number, *column, &path, &mut layout)?;
    }
    Ok(layout)
}

/// Adds the leaves of a column in its carrier, where it is live.
fn add_carrier(
    cat: &Catalogue,
    number: u32,
    column: u16,
    path: &Path,
    layout: &mut Layout,
) -> Result<(), Memory>
    requires { path.now ≡ [] }
    ensures { OnOk result (view_layout layout.new ≡ view_layout layout.old ++ carrier_leaves cat.now number column) }
{
    if !cat.column_live(number, column) {
        return Ok(());
    }
    match cat.carrier(number, column)? {
        Some(kind) => add_leaves(&kind, column, path, layout),
        None => Ok(()),
    }
}

/// The numbers of the columns of all versions of a table.
fn column_numbers(alloc: Global, cat: &Catalogue, number: u32) -> Result<BTreeSet<u16>, Memory>
    ensures { IfOk result (λ numbers. numbers.keys ≡ option_map_or schema.column_numbers (table_numbered cat.now number)
        []) }
{
    let mut numbers = BTreeSet::new(alloc);
    for version in 1..=MAX_VERSIONS {
        match cat.get(number, version) {
            Some(version) => add_numbers(&mut numbers, version.columns.as_slice())?,
            None => return Ok(numbers),
        }
    }
    Ok(numbers)
}

fn add_numbers(numbers: &mut BTreeSet<u16>, columns: &[Column]) -> Result<(), Memory>
    ensures { OnOk result (numbers.new.keys ≡ with_numbers numbers.old.keys (view_columns columns.now)) }
{
    for column in columns {
        numbers.insert(column.number)?;
    }
    Ok(())
}
