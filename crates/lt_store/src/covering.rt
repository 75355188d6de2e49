//! Whether a catalogue knows an index: each of its tables is registered, and each layout agrees with the table's carriers. A layout is
//! walked beside the carriers, whose leaves stand in the same order, so that one which agrees takes linear time.

ghost use Rattle.std.specs.Prelude.{◌≡◌, ◌≤◌, IfOk, IfSome, Some, is_some, length, map};
ghost use Rattle.std.specs.List.{list_any};
ghost use Rattle.std.specs.Option.{option_copied};
ghost use Rattle.lt_terms.specs.Kind.{rank_number};
ghost use Rattle.lt_tables.specs.Schema as schema;
ghost use Rattle.lt_tables.specs.Schema.{has_column, table_numbered};
ghost use Rattle.lt_storage.specs.Store.{is_covered, leaf_covered};
ghost use Rattle.lt_machine.specs.Run.{is_known_index};
ghost use Rattle.lt_core.specs.View.{view_layout, view_leaf};
ghost use Rattle.lt_schema.specs.Tables.{view_registered};
ghost use Rattle.lt_schema.specs.View.{view_columns};
ghost use Rattle.lt_delta.specs.View.{view_index, view_table};
ghost use Rattle.lt_store.specs.Covering.{is_known_table, takes_leaf};

use lt_core::{Leaf, Memory};
use lt_delta::{DeltaIndex, TableIndex};
use lt_physical::carrier_layout;
use lt_schema::{Catalogue, Column, Registered, Table};
use lt_terms::Rank;
use std::alloc::Global;

/// Whether the catalogue knows each table of an index, and its layout.
pub fn is_known(alloc: Global, catalogue: &Catalogue, index: &DeltaIndex) -> Result<bool, Memory>
    ensures { IfOk result (λ known. known ≡ is_known_index catalogue.now (view_index index.now)) }
{
    for table in index.tables.as_slice() {
        if !is_known_table(alloc, catalogue, table)? {
            return Ok(false);
        }
    }
    Ok(true)
}

fn is_known_table(alloc: Global, catalogue: &Catalogue, index: &TableIndex) -> Result<bool, Memory>
    ensures { IfOk result (λ known. known ≡ is_known_table catalogue.now (view_table index.now)) }
{
    let Some(table) = numbered(catalogue.tables(), index.table) else {
        return Ok(false);
    };
    let carriers = carrier_layout(alloc, catalogue, index.table)?;
    Ok(are_covered(
        catalogue,
        table,
        carriers.as_slice(),
        index.layout.as_slice(),
    ))
}

/// The table with a number.
fn numbered(tables: &[Table], number: u32) -> Option<&Table>
    ensures { option_copied result ≡ table_numbered tables.now number }
{
    for table in tables {
        if table.number() == number {
            return Some(table);
        }
    }
    None
}

/// Whether each leaf of a layout is covered by a table.
fn are_covered(catalogue: &Catalogue, table: &Table, carriers: &[Leaf], layout: &[Leaf]) -> bool
    requires table { table_numbered catalogue.now table.now.number ≡ Some table.now }
    requires carriers { view_layout carriers.now ≡ schema.carriers catalogue.now table.now.number }
    ensures { result ≡ is_covered catalogue.now table.now.number (view_layout layout.now) }
{
    let mut from = 0;
    for leaf in layout {
        match covered_from(catalogue, table, carriers, from, leaf) {
            Some(at) => from = at,
            None => return false,
        }
    }
    true
}

/// Where the search for the next leaf begins, if this one is covered: it is of a registered column, and where that is live the
/// carriers take it.
fn covered_from(
    catalogue: &Catalogue,
    table: &Table,
    carriers: &[Leaf],
    from: usize,
    leaf: &Leaf,
) -> Option<usize>
    requires table { table_numbered catalogue.now table.now.number ≡ Some table.now }
    requires carriers { view_layout carriers.now ≡ schema.carriers catalogue.now table.now.number }
    requires from { from ≤ length carriers.now }
    ensures covered { is_some result ≡ leaf_covered catalogue.now table.now.number (view_leaf leaf.now) }
    ensures within { IfSome result (λ at. at ≤ length carriers.now) }
{
    if !has_column(table.versions(), leaf.column) {
        return None;
    }
    if !catalogue.column_live(table.number(), leaf.column) {
        return Some(from);
    }
    carried_from(carriers, from, leaf)
}

/// Where a leaf of the carriers stands that takes a leaf. It is sought from a place on, and then before it.
fn carried_from(carriers: &[Leaf], from: usize, leaf: &Leaf) -> Option<usize>
    requires { from ≤ length carriers.now }
    ensures carried { is_some result ≡ list_any (takes_leaf (view_leaf leaf.now)) (view_layout carriers.now) }
    ensures within { IfSome result (λ at. at ≤ length carriers.now) }
{
    let (front, rest) = carriers.split_at(from);
    match place_of(rest, leaf) {
        Some(at) => Some(from + at),
        None => place_of(front, leaf),
    }
}

/// Where the first leaf of the carriers stands that takes a leaf.
fn place_of(carriers: &[Leaf], leaf: &Leaf) -> Option<usize>
    ensures carried { is_some result ≡ list_any (takes_leaf (view_leaf leaf.now)) (view_layout carriers.now) }
    ensures within { IfSome result (λ at. at ≤ length carriers.now) }
{
    for (at, carrier) in carriers.iter().enumerate() {
        if takes(carrier, leaf) {
            return Some(at);
        }
    }
    None
}

/// Whether a leaf of the carriers takes what a leaf has.
fn takes(carrier: &Leaf, leaf: &Leaf) -> bool
    ensures { result ≡ takes_leaf (view_leaf leaf.now) (view_leaf carrier.now) }
{
    carrier.column == leaf.column
        && carrier.path.as_slice() == leaf.path.as_slice()
        && carrier.presence == leaf.presence
        && number_of(leaf.rank) <= number_of(carrier.rank)
}

/// The place of a rank in the chain.
fn number_of(rank: Rank) -> u8
    ensures { result ≡ rank_number rank }
{
    match rank {
        Rank::Bool => 1,
        Rank::Int32 => 2,
        Rank::Int64 => 3,
        Rank::Text => 4,
        Rank::Bytes => 5,
    }
}

/// Whether some version has a column.
fn has_column(versions: &[Registered], column: u16) -> bool
    ensures { result ≡ list_any (has_column column) (map view_registered versions.now) }
{
    for registered in versions {
        if declares(registered.version.columns.as_slice(), column) {
            return true;
        }
    }
    false
}

/// Whether one of these columns has the number.
fn declares(columns: &[Column], number: u16) -> bool
    ensures { result ≡ is_some (schema.column_numbered (view_columns columns.now) number) }
{
    for column in columns {
        if column.number == number {
            return true;
        }
    }
    false
}
