//! Limits: of tables, versions, column numbers, leaves of carriers, and the names of an enum.
//!
//! Counting takes time linear in the version, times what the table holds, and takes memory for the carriers. The
//! recursion goes down a kind, which nests at most 4 deep by then. A count past 32 bits is answered as out of memory:
//! what it counts would fill more than 2^32 places.

ghost use Rattle.std.specs.Prelude.{◌≡◌, ◌+◌, ◌++◌, [], ◌∷◌, map, option_map, IfOk, OnOk};
ghost use Rattle.lt_tables.specs.Schema.{joined_all, kinds_given, live_version, over};
ghost use Rattle.lt_core.specs.View.{view_kind};
ghost use Rattle.lt_schema.specs.Limits.{leaf_total, leaf_totals, leaves_in, long_in, long_of, long_within, numbers_in, over_counts, with_numbers};
ghost use Rattle.lt_schema.specs.Tables.{view_registered};
ghost use Rattle.lt_schema.specs.View.{view_columns, view_fields};

use crate::carrier::{carrier_of, widened};
use crate::lookup::column_of;
use crate::table::Registered;
use crate::version::Column;
use lt_core::{FieldKinds, Kind, Memory};
use std::alloc::Global;
use std::collections::BTreeSet;

const MAX_TABLES: usize = 64;

const MAX_VERSIONS: usize = 256;

/// The most column numbers of a table, over all its versions.
const MAX_COLUMNS: usize = 256;

/// The most leaves of the carriers of all columns of a table.
const MAX_LEAVES: u32 = 1_024;

/// The most names of an enum.
const MAX_NAMES: usize = 256;

/// The first count that passes its limit with so many tables, and with these columns behind the versions.
#[tactic(auto, unfolding(crate::specs::Limits::over_counts))]
pub fn passed_limit(
    alloc: Global,
    tables: usize,
    versions: &[Registered],
    columns: &[Column],
) -> Result<Option<u32>, Memory>
    ensures { IfOk result (λ count. count ≡ over_counts tables (map view_registered versions.now)
        (view_columns columns.now)) }
{
    let count = over(MAX_TABLES, tables)?;
    if count.is_some() {
        return Ok(count);
    }
    let count = over(MAX_VERSIONS, versions.len() + 1)?;
    if count.is_some() {
        return Ok(count);
    }
    let numbers = numbers_of(alloc, versions, columns)?;
    let count = over(MAX_COLUMNS, numbers.len())?;
    if count.is_some() {
        return Ok(count);
    }
    let leaves = leaf_count(versions, columns, &numbers)?;
    if leaves > MAX_LEAVES {
        return Ok(Some(leaves));
    }
    match long_enum(columns) {
        None => Ok(None),
        Some(names) => Ok(Some(counted(names)?)),
    }
}

/// The count, where it passes its limit.
fn over(most: usize, count: usize) -> Result<Option<u32>, Memory>
    ensures { IfOk result (λ passed. passed ≡ over most count) }
{
    if count <= most {
        return Ok(None);
    }
    Ok(Some(counted(count)?))
}

fn counted(count: usize) -> Result<u32, Memory>
    ensures { IfOk result (λ n. n ≡ count) }
{
    match u32::try_from(count) {
        Ok(n) => Ok(n),
        Err(_) => Err(Memory),
    }
}

/// The numbers of all columns, each once.
fn numbers_of(
    alloc: Global,
    versions: &[Registered],
    columns: &[Column],
) -> Result<BTreeSet<u16>, Memory>
    ensures { IfOk result (λ numbers. numbers.keys ≡ numbers_in
        (map view_registered versions.now ++ live_version (view_columns columns.now) ∷ [])) }
{
    let mut numbers = BTreeSet::new(alloc);
    for registered in versions {
        add_numbers(&mut numbers, registered.version.columns.as_slice())?;
    }
    add_numbers(&mut numbers, columns)?;
    Ok(numbers)
}

fn add_numbers(numbers: &mut BTreeSet<u16>, columns: &[Column]) -> Result<(), Memory>
    ensures { OnOk result (numbers.new.keys ≡ with_numbers numbers.old.keys (view_columns columns.now)) }
{
    for column in columns {
        numbers.insert(column.number)?;
    }
    Ok(())
}

/// The leaves of the carriers of these columns.
fn leaf_count(
    versions: &[Registered],
    columns: &[Column],
    numbers: &BTreeSet<u16>,
) -> Result<u32, Memory>
    ensures { IfOk result (λ count. count ≡ leaves_in
        (map view_registered versions.now ++ live_version (view_columns columns.now) ∷ []) numbers.now.keys) }
{
    let mut count = 0;
    for number in numbers.iter() {
        if let Some(carrier) = carrier_with(versions, columns, *number)? {
            count = with_leaves(count, &carrier)?;
        }
    }
    Ok(count)
}

/// The carrier that versions give a column, with these columns behind them.
#[tactic(auto, using(crate::proofs::Counts::given_more))]
fn carrier_with(
    versions: &[Registered],
    columns: &[Column],
    number: u16,
) -> Result<Option<Kind>, Memory>
    ensures { IfOk result (λ carrier. option_map view_kind carrier ≡ joined_all
        (kinds_given (map view_registered versions.now ++ live_version (view_columns columns.now) ∷ []) number)) }
{
    let carrier = carrier_of(versions, number)?;
    match column_of(columns, number) {
        None => Ok(carrier),
        Some(column) => Ok(Some(widened(carrier, &column.kind)?)),
    }
}

#[cycle(leaves)]
fn with_leaves(count: u32, kind: &Kind) -> Result<u32, Memory>
    ensures { IfOk result (λ n. n ≡ count + leaf_total (view_kind kind.now)) }
{
    let Some(count) = count.checked_add(1) else {
        return Err(Memory);
    };
    match kind {
        Kind::Plain(_) | Kind::Enum(_) => Ok(count),
        Kind::Struct(fields) => with_field_leaves(count, fields),
    }
}

#[cycle(leaves)]
fn with_field_leaves(count: u32, fields: &FieldKinds) -> Result<u32, Memory>
    ensures { IfOk result (λ n. n ≡ count + leaf_totals (view_fields fields.now)) }
{
    let mut all = count;
    for (_, _, kind) in fields.as_slice() {
        all = with_leaves(all, kind)?;
    }
    Ok(all)
}

/// How many names the first enum has that has too many.
fn long_enum(columns: &[Column]) -> Option<usize>
    ensures { result ≡ long_of (view_columns columns.now) }
{
    for column in columns {
        let long = long_in_kind(&column.kind);
        if long.is_some() {
            return long;
        }
    }
    None
}

#[cycle(enums)]
fn long_in_kind(kind: &Kind) -> Option<usize>
    ensures { result ≡ long_in (view_kind kind.now) }
{
    match kind {
        Kind::Plain(_) => None,
        Kind::Enum(names) if names.len() > MAX_NAMES => Some(names.len()),
        Kind::Enum(_) => None,
        Kind::Struct(fields) => long_within(fields),
    }
}

#[cycle(enums)]
fn long_within(fields: &FieldKinds) -> Option<usize>
    ensures { result ≡ long_within (view_fields fields.now) }
{
    for (_, _, kind) in fields.as_slice() {
        let long = long_in_kind(kind);
        if long.is_some() {
            return long;
        }
    }
    None
}
