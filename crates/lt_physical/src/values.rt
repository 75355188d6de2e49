//! A column's value from a row's cells. Taking it takes time by the leaves of the layout, and for each leaf of the column by the column's
//! leaves. The recursion goes down the structs, which nest at most 4 deep.

ghost use Rattle.std.specs.Prelude.{◌≡◌, ◌==◌, None, if◌then◌else◌, IfOk, option_map};
ghost use Rattle.lt_terms.specs.Layout as layouts;
ghost use Rattle.lt_core.specs.View.{view_cells, view_layout, view_leaf, view_scalar, view_settings, view_value};
ghost use Rattle.lt_physical.specs.Placed.{fields_at, of_column, view_found, view_placed};

use crate::leaves::longer_path;
use lt_core::{
    Cells, Fields, Layout, Leaf, List as Items, Memory, Path, Rank, Scalar, Text, Value,
};
use std::alloc::Global;

/// A lawful column's value nests at most so deep, itself among it.
const DEPTH: u8 = 5;

/// A leaf, with its cell.
#[derive(Clone, Copy, Debug)]
pub struct Placed<'a> {
    leaf: &'a Leaf,
    cell: &'a Scalar,
}

/// The value that a row's cells give a column; none exactly where it is unset or absent. The cells are to be lawful under the layout, as
/// those that `flatten` makes: a text's bytes that are no UTF-8 are answered as out of memory.
pub fn unflatten(
    alloc: Global,
    layout: &Layout,
    cells: &Cells,
    column: u16,
) -> Result<Option<Value>, Memory>
    ensures { IfOk result (λ value. option_map view_value value ≡ layouts.unflatten (view_layout layout.now)
        (view_cells cells.now) column) }
{
    let placed = placed_in(alloc, layout, cells, column)?;
    if !sets(&placed, column) {
        return Ok(None);
    }
    let path = Path::new(alloc);
    Ok(Some(value_from(DEPTH, alloc, &placed, column, &path)?))
}

/// The leaves of a column, with their cells.
fn placed_in<'a>(
    alloc: Global,
    layout: &'a Layout,
    cells: &'a Cells,
    column: u16,
) -> Result<Vec<Placed<'a>>, Memory>
    ensures { IfOk result (λ placed. view_placed placed.items ≡ of_column column
        (layouts.with_cells (view_layout layout.now) (view_cells cells.now))) }
{
    let mut placed = Vec::new(alloc);
    let mut rest = cells.as_slice();
    for leaf in layout.as_slice() {
        let Some((cell, behind)) = rest.split_first() else {
            return Ok(placed);
        };
        if leaf.column == column {
            placed.push(Placed { leaf, cell })?;
        }
        rest = behind;
    }
    Ok(placed)
}

/// Whether the cells set the column.
fn sets(placed: &[Placed<'_>], column: u16) -> bool
    ensures { result ≡ layouts.sets column (view_placed placed.now) }
{
    for one in placed {
        if one.leaf.column == column && !is_unset(one.cell) {
            return true;
        }
    }
    false
}

fn is_unset(cell: &Scalar) -> bool
    ensures { result ≡ layouts.is_unset (view_scalar cell.now) }
{
    match cell {
        Scalar::Unset => true,
        _ => false,
    }
}

/// The value that the cells at and below a path give.
#[cycle(value)]
fn value_from(
    depth: u8,
    alloc: Global,
    placed: &[Placed<'_>],
    column: u16,
    path: &Path,
) -> Result<Value, Memory>
    ensures { IfOk result (λ value. view_value value ≡ layouts.value_from depth column path.now
        (view_placed placed.now)) }
{
    if depth == 0 {
        return Ok(Value::Null);
    }
    match at_path(placed, column, path) {
        None => Ok(Value::Null),
        Some(one) => {
            if !one.leaf.presence {
                return value_of(alloc, one.leaf.rank, one.cell);
            }
            if !is_present(one.cell) {
                return Ok(Value::Null);
            }
            let fields = fields_from(depth - 1, alloc, placed, column, path)?;
            Ok(Value::Struct(fields))
        }
    }
}

/// The fields of the struct at a path.
#[cycle(value)]
fn fields_from(
    depth: u8,
    alloc: Global,
    placed: &[Placed<'_>],
    column: u16,
    path: &Path,
) -> Result<Fields, Memory>
    ensures { IfOk result (λ fields. view_settings fields ≡ fields_at depth column path.now (view_placed placed.now)) }
{
    let mut fields = Items::new(alloc);
    for one in placed {
        if let Some(number) = field_below(one.leaf, column, path) {
            let longer = longer_path(path, number)?;
            let value = value_from(depth, alloc, placed, column, &longer)?;
            fields.push((number, value))?;
        }
    }
    Ok(fields)
}

/// The number of the field that a leaf of the column is, of the struct at a path.
fn field_below(leaf: &Leaf, column: u16, path: &Path) -> Option<u16>
    ensures { result ≡ (if leaf.now.column == column then layouts.next_field path.now leaf.now.path else None) }
{
    if leaf.column == column {
        next_field(path.as_slice(), leaf.path.as_slice())
    } else {
        None
    }
}

/// The next number of a path that goes on from the first one by one field.
fn next_field(path: &[u16], longer: &[u16]) -> Option<u16>
    ensures { result ≡ layouts.next_field path.now longer.now }
{
    let Some(rest) = longer.strip_prefix(path) else {
        return None;
    };
    match rest {
        [number] => Some(*number),
        _ => None,
    }
}

/// The leaf of the column at a path.
fn at_path<'a>(placed: &[Placed<'a>], column: u16, path: &Path) -> Option<Placed<'a>>
    ensures { option_map view_found result ≡ layouts.at_path column path.now (view_placed placed.now) }
{
    for one in placed {
        if one.leaf.column == column && one.leaf.path.as_slice() == path.as_slice() {
            return Some(*one);
        }
    }
    None
}

fn is_present(cell: &Scalar) -> bool
    ensures { result ≡ layouts.is_present (view_scalar cell.now) }
{
    match cell {
        Scalar::Bool(truth) => *truth,
        _ => false,
    }
}

/// The value of a cell at a leaf of this rank. The bytes of a lawful text are UTF-8.
fn value_of(alloc: Global, rank: Rank, cell: &Scalar) -> Result<Value, Memory>
    ensures { IfOk result (λ value. view_value value ≡ layouts.value_of rank (view_scalar cell.now)) }
{
    match cell {
        Scalar::Unset | Scalar::Null => Ok(Value::Null),
        Scalar::Bool(truth) => Ok(Value::Bool(*truth)),
        Scalar::Int(number) => Ok(Value::Int(*number)),
        Scalar::Bytes(bytes) => bytes_of(alloc, rank, bytes.as_slice()),
    }
}

fn bytes_of(alloc: Global, rank: Rank, bytes: &[u8]) -> Result<Value, Memory>
    ensures { IfOk result (λ value. view_value value ≡ layouts.value_of rank (layouts.bytes_cell bytes.now)) }
{
    match rank {
        Rank::Text => match Text::from_slice(alloc, bytes) {
            Ok(text) => Ok(Value::Text(text)),
            Err(_) => Err(Memory),
        },
        _ => Ok(Value::Bytes(Items::from_slice(alloc, bytes)?)),
    }
}
