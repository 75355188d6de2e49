//! A row's cells under a layout. Making them takes time by the cells and their bytes, and for each leaf by the settings that stand before
//! its column's, at most 256, and by the fields that stand before those on its path.

ghost use Rattle.std.specs.Prelude.{◌≡◌, option_map, IfOk};
ghost use Rattle.std.specs.Option.{option_map_or};
ghost use Rattle.lt_terms.specs.Layout as layouts;
ghost use Rattle.lt_terms.specs.Value.{null_value};
ghost use Rattle.lt_core.specs.View.{view_cells, view_layout, view_leaf, view_scalar, view_settings, view_value};
ghost use Rattle.lt_physical.specs.Cells.{value_found, value_given};

use lt_core::{Cells, Layout, Leaf, List, Memory, Path, Scalar, Settings, Value};
use std::alloc::Global;

/// The cells of what is set. A column that is not set has unset cells.
pub fn flatten(alloc: Global, layout: &Layout, set: &Settings) -> Result<Cells, Memory>
    ensures { IfOk result (λ cells. view_cells cells ≡ layouts.flatten (view_layout layout.now)
        (view_settings set.now)) }
{
    let mut cells = List::new(alloc);
    for leaf in layout.as_slice() {
        cells.push(cell_in(alloc, leaf, set)?)?;
    }
    Ok(cells)
}

/// The cell of a leaf.
fn cell_in(alloc: Global, leaf: &Leaf, set: &Settings) -> Result<Scalar, Memory>
    ensures { IfOk result (λ cell. view_scalar cell ≡ option_map_or (layouts.leaf_cell (view_leaf leaf.now))
        (layouts.setting leaf.now.column (view_settings set.now)) layouts.unset) }
{
    match setting_of(set, leaf.column) {
        None => Ok(Scalar::Unset),
        Some(value) => leaf_cell(alloc, leaf, value),
    }
}

/// The cell of a leaf in a column that has this value.
fn leaf_cell(alloc: Global, leaf: &Leaf, value: &Value) -> Result<Scalar, Memory>
    ensures { IfOk result (λ cell. view_scalar cell ≡ layouts.leaf_cell (view_leaf leaf.now) (view_value value.now)) }
{
    let part = value_along(value, &leaf.path);
    if leaf.presence {
        return Ok(Scalar::Bool(is_structure(part)));
    }
    match part {
        None => Ok(Scalar::Null),
        Some(value) => cell_of(alloc, value),
    }
}

/// The value at the end of a path; none where something on the way is absent.
fn value_along<'a>(value: &'a Value, path: &Path) -> Option<&'a Value>
    ensures { value_found result ≡ layouts.value_along path.now (view_value value.now) }
{
    let mut part = Some(value);
    for number in path.as_slice() {
        part = field_of(part, *number);
    }
    part
}

/// A field of a struct.
fn field_of<'a>(part: Option<&'a Value>, number: u16) -> Option<&'a Value>
    ensures { value_found result ≡ layouts.field_of number (value_found part.entry) }
{
    match part {
        Some(value) => field_in(value, number),
        None => None,
    }
}

fn field_in(value: &Value, number: u16) -> Option<&Value>
    ensures { value_found result ≡ layouts.field_of number (view_value value.now) }
{
    match value {
        Value::Struct(fields) => setting_of(fields, number),
        _ => None,
    }
}

fn is_structure(part: Option<&Value>) -> bool
    ensures { result ≡ layouts.is_structure (value_found part.entry) }
{
    match part {
        Some(Value::Struct(_)) => true,
        _ => false,
    }
}

/// A primitive value as a cell; a text as its bytes.
fn cell_of(alloc: Global, value: &Value) -> Result<Scalar, Memory>
    ensures { IfOk result (λ cell. view_scalar cell ≡ layouts.cell_of (view_value value.now)) }
{
    match value {
        Value::Null | Value::Struct(_) => Ok(Scalar::Null),
        Value::Bool(truth) => Ok(Scalar::Bool(*truth)),
        Value::Int(number) => Ok(Scalar::Int(*number)),
        Value::Text(text) => Ok(Scalar::Bytes(List::from_slice(alloc, text.as_slice())?)),
        Value::Bytes(bytes) => Ok(Scalar::Bytes(bytes.copy()?)),
    }
}

/// What is set of a number: of several settings the first.
fn setting_of(set: &Settings, number: u16) -> Option<&Value>
    ensures { option_map view_value (value_given result) ≡ layouts.setting number (view_settings set.now) }
{
    for (given, value) in set.as_slice() {
        if number == *given {
            return Some(value);
        }
    }
    None
}
