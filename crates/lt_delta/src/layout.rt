//! Whether leaves are those of columns: one pass over them, which takes time linear in their paths.
//!
//! A struct's presence leaf comes first and then its fields by rising number, so each leaf tells where the next one may stand.

ghost use Rattle.std.specs.Prelude.{◌≡◌, []};
ghost use Rattle.lt_core.specs.View.{view_layout, view_leaf};
ghost use Rattle.lt_delta.specs.Layouts as layouts;
ghost use Rattle.lt_delta.specs.View.{view_tables};

use crate::index::TableIndexes;
use lt_core::{Layout, Leaf, Rank};

/// How many fields may lead to a leaf.
const DEPTH: usize = 4;

/// Whether the layout of each table is one of columns.
pub fn are_layouts(tables: &TableIndexes) -> bool
    ensures { result ≡ layouts.have_order (view_tables tables.now) }
{
    for table in tables.as_slice() {
        if !is_layout(&table.layout) {
            return false;
        }
    }
    true
}

/// Whether each leaf stands where the one before it lets it stand.
fn is_layout(layout: &Layout) -> bool
    ensures { result ≡ layouts.are_in_order 0 [] (view_layout layout.now) }
{
    let mut column = 0;
    let mut path: &[u16] = &[];
    let mut presence = false;
    for leaf in layout.as_slice() {
        if !is_leaf(leaf) || !stands_behind(column, path, presence, leaf) {
            return false;
        }
        column = leaf.column;
        path = leaf.path.as_slice();
        presence = leaf.presence;
    }
    true
}

fn is_leaf(leaf: &Leaf) -> bool
    ensures { result ≡ layouts.is_leaf (view_leaf leaf.now) }
{
    if leaf.presence {
        leaf.rank == Rank::Bool && leaf.path.len() < DEPTH
    } else {
        leaf.path.len() <= DEPTH
    }
}

/// Whether a leaf may stand behind one of this column, at this path.
fn stands_behind(column: u16, path: &[u16], presence: bool, leaf: &Leaf) -> bool
    ensures { result ≡ layouts.stands_behind column (layouts.cursor path.now presence) (view_leaf leaf.now) }
{
    if column == leaf.column {
        passes(path, presence, leaf.path.as_slice())
    } else {
        column < leaf.column && leaf.path.is_empty()
    }
}

/// Whether a path leads to a later field, or below a presence leaf. The recursion goes along the paths, which have at most four
/// numbers.
fn passes(before: &[u16], presence: bool, path: &[u16]) -> bool
    ensures { result ≡ layouts.passes (layouts.cursor before.now presence) path.now }
{
    let Some((number, path)) = path.split_first() else {
        return false;
    };
    let Some((passed, before)) = before.split_first() else {
        return presence && path.is_empty() && 0 < *number;
    };
    if path.is_empty() {
        passed < number
    } else {
        passed == number && passes(before, presence, path)
    }
}
