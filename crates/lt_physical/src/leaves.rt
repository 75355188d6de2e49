//! The leaves of a column, by its kind. Making them takes time by the leaves and their paths. The recursion goes down a kind, which in a
//! lawful version nests at most 4 deep.

ghost use Rattle.std.specs.Prelude.{◌≡◌, ◌++◌, ◌∷◌, [], IfOk, OnOk};
ghost use Rattle.lt_terms.specs.Layout.{field_leaves, leaves};
ghost use Rattle.lt_core.specs.View.{view_kind, view_layout};
ghost use Rattle.lt_schema.specs.View.{view_fields};
ghost use Rattle.lt_physical.specs.Leaves.{one_leaf};

use lt_core::{FieldKinds, Kind, Layout, Leaf, List, Memory, Path, Rank};

/// Adds the leaves of the part of a column that a path leads to.
#[cycle(leaves)]
pub fn add_leaves(kind: &Kind, column: u16, path: &Path, layout: &mut Layout) -> Result<(), Memory>
    ensures { OnOk result (view_layout layout.new ≡ view_layout layout.old ++ leaves column path.now
        (view_kind kind.now)) }
{
    match kind {
        Kind::Plain(rank) => add_leaf(column, path, *rank, false, layout),
        Kind::Enum(_) => add_leaf(column, path, Rank::Int32, false, layout),
        Kind::Struct(fields) => {
            add_leaf(column, path, Rank::Bool, true, layout)?;
            add_field_leaves(fields, column, path, layout)
        }
    }
}

/// Adds the leaves of a struct's fields.
#[cycle(leaves)]
fn add_field_leaves(
    fields: &FieldKinds,
    column: u16,
    path: &Path,
    layout: &mut Layout,
) -> Result<(), Memory>
    ensures { OnOk result (view_layout layout.new ≡ view_layout layout.old ++ field_leaves column path.now
        (view_fields fields.now)) }
{
    for (number, _, kind) in fields.as_slice() {
        let longer = longer_path(path, *number)?;
        add_leaves(kind, column, &longer, layout)?;
    }
    Ok(())
}

/// The path, and one field more.
pub fn longer_path(path: &Path, field: u16) -> Result<Path, Memory>
    ensures { IfOk result (λ longer. longer ≡ path.now ++ field ∷ []) }
{
    let mut longer = path.copy()?;
    longer.push(field)?;
    Ok(longer)
}

/// Adds one leaf.
fn add_leaf(
    column: u16,
    path: &Path,
    rank: Rank,
    presence: bool,
    layout: &mut Layout,
) -> Result<(), Memory>
    ensures { OnOk result (view_layout layout.new ≡ view_layout layout.old ++ one_leaf column path.now rank presence
        ∷ []) }
{
    layout.push(Leaf {
        column,
        path: path.copy()?,
        rank,
        presence,
    })
}
