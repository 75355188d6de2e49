//! Two versions as one.

ghost use Rattle.std.specs.Prelude.{◌≡◌, ◌∷◌, [], length, IfOk};

use lt_core::{List, Memory, Scalar};
use lt_terms::Op;
use lt_version::{RowVersion, compose};
use std::alloc::Global;
use std::test::Fail;

/// An operation, and two cells of which 0 is not set.
type Change = (Op, i64, i64);

/// A version of one key.
fn version(alloc: Global, ts: u64, change: Change) -> Result<RowVersion, Memory>
    ensures { IfOk result (λ v. (v.key ≡ 107 ∷ []) × (v.ts ≡ ts) × (length v.cells ≡ 2)) }
{
    let mut cells = List::new(alloc);
    cells.push(scalar(change.1))?;
    cells.push(scalar(change.2))?;
    Ok(RowVersion {
        key: List::from_slice(alloc, b"k")?,
        ts,
        op: change.0,
        cells,
    })
}

fn scalar(cell: i64) -> Scalar {
    if cell == 0 {
        Scalar::Unset
    } else {
        Scalar::Int(cell)
    }
}

fn number(cell: Option<&Scalar>) -> Option<i64> {
    match cell {
        Some(Scalar::Int(number)) => Some(*number),
        Some(Scalar::Unset) => Some(0),
        _ => None,
    }
}

fn is_change(found: &RowVersion, want: Change) -> bool {
    found.ts == 5
        && found.op == want.0
        && number(found.cells.get(0)) == Some(want.1)
        && number(found.cells.get(1)) == Some(want.2)
}

/// Whether a change at 3 and one at 5 are this change at 5.
fn composes(alloc: Global, older: Change, newer: Change, both: Change) -> Result<bool, Memory> {
    let was = version(alloc, 3, older)?;
    let now = version(alloc, 5, newer)?;
    Ok(is_change(&compose(alloc, &was, &now)?, both))
}

#[test]
fn two_versions_are_one(rt: HostRuntime) -> Result<(), Fail> {
    let rows = [
        [(Op::Insert, 1, 2), (Op::Update, 0, 9), (Op::Insert, 1, 9)],
        [(Op::Delete, 0, 0), (Op::Update, 0, 9), (Op::Delete, 0, 0)],
        [(Op::Update, 1, 0), (Op::Update, 0, 9), (Op::Update, 1, 9)],
        [(Op::Insert, 1, 2), (Op::Insert, 7, 8), (Op::Insert, 7, 8)],
        [(Op::Insert, 1, 2), (Op::Delete, 0, 0), (Op::Delete, 0, 0)],
        [(Op::Delete, 0, 0), (Op::Insert, 7, 8), (Op::Insert, 7, 8)],
    ];
    for (row, [older, newer, both]) in rows.into_iter().enumerate() {
        assert!(rt; composes(rt.alloc(), older, newer, both)?, "row {row}");
    }
    Ok(())
}
