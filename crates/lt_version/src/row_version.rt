//! A row version, and two of them as one. Each call takes time by the cells and bytes that it copies.

ghost use Rattle.std.specs.Prelude.{◌≡◌, ◌<◌, length, if◌then◌else◌, IfOk};
ghost use Rattle.lt_core.specs.View.{view_cells, view_scalar};
ghost use Rattle.lt_terms.specs.Layout.{is_unset};
ghost use Rattle.lt_tables.specs.Version as version;
ghost use Rattle.lt_version.specs.View.{view_version};

use lt_core::{Cells, KeyBytes, List, Memory, Scalar, Ts};
use lt_terms::Op;
use std::alloc::Global;

/// A change of a row: its key's bytes, its timestamp, what it does, and a cell for each leaf of a layout.
#[derive(Debug, Drop)]
pub struct RowVersion {
    pub key: KeyBytes,
    pub ts: Ts,
    pub op: Op,
    pub cells: Cells,
}

impl RowVersion {
    /// A copy equals what it copies.
    pub fn copy(&self) -> Result<RowVersion, Memory>
        ensures { IfOk result (λ copy. copy ≡ self.now) }
    {
        Ok(RowVersion {
            key: self.key.copy()?,
            ts: self.ts,
            op: self.op,
            cells: self.cells.copy()?,
        })
    }
}

/// One version that does what the older and then the newer one do, with the newer one's timestamp. An insert or a delete stands alone;
/// an update lays its set cells over an insert or an update, and leaves a delete a delete (docs/definitions.md, "Lists of row versions").
#[tactic(auto, unfolding(lt_tables::specs::Version::compose))]
pub fn compose(alloc: Global, older: &RowVersion, newer: &RowVersion) -> Result<RowVersion, Memory>
    requires key { older.now.key ≡ newer.now.key }
    requires cells { length older.now.cells ≡ length newer.now.cells }
    requires later { older.now.ts < newer.now.ts }
    ensures { IfOk result (λ both. view_version both ≡ version.compose (view_version older.now)
        (view_version newer.now)) }
{
    match newer.op {
        Op::Insert | Op::Delete => newer.copy(),
        Op::Update => {
            let cells = match older.op {
                Op::Delete => older.cells.copy()?,
                Op::Insert | Op::Update => overlaid(alloc, &older.cells, &newer.cells)?,
            };
            Ok(RowVersion {
                key: newer.key.copy()?,
                ts: newer.ts,
                op: older.op,
                cells,
            })
        }
    }
}

/// The newer cells where they are set, and the older ones elsewhere.
fn overlaid(alloc: Global, older: &Cells, newer: &Cells) -> Result<Cells, Memory>
    requires { length older.now ≡ length newer.now }
    ensures { IfOk result (λ cells. view_cells cells ≡ version.overlay (view_cells older.now) (view_cells newer.now)) }
{
    let mut cells = List::new(alloc);
    for now in newer.as_slice() {
        let was = &older.as_slice()[cells.len()];
        cells.push(over(was, now).copy()?)?;
    }
    Ok(cells)
}

/// The newer cell where it is set.
fn over<'a>(was: &'a Scalar, now: &'a Scalar) -> &'a Scalar
    ensures { view_scalar result.now ≡
        (if is_unset (view_scalar now.now) then view_scalar was.now else view_scalar now.now) }
{
    match now {
        Scalar::Unset => was,
        _ => now,
    }
}
