//! The rows of a table at a moment.

ghost use Rattle.std.specs.Prelude.{◌≡◌, map, IfOk, Some};
ghost use Rattle.lt_core.specs.View.{view_row};
ghost use Rattle.lt_tables.specs.Schema.{Table, table_numbered};
ghost use Rattle.lt_rows.specs.Scans.{AreShaped, RiseByKey, scan_rows};
ghost use Rattle.lt_rows.specs.View.{view_changes};
ghost use Rattle.lt_schema.specs.View.{view_version};

use crate::present::present_at;
use crate::reading::read_rows;
use lt_core::{List, Memory, Row, Ts};
use lt_records::ChangeRecord;
use lt_schema::{Catalogue, SchemaVersion};
use std::alloc::Global;

/// The rows of a table at a moment, read by one of its versions, in key order, or no memory. The changes are of any tables.
///
/// So it is of changes that are shaped, those of each key rising by timestamp. A change is shaped where it has the shape of
/// its registered version, a timestamp from 1 to 2^63 - 1, and a key of at most 4,096 bytes.
pub fn rows_at(
    alloc: Global,
    changes: &[&ChangeRecord],
    catalogue: &Catalogue,
    version: &SchemaVersion,
    at: Ts,
) -> Result<List<Row>, Memory>
    ensures { IfOk result (λ rows. (t : Table) → AreShaped catalogue.now (view_changes changes.now)
        → RiseByKey (view_changes changes.now) → table_numbered catalogue.now version.now.number ≡ Some t
        → map view_row rows ≡ scan_rows t (view_version version.now) (view_changes changes.now) at) }
{
    // What a look-up says of the catalogue: that lawful additions made it.
    let _lawful = catalogue.get(version.number, version.version);
    let rows = present_at(alloc, changes, version.number, at)?;
    read_rows(alloc, &rows, catalogue, version)
}
