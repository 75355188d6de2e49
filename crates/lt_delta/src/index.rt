//! Indexes of deltas. Copying takes time linear in what is copied.

ghost use Rattle.std.specs.Prelude.{◌≡◌, IfOk};

use lt_core::{KeyBytes, Layout, List, ListItem, Memory, Ts};

/// Where a bundle stands, how many versions it has, and what their keys and timestamps are between.
#[derive(Debug, Drop)]
pub struct BundleEntry {
    pub place: u64,
    pub length: u64,
    pub versions: u64,
    pub first: KeyBytes,
    pub last: KeyBytes,
    pub least: Ts,
    pub greatest: Ts,
}

/// Entries by rising keys.
pub type Entries = List<BundleEntry>;

/// A table's bundles in a delta, all under one layout.
#[derive(Debug, Drop)]
pub struct TableIndex {
    pub table: u32,
    pub layout: Layout,
    pub entries: Entries,
}

/// Tables by rising number.
pub type TableIndexes = List<TableIndex>;

/// What a delta has of each table.
#[derive(Debug, Drop)]
pub struct DeltaIndex {
    pub tables: TableIndexes,
}

impl DeltaIndex {
    /// A copy equals what it copies.
    pub fn copy(&self) -> Result<DeltaIndex, Memory>
        ensures { IfOk result (λ index. index ≡ self.now) }
    {
        Ok(DeltaIndex {
            tables: self.tables.copy()?,
        })
    }
}

impl ListItem for BundleEntry {
    fn copy_item(&self) -> Result<BundleEntry, Memory> {
        Ok(BundleEntry {
            place: self.place,
            length: self.length,
            versions: self.versions,
            first: self.first.copy()?,
            last: self.last.copy()?,
            least: self.least,
            greatest: self.greatest,
        })
    }
}

impl ListItem for TableIndex {
    fn copy_item(&self) -> Result<TableIndex, Memory> {
        Ok(TableIndex {
            table: self.table,
            layout: self.layout.copy()?,
            entries: self.entries.copy()?,
        })
    }
}
