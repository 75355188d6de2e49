//! Schema versions as they are handed in. Copying takes time linear in what is copied.

ghost use Rattle.std.specs.Prelude.{◌≡◌, IfOk};

use lt_core::{KeyKind, Kind, List, ListItem, Memory, Text, Value};

/// A column of a table's key.
#[derive(Debug, Drop)]
pub struct KeyColumn {
    pub name: Text,
    pub kind: KeyKind,
}

/// The columns of a key, in their order.
pub type KeyColumns = List<KeyColumn>;

/// A column, with its default where one is given.
#[derive(Debug, Drop)]
pub struct Column {
    pub number: u16,
    pub name: Text,
    pub kind: Kind,
    pub fallback: Option<Value>,
}

/// Columns, by rising number.
pub type Columns = List<Column>;

/// A version of a table's schema.
#[derive(Debug, Drop)]
pub struct SchemaVersion {
    pub table: Text,
    pub number: u32,
    pub version: u32,
    pub key: KeyColumns,
    pub columns: Columns,
}

impl KeyColumn {
    /// A copy equals what it copies.
    pub fn copy(&self) -> Result<KeyColumn, Memory>
        ensures { IfOk result (λ column. column ≡ self.now) }
    {
        Ok(KeyColumn {
            name: self.name.copy()?,
            kind: self.kind,
        })
    }
}

impl Column {
    /// A copy equals what it copies.
    pub fn copy(&self) -> Result<Column, Memory>
        ensures { IfOk result (λ column. column ≡ self.now) }
    {
        Ok(Column {
            number: self.number,
            name: self.name.copy()?,
            kind: self.kind.copy()?,
            fallback: copy_fallback(&self.fallback)?,
        })
    }
}

fn copy_fallback(fallback: &Option<Value>) -> Result<Option<Value>, Memory>
    ensures { IfOk result (λ copy. copy ≡ fallback.now) }
{
    match fallback {
        None => Ok(None),
        Some(value) => Ok(Some(value.copy()?)),
    }
}

impl SchemaVersion {
    /// A copy equals what it copies.
    pub fn copy(&self) -> Result<SchemaVersion, Memory>
        ensures { IfOk result (λ version. version ≡ self.now) }
    {
        Ok(SchemaVersion {
            table: self.table.copy()?,
            number: self.number,
            version: self.version,
            key: self.key.copy()?,
            columns: self.columns.copy()?,
        })
    }
}

impl ListItem for KeyColumn {
    fn copy_item(&self) -> Result<KeyColumn, Memory> {
        self.copy()
    }
}

impl ListItem for Column {
    fn copy_item(&self) -> Result<Column, Memory> {
        self.copy()
    }
}

impl ListItem for SchemaVersion {
    fn copy_item(&self) -> Result<SchemaVersion, Memory> {
        self.copy()
    }
}
