//! The catalogue: the tables with their versions.

ghost use Rattle.std.specs.Prelude.{◌≡◌, [], false, option_and_then, option_map, IfOk, None, OnErr, OnOk, Some};
ghost use Rattle.std.specs.Option.{option_copied, option_map_or};
ghost use Rattle.lt_tables.specs.Schema.{Gives, IsCatalogue, added, carrier, column_live, fallback_in, is_live, retire_fault, retired, schema_fault, schema_version, table_named, table_numbered, with_version};
ghost use Rattle.lt_core.specs.View.{view_kind, view_value};
ghost use Rattle.lt_schema.specs.Faults.{Finds, Refuses, fault_against, fault_among, view_refusal, view_retire};
ghost use Rattle.lt_schema.specs.View.{view_version};

use crate::adding::{test_alone, test_columns};
use crate::carrier::carrier_of;
use crate::lookup::{first_declared, has_live_column};
use crate::refusal::{RetireRefusal, SchemaRefusal};
use crate::table::Table;
use crate::tables::{
    changes_key, count_with, mismatches, named, numbered, put_version, retire_version, versions_of,
};
use crate::version::SchemaVersion;
use lt_core::{Kind, Memory, Value};
use std::alloc::Global;
use std::marker::Model;

/// A catalogue of lawful versions, which contracts see as that of the definitions.
#[derive(Debug, Drop)]
pub struct Catalogue {
    tables: Vec<Table>,
    /// What a default reads as that was not given.
    null: Value,
}

impl Model for Catalogue {
    ghost use Rattle.lt_tables.specs.Schema as schema;
    ghost use Rattle.lt_tables.specs.Coded.{coded_catalogue};

    ghost Value = { schema.Catalogue };

    ghost coded = { coded_catalogue };

    ghost use Rattle.lt_schema.specs.Catalogues.{IsKept};

    ghost view = { λ c. c.tables.items };

    ghost invariant = { IsKept };
}

impl Catalogue {
    /// A catalogue without tables.
    pub fn new(alloc: Global) -> Catalogue
        ensures { result ≡ [] }
    {
        Catalogue {
            tables: Vec::new(alloc),
            null: Value::Null,
        }
    }

    /// Adds the next version of a table, or the first of a fresh one.
    pub fn add(&mut self, version: SchemaVersion) -> Result<(), SchemaRefusal>
        ensures answer { Gives (λ _. self.new) view_refusal result (added self.old (view_version version)) }
        ensures refused { OnErr result (self.new ≡ self.old) }
    {
        self.test(&version)?;
        self.install(version)?;
        Ok(())
    }

    /// The tables, by rising number.
    pub fn tables(&self) -> &[Table]
        ensures tables { result.now ≡ self.now }
        ensures lawful { IsCatalogue self.now }
    {
        &self.tables
    }

    /// Retires a version; the latest of a table stays live.
    pub fn retire(&mut self, number: u32, version: u32) -> Result<(), RetireRefusal>
        ensures answer { Gives (λ _. self.new) (λ e. Some (view_retire e)) result (retired self.old number version) }
        ensures refused { OnErr result (self.new ≡ self.old) }
    {
        self.test_retiring(number, version)?;
        retire_version(&mut self.tables, number, version);
        Ok(())
    }

    /// The number of the table with a name.
    pub fn table(&self, name: &[u8]) -> Option<u32>
        ensures { result ≡ option_map (λ t. t.number) (table_named self.now name.now) }
    {
        match named(&self.tables, name) {
            None => None,
            Some(table) => Some(table.number()),
        }
    }

    /// The version of a table, live or retired.
    pub fn get(&self, number: u32, version: u32) -> Option<&SchemaVersion>
        ensures version { option_map view_version (option_copied result) ≡ schema_version self.now number version }
        ensures lawful { IsCatalogue self.now }
    {
        match numbered(&self.tables, number) {
            None => None,
            Some(table) => table.version(version),
        }
    }

    /// Whether a version was added and is not retired.
    pub fn live(&self, number: u32, version: u32) -> bool
        ensures { result ≡ is_live self.now number version }
    {
        match numbered(&self.tables, number) {
            None => false,
            Some(table) => table.is_live(version),
        }
    }

    /// Whether some live version has the column.
    pub fn column_live(&self, number: u32, column: u16) -> bool
        ensures { result ≡ option_map_or (λ t. column_live t column) (table_numbered self.now number) false }
    {
        has_live_column(versions_of(&self.tables, number), column)
    }

    /// The default of a column: what was given where it was first declared, null where none was given there. None where
    /// no version has the column.
    pub fn fallback(&self, number: u32, column: u16) -> Option<&Value>
        ensures { option_map view_value (option_copied result) ≡ fallback_in self.now number column }
    {
        let declared = first_declared(versions_of(&self.tables, number), column)?;
        match &declared.fallback {
            None => Some(&self.null),
            Some(value) => Some(value),
        }
    }

    /// The kind that takes what every version of a column brings. None where no version has the column.
    pub fn carrier(&self, number: u32, column: u16) -> Result<Option<Kind>, Memory>
        ensures { IfOk result (λ kind. option_map view_kind kind ≡ option_and_then (λ t. carrier t column)
            (table_numbered self.now number)) }
    {
        carrier_of(versions_of(&self.tables, number), column)
    }

    /// A copy equals what it copies.
    pub fn copy(&self) -> Result<Catalogue, Memory>
        ensures { IfOk result (λ catalogue. catalogue ≡ self.now) }
    {
        Ok(Catalogue {
            tables: copy_tables(&self.tables)?,
            null: Value::Null,
        })
    }

    /// Tests a version in the order of the refusals.
    #[tactic(auto, using(crate::proofs::FaultLaws::found_first))]
    fn test(&self, version: &SchemaVersion) -> Result<(), SchemaRefusal>
        ensures { Finds (schema_fault self.now (view_version version.now)) result }
    {
        test_alone(*self.tables.allocator(), version)?;
        self.test_against(version)
    }

    /// Tests a version against the tables, and then its columns.
    #[tactic(auto, using(crate::proofs::FaultLaws::found_first))]
    fn test_against(&self, version: &SchemaVersion) -> Result<(), SchemaRefusal>
        ensures { Finds (fault_against self.now (view_version version.now)) result }
    {
        self.test_among(version)?;
        test_columns(
            *self.tables.allocator(),
            count_with(&self.tables, version.number),
            versions_of(&self.tables, version.number),
            version.columns.as_slice(),
        )
    }

    /// Tests a version against the tables.
    #[tactic(auto, unfolding(crate::specs::Faults::fault_among))]
    fn test_among(&self, version: &SchemaVersion) -> Result<(), SchemaRefusal>
        ensures { Finds (fault_among self.now (view_version version.now)) result }
    {
        if mismatches(&self.tables, version) {
            return Err(SchemaRefusal::TableMismatch {
                number: version.number,
            });
        }
        let expected = versions_of(&self.tables, version.number).len() as u32 + 1;
        if version.version != expected {
            return Err(SchemaRefusal::VersionNotNext { expected });
        }
        if changes_key(&self.tables, version) {
            return Err(SchemaRefusal::KeyChanged);
        }
        Ok(())
    }

    /// Puts a lawful version in its place. An `Err` changes nothing.
    fn install(&mut self, version: SchemaVersion) -> Result<(), Memory>
        requires { schema_fault self.old (view_version version) ≡ None }
        ensures ok { OnOk result (self.new ≡ with_version self.old (view_version version)) }
        ensures err { OnErr result (self.new ≡ self.old) }
    {
        put_version(&mut self.tables, version)
    }

    fn test_retiring(&self, number: u32, version: u32) -> Result<(), RetireRefusal>
        ensures fault { Refuses (retire_fault self.now number version) result }
    {
        let Some(table) = numbered(&self.tables, number) else {
            return Err(RetireRefusal::UnknownTable);
        };
        if table.version(version).is_none() {
            return Err(RetireRefusal::UnknownVersion);
        }
        if !table.is_live(version) {
            return Err(RetireRefusal::AlreadyRetired);
        }
        if version as usize == table.versions().len() {
            return Err(RetireRefusal::LastVersion);
        }
        Ok(())
    }
}

fn copy_tables(tables: &Vec<Table>) -> Result<Vec<Table>, Memory>
    ensures { IfOk result (λ copies. copies.items ≡ tables.now.items) }
{
    let mut copies = Vec::new(*tables.allocator());
    for table in tables {
        copies.push(table.copy()?)?;
    }
    Ok(copies)
}
