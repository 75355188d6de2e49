//! A table of the catalogue: what never changes of it, and its versions.
//!
//! Adding and retiring a version take constant time on the whole, and looking one up constant time. The table's name and
//! key columns stand once more in each version, since a version is handed out whole.

ghost use Rattle.std.specs.Prelude.{◌≡◌, [], ◌∷◌, ◌++◌, false, length, map, option_map, slice_get, suc, IfOk, IfSome, OnErr, OnOk};
ghost use Rattle.std.specs.Option.{option_copied, option_map_or};
ghost use Rattle.lt_tables.specs.Schema.{live_version, new_table, registered, whole_version, with_retired};
ghost use Rattle.lt_schema.specs.Tables.{view_registered};
ghost use Rattle.lt_schema.specs.View.{view_columns, view_key, view_version};

use crate::version::{KeyColumn, KeyColumns, SchemaVersion};
use lt_core::{Memory, Text};
use std::alloc::Global;
use std::marker::Model;

/// A version that was added, live until it is retired.
#[derive(Debug, Drop)]
pub struct Registered {
    pub live: bool,
    pub version: SchemaVersion,
}

/// A table, which contracts see as that of the definitions.
#[derive(Debug, Drop)]
pub struct Table {
    number: u32,
    name: Text,
    key: KeyColumns,
    versions: Vec<Registered>,
}

impl Model for Table {
    ghost use Rattle.lt_tables.specs.Schema as schema;
    ghost use Rattle.lt_tables.specs.Coded.{coded_table};

    ghost Value = { schema.Table };

    ghost coded = { coded_table };

    ghost use Rattle.lt_schema.specs.Tables.{AreWhole, view_table};

    ghost view = { view_table };

    ghost invariant = { AreWhole };
}

impl Table {
    /// A table with its first version.
    pub(crate) fn new(alloc: Global, version: SchemaVersion) -> Result<Table, Memory>
        requires { version.version ≡ 1 }
        ensures { IfOk result (λ table. table ≡ new_table (view_version version)) }
    {
        let number = version.number;
        let name = version.table.copy()?;
        let key = version.key.copy()?;
        let mut versions = Vec::new(alloc);
        versions.push(Registered {
            live: true,
            version,
        })?;
        Ok(Table {
            number,
            name,
            key,
            versions,
        })
    }

    pub fn number(&self) -> u32
        ensures { result ≡ self.now.number }
    {
        self.number
    }

    pub fn name(&self) -> &[u8]
        ensures { result.now ≡ self.now.name }
    {
        self.name.as_slice()
    }

    pub fn key(&self) -> &[KeyColumn]
        ensures { view_key result.now ≡ self.now.key }
    {
        self.key.as_slice()
    }

    /// The versions, from version 1 on.
    pub fn versions(&self) -> &[Registered]
        ensures { map view_registered result.now ≡ self.now.versions }
    {
        &self.versions
    }

    /// The version with a number.
    pub fn version(&self, version: u32) -> Option<&SchemaVersion>
        ensures { option_map view_version (option_copied result) ≡ option_map (whole_version self.now version)
            (registered self.now version) }
    {
        match self.registered(version) {
            None => None,
            Some(registered) => Some(&registered.version),
        }
    }

    /// Whether a version is live; none is that was not added.
    pub fn is_live(&self, version: u32) -> bool
        ensures { result ≡ option_map_or (λ r. r.live) (registered self.now version) false }
    {
        match self.registered(version) {
            None => false,
            Some(registered) => registered.live,
        }
    }

    fn registered(&self, version: u32) -> Option<&Registered>
        ensures found { option_map view_registered (option_copied result) ≡ registered self.now version }
        ensures whole { IfSome result (λ r. view_version r.now.version ≡ whole_version self.now version
            (view_registered r.now)) }
    {
        let place = (version as usize).checked_sub(1)?;
        at(&self.versions, place)
    }

    /// Adds the next version. An `Err` changes nothing.
    pub(crate) fn add(&mut self, version: SchemaVersion) -> Result<(), Memory>
        requires { view_version version ≡ whole_version self.old (suc (length self.old.versions))
            (live_version (view_columns version.columns)) }
        ensures ok { OnOk result (self.new ≡ record self.old
            { versions = self.old.versions ++ live_version (view_columns version.columns) ∷ [] }) }
        ensures err { OnErr result (self.new ≡ self.old) }
    {
        self.versions.push(Registered {
            live: true,
            version,
        })?;
        Ok(())
    }

    /// Retires a version, where it was added.
    pub(crate) fn retire(&mut self, version: u32)
        ensures { self.new ≡ with_retired version self.old }
    {
        let place = (version as usize).saturating_sub(1);
        if place < self.versions.len() {
            self.versions[place].live = false;
        }
    }

    /// A copy equals what it copies.
    pub fn copy(&self) -> Result<Table, Memory>
        ensures { IfOk result (λ table. table ≡ self.now) }
    {
        let mut versions = Vec::new(*self.versions.allocator());
        for registered in &self.versions {
            versions.push(registered.copy()?)?;
        }
        Ok(Table {
            number: self.number,
            name: self.name.copy()?,
            key: self.key.copy()?,
            versions,
        })
    }
}

impl Registered {
    /// A copy equals what it copies.
    pub fn copy(&self) -> Result<Registered, Memory>
        ensures { IfOk result (λ registered. registered ≡ self.now) }
    {
        Ok(Registered {
            live: self.live,
            version: self.version.copy()?,
        })
    }
}

/// The version at a place, from 0.
fn at(versions: &[Registered], place: usize) -> Option<&Registered>
    ensures { option_copied result ≡ slice_get versions.now place }
{
    versions.get(place)
}
