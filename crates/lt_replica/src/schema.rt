//! The commands on versions: to add one, and to retire one.

ghost use Rattle.std.specs.Prelude.{◌≡◌, None, Ok, Err, IfErr, IfOk, OnOk};
ghost use Rattle.lt_tables.specs.Schema.{schema_fault, with_version};
ghost use Rattle.lt_words.specs.SchemaText.{version_of_text};
ghost use Rattle.lt_tables.specs.Query.{do_retire, do_schema};
ghost use Rattle.lt_schema.specs.View.{view_version};
ghost use Rattle.lt_replica.specs.Answers.{IsWithout, retire_refusal, text_refusal, version_refusal};
ghost use Rattle.lt_replica.specs.Committing.{MayWrite, Tried};
ghost use Rattle.lt_replica.specs.Catalogues.{CommitsCatalogue, KeepsRest};
ghost use Rattle.lt_replica.specs.Steps.{Refuses};

use crate::committing::commit;
use crate::replica::Replica;
use lt_core::Text;
use lt_disk::Disk;
use lt_reply::{Cause, Refusal, Reply};
use lt_schema::{Catalogue, RetireRefusal, SchemaRefusal, SchemaVersion};
use lt_schema_json::{JsonRefusal, read_version};
use std::alloc::Global;

impl Replica {
    /// Adds the version that a text spells.
    pub(crate) fn schema<D: Disk>(&mut self, text: &[u8], disk: &mut D) -> Result<Reply, Refusal>
        ensures { Tried (D.state disk.old) (D.state disk.new) self.old self.new (do_schema text.now) result }
    {
        self.test_writable()?;
        let version = version_in(self.allocator(), text)?;
        let reply = Reply::Schema {
            table: version.table.copy()?,
            version: version.version,
        };
        let catalogue = with_version(&self.catalogue, version)?;
        self.commit_catalogue(catalogue, disk)?;
        Ok(reply)
    }

    /// Retires a version of a table; the latest stays live.
    pub(crate) fn retire<D: Disk>(
        &mut self,
        table: &Text,
        version: u32,
        disk: &mut D,
    ) -> Result<Reply, Refusal>
        ensures { Tried (D.state disk.old) (D.state disk.new) self.old self.new (do_retire table.now version) result }
    {
        self.test_writable()?;
        let name = table.copy()?;
        let catalogue = without_version(&self.catalogue, table, version)?;
        self.commit_catalogue(catalogue, disk)?;
        Ok(Reply::Retire {
            table: name,
            version,
        })
    }

    /// Commits a catalogue, and goes on with it. A refusal leaves the old one.
    fn commit_catalogue<D: Disk>(
        &mut self,
        catalogue: Catalogue,
        disk: &mut D,
    ) -> Result<(), Refusal>
        requires may { MayWrite self.old }
        ensures tried { CommitsCatalogue (D.state disk.old) (D.state disk.new) self.old self.new catalogue result }
        ensures rest { KeepsRest self.old self.new }
    {
        let alloc = self.allocator();
        let next = self.manifest_with(catalogue, &self.map)?;
        // What a look-up says of the catalogue: that lawful additions made it.
        let _tables = next.catalogue.tables();
        commit(&mut self.store, disk, alloc, &next)?;
        self.catalogue = next.catalogue;
        Ok(())
    }
}

/// The catalogue with one version more.
fn with_version(catalogue: &Catalogue, version: SchemaVersion) -> Result<Catalogue, Refusal>
    ensures free { OnOk result (schema_fault catalogue.now (view_version version) ≡ None) }
    ensures with { IfOk result (λ next. next ≡ with_version catalogue.now (view_version version)) }
    ensures refused { IfErr result (Refuses (version_refusal catalogue.now (view_version version))) }
{
    let mut next = catalogue.copy()?;
    match next.add(version) {
        Ok(()) => Ok(next),
        Err(SchemaRefusal::Memory) => Err(Refusal::Memory),
        Err(refusal) => Err(Refusal::BadSchema {
            cause: Cause::Version(refusal),
        }),
    }
}

/// The catalogue without a version of the table with a name.
fn without_version(catalogue: &Catalogue, table: &Text, version: u32) -> Result<Catalogue, Refusal>
    ensures without { IfOk result (IsWithout catalogue.now table.now version) }
    ensures refused { IfErr result (Refuses (retire_refusal catalogue.now table.now version)) }
{
    let Some(number) = catalogue.table(table.as_slice()) else {
        return Err(Refusal::UnknownTable {
            name: table.copy()?,
        });
    };
    // What a look-up says of the catalogue: that lawful additions made it.
    let _lawful = catalogue.get(number, version);
    let mut next = catalogue.copy()?;
    match next.retire(number, version) {
        Ok(()) => Ok(next),
        Err(RetireRefusal::UnknownTable) => Err(Refusal::UnknownTable {
            name: table.copy()?,
        }),
        Err(RetireRefusal::UnknownVersion) => Err(Refusal::UnknownVersion { version }),
        Err(RetireRefusal::AlreadyRetired) => Err(Refusal::Retired { version }),
        Err(RetireRefusal::LastVersion) => Err(Refusal::LastVersion { version }),
    }
}

/// The version that a text spells.
fn version_in(alloc: Global, text: &[u8]) -> Result<SchemaVersion, Refusal>
    ensures ok { IfOk result (λ version. version_of_text text.now ≡ Ok (view_version version)) }
    ensures err { IfErr result (Refuses (text_refusal text.now)) }
{
    match read_version(alloc, text) {
        Ok(version) => Ok(version),
        Err(JsonRefusal::Memory) => Err(Refusal::Memory),
        Err(refusal) => Err(Refusal::BadSchema {
            cause: Cause::Json(refusal),
        }),
    }
}
