//! The commands on versions: to add one, and to retire one.

ghost use Rattle.std.specs.Prelude.{◌≡◌, ◌<◌, ◌-◌, ◌^◌, None, Ok, IfErr, IfOk, OnOk};
ghost use Rattle.lt_machine.specs.Machine.{refused};
ghost use Rattle.lt_tables.specs.Schema.{schema_fault, with_version};
ghost use Rattle.lt_words.specs.SchemaText.{version_of_text};
ghost use Rattle.lt_tables.specs.Query.{do_retire, do_schema};
ghost use Rattle.lt_schema.specs.View.{view_version};
ghost use Rattle.lt_engine.specs.Answers.{Commits, text_refusal, version_refusal};
ghost use Rattle.lt_engine.specs.State.{memory_of, state_of};
ghost use Rattle.lt_engine.specs.Steps.{Done, Refuses, Stays};

use crate::replica::Replica;
use lt_core::Text;
use lt_reply::{Cause, Refusal, Reply};
use lt_schema::{RetireRefusal, SchemaRefusal, SchemaVersion};
use lt_schema_json::{JsonRefusal, read_version};
use std::alloc::Global;

impl Replica {
    /// Adds the version that a text spells.
    pub(crate) fn schema(&mut self, text: &[u8]) -> Result<Reply, Refusal>
        ensures done { IfOk result (λ reply. Done self.old self.new (do_schema text.now) reply (memory_of self.old)) }
        ensures refused { IfErr result (λ e. Refuses (refused (state_of self.old) (do_schema text.now)) e
            × Stays self.old self.new) }
    {
        if self.generation == u64::MAX {
            return Err(Refusal::Worn);
        }
        let version = version_in(self.allocator(), text)?;
        let reply = Reply::Schema {
            table: version.table.copy()?,
            version: version.version,
        };
        self.add(version)?;
        Ok(reply)
    }

    /// Adds a version. An `Err` changes nothing.
    fn add(&mut self, version: SchemaVersion) -> Result<(), Refusal>
        requires { self.old.generation < 2 ^ 64 - 1 }
        ensures ok { OnOk result ((schema_fault self.old.catalogue (view_version version) ≡ None)
            × Commits self.old self.new (with_version self.old.catalogue (view_version version))) }
        ensures err { IfErr result (λ e. Refuses (version_refusal self.old.catalogue (view_version version)) e
            × Stays self.old self.new) }
    {
        match self.catalogue.add(version) {
            Ok(()) => {
                self.generation += 1;
                Ok(())
            }
            Err(SchemaRefusal::Memory) => Err(Refusal::Memory),
            Err(refusal) => Err(Refusal::BadSchema {
                cause: Cause::Version(refusal),
            }),
        }
    }

    /// Retires a version of a table; the latest stays live.
    pub(crate) fn retire(&mut self, table: &Text, version: u32) -> Result<Reply, Refusal>
        ensures done { IfOk result (λ reply. Done self.old self.new (do_retire table.now version) reply
            (memory_of self.old)) }
        ensures refused { IfErr result (λ e. Refuses (refused (state_of self.old) (do_retire table.now version)) e
            × Stays self.old self.new) }
    {
        if self.generation == u64::MAX {
            return Err(Refusal::Worn);
        }
        let name = table.copy()?;
        let Some(number) = self.catalogue.table(table.as_slice()) else {
            return Err(Refusal::UnknownTable { name });
        };
        // What a look-up says of the catalogue: that lawful additions made it.
        let _lawful = self.catalogue.get(number, version);
        match self.catalogue.retire(number, version) {
            Ok(()) => {
                self.generation += 1;
                Ok(Reply::Retire {
                    table: name,
                    version,
                })
            }
            Err(RetireRefusal::UnknownTable) => Err(Refusal::UnknownTable { name }),
            Err(RetireRefusal::UnknownVersion) => Err(Refusal::UnknownVersion { version }),
            Err(RetireRefusal::AlreadyRetired) => Err(Refusal::Retired { version }),
            Err(RetireRefusal::LastVersion) => Err(Refusal::LastVersion { version }),
        }
    }
}

/// The version that a text spells.
fn version_in(alloc: Global, text: &[u8]) -> Result<SchemaVersion, Refusal>
    ensures ok { IfOk result (λ version. version_of_text text.now ≡ Ok (view_version version)) }
    ensures err { IfErr result (Refuses (text_refusal text.now)) }
{
    match read_version(alloc, text) {
        Ok(version) => Ok(version),
        Err(JsonRefusal::Memory) => Err(Refusal::Memory),
        Err(refusal) => Err(Refusal::BadSchema {
            cause: Cause::Json(refusal),
        }),
    }
}
