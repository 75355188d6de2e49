//! The command that scans a table at a timestamp.

ghost use Rattle.std.specs.Prelude.{◌≡◌, ◌≤◌, ◌<◌, ◌+◌, ◌^◌, IfErr, IfOk, MatchResult, None, OnOk, Some, map};
ghost use Rattle.lt_core.specs.View.{view_row};
ghost use Rattle.lt_world.specs.Disk.{Rose};
ghost use Rattle.lt_machine.specs.Machine.{refused};
ghost use Rattle.lt_world.specs.RowSink.{RowSinkGoes};
ghost use Rattle.lt_tables.specs.Query.{do_scan};
ghost use Rattle.lt_reply.specs.View.{view_refusal};
ghost use Rattle.lt_schema.specs.View.{view_version};
ghost use Rattle.lt_replica.specs.Answers.{Finds};
ghost use Rattle.lt_replica.specs.Scans.{GivesAll, GivesSome, ReadsHeld, plain, table_keys, unsafe_at, view_row_refusal};
ghost use Rattle.lt_replica.specs.State.{state_of};
ghost use Rattle.lt_replica.specs.Steps.{AreRows, Refuses, ScanFails, Scanned, falls as refusal_falls, fell};
ghost use Rattle.lt_scan.specs.Rows.{falls, fell as row_fell};

use crate::replica::Replica;
use lt_command::Query;
use lt_core::{KeyParts, List, Memory, Row, Ts, encode_prefix};
use lt_reply::{Refusal, Reply};
use lt_rows::rows_at;
use lt_scan::{RowRefusal, RowSink};
use lt_schema::SchemaVersion;

impl Replica {
    /// Gives the rows that a query asks for, and tells how many.
    pub(crate) fn scan<R: RowSink>(&self, query: &Query, rows: &mut R) -> Result<Reply, Refusal>
        ensures done { IfOk result (Scanned self.now (plain query.now) (R.state rows.old) (R.state rows.new)) }
        ensures refused { IfErr result (ScanFails self.now (plain query.now) (R.state rows.old) (R.state rows.new)) }
        ensures goes { RowSinkGoes (R.state rows.old) (R.state rows.new) }
        ensures led { R.led rows.old rows.new (fell result) }
    {
        let found = self.find_rows(query)?;
        match give(&found, rows) {
            Ok(()) => Ok(Reply::Scan {
                rows: found.len() as u64,
            }),
            Err(refusal) => Err(refusal_of(refusal)),
        }
    }

    /// The rows that a query asks for.
    fn find_rows(&self, query: &Query) -> Result<List<Row>, Refusal>
        ensures free { OnOk result (refused (state_of self.now) (do_scan (plain query.now)) ≡ None) }
        ensures rows { IfOk result (λ rows. AreRows self.now (plain query.now) (map view_row rows)) }
        ensures refused { IfErr result (Refuses (refused (state_of self.now) (do_scan (plain query.now)))) }
    {
        let version = self.live_version(query)?;
        self.test_safe(version.number, query.at)?;
        Ok(self.rows_of(version, query.at)?)
    }

    /// The live version that a query names.
    fn live_version(&self, query: &Query) -> Result<&SchemaVersion, Refusal>
        ensures { Finds self.now.catalogue query.now.table query.now.version result }
    {
        let version = query.version;
        let Some(number) = self.catalogue.table(query.table.as_slice()) else {
            return Err(Refusal::UnknownTable {
                name: query.table.copy()?,
            });
        };
        let Some(found) = self.catalogue.get(number, version) else {
            return Err(Refusal::UnknownVersion { version });
        };
        if !self.catalogue.live(number, version) {
            return Err(Refusal::Retired { version });
        }
        Ok(found)
    }

    /// Tests whether each partition that has keys of the table is safe at a timestamp.
    fn test_safe(&self, table: u32, at: Ts) -> Result<(), Refusal>
        requires { table + 1 < 2 ^ 32 }
        ensures { MatchResult result (λ _. unsafe_at (state_of self.now) (table_keys table) at ≡ None)
            (Refuses (unsafe_at (state_of self.now) (table_keys table) at)) }
    {
        // What the length says of the partitions: they are few.
        let _count = self.map.len();
        let none = KeyParts::new(self.allocator());
        let low = encode_prefix(self.allocator(), table, &none)?;
        let high = encode_prefix(self.allocator(), table + 1, &none)?;
        match self
            .map
            .first_below(low.as_slice(), Some(high.as_slice()), at)
        {
            None => Ok(()),
            Some((part, checkpoint)) => Err(Refusal::NotSafe {
                part: part as u32,
                checkpoint,
            }),
        }
    }

    /// The rows that what is held makes of a table at a timestamp.
    fn rows_of(&self, version: &SchemaVersion, at: Ts) -> Result<List<Row>, Memory>
        ensures { IfOk result (λ rows. ReadsHeld self.now (view_version version.now) at (map view_row rows)) }
    {
        let mut changes = Vec::new(self.allocator());
        for part in &self.parts {
            part.list_all(&mut changes)?;
        }
        rows_at(
            self.allocator(),
            changes.as_slice(),
            &self.catalogue,
            version,
            at,
        )
    }
}

/// Gives rows in their order.
fn give<R: RowSink>(found: &List<Row>, rows: &mut R) -> Result<(), RowRefusal>
    ensures all { OnOk result (GivesAll (R.state rows.old) (R.state rows.new) (map view_row found.now)) }
    ensures some { IfErr result (GivesSome (R.state rows.old) (R.state rows.new) (map view_row found.now)) }
    ensures cause { IfErr result (λ e. e ≡ RowRefusal.Fault
        → Rose (R.state rows.old).faults (R.state rows.new).faults) }
    ensures lacks { IfErr result (λ e. e ≡ RowRefusal.Memory → (R.state rows.new).faults ≡ (R.state rows.old).faults) }
    ensures goes { RowSinkGoes (R.state rows.old) (R.state rows.new) }
    ensures led { R.led rows.old rows.new (row_fell result) }
{
    for row in found.as_slice() {
        rows.row(row)?;
    }
    Ok(())
}

/// Why a scan breaks off.
fn refusal_of(refusal: RowRefusal) -> Refusal
    ensures says { view_refusal result ≡ view_row_refusal refusal }
    ensures fault { refusal ≡ RowRefusal.Fault → result ≡ Refusal.OutFault }
    ensures memory { refusal ≡ RowRefusal.Memory → result ≡ Refusal.Memory }
    ensures led { refusal_falls result ≡ falls refusal }
{
    match refusal {
        RowRefusal::Fault => Refusal::OutFault,
        RowRefusal::Memory => Refusal::Memory,
    }
}
