//! Commands and queries.

use lt_core::{Blob, Ids, Text};
use lt_pred::{Literals, NameList, Pred};

/// A table's rows at a timestamp, as a version of its schema reads them.
#[derive(Debug, Drop)]
pub struct Query {
    pub table: Text,
    pub version: u32,
    pub at: u64,
    /// The columns that are shown; none where all are.
    pub columns: Option<NameList>,
    /// The first parts of the least key.
    pub from: Option<Literals>,
    /// The first parts of a key that is above all that are asked for.
    pub to: Option<Literals>,
    /// A key that is below all that are asked for.
    pub after: Option<Literals>,
    /// How many rows at most.
    pub limit: Option<u64>,
    /// What each row meets.
    pub filter: Pred,
}

/// How deltas are compacted.
#[derive(Debug, Drop)]
pub enum Mode {
    /// Those with these numbers become one, and no version is lost.
    Minor(Ids),
    /// All that begin by the minimum become one, and versions up to the minimum collapse.
    Major,
}

/// What a store is asked for.
#[derive(Debug, Drop)]
pub enum Command {
    /// Add the version that a text spells.
    Schema(Blob),
    /// Retire a version of a table.
    Retire { table: Text, version: u32 },
    /// Take at most so many records of a stream.
    Pump { stream: u32, count: u64 },
    /// Write a partition's changes in memory to the store.
    Flush { part: u32 },
    /// Make one delta of some of a partition's.
    Compact { part: u32, mode: Mode },
    /// Begin a compaction that goes on command by command.
    JobBegin { part: u32, mode: Mode },
    /// Take so many keys further.
    JobStep { keys: u64 },
    /// Put what the job made in the place of its inputs.
    JobFinish,
    /// Give the job up.
    JobDrop,
    /// Part the partition of a key of the table there.
    Split { table: Text, key: Literals },
    /// Raise the minimum.
    Retain { at: u64 },
    /// Give the rows that a query asks for.
    Scan(Query),
    /// Give the first rows that a query asks for.
    Page(Query),
    /// Tell where the partitions and the streams stand.
    Status,
    /// List the deltas of a partition.
    Deltas { part: u32 },
    /// Begin the session anew, by the store.
    Reopen,
}
