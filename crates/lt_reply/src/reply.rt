//! Replies, with the values that they print.

ghost use Rattle.std.specs.Prelude.{◌≡◌, IfOk};

use lt_core::{KeyBytes, List, ListItem, Memory, Text, Ts};
use lt_pump::Stop;
use lt_terms::Progress;

/// What is told of a partition. Its number is its place in the list.
#[derive(Debug, Drop)]
pub struct PartLine {
    pub low: KeyBytes,
    pub resume: Ts,
    pub checkpoint: Ts,
    /// The changes in memory.
    pub pending: u64,
    pub deltas: u64,
}

impl PartLine {
    /// A copy equals what it copies.
    pub fn copy(&self) -> Result<PartLine, Memory>
        ensures { IfOk result (λ line. line ≡ self.now) }
    {
        Ok(PartLine {
            low: self.low.copy()?,
            resume: self.resume,
            checkpoint: self.checkpoint,
            pending: self.pending,
            deltas: self.deltas,
        })
    }
}

impl ListItem for PartLine {
    fn copy_item(&self) -> Result<PartLine, Memory> {
        self.copy()
    }
}

/// What is told of the partitions, in the order of their keys.
pub type PartLines = List<PartLine>;

/// Where a stream stands.
#[derive(Clone, Copy, Debug, PartialEq, Eq)]
pub struct StreamLine {
    pub stream: u32,
    /// The place behind the records that were taken, in bytes.
    pub offset: u64,
    pub checkpoint: Ts,
}

impl ListItem for StreamLine {
    fn copy_item(&self) -> Result<StreamLine, Memory> {
        Ok(*self)
    }
}

/// Where the streams stand, by rising number.
pub type StreamLines = List<StreamLine>;

/// What is told of a delta: its bundles and versions, and the least and the greatest timestamp of a version.
#[derive(Clone, Copy, Debug, PartialEq, Eq)]
pub struct DeltaLine {
    pub id: u64,
    pub bundles: u64,
    pub versions: u64,
    pub least: Ts,
    pub greatest: Ts,
}

impl ListItem for DeltaLine {
    fn copy_item(&self) -> Result<DeltaLine, Memory> {
        Ok(*self)
    }
}

/// What is told of a partition's deltas, by rising id.
pub type DeltaLines = List<DeltaLine>;

/// The reply to a command that was not refused.
#[derive(Debug, Drop)]
pub enum Reply {
    Schema {
        table: Text,
        version: u32,
    },
    Retire {
        table: Text,
        version: u32,
    },
    /// So many records were taken, and the stream stands at the offset and the checkpoint.
    Pump {
        stream: u32,
        records: u64,
        offset: u64,
        checkpoint: Ts,
        stop: Stop,
    },
    /// The delta that was written; none where no change was in memory.
    Flush {
        part: u32,
        resume: Ts,
        delta: Option<u64>,
    },
    /// So many deltas became the one; none where nothing is left of them.
    Compact {
        part: u32,
        inputs: u64,
        delta: Option<u64>,
    },
    JobBegin {
        part: u32,
        inputs: u64,
    },
    JobStep(Progress),
    /// The delta that the job made; none where it made nothing.
    JobFinish {
        delta: Option<u64>,
    },
    JobDrop,
    /// The number of the upper half.
    Split {
        upper: u32,
    },
    /// The minimum.
    Retain {
        at: Ts,
    },
    /// It comes behind so many rows.
    Scan {
        rows: u64,
    },
    /// It comes behind so many rows.
    Page {
        rows: u64,
    },
    /// The least timestamp of a scan, and where all stands; none where no job is open.
    Status {
        minimum: Ts,
        parts: PartLines,
        streams: StreamLines,
        job: Option<Progress>,
    },
    Deltas {
        lines: DeltaLines,
    },
    Reopen,
}
