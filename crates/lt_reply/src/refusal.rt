//! Refusals, with the values that they keep.

ghost use Rattle.std.specs.Prelude.{◌≡◌};
ghost use Rattle.lt_reply.specs.declared.refusal.Refusal.TheVariants as refusals;

use lt_core::{Memory, Text, Ts};
use lt_schema::SchemaRefusal;
use lt_schema_json::JsonRefusal;

/// Why a schema is refused. Out of memory is no cause: it is a refusal of its own.
#[derive(Debug, Drop)]
pub enum Cause {
    /// The text is no schema version.
    Json(JsonRefusal),
    /// The catalogue refuses the version.
    Version(SchemaRefusal),
}

/// Why a command is refused.
#[derive(Debug, Drop)]
pub enum Refusal {
    /// A write to the store failed since the last opening, and the command writes.
    NeedsReopen,
    /// The store's generation or its next delta id is the greatest, and the command writes.
    Worn,
    UnknownTable { name: Text },
    UnknownVersion { version: u32 },
    Retired { version: u32 },
    /// The latest version stays live.
    LastVersion { version: u32 },
    BadSchema { cause: Cause },
    NoStream { stream: u32 },
    NoPartition { part: u32 },
    /// The first named delta that the partition does not hold.
    NoSuchDelta { id: u64 },
    /// The first name that is no column; or the word for literals of which there are too many or too few, `key` for a
    /// split.
    BadColumn { name: Text },
    /// The column of the first literal that does not fit.
    WrongType { name: Text },
    /// The bytes of the key are so many.
    KeyTooLong { len: usize },
    /// The timestamp is below the minimum.
    TooOld { min: Ts },
    /// The first partition of the query with a checkpoint below the timestamp, and that checkpoint.
    NotSafe { part: u32, checkpoint: Ts },
    /// The minimum stays at most the least resume, which is kept.
    AboveDurable { durable: Ts },
    /// The minimum never falls.
    BelowMin { min: Ts },
    /// The key is the low bound of that partition.
    AtEdge { part: u32 },
    TooManyParts,
    TooManyDeltas,
    JobOpen,
    NoJob,
    /// The job has keys left.
    NotDone,
    /// No gap of the store has so many bytes; the longest has so many.
    StoreFull { need: u64, room: u64 },
    /// A call of the feed failed in this command.
    FeedFault,
    /// A call of the disk failed in this command.
    DiskFault,
    /// The bytes there are not what they have to be.
    Damaged { place: u64, length: u64 },
    /// A call of the row sink failed in this command.
    OutFault,
    /// The feed's streams are not those of the store.
    FeedMismatch { stream: u32 },
    Memory,
}

impl From<Memory> for Refusal {
    ghost from_gives = { λ _ e. e ≡ refusals.Memory };

    fn from(_: Memory) -> Self {
        Refusal::Memory
    }
}
