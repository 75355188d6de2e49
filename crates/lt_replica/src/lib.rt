//! The replica over a store file: it answers commands over the streams of a feed, as the machine of the definitions does.
//!
//! A pump takes time by the records it takes, and by streams and partitions; a scan by what is held in memory.
#![tactic(auto)]

mod committing;
mod delivery;
mod opening;
mod pumping;
mod ranges;
mod refusal;
mod replica;
mod scanning;
mod schema;
mod splitting;
mod status;

pub use lt_command::{Command, Mode, Query};
pub use lt_disk::Disk;
pub use lt_io::Feed;
pub use lt_pred::{CmpOp, Literal, Literals, NameList, Pred};
pub use lt_reply::{
    Cause, DeltaLine, DeltaLines, PartLine, PartLines, Progress, Refusal, Reply, Stop, StreamLine,
    StreamLines,
};
pub use lt_scan::{RowRefusal, RowSink};
pub use lt_schema::Catalogue;
pub use refusal::StartRefusal;
pub use replica::Replica;
