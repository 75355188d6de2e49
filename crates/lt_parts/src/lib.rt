//! The partitions of the replica. They tile the keys: each begins at its low bound and ends where the next one begins, so each
//! key has one partition.
#![tactic(auto)]

mod entry;
mod map;
mod refusal;
mod search;

pub use entry::PartEntry;
pub use map::{MAX_PARTS, PartMap};
pub use refusal::SplitRefusal;
