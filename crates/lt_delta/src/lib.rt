//! The index of a delta: for each table the layout of its bundles and an entry for each of them. It is spelled into free space,
//! read back, and asked for the bundles that meet a range of keys.
//!
//! Contracts see an index by its view in `specs/View`. Reading and writing take time linear in the bytes, and asking time
//! linear in the tables and logarithmic in the bundles.
#![tactic(auto)]

mod coding;
mod extents;
mod fields;
mod index;
mod layout;
mod meeting;
mod order;
mod parts;
mod refusal;
mod stop;
mod store;
mod whole;

pub use extents::read_extent;
pub use index::{BundleEntry, DeltaIndex, Entries, TableIndex, TableIndexes};
pub use refusal::DeltaRefusal;
pub use store::{read_index, seal};
