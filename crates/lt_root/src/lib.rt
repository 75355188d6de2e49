//! The root of a store: two slots at the front of the file, of which the open one with the greater generation counts.
//!
//! `format` makes the first root, `load` reads the one that counts, and `commit` makes the next one count, by writes in an order of
//! which a crash can leave only the old root or the new one. No call takes memory, and each makes at most a handful of calls of
//! the disk.
#![tactic(auto)]

mod committing;
mod formatting;
mod loading;
mod refusal;
mod slot;
mod writing;

pub use committing::{commit, try_commit};
pub use formatting::format;
pub use loading::load;
pub use lt_terms::Root;
pub use refusal::{CommitFault, RootRefusal};
