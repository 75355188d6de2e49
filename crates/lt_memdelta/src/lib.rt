//! Memory deltas: row versions in memory, by table and schema version, in the order of their keys and timestamps.
#![tactic(auto)]

mod change;
mod group;
mod keys;
mod mem_delta;
mod mem_iter;
mod rows;
mod walk;

pub use change::Change;
pub use group::Group;
pub use mem_delta::MemDelta;
pub use mem_iter::MemIter;
pub use rows::Rows;
