//! The changes that a partition holds in memory, as they were logged.
//!
//! `put` and `remove` take logarithmic time, `list_all` goes over what is held. `upper_of` goes over what it copies, `keep_below`
//! over what it lets go.
#![tactic(auto)]

mod changes;
mod keys;
mod stamps;

pub use changes::Changes;
pub use lt_core::{KeyBytes, Memory, Ts};
pub use lt_records::ChangeRecord;
pub use stamps::copy_change;
