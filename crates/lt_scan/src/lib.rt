//! Who takes the rows of a scan.
#![tactic(auto)]

mod row_sink;

pub use lt_core::{Memory, Row};
pub use row_sink::{RowRefusal, RowSink};
