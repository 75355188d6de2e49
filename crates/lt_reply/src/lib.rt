//! What is answered to a command: replies, refusals, and their text.
//!
//! A text is one line. That of rows has a line for each row before it, that of a status lines for the minimum, each
//! partition, each stream and the job, and that of deltas a line for each.
//!
//! Each takes time by its length, and a row also by the fields and enum names that its kinds list. The recursion goes as
//! deep as kinds and values nest.
#![tactic(auto)]

mod refusal;
mod reply;
mod rows;
mod text;

pub use lt_core::{Blob, KeyBytes, Memory, Row, Text, Ts};
pub use lt_fair::Unfair;
pub use lt_pump::Stop;
pub use lt_schema::{SchemaRefusal, SchemaVersion};
pub use lt_schema_json::JsonRefusal;
pub use lt_terms::{BadFrame, Progress};
pub use refusal::{Cause, Refusal};
pub use reply::{DeltaLine, DeltaLines, PartLine, PartLines, Reply, StreamLine, StreamLines};
pub use rows::{put_row, rows_text};
pub use text::{refusal_text, reply_text};
