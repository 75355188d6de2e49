//! Records of a log as lines of text, and lines of text as records.
//!
//! A line is a JSON object, in the words that `specs/Lines` states. What is written stands compactly, with the members in byte
//! order of their names, and reads back to the record. Both directions take time linear in the line, but for the look-up of a
//! member by its name. The recursion goes as deep as values nest: `serde_json` reads no text with more than 127 nested arrays
//! and objects, so no line makes it deep.
#![tactic(auto)]

mod frame;
mod lawful;
mod reading;
mod refusal;
mod writing;

pub use frame::line_frame;
pub use reading::read_line;
pub use refusal::{LineRefusal, Member, Rule};
pub use writing::write_line;
