//! Script lines: the command that a line spells, where it is one that is answered.
//!
//! Reading a line takes time by its length.
#![tactic(auto)]

mod built;
mod command;
mod jobs;
mod line;
mod literals;
mod queries;
mod words;

pub use line::{Line, MAX_LINE, read_line};
pub use lt_command::{Command, Mode, Query};
