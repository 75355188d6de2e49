//! The records of a log in format 1: reading them off the front of bytes, and writing them.
//!
//! A log is a file of frames, and a frame is a kind, a length and a body. `next` tells what stands at the front of bytes:
//! a whole frame and what it spells, too few bytes to tell, or bytes that never become a frame. `write` gives the one
//! frame of an item. Values can also be read and written alone. Both directions are those of the log's grammar, which
//! `lt_terms` states. Reading takes time linear in the bytes, and copies each text once; writing takes time linear in
//! what is written. The recursion goes down values, which nest at most 4 deep.
#![tactic(auto)]

mod reading;
mod record;
mod refusal;
mod writing;

pub use lt_terms::BadFrame;
pub use reading::{next, read_value};
pub use record::{ChangeRecord, Found, LogRecord, StreamHeader};
pub use refusal::{ValueRefusal, WriteRefusal};
pub use writing::{write, write_value};
