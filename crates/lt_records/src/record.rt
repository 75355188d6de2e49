//! Headers, changes and checkpoints, and what is found at the front of bytes.

ghost use Rattle.std.specs.Prelude.{◌≡◌, IfOk};

use lt_core::{KeyParts, ListItem, Memory, Op, Range, Settings, Ts};
use lt_terms::BadFrame;

/// A stream's number, and the keys that it may carry.
#[derive(Debug, Drop)]
pub struct StreamHeader {
    pub stream: u32,
    pub range: Range,
}

/// What a source did to one row.
#[derive(Debug, Drop)]
pub struct ChangeRecord {
    pub ts: Ts,
    pub table: u32,
    pub version: u32,
    pub op: Op,
    pub key: KeyParts,
    pub set: Settings,
}

/// An item of a log. A checkpoint says that every change up to its timestamp was logged.
#[derive(Debug, Drop)]
pub enum LogRecord {
    Header(StreamHeader),
    Change(ChangeRecord),
    Checkpoint(Ts),
}

/// What stands at the front of bytes.
#[derive(Debug, Drop)]
pub enum Found {
    /// A frame of so many bytes, which spells the item.
    Whole { item: LogRecord, length: usize },
    /// Too few bytes to tell.
    Partial,
    /// No frame, whatever follows.
    Malformed(BadFrame),
}

impl StreamHeader {
    /// A copy equals what it copies.
    pub fn copy(&self) -> Result<StreamHeader, Memory>
        ensures { IfOk result (λ header. header ≡ self.now) }
    {
        Ok(StreamHeader {
            stream: self.stream,
            range: self.range.copy()?,
        })
    }
}

impl ListItem for StreamHeader {
    fn copy_item(&self) -> Result<StreamHeader, Memory> {
        self.copy()
    }
}
