//! A log that comes piece by piece, and the lines of its frames.

ghost use Rattle.std.specs.Prelude.{◌≡◌, ◌≤◌, IfErr, IfOk, [], length};
ghost use Rattle.lightning_log.specs.Reading.{Breaks, Steps};
ghost use Rattle.lightning_log.specs.declared.decoder.Break.TheVariants as breaks;

use lt_core::{Blob, List, Memory};
use lt_log_text::write_line;
use lt_records::{BadFrame, Found, next};
use std::alloc::Global;

/// What a line ends with.
const LINE_FEED: u8 = 10;

/// Why a log is not read further.
#[derive(Clone, Copy, Debug, PartialEq, Eq)]
pub enum Break {
    Malformed(BadFrame),
    /// The next offset is beyond 2^64 - 1.
    Far,
    Memory,
}

/// What stands at the front of bytes: a frame of so many bytes, or too few bytes to tell.
#[derive(Clone, Copy, Debug, PartialEq, Eq)]
pub enum Step {
    Took(usize),
    Wants,
}

impl From<Memory> for Break {
    ghost from_gives = { λ _ e. e ≡ breaks.Memory };

    fn from(_: Memory) -> Self {
        Break::Memory
    }
}

/// The bytes that are not a whole frame yet, and the lines that are not written yet.
#[derive(Drop)]
pub struct Decoder {
    ahead: Blob,
    /// Where the next frame stands in the log.
    offset: u64,
    lines: Blob,
}

impl Decoder {
    pub fn new(alloc: Global) -> Decoder
        ensures { result.lines ≡ [] }
    {
        Decoder {
            ahead: List::new(alloc),
            offset: 0,
            lines: List::new(alloc),
        }
    }

    /// Where the next frame stands in the log.
    pub fn offset(&self) -> u64
        ensures { result ≡ self.now.offset }
    {
        self.offset
    }

    /// Whether all bytes are of whole frames.
    pub fn is_whole(&self) -> bool {
        self.ahead.is_empty()
    }

    /// The lines that are not written yet.
    pub fn lines(&self) -> &[u8]
        ensures { result.now ≡ self.now.lines }
    {
        self.lines.as_slice()
    }

    /// The lines were written.
    pub fn forget_lines(&mut self)
        ensures { self.new.lines ≡ [] }
    {
        self.lines = List::new(self.lines.allocator());
    }

    /// Takes further bytes, and adds the lines of the frames that they end.
    pub fn take(&mut self, alloc: Global, bytes: &[u8]) -> Result<(), Break> {
        self.ahead.extend_from_slice(bytes)?;
        let at = self.take_frames(alloc)?;
        if at > 0 {
            let (_, rest) = self.ahead.as_slice().split_at(at);
            self.ahead = List::from_slice(alloc, rest)?;
        }
        Ok(())
    }

    /// Adds the lines of the whole frames ahead, and tells how many bytes they have.
    fn take_frames(&mut self, alloc: Global) -> Result<usize, Break>
        ensures { IfOk result (λ n. n ≤ length self.new.ahead) }
    {
        let mut at = 0;
        for _ in 0..u64::MAX {
            let (_, rest) = self.ahead.as_slice().split_at(at);
            match take_frame(alloc, self.offset, rest, &mut self.lines)? {
                Step::Wants => break,
                Step::Took(n) => {
                    at += n;
                    self.offset = match self.offset.checked_add(n as u64) {
                        Some(offset) => offset,
                        None => return Err(Break::Far),
                    };
                }
            }
        }
        Ok(at)
    }
}

/// Adds the line of the frame at the front of bytes that stand at an offset of the log.
fn take_frame(alloc: Global, offset: u64, bytes: &[u8], lines: &mut Blob) -> Result<Step, Break>
    ensures steps { IfOk result (Steps offset bytes.now lines.old lines.new) }
    ensures breaks { IfErr result (Breaks bytes.now) }
{
    match next(alloc, bytes)? {
        Found::Whole { item, length } => {
            let line = write_line(alloc, offset, &item)?;
            lines.extend_from_slice(line.as_slice())?;
            lines.push(LINE_FEED)?;
            Ok(Step::Took(length))
        }
        Found::Partial => Ok(Step::Wants),
        Found::Malformed(bad) => Err(Break::Malformed(bad)),
    }
}
