//! The frame of the record that a line says. It takes time linear in the line.

ghost use Rattle.std.specs.Prelude.{◌≡◌};
ghost use Rattle.lt_log_text.specs.Lines.{frame_of_line};
ghost use Rattle.lt_log_text.specs.Reading.{Gives};

use crate::reading::read_line;
use crate::refusal::LineRefusal;
use lt_core::Blob;
use lt_records::{WriteRefusal, write};
use std::alloc::Global;

/// The frame of the record that a line says, without its end.
pub fn line_frame(alloc: Global, line: &[u8]) -> Result<Blob, LineRefusal>
    ensures { Gives (λ frame. frame) (frame_of_line line.now) result }
{
    let record = read_line(alloc, line)?;
    match write(alloc, &record) {
        Ok(frame) => Ok(frame),
        Err(WriteRefusal::TooLong { len }) => Err(LineRefusal::TooLong { len }),
        Err(WriteRefusal::Memory) => Err(LineRefusal::Memory),
    }
}
