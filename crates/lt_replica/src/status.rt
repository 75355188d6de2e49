//! The command that tells where the partitions and the streams stand, in time linear in both.

ghost use Rattle.std.specs.Prelude.{◌≡◌, IfErr, IfOk};
ghost use Rattle.lt_machine.specs.Machine.{parts_told, refused, streams_told};
ghost use Rattle.lt_tables.specs.Query.{do_status};
ghost use Rattle.lt_reply.specs.View.{view_parts, view_streams};
ghost use Rattle.lt_replica.specs.State.{memory_of, state_of};
ghost use Rattle.lt_replica.specs.Steps.{Done, Refuses, Stays};

use crate::replica::Replica;
use lt_core::Memory;
use lt_reply::{PartLine, PartLines, Refusal, Reply, StreamLine, StreamLines};

impl Replica {
    /// Tells of each partition and each stream.
    pub(crate) fn status(&self) -> Result<Reply, Refusal>
        ensures done { IfOk result (λ reply. Done self.now self.now do_status reply (memory_of self.now)) }
        ensures refused { IfErr result (λ e. Refuses (refused (state_of self.now) do_status) e
            × Stays self.now self.now) }
    {
        Ok(Reply::Status {
            minimum: 0,
            parts: self.part_lines()?,
            streams: self.stream_lines()?,
            job: None,
        })
    }

    fn part_lines(&self) -> Result<PartLines, Memory>
        ensures { IfOk result (λ lines. view_parts lines ≡ parts_told (state_of self.now)) }
    {
        let mut lines = PartLines::new(self.allocator());
        for part in 0..self.map.len() {
            if let Some(entry) = self.map.get(part) {
                lines.push(PartLine {
                    low: entry.low.copy()?,
                    resume: entry.resume,
                    checkpoint: entry.checkpoint,
                    pending: self.parts[part].len() as u64,
                    deltas: 0,
                })?;
            }
        }
        Ok(lines)
    }

    fn stream_lines(&self) -> Result<StreamLines, Memory>
        ensures { IfOk result (λ lines. view_streams lines ≡ streams_told (state_of self.now)) }
    {
        let mut lines = StreamLines::new(self.allocator());
        for stream in 0..self.pump.lows().len() as u32 {
            lines.push(StreamLine {
                stream,
                offset: self.pump.offset(stream),
                checkpoint: self.pump.checkpoint(stream),
            })?;
        }
        Ok(lines)
    }
}
