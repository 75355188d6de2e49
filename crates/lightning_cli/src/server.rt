//! A run of a script: takes its bytes as they come, and writes the replies to the lines that they end.
//!
//! Each byte is looked at once. Of a line no more is kept than tells whether it is too long. Of an answer 64 KiB are collected at most; all
//! of it is written before the next line is read.

ghost use Rattle.std.specs.Prelude.{◌≡◌, ◌++◌, ◌∷◌, [], ℕ, IfErr, IsSome, List, OnErr, OnOk};
ghost use Rattle.std.specs.Io.KnownBytes.{Appends};
ghost use Rattle.lt_world.specs.Object.{BytesGo};
ghost use Rattle.lt_world.specs.Feed.{FeedGoes};
ghost use Rattle.lt_machine.specs.Run.{Moment};
ghost use Rattle.lt_engine.specs.State.{IsFed};
ghost use Rattle.lt_script.specs.Lines.{kept_of};
ghost use Rattle.lightning_cli.specs.Serving.{AnswersLine, AppendsFront, Failed, HasRun, OutOver, Stands, Unfailed, WritesSome};
ghost use Rattle.lightning_cli.specs.Turns.{TakesPiece, take_status};
ghost use Rattle.lightning_cli.specs.declared.server.TakeFault.TheVariants as faults;

use crate::command::answer;
use crate::output::{add, pour};
use lt_core::Memory;
use lt_disk::Disk;
use lt_engine::Replica;
use lt_io::{Feed, Sink, WriteFault};
use lt_script::{Line, MAX_LINE, read_line};
use std::alloc::Global;

const LINE_FEED: u8 = b'\n';

const BAD_LINE: &[u8] = b"refused E1 BadLine\n";

/// Why a run ends within a piece of its script.
#[derive(Clone, Copy, Debug, PartialEq, Eq)]
pub enum TakeFault {
    Memory,
    Sink,
}

impl TakeFault {
    /// The run's status.
    pub fn status(self) -> u8
        ensures { result ≡ take_status self }
    {
        match self {
            TakeFault::Memory => 10,
            TakeFault::Sink => 4,
        }
    }
}

impl From<Memory> for TakeFault {
    ghost from_gives = { λ _ e. e ≡ faults.Memory };

    fn from(_: Memory) -> Self {
        TakeFault::Memory
    }
}

impl From<WriteFault> for TakeFault {
    ghost from_gives = { λ _ e. e ≡ faults.Sink };

    fn from(_: WriteFault) -> Self {
        TakeFault::Sink
    }
}

/// A run of a script.
#[derive(Drop)]
pub struct Server {
    replica: Replica,
    /// The first bytes of the line that is open.
    line: Vec<u8>,
    /// What was answered and is not written yet.
    replies: Vec<u8>,
}

impl Server {
    pub fn new(alloc: Global, replica: Replica) -> Server
        ensures replica { result.replica ≡ replica }
        ensures line { result.line.items ≡ [] }
        ensures replies { result.replies.items ≡ [] }
    {
        Server {
            replica,
            line: Vec::new(alloc),
            replies: Vec::new(alloc),
        }
    }

    /// What was answered and is not written yet.
    pub fn replies(&self) -> &[u8]
        ensures { result.now ≡ self.now.replies.items }
    {
        self.replies.as_slice()
    }

    /// Takes further bytes of the script, answers the lines that they end, and writes the replies. An `Err` is the end of the run.
    pub fn take<D: Disk, F: Feed, K: Sink>(
        &mut self,
        alloc: Global,
        disk: &mut D,
        feed: &mut F,
        out: &mut K,
        bytes: &[u8],
    ) -> Result<(), TakeFault>
        requires fed { IsFed self.old.replica (F.state feed.old) }
        ensures taken { (m : Moment) (before written : List ℕ) → IsSome (K.state out.old).told
            → Stands m before written (D.state disk.old) (F.state feed.old) self.old
            → TakesPiece m (before ++ bytes.now) written (D.state disk.new) (F.state feed.new) (K.state out.old).told
            (K.state out.new).told self.new result }
        ensures written { OnOk result (self.new.replies.items ≡ []) }
        ensures unfailed { OnOk result (Unfailed (K.state out.old) (K.state out.new)) }
        ensures over { IfErr result (λ e. OutOver (K.state out.old) (K.state out.new) (take_status e)) }
        ensures fed { IsFed self.new.replica (F.state feed.new) }
        ensures goes { (disk.new ≡ disk.old) × FeedGoes (F.state feed.old) (F.state feed.new)
            × BytesGo (K.state out.old) (K.state out.new) }
    {
        for byte in bytes {
            self.take_byte(alloc, disk, feed, out, *byte)?;
            self.flush_ended(out, *byte)?;
        }
        self.flush(out)?;
        Ok(())
    }

    /// Writes what was answered where the byte that was taken ends a line: a reply is written before the next line is read.
    fn flush_ended<K: Sink>(&mut self, out: &mut K, byte: u8) -> Result<(), WriteFault>
        ensures some { OnOk result (WritesSome (K.state out.old).told (K.state out.new).told self.old.replies.items
            self.new.replies.items) }
        ensures at_once { OnOk result (byte ≡ 10 → self.new.replies.items ≡ []) }
        ensures unfailed { OnOk result (Unfailed (K.state out.old) (K.state out.new)) }
        ensures front { OnErr result (AppendsFront (K.state out.old).told (K.state out.new).told
            self.old.replies.items) }
        ensures failed { OnErr result (Failed (K.state out.old) (K.state out.new)) }
        ensures rest { (self.new.replica ≡ self.old.replica) × (self.new.line.items ≡ self.old.line.items) }
        ensures goes { BytesGo (K.state out.old) (K.state out.new) }
    {
        if byte != LINE_FEED {
            return Ok(());
        }
        self.flush(out)
    }

    /// Writes what was answered. After a fault some first bytes of it may have been written.
    fn flush<K: Sink>(&mut self, out: &mut K) -> Result<(), WriteFault>
        ensures all { OnOk result (Appends (K.state out.old).told (K.state out.new).told self.old.replies.items
            × (self.new.replies.items ≡ [])) }
        ensures unfailed { OnOk result (Unfailed (K.state out.old) (K.state out.new)) }
        ensures front { OnErr result (AppendsFront (K.state out.old).told (K.state out.new).told
            self.old.replies.items) }
        ensures failed { OnErr result (Failed (K.state out.old) (K.state out.new)) }
        ensures rest { (self.new.replica ≡ self.old.replica) × (self.new.line.items ≡ self.old.line.items) }
        ensures goes { BytesGo (K.state out.old) (K.state out.new) }
    {
        pour(out, &mut self.replies)
    }

    /// Takes one byte.
    fn take_byte<D: Disk, F: Feed, K: Sink>(
        &mut self,
        alloc: Global,
        disk: &mut D,
        feed: &mut F,
        out: &mut K,
        byte: u8,
    ) -> Result<(), TakeFault>
        requires fed { IsFed self.old.replica (F.state feed.old) }
        ensures taken { (m : Moment) (before written : List ℕ) → IsSome (K.state out.old).told
            → Stands m before written (D.state disk.old) (F.state feed.old) self.old
            → TakesPiece m (before ++ byte ∷ []) written (D.state disk.new) (F.state feed.new) (K.state out.old).told
            (K.state out.new).told self.new result }
        ensures unfailed { OnOk result (Unfailed (K.state out.old) (K.state out.new)) }
        ensures over { IfErr result (λ e. OutOver (K.state out.old) (K.state out.new) (take_status e)) }
        ensures fed { IsFed self.new.replica (F.state feed.new) }
        ensures goes { (disk.new ≡ disk.old) × FeedGoes (F.state feed.old) (F.state feed.new)
            × BytesGo (K.state out.old) (K.state out.new) }
    {
        if byte == LINE_FEED {
            self.answer(alloc, disk, feed, out)?;
            self.line.clear();
            return Ok(());
        }
        if self.line.len() <= MAX_LINE {
            add(&mut self.line, &[byte])?;
        }
        Ok(())
    }

    /// Answers the open line. Some of the replies may be written.
    pub fn answer<D: Disk, F: Feed, K: Sink>(
        &mut self,
        alloc: Global,
        disk: &mut D,
        feed: &mut F,
        out: &mut K,
    ) -> Result<(), TakeFault>
        requires fed { IsFed self.old.replica (F.state feed.old) }
        ensures answered { (m : Moment) (lines : List (List ℕ)) (written line : List ℕ) → IsSome (K.state out.old).told
            → self.old.line.items ≡ kept_of line
            → HasRun m lines written (D.state disk.old) (F.state feed.old) self.old.replica self.old.replies.items
            → AnswersLine m lines line written (D.state disk.new) (F.state feed.new) (K.state out.old).told
            (K.state out.new).told self.new result }
        ensures line { self.new.line.items ≡ self.old.line.items }
        ensures unfailed { OnOk result (Unfailed (K.state out.old) (K.state out.new)) }
        ensures over { IfErr result (λ e. OutOver (K.state out.old) (K.state out.new) (take_status e)) }
        ensures fed { IsFed self.new.replica (F.state feed.new) }
        ensures goes { (disk.new ≡ disk.old) × FeedGoes (F.state feed.old) (F.state feed.new)
            × BytesGo (K.state out.old) (K.state out.new) }
    {
        match read_line(alloc, self.line.as_slice())? {
            Line::Skipped => Ok(()),
            Line::Bad => {
                add(&mut self.replies, BAD_LINE)?;
                Ok(())
            }
            Line::Command(command) => answer(
                alloc,
                &mut self.replica,
                &command,
                disk,
                feed,
                &mut self.replies,
                out,
            ),
        }
    }
}
