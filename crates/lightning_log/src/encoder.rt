//! Lines that come byte by byte, and the frames that they say.

ghost use Rattle.std.specs.Prelude.{◌≡◌, ◌≤◌, [], ◌∷◌, ◌++◌, ℕ, List, MatchResult, IfErr, IfOk, OnErr, OnOk, length};
ghost use Rattle.lightning_log.specs.Writing.{Cause, EndsWith, Said, Stands, Stops, status_of};
ghost use Rattle.lightning_log.specs.declared.encoder.Stop.TheVariants as stops;

use lt_log_text::{LineRefusal, line_frame};
use std::alloc::{AllocError, AllocFailed, Global};
use thiserror::Error;

/// What a line ends with.
const LINE_FEED: u8 = 10;

/// The most bytes that a line may have without its end.
const MAX_LINE: usize = 8_388_608;

/// Why a line ends the run.
#[derive(Clone, Copy, Debug, Drop, PartialEq, Eq, Error)]
pub enum Stop {
    #[error("the line is longer than 8388608 bytes")]
    TooLong,
    #[error("{0}")]
    Refused(LineRefusal),
    #[error("out of memory")]
    Memory,
}

impl Stop {
    /// The status that a run ends with.
    pub fn status(&self) -> u8
        ensures { result ≡ status_of self.now }
    {
        match self {
            Stop::Memory | Stop::Refused(LineRefusal::Memory) => 10,
            _ => 1,
        }
    }
}

impl From<AllocError> for Stop {
    ghost from_gives = { λ _ e. e ≡ stops.Memory };

    fn from(_: AllocError) -> Self {
        Stop::Memory
    }
}

impl<T: Drop> From<AllocFailed<T>> for Stop {
    ghost from_gives = { λ _ e. e ≡ stops.Memory };

    fn from(_: AllocFailed<T>) -> Self {
        Stop::Memory
    }
}

/// The open line, and the frames that are not written yet.
#[derive(Drop)]
pub struct Encoder {
    line: Vec<u8>,
    /// How many lines were ended, up to the greatest number.
    ended: u64,
    frames: Vec<u8>,
}

impl Encoder {
    pub fn new(alloc: Global) -> Encoder
        ensures line { result.line.items ≡ [] }
        ensures frames { result.frames.items ≡ [] }
    {
        Encoder {
            line: Vec::new(alloc),
            ended: 0,
            frames: Vec::new(alloc),
        }
    }

    /// The number of the open line, from 1.
    pub fn number(&self) -> u64 {
        self.ended.saturating_add(1)
    }

    /// The frames that are not written yet.
    pub fn frames(&self) -> &[u8]
        ensures { result.now ≡ self.now.frames.items }
    {
        self.frames.as_slice()
    }

    /// The frames were written.
    pub fn forget_frames(&mut self)
        ensures frames { self.new.frames.items ≡ [] }
        ensures line { self.new.line.items ≡ self.old.line.items }
    {
        self.frames.clear();
    }

    /// Takes further bytes of the text. An `Err` takes no byte behind the one that it is of.
    pub fn take(&mut self, alloc: Global, bytes: &[u8]) -> Result<(), Stop>
        ensures { (taken written : List ℕ) → Stands taken written self.old → MatchResult result
            (λ _. Stands (taken ++ bytes.now) written self.new) (Stops (taken ++ bytes.now) written self.new) }
    {
        for byte in bytes {
            match self.take_byte(alloc, *byte) {
                Ok(()) => {}
                Err(stop) => return Err(stop),
            }
        }
        Ok(())
    }

    fn take_byte(&mut self, alloc: Global, byte: u8) -> Result<(), Stop>
        ensures { (taken written : List ℕ) → Stands taken written self.old → MatchResult result
            (λ _. Stands (taken ++ byte ∷ []) written self.new) (Stops (taken ++ byte ∷ []) written self.new) }
    {
        if byte == LINE_FEED {
            self.say(alloc)?;
            self.line.clear();
            return Ok(());
        }
        if self.line.len() >= MAX_LINE {
            return Err(Stop::TooLong);
        }
        self.line.push(byte)?;
        Ok(())
    }

    /// The text has ended: a line that is open is its last one.
    pub fn end(&mut self, alloc: Global) -> Result<(), Stop>
        ensures ok { OnOk result (EndsWith self.old.line.items self.old.frames.items self.new.frames.items) }
        ensures err { IfErr result (Cause self.old.line.items) }
        ensures unchanged { OnErr result (self.new.frames.items ≡ self.old.frames.items) }
        ensures line { self.new.line.items ≡ self.old.line.items }
    {
        if self.line.is_empty() {
            return Ok(());
        }
        self.say(alloc)
    }

    /// Adds the frame that the open line says.
    fn say(&mut self, alloc: Global) -> Result<(), Stop>
        ensures ok { OnOk result (Said self.old.line.items self.old.frames.items self.new.frames.items) }
        ensures err { IfErr result (Cause self.old.line.items) }
        ensures unchanged { OnErr result (self.new.frames.items ≡ self.old.frames.items) }
        ensures line { self.new.line.items ≡ self.old.line.items }
    {
        match line_frame(alloc, self.line.as_slice()) {
            Ok(frame) => {
                self.frames.extend_from_slice(frame.as_slice())?;
                self.ended = self.ended.saturating_add(1);
                Ok(())
            }
            Err(refusal) => Err(Stop::Refused(refusal)),
        }
    }
}
