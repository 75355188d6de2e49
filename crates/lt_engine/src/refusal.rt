//! Why no replica begins.

ghost use Rattle.std.specs.Prelude.{◌≡◌};
ghost use Rattle.lt_engine.specs.State.{start_refusal};
ghost use Rattle.lt_engine.specs.declared.refusal.StartRefusal.TheVariants as refusals;

use lt_core::Memory;
use lt_pump::AttachRefusal;
use std::alloc::AllocFailed;
use thiserror::Error;

/// Why no replica begins.
#[derive(Clone, Copy, Debug, PartialEq, Eq, Error)]
pub enum StartRefusal {
    /// There is no store: no gate of a root slot is open.
    #[error("there is no store")]
    NoStore,
    /// There is a store already.
    #[error("there is a store already")]
    StoreThere,
    /// A call of the disk failed.
    #[error("the disk failed")]
    Disk,
    /// A call of the feed failed.
    #[error("the feed failed")]
    Feed,
    /// The feed's streams do not tile the keys. Where there are none or more than 64, it is 0 or 64; else it is the first stream
    /// whose header does not fit.
    #[error("stream {stream} does not fit")]
    Mismatch { stream: u32 },
    /// The store's bytes at this place are damaged, in bytes from the start of the file.
    #[error("damaged at {place}, {length} bytes")]
    Damaged { place: u64, length: u64 },
    #[error("out of memory")]
    Memory,
}

impl From<AttachRefusal> for StartRefusal {
    ghost from_gives = { λ refusal e. e ≡ start_refusal refusal };

    fn from(refusal: AttachRefusal) -> Self {
        match refusal {
            AttachRefusal::Mismatch { stream } => StartRefusal::Mismatch { stream },
            AttachRefusal::Feed => StartRefusal::Feed,
            AttachRefusal::Memory => StartRefusal::Memory,
        }
    }
}

impl From<Memory> for StartRefusal {
    ghost from_gives = { λ _ e. e ≡ refusals.Memory };

    fn from(_: Memory) -> Self {
        StartRefusal::Memory
    }
}

impl<T: Drop> From<AllocFailed<T>> for StartRefusal {
    ghost from_gives = { λ _ e. e ≡ refusals.Memory };

    fn from(_: AllocFailed<T>) -> Self {
        StartRefusal::Memory
    }
}
