//! Why no replica begins.

ghost use Rattle.std.specs.Prelude.{◌≡◌};
ghost use Rattle.lt_reply.specs.View.{view_refusal};
ghost use Rattle.lt_replica.specs.Opening.{again_refusal, at_start, is_unsynced};
ghost use Rattle.lt_replica.specs.State.{start_refusal};
ghost use Rattle.lt_replica.specs.declared.refusal.OpeningRefusal.TheVariants as opening;
ghost use Rattle.lt_replica.specs.declared.refusal.StartRefusal.TheVariants as refusals;

use lt_core::Memory;
use lt_pump::AttachRefusal;
use lt_reply::Refusal;
use lt_store::OpenRefusal;
use std::alloc::AllocFailed;
use thiserror::Error;

/// Why no replica begins.
#[derive(Clone, Copy, Debug, PartialEq, Eq, Error)]
pub enum StartRefusal {
    /// There is no store: no gate of a root slot is open.
    #[error("there is no store")]
    NoStore,
    /// There is a store already.
    #[error("there is a store already")]
    StoreThere,
    /// A call of the disk failed.
    #[error("the disk failed")]
    Disk,
    /// A call of the feed failed.
    #[error("the feed failed")]
    Feed,
    /// The feed's streams do not tile the keys. Where there are none or more than 64, it is 0 or 64; else it is the first stream
    /// whose header does not fit.
    #[error("stream {stream} does not fit")]
    Mismatch { stream: u32 },
    /// The store's bytes at this place are damaged, in bytes from the start of the file.
    #[error("damaged at {place}, {length} bytes")]
    Damaged { place: u64, length: u64 },
    #[error("out of memory")]
    Memory,
}

impl From<AttachRefusal> for StartRefusal {
    ghost from_gives = { λ refusal e. e ≡ start_refusal refusal };

    fn from(refusal: AttachRefusal) -> Self {
        match refusal {
            AttachRefusal::Mismatch { stream } => StartRefusal::Mismatch { stream },
            AttachRefusal::Feed => StartRefusal::Feed,
            AttachRefusal::Memory => StartRefusal::Memory,
        }
    }
}

impl From<Memory> for StartRefusal {
    ghost from_gives = { λ _ e. e ≡ refusals.Memory };

    fn from(_: Memory) -> Self {
        StartRefusal::Memory
    }
}

impl<T: Drop> From<AllocFailed<T>> for StartRefusal {
    ghost from_gives = { λ _ e. e ≡ refusals.Memory };

    fn from(_: AllocFailed<T>) -> Self {
        StartRefusal::Memory
    }
}

/// How many bytes the root slots have.
const SLOTS: u64 = 1024;

/// Why no session begins on the store that a disk has.
#[derive(Clone, Copy, Debug, Drop)]
pub(crate) enum OpeningRefusal {
    Store(OpenRefusal),
    /// The store is not bare; where its manifest stands.
    Laden { place: u64, length: u64 },
    Attach(AttachRefusal),
    Memory,
}

impl OpeningRefusal {
    /// Whether it was the opening's own sync that failed.
    pub(crate) fn breaks(&self) -> bool
        ensures { result ≡ is_unsynced self.now }
    {
        matches!(self, OpeningRefusal::Store(OpenRefusal::Unsynced))
    }

    /// As a start answers it.
    pub(crate) fn at_start(self) -> StartRefusal
        ensures { result ≡ at_start self }
    {
        match self {
            OpeningRefusal::Store(OpenRefusal::NoStore) => StartRefusal::NoStore,
            OpeningRefusal::Store(OpenRefusal::Damaged { place, length }) => StartRefusal::Damaged {
                place,
                length,
            },
            OpeningRefusal::Store(OpenRefusal::Unsynced | OpenRefusal::Unread) =>
                StartRefusal::Disk,
            OpeningRefusal::Store(OpenRefusal::Memory) | OpeningRefusal::Memory =>
                StartRefusal::Memory,
            OpeningRefusal::Laden { place, length } => StartRefusal::Damaged { place, length },
            OpeningRefusal::Attach(refusal) => StartRefusal::from(refusal),
        }
    }

    /// As a reopening answers it. Where no gate is open, both slots are damaged.
    pub(crate) fn again(self) -> Refusal
        ensures { view_refusal result ≡ again_refusal self }
    {
        match self {
            OpeningRefusal::Store(OpenRefusal::NoStore) => Refusal::Damaged {
                place: 0,
                length: SLOTS,
            },
            OpeningRefusal::Store(OpenRefusal::Damaged { place, length }) => Refusal::Damaged {
                place,
                length,
            },
            OpeningRefusal::Store(OpenRefusal::Unsynced | OpenRefusal::Unread) =>
                Refusal::DiskFault,
            OpeningRefusal::Store(OpenRefusal::Memory) | OpeningRefusal::Memory => Refusal::Memory,
            OpeningRefusal::Laden { place, length } => Refusal::Damaged { place, length },
            OpeningRefusal::Attach(AttachRefusal::Mismatch { stream }) => Refusal::FeedMismatch {
                stream,
            },
            OpeningRefusal::Attach(AttachRefusal::Feed) => Refusal::FeedFault,
            OpeningRefusal::Attach(AttachRefusal::Memory) => Refusal::Memory,
        }
    }
}

impl From<OpenRefusal> for OpeningRefusal {
    ghost from_gives = { λ refusal e. e ≡ opening.Store refusal };

    fn from(refusal: OpenRefusal) -> Self {
        OpeningRefusal::Store(refusal)
    }
}

impl From<AttachRefusal> for OpeningRefusal {
    ghost from_gives = { λ refusal e. e ≡ opening.Attach refusal };

    fn from(refusal: AttachRefusal) -> Self {
        OpeningRefusal::Attach(refusal)
    }
}

impl From<Memory> for OpeningRefusal {
    ghost from_gives = { λ _ e. e ≡ opening.Memory };

    fn from(_: Memory) -> Self {
        OpeningRefusal::Memory
    }
}
