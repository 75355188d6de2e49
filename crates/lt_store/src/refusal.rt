//! Why no store is opened.

ghost use Rattle.std.specs.Prelude.{◌≡◌};
ghost use Rattle.lt_store.specs.Opening.{refusal_of_delta, refusal_of_root};
ghost use Rattle.lt_store.specs.declared.refusal.OpenRefusal.TheVariants as refusals;

use lt_core::Memory;
use lt_delta::DeltaRefusal;
use lt_disk::DiskFault;
use lt_root::RootRefusal;
use std::alloc::AllocFailed;
use thiserror::Error;

/// Why no store is opened.
#[derive(Clone, Copy, Debug, Drop, PartialEq, Eq, Error)]
pub enum OpenRefusal {
    /// No gate is open.
    #[error("there is no store")]
    NoStore,
    /// What stands there is not of the format, or meets another extent, the slots or the limit.
    #[error("damage at place {place}, in {length} bytes")]
    Damaged { place: u64, length: u64 },
    /// The sync that an opening begins with has failed.
    #[error("the disk has failed in a sync")]
    Unsynced,
    #[error("the disk has failed in a read")]
    Unread,
    #[error("out of memory")]
    Memory,
}

impl From<RootRefusal> for OpenRefusal {
    ghost from_gives = { λ r e. e ≡ refusal_of_root r };

    fn from(refusal: RootRefusal) -> Self {
        match refusal {
            RootRefusal::NoStore => OpenRefusal::NoStore,
            RootRefusal::Damaged { place, length } => OpenRefusal::Damaged { place, length },
            RootRefusal::Disk => OpenRefusal::Unread,
        }
    }
}

impl From<DeltaRefusal> for OpenRefusal {
    ghost from_gives = { λ r e. e ≡ refusal_of_delta r };

    fn from(refusal: DeltaRefusal) -> Self {
        match refusal {
            DeltaRefusal::Disk => OpenRefusal::Unread,
            DeltaRefusal::Damaged { place, length } => OpenRefusal::Damaged { place, length },
            // Nothing that is read takes a gap.
            DeltaRefusal::StoreFull { .. } => OpenRefusal::Memory,
            DeltaRefusal::Memory => OpenRefusal::Memory,
        }
    }
}

impl From<DiskFault> for OpenRefusal {
    ghost from_gives = { λ _ e. e ≡ refusals.Unread };

    fn from(_: DiskFault) -> Self {
        OpenRefusal::Unread
    }
}

impl From<Memory> for OpenRefusal {
    ghost from_gives = { λ _ e. e ≡ refusals.Memory };

    fn from(_: Memory) -> Self {
        OpenRefusal::Memory
    }
}

impl<T: Drop> From<AllocFailed<T>> for OpenRefusal {
    ghost from_gives = { λ _ e. e ≡ refusals.Memory };

    fn from(_: AllocFailed<T>) -> Self {
        OpenRefusal::Memory
    }
}
