//! The refusals of deltas.

ghost use Rattle.std.specs.Prelude.{◌≡◌};
ghost use Rattle.lt_delta.specs.declared.refusal.DeltaRefusal.TheVariants as refusals;

use lt_core::Memory;
use lt_disk::DiskFault;
use lt_space::SpaceRefusal;
use thiserror::Error;

/// Why a part of a delta is not written or read.
#[derive(Clone, Copy, Debug, Drop, PartialEq, Eq, Error)]
pub enum DeltaRefusal {
    #[error("the disk has failed")]
    Disk,
    /// What stands there is not of the format.
    #[error("damage at place {place}, in {length} bytes")]
    Damaged { place: u64, length: u64 },
    /// No gap is long enough.
    #[error("no gap has {need} bytes, the longest has {room}")]
    StoreFull { need: u64, room: u64 },
    #[error("out of memory")]
    Memory,
}

impl From<Memory> for DeltaRefusal {
    ghost from_gives = { λ _ e. e ≡ refusals.Memory };

    fn from(_: Memory) -> Self {
        DeltaRefusal::Memory
    }
}

impl From<DiskFault> for DeltaRefusal {
    ghost from_gives = { λ _ e. e ≡ refusals.Disk };

    fn from(_: DiskFault) -> Self {
        DeltaRefusal::Disk
    }
}
