//! Why an extent is refused.

ghost use Rattle.std.specs.Prelude.{◌≡◌};
ghost use Rattle.lt_space.specs.declared.refusal.SpaceRefusal.TheVariants as refusals;

use std::alloc::{AllocError, AllocFailed};
use thiserror::Error;

/// Why extents are not taken.
#[derive(Clone, Copy, Debug, Drop, PartialEq, Eq, Error)]
pub enum SpaceRefusal {
    /// An extent meets the root slots, another extent or the limit; the least place of such an extent.
    #[error("the extent at place {place} meets the slots, another extent or the limit")]
    Overlap { place: u64 },
    /// No gap is long enough.
    #[error("no gap has {need} bytes, the longest has {room}")]
    StoreFull { need: u64, room: u64 },
    #[error("out of memory")]
    Memory,
}

impl From<AllocError> for SpaceRefusal {
    ghost from_gives = { λ _ e. e ≡ refusals.Memory };

    fn from(_: AllocError) -> Self {
        SpaceRefusal::Memory
    }
}

impl<T: Drop> From<AllocFailed<T>> for SpaceRefusal {
    ghost from_gives = { λ _ e. e ≡ refusals.Memory };

    fn from(_: AllocFailed<T>) -> Self {
        SpaceRefusal::Memory
    }
}
