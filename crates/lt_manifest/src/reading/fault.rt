//! Why reading stopped.

ghost use Rattle.std.specs.Prelude.{◌≡◌};
ghost use Rattle.lt_manifest.specs.declared.reading.fault.Stop.TheVariants as stops;

use lt_core::{Memory, Short};

/// Why a reader gave nothing. It may have taken bytes.
#[derive(Clone, Copy, Debug, PartialEq, Eq)]
pub enum Stop {
    /// The bytes begin with nothing of the format.
    Unlike,
    Memory,
}

impl From<Short> for Stop {
    ghost from_gives = { λ _ e. e ≡ stops.Unlike };

    fn from(_: Short) -> Self {
        Stop::Unlike
    }
}

impl From<Memory> for Stop {
    ghost from_gives = { λ _ e. e ≡ stops.Memory };

    fn from(_: Memory) -> Self {
        Stop::Memory
    }
}
