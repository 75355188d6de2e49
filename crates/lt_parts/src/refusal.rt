//! Why a partition is not split.

ghost use Rattle.std.specs.Prelude.{◌≡◌};
ghost use Rattle.lt_parts.specs.declared.refusal.SplitRefusal.TheVariants as refusals;

use lt_core::Memory;
use std::alloc::AllocFailed;
use std::error::Error;
use std::fmt;

/// Why a partition is not split, tested in this order.
#[derive(Clone, Copy, Debug, PartialEq, Eq)]
pub enum SplitRefusal {
    /// The key is this partition's low bound.
    AtEdge { part: usize },
    /// As many partitions stand as may.
    TooManyParts,
    Memory,
}

impl fmt::Display for SplitRefusal {
    ghost use Rattle.std.specs.Prelude.{Some};
    ghost use Rattle.lt_parts.specs.Messages.{split_message};

    ghost output = { λ e. Some (split_message e) };

    fn fmt<W: fmt::Write>(&self, f: &mut fmt::Formatter<W>) -> fmt::Result {
        match self {
            SplitRefusal::AtEdge { part } => write!(f, "partition {part} begins at the key"),
            SplitRefusal::TooManyParts => f.write_str("there are 1024 partitions"),
            SplitRefusal::Memory => write!(f, "{Memory}"),
        }
    }
}

impl Error for SplitRefusal {}

impl From<Memory> for SplitRefusal {
    ghost from_gives = { λ _ e. e ≡ refusals.Memory };

    fn from(_: Memory) -> Self {
        SplitRefusal::Memory
    }
}

impl<T: Drop> From<AllocFailed<T>> for SplitRefusal {
    ghost from_gives = { λ _ e. e ≡ refusals.Memory };

    fn from(_: AllocFailed<T>) -> Self {
        SplitRefusal::Memory
    }
}
