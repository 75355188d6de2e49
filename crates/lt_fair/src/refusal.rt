//! Why a record is not taken.

ghost use Rattle.std.specs.Prelude.{◌≡◌};
ghost use Rattle.lt_fair.specs.declared.refusal.TakeRefusal.TheVariants as refusals;

use lt_core::{Memory, Ts};
use std::error::Error;
use std::fmt;

/// The rule of a fair stream that a record breaks, in the order of the tests.
#[derive(Clone, Copy, Debug, PartialEq, Eq)]
pub enum Unfair {
    SecondHeader,
    /// The key lies outside the stream's range.
    Range,
    UnknownTable { number: u32 },
    UnknownVersion { version: u32 },
    /// The change has not the shape of its version.
    Shape,
    /// The change is not above the checkpoint.
    Late { checkpoint: Ts },
    /// The change is not above the last one of its key.
    Order { last: Ts },
    /// The checkpoint is below the one before it.
    Backward { checkpoint: Ts },
}

/// Why a record is not taken.
#[derive(Clone, Copy, Debug, PartialEq, Eq)]
pub enum TakeRefusal {
    Unfair(Unfair),
    Memory,
}

impl fmt::Display for Unfair {
    ghost use Rattle.std.specs.Prelude.{Some};
    ghost use Rattle.lt_fair.specs.Messages.{unfair_message};

    ghost output = { λ e. Some (unfair_message e) };

    fn fmt<W: fmt::Write>(&self, f: &mut fmt::Formatter<W>) -> fmt::Result {
        match self {
            Unfair::SecondHeader => f.write_str("a second header"),
            Unfair::Range => f.write_str("a key outside the stream's range"),
            Unfair::UnknownTable { number } => write!(f, "no table {number}"),
            Unfair::UnknownVersion { version } => write!(f, "no version {version} of the table"),
            Unfair::Shape => f.write_str("not the shape of the version"),
            Unfair::Late { checkpoint } => write!(f, "not above the checkpoint {checkpoint}"),
            Unfair::Order { last } => write!(f, "not above {last}, the last change of the key"),
            Unfair::Backward { checkpoint } => write!(f, "below the checkpoint {checkpoint}"),
        }
    }
}

impl Error for Unfair {}

impl fmt::Display for TakeRefusal {
    ghost use Rattle.std.specs.Prelude.{Some};
    ghost use Rattle.lt_fair.specs.Messages.{take_message};

    ghost output = { λ e. Some (take_message e) };

    fn fmt<W: fmt::Write>(&self, f: &mut fmt::Formatter<W>) -> fmt::Result {
        match self {
            TakeRefusal::Unfair(unfair) => write!(f, "{unfair}"),
            TakeRefusal::Memory => write!(f, "{Memory}"),
        }
    }
}

impl Error for TakeRefusal {}

impl From<Unfair> for TakeRefusal {
    ghost from_gives = { λ unfair e. e ≡ refusals.Unfair unfair };

    fn from(unfair: Unfair) -> Self {
        TakeRefusal::Unfair(unfair)
    }
}

impl From<Memory> for TakeRefusal {
    ghost from_gives = { λ _ e. e ≡ refusals.Memory };

    fn from(_: Memory) -> Self {
        TakeRefusal::Memory
    }
}
