//! Why an item is not written, and why no value is read.

ghost use Rattle.std.specs.Prelude.{◌≡◌};
ghost use Rattle.lt_records.specs.Reading.{refusal_of};
ghost use Rattle.lt_records.specs.declared.refusal.WriteRefusal.TheVariants as write_refusals;

use crate::reading::fault::Stop;
use lt_core::Memory;
use std::error::Error;
use std::fmt;

/// Why an item is not written.
#[derive(Clone, Copy, Debug, PartialEq, Eq)]
pub enum WriteRefusal {
    /// The body has so many bytes, more than a frame holds.
    TooLong { len: usize },
    Memory,
}

/// Why no value is read.
#[derive(Clone, Copy, Debug, PartialEq, Eq)]
pub enum ValueRefusal {
    /// No value stands at the front.
    NotAValue,
    Memory,
}

impl fmt::Display for WriteRefusal {
    ghost use Rattle.std.specs.Prelude.{Some};
    ghost use Rattle.lt_records.specs.Messages.{write_message};

    ghost output = { λ e. Some (write_message e) };

    fn fmt<W: fmt::Write>(&self, f: &mut fmt::Formatter<W>) -> fmt::Result {
        match self {
            WriteRefusal::TooLong { len } => write!(f, "a body of {len} bytes"),
            WriteRefusal::Memory => write!(f, "{Memory}"),
        }
    }
}

impl Error for WriteRefusal {}

impl fmt::Display for ValueRefusal {
    ghost use Rattle.std.specs.Prelude.{Some};
    ghost use Rattle.lt_records.specs.Messages.{value_message};

    ghost output = { λ e. Some (value_message e) };

    fn fmt<W: fmt::Write>(&self, f: &mut fmt::Formatter<W>) -> fmt::Result {
        match self {
            ValueRefusal::NotAValue => f.write_str("no value"),
            ValueRefusal::Memory => write!(f, "{Memory}"),
        }
    }
}

impl Error for ValueRefusal {}

impl From<Memory> for WriteRefusal {
    ghost from_gives = { λ _ e. e ≡ write_refusals.Memory };

    fn from(_: Memory) -> Self {
        WriteRefusal::Memory
    }
}

impl From<Stop> for ValueRefusal {
    ghost from_gives = { λ stop e. e ≡ refusal_of stop };

    fn from(stop: Stop) -> Self {
        match stop {
            Stop::Unlike => ValueRefusal::NotAValue,
            Stop::Memory => ValueRefusal::Memory,
        }
    }
}
