//! Why a pump is not made, and why it ends early.

use lt_core::Memory;
use std::error::Error;
use std::fmt;

/// Why no pump is made.
#[derive(Clone, Copy, Debug, PartialEq, Eq)]
pub enum AttachRefusal {
    /// The feed's streams are not those of a store. Where their number does not fit, it is 0, 64, or the lesser number; else it is
    /// the first stream whose header does not fit.
    Mismatch { stream: u32 },
    Feed,
    Memory,
}

/// Why a pump takes nothing, or ends early.
#[derive(Clone, Copy, Debug, PartialEq, Eq)]
pub enum PumpFault {
    NoStream,
    Feed,
    Memory,
}

impl fmt::Display for AttachRefusal {
    ghost use Rattle.std.specs.Prelude.{Some};
    ghost use Rattle.lt_pump.specs.Messages.{attach_message};

    ghost output = { λ e. Some (attach_message e) };

    fn fmt<W: fmt::Write>(&self, f: &mut fmt::Formatter<W>) -> fmt::Result {
        match self {
            AttachRefusal::Mismatch { stream } => write!(f, "stream {stream} does not fit"),
            AttachRefusal::Feed => f.write_str("the feed failed"),
            AttachRefusal::Memory => write!(f, "{Memory}"),
        }
    }
}

impl Error for AttachRefusal {}

impl fmt::Display for PumpFault {
    ghost use Rattle.std.specs.Prelude.{Some};
    ghost use Rattle.lt_pump.specs.Messages.{pump_message};

    ghost output = { λ e. Some (pump_message e) };

    fn fmt<W: fmt::Write>(&self, f: &mut fmt::Formatter<W>) -> fmt::Result {
        match self {
            PumpFault::NoStream => f.write_str("no such stream"),
            PumpFault::Feed => f.write_str("the feed failed"),
            PumpFault::Memory => write!(f, "{Memory}"),
        }
    }
}

impl Error for PumpFault {}
