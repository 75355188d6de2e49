//! Why no manifest is read.

ghost use Rattle.std.specs.Prelude.{◌≡◌};
ghost use Rattle.lt_manifest.specs.Reading.{refusal_of};

use crate::reading::Stop;
use lt_core::Memory;
use std::error::Error;
use std::fmt;

/// Why no manifest is read.
#[derive(Clone, Copy, Debug, PartialEq, Eq)]
pub enum ReadRefusal {
    /// No lawful manifest has these bytes.
    NotAManifest,
    Memory,
}

impl fmt::Display for ReadRefusal {
    ghost use Rattle.std.specs.Prelude.{Some};
    ghost use Rattle.lt_manifest.specs.Messages.{read_message};

    ghost output = { λ e. Some (read_message e) };

    fn fmt<W: fmt::Write>(&self, f: &mut fmt::Formatter<W>) -> fmt::Result {
        match self {
            ReadRefusal::NotAManifest => f.write_str("no manifest"),
            ReadRefusal::Memory => write!(f, "{Memory}"),
        }
    }
}

impl Error for ReadRefusal {}

impl From<Stop> for ReadRefusal {
    ghost from_gives = { λ stop e. e ≡ refusal_of stop };

    fn from(stop: Stop) -> Self {
        match stop {
            Stop::Unlike => ReadRefusal::NotAManifest,
            Stop::Memory => ReadRefusal::Memory,
        }
    }
}
