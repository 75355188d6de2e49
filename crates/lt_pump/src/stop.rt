//! Why a pump stops, and what it tells then.

use lt_core::Ts;
use lt_fair::Unfair;
use lt_terms::BadFrame;

/// Why a pump stops.
#[derive(Clone, Copy, Debug, PartialEq, Eq)]
pub enum Stop {
    /// It took as many records as were asked for.
    Count,
    /// The stream ends behind a record.
    End,
    /// The next record is not whole yet.
    Partial,
    /// What stands next never becomes a record.
    Malformed(BadFrame),
    /// The next record breaks a rule of fair streams.
    Unfair(Unfair),
}

/// How many records a pump took, and where the stream stands then.
#[derive(Clone, Copy, Debug, PartialEq, Eq)]
pub struct Pumped {
    pub records: u64,
    /// The place behind the last record taken, in bytes.
    pub offset: u64,
    /// The last checkpoint, or 0.
    pub checkpoint: Ts,
    pub stop: Stop,
}
