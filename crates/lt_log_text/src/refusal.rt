//! Why a line is no record.

ghost use Rattle.std.specs.Prelude.{◌≡◌};
ghost use Rattle.lt_log_text.specs.Reading.{refusal_at};
ghost use Rattle.lt_log_text.specs.declared.refusal.LineRefusal.TheVariants as refusals;
ghost use Rattle.lt_log_text.specs.declared.refusal.Stop.TheVariants as stops;

use lt_core::Memory;
use std::fmt;
use thiserror::Error;

/// A member of a line.
#[derive(Clone, Copy, Debug, PartialEq, Eq)]
pub enum Member {
    Header,
    Low,
    High,
    Change,
    At,
    Table,
    Version,
    Key,
    Set,
    Checkpoint,
}

/// A rule that a record breaks.
#[derive(Clone, Copy, Debug, PartialEq, Eq)]
pub enum Rule {
    /// A bound is too long, or the high bound is not above the low one.
    Bounds,
    /// The timestamp is out of its range.
    Timestamp,
    /// The table's number, or the version's, is out of its range.
    Numbers,
    /// The key has too many parts, none, or too many bytes.
    Key,
    /// The columns do not rise, a value nests too deep, or a delete sets a column.
    Set,
}

/// Why a line is no record.
#[derive(Clone, Copy, Debug, Drop, PartialEq, Eq, Error)]
pub enum LineRefusal {
    #[error("not JSON")]
    NotJson,
    #[error("not a JSON object")]
    NotAnObject,
    #[error("the member {member} is missing")]
    Missing { member: Member },
    #[error("the member {member} has not its form")]
    Wrong { member: Member },
    #[error("{rule}")]
    Unlawful { rule: Rule },
    #[error("the frame has {len} bytes behind its head, and at most 1048576 are allowed")]
    TooLong { len: usize },
    #[error("out of memory")]
    Memory,
}

/// Why a part of a line was not read.
#[derive(Clone, Copy, Debug, PartialEq, Eq)]
pub enum Stop {
    /// It has another form.
    Unlike,
    Memory,
}

impl Stop {
    /// The refusal, where the part is this member.
    pub fn at(self, member: Member) -> LineRefusal
        ensures { result ≡ refusal_at member self }
    {
        match self {
            Stop::Unlike => LineRefusal::Wrong { member },
            Stop::Memory => LineRefusal::Memory,
        }
    }
}

impl From<Memory> for Stop {
    ghost from_gives = { λ _ e. e ≡ stops.Memory };

    fn from(_: Memory) -> Self {
        Stop::Memory
    }
}

impl From<Memory> for LineRefusal {
    ghost from_gives = { λ _ e. e ≡ refusals.Memory };

    fn from(_: Memory) -> Self {
        LineRefusal::Memory
    }
}

impl fmt::Display for Member {
    fn fmt<W: fmt::Write>(&self, f: &mut fmt::Formatter<W>) -> fmt::Result {
        f.write_str(match self {
            Member::Header => "`header` (the stream's number)",
            Member::Low => "`low` (bytes as `0x..`)",
            Member::High => "`high` (bytes as `0x..`)",
            Member::Change => "`change` (`insert`, `update` or `delete`)",
            Member::At => "`at` (a timestamp)",
            Member::Table => "`table` (a number)",
            Member::Version => "`version` (a number)",
            Member::Key => "`key` (an array of numbers and texts)",
            Member::Set => "`set` (an array of pairs of a column's number and a value)",
            Member::Checkpoint => "`checkpoint` (a timestamp)",
        })
    }
}

impl fmt::Display for Rule {
    fn fmt<W: fmt::Write>(&self, f: &mut fmt::Formatter<W>) -> fmt::Result {
        f.write_str(match self {
            Rule::Bounds => "a bound has at most 4096 bytes, and `high` is above `low`",
            Rule::Timestamp => "a timestamp is from 1 to 9223372036854775807",
            Rule::Numbers => "a table is from 1 to 65535 and a version from 1 to 256",
            Rule::Key => "a key has 1 to 8 parts and at most 4096 bytes",
            Rule::Set => {
                "columns and fields rise from 1 on, values nest at most 4 deep, and a delete sets nothing"
            }
        })
    }
}
