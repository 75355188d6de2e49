//! Why a version is not added, and why none is retired.

ghost use Rattle.std.specs.Prelude.{◌≡◌};
ghost use Rattle.lt_schema.specs.declared.refusal.SchemaRefusal.TheVariants as schema_refusals;

use lt_core::{Memory, Text};
use std::error::Error;
use std::fmt;

/// Why a version is not added. Each is tested over the whole version before the next one, and keeps the first place: the
/// table, the version, the key columns, the columns; in a column its number and name before its kind, and a kind from
/// the outside in.
#[derive(Debug, Drop)]
pub enum SchemaRefusal {
    /// A number of a table, column or field is not from 1 to 65,535, the version is 0, or the numbers of columns, of
    /// fields or of an enum do not rise strictly: then it is the one that is not above the one before it.
    BadNumber { number: i64 },
    /// A name is none: 1 to 64 bytes, an ASCII letter and then letters, digits and `_`.
    BadName { name: Text },
    /// A name stands twice among the key columns and columns, the fields of a struct, or the names of an enum.
    DuplicateName { name: Text },
    /// A struct is nested more than 4 deep.
    TooDeep,
    /// The default has not the shape of the column's kind, or no log can spell it.
    BadDefault { column: u16 },
    /// The table's number is known with another name, or its name with another number. It keeps the version's number.
    TableMismatch { number: u32 },
    /// The version is not the one after the latest, or 1 for a fresh table.
    VersionNotNext { expected: u32 },
    /// The key columns differ from version 1, or number 0 or more than 8.
    KeyChanged,
    /// An older version has the column, and the latest has not.
    ColumnReused { column: u16 },
    /// The column, or a field of it, was primitive and is a struct, or the reverse.
    KindChanged { column: u16 },
    /// A column of the latest version gives a default again.
    DefaultGiven { column: u16 },
    /// Tables, versions, column numbers, leaves or the names of an enum would be so many, the first of these that passes its limit.
    Limit { count: u32 },
    Memory,
}

/// Why no version is retired.
#[derive(Clone, Copy, Debug, PartialEq, Eq)]
pub enum RetireRefusal {
    UnknownTable,
    UnknownVersion,
    AlreadyRetired,
    /// The latest version stays live.
    LastVersion,
}

impl fmt::Display for SchemaRefusal {
    fn fmt<W: fmt::Write>(&self, f: &mut fmt::Formatter<W>) -> fmt::Result {
        match self {
            SchemaRefusal::BadNumber { number } => write!(
                f,
                "number {number} is out of order or range"
            ),
            SchemaRefusal::BadName { name } => write!(f, "{name} is no name"),
            SchemaRefusal::DuplicateName { name } => write!(f, "the name {name} stands twice"),
            SchemaRefusal::TooDeep => f.write_str("a struct is nested too deep"),
            SchemaRefusal::BadDefault { column } => write!(
                f,
                "the default of column {column} is not of its kind"
            ),
            SchemaRefusal::TableMismatch { number } => write!(
                f,
                "table {number} has another name, or the name another number"
            ),
            SchemaRefusal::VersionNotNext { expected } => write!(f, "version {expected} is next"),
            SchemaRefusal::KeyChanged => f.write_str("the key columns are not those of the table"),
            SchemaRefusal::ColumnReused { column } => write!(f, "column {column} was dropped"),
            SchemaRefusal::KindChanged { column } => write!(
                f,
                "column {column} changes between struct and primitive"
            ),
            SchemaRefusal::DefaultGiven { column } => write!(
                f,
                "column {column} has its default already"
            ),
            SchemaRefusal::Limit { count } => write!(f, "{count} are too many"),
            SchemaRefusal::Memory => write!(f, "{Memory}"),
        }
    }
}

impl Error for SchemaRefusal {}

impl fmt::Display for RetireRefusal {
    fn fmt<W: fmt::Write>(&self, f: &mut fmt::Formatter<W>) -> fmt::Result {
        f.write_str(match self {
            RetireRefusal::UnknownTable => "no such table",
            RetireRefusal::UnknownVersion => "no such version",
            RetireRefusal::AlreadyRetired => "the version is retired",
            RetireRefusal::LastVersion => "the latest version stays",
        })
    }
}

impl Error for RetireRefusal {}

impl From<Memory> for SchemaRefusal {
    ghost from_gives = { λ _ e. e ≡ schema_refusals.Memory };

    fn from(_: Memory) -> Self {
        SchemaRefusal::Memory
    }
}
