//! Why a text is no schema version.

ghost use Rattle.std.specs.Prelude.{◌≡◌};
ghost use Rattle.lt_schema_json.specs.declared.refusal.JsonRefusal.TheVariants as refusals;

use lt_core::{Memory, Text};
use lt_terms::Field;
use std::error::Error;
use std::fmt;

/// Why a text is no schema version.
#[derive(Debug, Drop)]
pub enum JsonRefusal {
    /// `serde_json` does not read the text.
    NotJson,
    /// An object has members that it may not have; the least of their names in byte order.
    Unknown { name: Text },
    /// A member that has to be there is not.
    Missing(Field),
    /// A member has not the form that it must have.
    Wrong(Field),
    Memory,
}

impl fmt::Display for JsonRefusal {
    fn fmt<W: fmt::Write>(&self, f: &mut fmt::Formatter<W>) -> fmt::Result {
        match self {
            JsonRefusal::NotJson => f.write_str("no JSON"),
            JsonRefusal::Unknown { name } => write!(f, "an unknown member: {name}"),
            JsonRefusal::Missing(field) => write!(f, "a missing member: {field:?}"),
            JsonRefusal::Wrong(field) => write!(f, "a member of another form: {field:?}"),
            JsonRefusal::Memory => write!(f, "{Memory}"),
        }
    }
}

impl Error for JsonRefusal {}

impl From<Memory> for JsonRefusal {
    ghost from_gives = { λ _ e. e ≡ refusals.Memory };

    fn from(_: Memory) -> Self {
        JsonRefusal::Memory
    }
}
