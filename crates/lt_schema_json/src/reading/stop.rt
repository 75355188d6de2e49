//! Why a part of a text was not read.

ghost use Rattle.std.specs.Prelude.{◌≡◌};
ghost use Rattle.lt_schema_json.specs.declared.reading.stop.Stop.TheVariants as stops;
ghost use Rattle.lt_schema_json.specs.Reading.{refusal_at};

use crate::refusal::JsonRefusal;
use lt_core::Memory;
use lt_terms::Field;

/// Why a part of a text was not read.
#[derive(Clone, Copy, Debug, PartialEq, Eq)]
pub enum Stop {
    /// It has another form.
    Unlike,
    Memory,
}

impl Stop {
    /// The refusal, where the part stands at this field.
    pub fn at(self, field: Field) -> JsonRefusal
        ensures { result ≡ refusal_at field self }
    {
        match self {
            Stop::Unlike => JsonRefusal::Wrong(field),
            Stop::Memory => JsonRefusal::Memory,
        }
    }
}

impl From<Memory> for Stop {
    ghost from_gives = { λ _ e. e ≡ stops.Memory };

    fn from(_: Memory) -> Self {
        Stop::Memory
    }
}
