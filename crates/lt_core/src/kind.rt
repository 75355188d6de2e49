//! The kinds of columns and fields. Copying takes time linear in what is copied.

ghost use Rattle.std.specs.Prelude.{◌≡◌, IfOk};

use crate::list::{List, ListItem};
use crate::memory::Memory;
use crate::text::Text;
use lt_terms::Rank;

/// A primitive kind, an enum with printed names, or a struct with numbered fields.
#[derive(Debug, Drop)]
pub enum Kind {
    Plain(Rank),
    Enum(Names),
    Struct(FieldKinds),
}

/// The names of an enum's numbers.
pub type Names = List<(i32, Text)>;

/// The fields of a struct: number, name and kind.
pub type FieldKinds = List<(u16, Text, Kind)>;

impl Kind {
    /// A copy equals what it copies.
    #[cycle(copy)]
    pub fn copy(&self) -> Result<Kind, Memory>
        ensures { IfOk result (λ kind. kind ≡ self.now) }
    {
        match self {
            Kind::Plain(rank) => Ok(Kind::Plain(*rank)),
            Kind::Enum(names) => Ok(Kind::Enum(names.copy()?)),
            Kind::Struct(fields) => Ok(Kind::Struct(copy_fields(fields)?)),
        }
    }
}

/// The copies of a struct's fields: `copy` of a list, spelled out where the recursion goes through it.
#[cycle(copy)]
fn copy_fields(fields: &FieldKinds) -> Result<FieldKinds, Memory>
    ensures { IfOk result (λ copies. copies ≡ fields.now) }
{
    let mut copies = List::new(fields.allocator());
    for (number, name, kind) in fields.as_slice() {
        copies.push((*number, name.copy()?, kind.copy()?))?;
    }
    Ok(copies)
}

impl ListItem for Kind {
    fn copy_item(&self) -> Result<Kind, Memory> {
        self.copy()
    }
}
