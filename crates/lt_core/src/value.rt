//! Values, and the lists of values that changes and rows have. Copying takes time linear in what is copied.

ghost use Rattle.std.specs.Prelude.{◌≡◌, IfOk};

use crate::list::{List, ListItem};
use crate::memory::Memory;
use crate::text::Text;

/// Some bytes.
pub type Blob = List<u8>;

/// A value. Those of changes nest at most 4 deep.
#[derive(Debug, Drop)]
pub enum Value {
    Null,
    Bool(bool),
    Int(i64),
    Text(Text),
    Bytes(Blob),
    Struct(Fields),
}

/// The fields of a struct, by number.
pub type Fields = List<(u16, Value)>;

/// The columns that a change sets, by number.
pub type Settings = List<(u16, Value)>;

/// The values of a row, in the order of its columns.
pub type Row = List<Value>;

impl Value {
    /// A copy equals what it copies.
    #[cycle(copy)]
    pub fn copy(&self) -> Result<Value, Memory>
        ensures { IfOk result (λ value. value ≡ self.now) }
    {
        match self {
            Value::Null => Ok(Value::Null),
            Value::Bool(truth) => Ok(Value::Bool(*truth)),
            Value::Int(number) => Ok(Value::Int(*number)),
            Value::Text(text) => Ok(Value::Text(text.copy()?)),
            Value::Bytes(bytes) => Ok(Value::Bytes(bytes.copy()?)),
            Value::Struct(fields) => Ok(Value::Struct(copy_fields(fields)?)),
        }
    }
}

/// The copies of a struct's fields: `copy` of a list, spelled out where the recursion goes through it.
#[cycle(copy)]
fn copy_fields(fields: &Fields) -> Result<Fields, Memory>
    ensures { IfOk result (λ copies. copies ≡ fields.now) }
{
    let mut copies = List::new(fields.allocator());
    for (number, value) in fields.as_slice() {
        copies.push((*number, value.copy()?))?;
    }
    Ok(copies)
}

impl ListItem for Value {
    fn copy_item(&self) -> Result<Value, Memory> {
        self.copy()
    }
}
