//! Literals.

ghost use Rattle.std.specs.Prelude.{◌≡◌, IfOk};

use lt_core::{List, ListItem, Memory, Text};

/// A value as it is written in a query or a key: nothing, a truth value, a whole number within 64 signed bits, or a text.
#[derive(Debug, Drop)]
pub enum Literal {
    Null,
    Bool(bool),
    Int(i64),
    Text(Text),
}

/// Literals, in the order of the key's columns that they stand for.
pub type Literals = List<Literal>;

impl Literal {
    /// A copy equals what it copies.
    pub fn copy(&self) -> Result<Literal, Memory>
        ensures { IfOk result (λ literal. literal ≡ self.now) }
    {
        match self {
            Literal::Null => Ok(Literal::Null),
            Literal::Bool(truth) => Ok(Literal::Bool(*truth)),
            Literal::Int(number) => Ok(Literal::Int(*number)),
            Literal::Text(text) => Ok(Literal::Text(text.copy()?)),
        }
    }
}

impl ListItem for Literal {
    fn copy_item(&self) -> Result<Literal, Memory> {
        self.copy()
    }
}
