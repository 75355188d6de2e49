//! Predicates.

ghost use Rattle.std.specs.Prelude.{◌≡◌, IfOk};

use crate::literal::Literal;
use lt_core::{List, Memory, Text};
use lt_terms::CmpOp;
use sqlite_items::Boxed;
use std::alloc::Global;

/// Names of columns, in the order in which they are asked.
pub type NameList = List<Text>;

/// What is asked of a row. Columns are named.
#[derive(Debug, Drop)]
pub enum Pred {
    /// Each row meets it.
    All,
    And(Boxed<Pred>, Boxed<Pred>),
    Or(Boxed<Pred>, Boxed<Pred>),
    Not(Boxed<Pred>),
    /// The column is null.
    IsNull(Text),
    /// The column compares so with the literal.
    Cmp(CmpOp, Text, Literal),
}

impl Pred {
    /// A copy equals what it copies.
    #[cycle(copy)]
    pub fn copy(&self, alloc: Global) -> Result<Pred, Memory>
        ensures { IfOk result (λ pred. pred ≡ self.now) }
    {
        match self {
            Pred::All => Ok(Pred::All),
            Pred::And(left, right) => Ok(Pred::And(
                copy_boxed(alloc, left)?,
                copy_boxed(alloc, right)?,
            )),
            Pred::Or(left, right) => Ok(Pred::Or(
                copy_boxed(alloc, left)?,
                copy_boxed(alloc, right)?,
            )),
            Pred::Not(inner) => Ok(Pred::Not(copy_boxed(alloc, inner)?)),
            Pred::IsNull(name) => Ok(Pred::IsNull(name.copy()?)),
            Pred::Cmp(op, name, literal) => Ok(Pred::Cmp(*op, name.copy()?, literal.copy()?)),
        }
    }
}

/// A copy of a predicate within another one.
#[cycle(copy)]
fn copy_boxed(alloc: Global, pred: &Boxed<Pred>) -> Result<Boxed<Pred>, Memory>
    ensures { IfOk result (λ copy. copy ≡ pred.now) }
{
    let copy = pred.get().copy(alloc)?;
    Ok(Boxed::new(alloc, copy)?)
}
