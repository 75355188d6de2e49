//! What a query asks of rows, and the literals that queries and keys are written with.
//!
//! Copying takes time linear in what is copied; of a predicate it goes as deep as it nests.
#![tactic(auto)]

mod literal;
mod pred;

pub use literal::{Literal, Literals};
pub use lt_core::{List, Memory, Text};
pub use lt_terms::CmpOp;
pub use pred::{NameList, Pred};
pub use sqlite_items::Boxed;
