//! What a store is asked for.
#![tactic(auto)]

mod command;

pub use command::{Command, Mode, Query};
pub use lt_core::{Blob, Ids, Text};
pub use lt_pred::{Literals, NameList, Pred};
