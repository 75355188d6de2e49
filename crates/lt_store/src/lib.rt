//! The store file: made, opened, and led from one state to the next. The pieces of a delta are written to its space before the commit that
//! names them; nothing else above this crate writes to the file.
//!
//! A store knows its root and what is taken of the file. Opening it takes time linear in what it reads, and a sort of the extents.
//! A commit takes time linear in the manifest, and moves the extents that stand behind the one that it takes.
#![tactic(auto)]

mod committing;
mod covering;
mod extents;
mod indexes;
mod making;
mod manifests;
mod opening;
mod refusal;
mod store;

pub use committing::CommitRefusal;
pub use making::{MakeRefusal, make, test_vacant};
pub use opening::{Opened, open};
pub use refusal::OpenRefusal;
pub use store::Store;
