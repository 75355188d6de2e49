//! Row versions: one change of a row in cells under a layout, two of them as one, and iterators over lists of them.
#![tactic(auto)]

mod list_versions;
mod row_version;
mod versions;

pub use list_versions::ListVersions;
pub use row_version::{RowVersion, compose};
pub use versions::{Head, Shape, Versions};
