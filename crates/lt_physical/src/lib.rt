//! Values as leaves: the layouts of a table's columns, and a row's cells under one.
#![tactic(auto)]

mod cells;
mod layouts;
mod leaves;
mod values;

pub use cells::flatten;
pub use layouts::{carrier_layout, version_layout};
pub use values::unflatten;
