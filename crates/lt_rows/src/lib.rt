//! Rows at a moment: what the changes up to a timestamp make of a table, as one of its versions reads it.
//!
//! All changes are gone over once. One that counts takes time by the logarithm of the rows, and each of its settings by that of the
//! columns, so a key that many updates set takes no more than their settings do. Reading a row takes a logarithm for each column. Beside
//! that, keys are copied and values converted; the changes themselves are borrowed.
#![tactic(auto)]

mod present;
mod reading;
mod rows;

pub use rows::rows_at;
