//! Values at other kinds: what a version reads of a value that another version set.
//!
//! Converting takes time linear in the value, and for a struct the product of its fields and those of the kind; nothing is copied that the
//! kind drops. Recursion goes as deep as the kind's structs nest.
#![tactic(auto)]

mod conversion;
mod number;
mod primitive;

pub use conversion::convert;
