//! The catalogue of lawful schema versions.
#![tactic(auto)]

mod adding;
mod carrier;
mod catalogue;
mod lookup;
mod refusal;
mod shape;
mod table;
mod tables;
mod version;

pub use catalogue::Catalogue;
pub use lookup::column_of;
pub use refusal::{RetireRefusal, SchemaRefusal};
pub use shape::{fits_32, fits_64, has_rank, has_shape, have_shapes, is_utf8};
pub use table::{Registered, Table};
pub use version::{Column, Columns, KeyColumn, KeyColumns, SchemaVersion};
