//! The manifest of a store: what the store file holds, and where each delta's index stands.
//!
//! `write` gives the one spelling of a lawful manifest, and `read` gives the manifest that bytes spell. Both directions are
//! those of the store's grammar, which `lt_storage` has. Writing takes time linear in what is written. Reading takes time
//! linear in the bytes, besides what adding each schema version takes and the logarithm by which each delta's number is
//! looked up. Nothing is set aside for a count before its items stand in the bytes. The recursion goes down kinds and
//! defaults, which nest at most 4 deep.
#![tactic(auto)]

mod reading;
mod refusal;
mod stored;
mod writing;

pub use reading::read;
pub use refusal::ReadRefusal;
pub use stored::{
    DeltaStored, Deltas, Manifest, PartStored, Parts, Points, Stored, StreamEntry, Streams,
};
pub use writing::write;
