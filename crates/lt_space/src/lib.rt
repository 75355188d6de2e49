//! The space of a store file: which extents of it are taken, and where a gap is.
//!
//! `Space` keeps the taken extents in order of their places. No two of them meet, and none meets the root slots or the limit.
#![tactic(auto)]

mod gaps;
mod misplaced;
mod refusal;
mod space;
mod taken;

pub use lt_terms::Extent;
pub use refusal::SpaceRefusal;
pub use space::Space;

/// Where the first extent may stand: behind the two root slots.
const FIRST: u64 = 1024;
