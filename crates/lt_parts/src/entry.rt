//! One partition. Copying it takes time linear in its low bound.

ghost use Rattle.std.specs.Prelude.{◌≡◌, IfOk};

use lt_core::{KeyBytes, Memory, Ts};

/// A partition: where its keys begin, up to when it is durable, and its checkpoint.
#[derive(Debug, Drop)]
pub struct PartEntry {
    pub low: KeyBytes,
    pub resume: Ts,
    pub checkpoint: Ts,
}

impl PartEntry {
    /// A copy equals what it copies.
    pub fn copy(&self) -> Result<PartEntry, Memory>
        ensures { IfOk result (λ entry. entry ≡ self.now) }
    {
        Ok(PartEntry {
            low: self.low.copy()?,
            resume: self.resume,
            checkpoint: self.checkpoint,
        })
    }
}
