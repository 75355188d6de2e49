//! What a check keeps of the records that were taken. Copying it takes time linear in its keys.

ghost use Rattle.std.specs.Prelude.{◌≡◌, IfOk};

use lt_core::{KeyBytes, List, Memory, Ts};

/// Keys, each with the timestamp of its last change. Those of a check rise.
pub type Window = List<(KeyBytes, Ts)>;

/// What a check keeps.
#[derive(Debug, Drop)]
pub struct Point {
    /// The last checkpoint, or where the stream begins.
    pub checkpoint: Ts,
    /// The greatest timestamp of a change, or 0.
    pub greatest: Ts,
    /// The keys with a change above the checkpoint.
    pub window: Window,
}

impl Point {
    /// A copy equals what it copies.
    pub fn copy(&self) -> Result<Point, Memory>
        ensures { IfOk result (λ point. point ≡ self.now) }
    {
        Ok(Point {
            checkpoint: self.checkpoint,
            greatest: self.greatest,
            window: self.window.copy()?,
        })
    }
}
