//! Bytes of a stream that were read ahead of the records taken.
//!
//! What is left moves to the front before more is added, so that the buffer holds a piece and a frame.

ghost use Rattle.std.specs.Prelude.{◌≡◌, ◌≤◌, ◌++◌, [], drop, length, OnOk};
ghost use Rattle.lt_pump.specs.Reads.{left_of};

use lt_core::Memory;
use std::alloc::Global;

/// Bytes, of which those up to a place were taken.
#[derive(Debug, Drop)]
pub struct Ahead {
    bytes: Vec<u8>,
    at: usize,
}

impl Ahead {
    pub fn new(alloc: Global) -> Ahead
        ensures { left_of result ≡ [] }
    {
        Ahead {
            bytes: Vec::new(alloc),
            at: 0,
        }
    }

    pub fn allocator(&self) -> Global {
        *self.bytes.allocator()
    }

    /// What is left of the bytes.
    pub fn left(&self) -> &[u8]
        ensures { result.now ≡ left_of self.now }
    {
        let (_, left) = self
            .bytes
            .as_slice()
            .split_at(self.at.min(self.bytes.len()));
        left
    }

    /// Lets the first bytes go.
    pub fn skip(&mut self, count: usize)
        requires { count ≤ length (left_of self.old) }
        ensures { left_of self.new ≡ drop count (left_of self.old) }
    {
        self.at = self.at.min(self.bytes.len()) + count;
    }

    /// Adds bytes behind those that are left.
    pub fn add(&mut self, bytes: &[u8]) -> Result<(), Memory>
        ensures { OnOk result (left_of self.new ≡ left_of self.old ++ bytes.now) }
    {
        if self.at > 0 {
            self.bytes = Vec::from_slice(self.allocator(), self.left())?;
            self.at = 0;
        }
        self.bytes.extend_from_slice(bytes)?;
        Ok(())
    }
}
