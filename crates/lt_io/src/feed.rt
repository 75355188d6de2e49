//! Streams of bytes, each of which only grows. They are numbered from 0.

ghost use Rattle.std.specs.Prelude.{◌≡◌, ◌+◌, ◌^◌, ◌<◌, ◌≤◌, length, IfOk, IfSome};
ghost use Rattle.lt_world.specs.Feed.{AreShort};
ghost use Rattle.lt_world.specs.Feed.{FeedCalled, FeedReads, FeedState};

use crate::faults::FeedFault;

/// Streams of bytes, each of which only grows.
pub trait Feed {
    /// What it tells of its streams, how many there are, how often it failed, and how often it was called.
    ghost state: { Self → FeedState };

    /// How many streams there are.
    fn streams(&mut self) -> Result<u32, FeedFault>
        ensures number { IfOk result (λ n. n ≡ (state self.new).known) }
        ensures called { FeedCalled (state self.old) (state self.new) result };

    /// Reads bytes of a stream into the front of the buffer, and tells how many: none exactly where it has none at the
    /// offset now. It gives none past the place 2^63 - 1.
    fn read_at(&mut self, stream: u32, offset: u64, buf: &mut [u8]) -> Result<usize, FeedFault>
        requires stream { stream < (state self.old).known }
        requires room { 0 < length buf.old }
        ensures bound { IfOk result (λ n. n ≤ length buf.new) }
        ensures place { IfOk result (λ n. 0 < n → offset + n < 2 ^ 63) }
        ensures bytes { IfOk result (λ n. FeedReads (state self.new).told stream offset buf.new n) }
        ensures called { FeedCalled (state self.old) (state self.new) result };

    /// As many streams are told as are known.
    ghost as_many: { (feed : Self) → IfSome (state feed).told (λ streams. length streams ≡ (state feed).known) };

    /// No stream has more than 2^63 - 1 bytes.
    ghost short: { (feed : Self) → IfSome (state feed).told AreShort };
}
