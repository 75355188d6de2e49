//! A feed in memory. A read takes time by what it gives.

ghost use Rattle.std.specs.Prelude.{◌≡◌, ◌+◌, ◌<◌, ◌≤◌, ◌++◌, ◌∷◌, ◌^◌, [], Some, length, map, slice_set, is_err, IfOk, OnOk, OnErr};
ghost use Rattle.lt_world.specs.Feed.{stream_bytes};
ghost use Rattle.lt_world.specs.Feed.{FeedCalled, FeedReads};
ghost use Rattle.lt_io.specs.Plan.{no_plan, listing, GoesByPlan, FailsOnly};

use crate::calls::Calls;
use crate::faults::FeedFault;
use crate::feed::Feed;
use crate::mem_source::copy_front;
use lt_core::{Blob, Memory};
use std::alloc::Global;

/// A feed to which streams and bytes are added by calls of its own.
#[derive(Debug, Drop)]
pub struct MemFeed {
    streams: Vec<Vec<u8>>,
    calls: Calls,
    ghost few: { length streams.items < 2 ^ 32 },
    pub ghost fails_only: { FailsOnly calls 0 },
}

impl MemFeed {
    ghost use Rattle.lt_io.specs.Memory.{feed_streams, feed_plan};

    /// A feed with no streams.
    pub fn new(alloc: Global) -> MemFeed
        ensures streams { feed_streams result ≡ [] }
        ensures plan { feed_plan result ≡ no_plan }
    {
        MemFeed {
            streams: Vec::new(alloc),
            calls: Calls::new(alloc),
        }
    }

    /// Lists further calls that are to fail, by their numbers from 1 over all calls since the feed was made.
    pub fn fail(&mut self, calls: &[u64]) -> Result<(), Memory>
        ensures ok { OnOk result (feed_plan self.new ≡ listing (feed_plan self.old) calls.now) }
        ensures err { OnErr result (feed_plan self.new ≡ feed_plan self.old) }
        ensures streams { feed_streams self.new ≡ feed_streams self.old }
    {
        self.calls.list(calls)
    }

    /// Adds a stream behind the others. An `Err` changes nothing.
    pub fn add_stream(&mut self, bytes: Blob) -> Result<(), Memory>
        ensures ok { OnOk result (feed_streams self.new ≡ feed_streams self.old ++ bytes ∷ []) }
        ensures err { OnErr result (feed_streams self.new ≡ feed_streams self.old) }
        ensures plan { feed_plan self.new ≡ feed_plan self.old }
    {
        if self.streams.len() >= u32::MAX as usize {
            return Err(Memory);
        }
        let stream = Vec::from_slice(bytes.allocator(), bytes.as_slice())?;
        self.streams.push(stream)?;
        Ok(())
    }

    /// Adds bytes to a stream. An `Err` changes nothing.
    pub fn append(&mut self, stream: u32, bytes: &[u8]) -> Result<(), Memory>
        requires { stream < length (feed_streams self.old) }
        ensures ok { OnOk result (feed_streams self.new ≡ slice_set (feed_streams self.old) stream
            (stream_bytes (feed_streams self.old) stream ++ bytes.now)) }
        ensures err { OnErr result (feed_streams self.new ≡ feed_streams self.old) }
        ensures plan { feed_plan self.new ≡ feed_plan self.old }
    {
        self.streams[stream as usize].extend_from_slice(bytes)?;
        Ok(())
    }

    #[tactic(auto, using(crate::proofs::Streams::stream_at))]
    fn stream(&self, stream: u32) -> &[u8]
        requires { stream < length (feed_streams self.now) }
        ensures value { result.now ≡ stream_bytes (feed_streams self.now) stream }
        ensures short { length result.now < 2 ^ 63 }
    {
        self.streams[stream as usize].as_slice()
    }
}

impl Feed for MemFeed {
    ghost use Rattle.std.specs.Prelude.{refl};
    ghost use Rattle.lt_io.specs.Memory.{feed_streams, feed_plan, feed_state, are_short};

    ghost state = { feed_state };

    fn streams(&mut self) -> Result<u32, FeedFault>
        ensures number { IfOk result (λ n. n ≡ length (feed_streams self.new)) }
        ensures called { FeedCalled (feed_state self.old) (feed_state self.new) result }
        ensures plan { GoesByPlan (feed_plan self.old) (feed_plan self.new) (is_err result) }
        ensures same { feed_streams self.new ≡ feed_streams self.old }
    {
        if self.calls.next_fails() {
            return Err(FeedFault);
        }
        Ok(self.streams.len() as u32)
    }

    #[tactic(auto, using(crate::proofs::Streams::stream_read))]
    fn read_at(&mut self, stream: u32, offset: u64, buf: &mut [u8]) -> Result<usize, FeedFault>
        requires stream { stream < length (feed_streams self.old) }
        requires room { 0 < length buf.old }
        ensures bound { IfOk result (λ n. n ≤ length buf.new) }
        ensures place { IfOk result (λ n. 0 < n → offset + n < 2 ^ 63) }
        ensures bytes { IfOk result (λ n. FeedReads (Some (feed_streams self.new)) stream offset buf.new n) }
        ensures called { FeedCalled (feed_state self.old) (feed_state self.new) result }
        ensures plan { GoesByPlan (feed_plan self.old) (feed_plan self.new) (is_err result) }
        ensures same { feed_streams self.new ≡ feed_streams self.old }
    {
        if self.calls.next_fails() {
            return Err(FeedFault);
        }
        let bytes = self.stream(stream);
        let (_, rest) = bytes.split_at(bytes.len().min(offset as usize));
        Ok(copy_front(rest, buf))
    }

    ghost as_many = { λ _. refl };

    ghost short = { λ f. are_short f.streams.items };
}
