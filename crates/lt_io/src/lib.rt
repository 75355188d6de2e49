//! The outside but for the disk: bytes that come in, bytes that go out, and a feed of streams that only grow.
//!
//! Each is a trait with a count of faults that never falls: a call answers its fault only where the count rose in it, and a
//! call that succeeds leaves it. What an object holds is told by the ones in memory, and not by the adapters.
#![tactic(auto)]

mod calls;
mod faults;
mod feed;
mod file_feed;
mod mem_feed;
mod mem_sink;
mod mem_source;
mod sink;
mod source;
mod standard;

pub use faults::{FeedFault, ReadFault, WriteFault};
pub use feed::Feed;
pub use file_feed::FileFeed;
pub use mem_feed::MemFeed;
pub use mem_sink::MemSink;
pub use mem_source::MemSource;
pub use sink::Sink;
pub use source::Source;
pub use standard::{StdSink, StdSource};
