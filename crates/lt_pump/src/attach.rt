//! How a pump is made: whether the feed's streams begin with headers that tile the keys.
//!
//! Of each stream pieces of 64 KiB are zeroed and read until its first frame stands whole: one where it is a header and the feed gives it
//! at once, and 17 at most where the feed fills them. So it takes time by the number of streams, of which there are at most 64.

ghost use Rattle.std.specs.Prelude.{◌≡◌, ◌+◌, ◌<◌, ◌≤◌, ◌↔◌, IfErr, IfOk, IfSome, IsErrOf, OnOk, Some, length, true};
ghost use Rattle.std.specs.Option.{option_copied};
ghost use Rattle.lt_world.specs.Disk.{Rose};
ghost use Rattle.lt_world.specs.Feed.{Feed as Streams};
ghost use Rattle.lt_tables.specs.Pump.{IsKeptLow, count_mismatch};
ghost use Rattle.lt_world.specs.Feed.{FeedGoes};
ghost use Rattle.lt_pump.specs.Headers.{Begins, Fits, IsFramed};
ghost use Rattle.lt_pump.specs.Pumps.{AttachRefused, HasAttached, refusal_of, streams_of};
ghost use Rattle.lt_pump.specs.declared.refusal.AttachRefusal.TheVariants as refusals;
ghost use Rattle.lt_records.specs.View.{view_header};

use crate::ahead::Ahead;
use crate::position::Position;
use crate::pump::Pump;
use crate::reading::{Fault, find};
use crate::refusal::AttachRefusal;
use crate::subscription::Lows;
use lt_core::{KeyBytes, Memory};
use lt_io::{Feed, FeedFault};
use lt_records::{Found, LogRecord, StreamHeader};
use std::alloc::{AllocError, AllocFailed, Global};

/// As many streams a feed may have.
const MAX_STREAMS: u32 = 64;

impl From<FeedFault> for AttachRefusal {
    ghost from_gives = { λ _ e. e ≡ refusals.Feed };

    fn from(_: FeedFault) -> Self {
        AttachRefusal::Feed
    }
}

impl From<AllocError> for AttachRefusal {
    ghost from_gives = { λ _ e. e ≡ refusals.Memory };

    fn from(_: AllocError) -> Self {
        AttachRefusal::Memory
    }
}

impl<T: Drop> From<AllocFailed<T>> for AttachRefusal {
    ghost from_gives = { λ _ e. e ≡ refusals.Memory };

    fn from(_: AllocFailed<T>) -> Self {
        AttachRefusal::Memory
    }
}

impl From<Memory> for AttachRefusal {
    ghost from_gives = { λ _ e. e ≡ refusals.Memory };

    fn from(_: Memory) -> Self {
        AttachRefusal::Memory
    }
}

impl From<Fault> for AttachRefusal {
    ghost from_gives = { λ fault e. e ≡ refusal_of fault };

    fn from(fault: Fault) -> Self {
        match fault {
            Fault::Feed => AttachRefusal::Feed,
            Fault::Memory => AttachRefusal::Memory,
        }
    }
}

impl Pump {
    /// Each stream of a feed behind its header; `kept` are the low bounds that a store keeps of them.
    pub fn attach<F: Feed>(
        alloc: Global,
        feed: &mut F,
        kept: Option<&Lows>,
    ) -> Result<Pump, AttachRefusal>
        ensures attached { IfOk result (λ pump. HasAttached (F.state feed.new).told (option_copied kept.entry)
            (streams_of pump)) }
        ensures known { IfOk result (λ pump. length (streams_of pump) ≤ (F.state feed.new).known) }
        ensures refused { IfErr result (AttachRefused (F.state feed.new).told (option_copied kept.entry)
            (F.state feed.old).faults (F.state feed.new).faults) }
        ensures faults { OnOk result ((F.state feed.new).faults ≡ (F.state feed.old).faults) }
        ensures called { OnOk result (Rose (F.state feed.old).calls (F.state feed.new).calls) }
        ensures feed { FeedGoes (F.state feed.old) (F.state feed.new) }
    {
        let count = feed.streams()?;
        if let Some(stream) = unfit_number(count, kept) {
            return Err(AttachRefusal::Mismatch { stream });
        }
        let mut positions = Vec::new(alloc);
        let mut lows = Lows::new(alloc);
        let mut bound = Some(KeyBytes::new(alloc));
        for stream in 0..count {
            let Some((header, length)) = header_of(alloc, stream, feed)? else {
                return Err(AttachRefusal::Mismatch { stream });
            };
            if !goes_on(&header, stream, count, &bound, kept) {
                return Err(AttachRefusal::Mismatch { stream });
            }
            bound = copy_bound(&header.range.high)?;
            lows.push(header.range.low.copy()?)?;
            positions.push(Position::behind(header, length))?;
        }
        Ok(Pump::of(positions, lows))
    }
}

/// What a number of streams is refused by, if it is: none or more than 64, or another than was kept.
fn unfit_number(count: u32, kept: Option<&Lows>) -> Option<u32>
    ensures { (f : Streams) → length f ≡ count → result ≡ count_mismatch f (option_copied kept.entry) }
{
    if count == 0 {
        return Some(0);
    }
    if count > MAX_STREAMS {
        return Some(MAX_STREAMS);
    }
    let lows = kept?;
    if lows.len() == count as usize {
        return None;
    }
    Some(lows.len().min(count as usize) as u32)
}

/// The header that a stream begins with, and the length of its frame; none where no header stands there.
fn header_of<F: Feed>(
    alloc: Global,
    stream: u32,
    feed: &mut F,
) -> Result<Option<(StreamHeader, usize)>, Fault>
    requires { stream < (F.state feed.old).known }
    ensures begins { IfOk result (λ o. IfSome (F.state feed.new).told (λ f. Begins f stream o)) }
    ensures frame { IfOk result (λ o. IfSome o (λ x. IsFramed x)) }
    ensures fault { IsErrOf result Fault.Feed → Rose (F.state feed.old).faults (F.state feed.new).faults }
    ensures kept { OnOk result ((F.state feed.new).faults ≡ (F.state feed.old).faults) }
    ensures lacks { IsErrOf result Fault.Memory → (F.state feed.new).faults ≡ (F.state feed.old).faults }
    ensures feed { FeedGoes (F.state feed.old) (F.state feed.new) }
{
    let mut ahead = Ahead::new(alloc);
    match find(stream, 0, &mut ahead, feed)? {
        Found::Whole { item, length } => match item {
            LogRecord::Header(header) => Ok(Some((header, length))),
            _ => Ok(None),
        },
        _ => Ok(None),
    }
}

/// Whether a header is that of its stream: it begins where the stream before it ends and where it did, and only the last has no end.
fn goes_on(
    header: &StreamHeader,
    stream: u32,
    count: u32,
    bound: &Option<KeyBytes>,
    kept: Option<&Lows>,
) -> bool
    requires { stream < count }
    ensures { (f : Streams) → length f ≡ count
        → (result ≡ true) ↔ Fits f (option_copied kept.entry) stream bound.now (view_header header.now) }
{
    let low = &header.range.low;
    header.stream == stream
        && is_bound(bound, low)
        && is_kept(kept, stream, low)
        && header.range.high.is_none() == (stream + 1 == count)
}

fn is_bound(bound: &Option<KeyBytes>, low: &KeyBytes) -> bool
    ensures { (result ≡ true) ↔ (bound.now ≡ Some low.now) }
{
    match bound {
        None => false,
        Some(bound) => bound.as_slice() == low.as_slice(),
    }
}

fn is_kept(kept: Option<&Lows>, stream: u32, low: &KeyBytes) -> bool
    ensures { (result ≡ true) ↔ IsKeptLow (option_copied kept.entry) stream low.now }
{
    let Some(lows) = kept else {
        return true;
    };
    match lows.get(stream as usize) {
        None => false,
        Some(kept) => kept.as_slice() == low.as_slice(),
    }
}

fn copy_bound(bound: &Option<KeyBytes>) -> Result<Option<KeyBytes>, Memory>
    ensures { IfOk result (λ copy. copy ≡ bound.now) }
{
    match bound {
        None => Ok(None),
        Some(bound) => Ok(Some(bound.copy()?)),
    }
}
