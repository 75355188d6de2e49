//! The streams of a feed, each with the place behind the records that were taken of it.

ghost use Rattle.std.specs.Prelude.{◌≡◌, ◌≤◌, IsTrue, length, map};
ghost use Rattle.lt_terms.specs.Key.{ranges_from, tile};
ghost use Rattle.lt_pump.specs.Positions.{are_streams, low_of, range_of, stream_of};

use crate::deliver::Deliver;
use crate::position::Position;
use crate::reading::Fault;
use crate::refusal::PumpFault;
use crate::stop::Pumped;
use crate::subscription::{Lows, Subscriptions};
use lt_core::{Memory, Ts};
use lt_fair::Point;
use lt_io::Feed;
use lt_schema::Catalogue;

/// Where each stream of a feed stands, by number. There are 1 to 64, and their ranges tile the keys.
#[derive(Debug, Drop)]
pub struct Pump {
    positions: Vec<Position>,
    lows: Lows,
    pub ghost streams: { IsTrue (are_streams 0 (map stream_of positions.items)) },
    pub ghost bounds: { lows ≡ map low_of (map stream_of positions.items) },
    pub ghost tiles: { IsTrue (tile lows) },
    pub ghost ranges: { map range_of (map stream_of positions.items) ≡ ranges_from lows },
    pub ghost some: { 1 ≤ length positions.items },
    pub ghost few: { length positions.items ≤ 64 },
}

impl Pump {
    ghost use Rattle.std.specs.Prelude.{◌<◌, ◌↔◌, IfOk, IfSome, IsErrOf, OnErr, OnOk, slice_get, slice_set};
    ghost use Rattle.lt_tables.specs.Schema.{change_at};
    ghost use Rattle.lt_pump.specs.Positions.{started};
    ghost use Rattle.lt_world.specs.Disk.{Rose};
    ghost use Rattle.lt_fair.specs.View.{view_point};
    ghost use Rattle.lt_world.specs.Feed.{FeedGoes};
    ghost use Rattle.lt_pump.specs.Given.{AreAllBehind, AreBehind, AreSubscriptions};
    ghost use Rattle.lt_pump.specs.Pumps.{HasPumped, HasPumpedSome, OthersStay, streams_of};
    ghost use Rattle.lt_pump.specs.View.{view_subscription};

    /// Streams that stand so, with their low bounds.
    pub(crate) fn of(positions: Vec<Position>, lows: Lows) -> Pump
        requires streams { IsTrue (are_streams 0 (map stream_of positions.items)) }
        requires bounds { lows ≡ map low_of (map stream_of positions.items) }
        requires tiles { IsTrue (tile lows) }
        requires ranges { map range_of (map stream_of positions.items) ≡ ranges_from lows }
        requires some { 1 ≤ length positions.items }
        requires few { length positions.items ≤ 64 }
        ensures { streams_of result ≡ map stream_of positions.items }
    {
        Pump { positions, lows }
    }

    /// Takes at most `n` records of a stream that are whole and fair, and hands each change to the subscription of its key. After
    /// an `Err` the stream stands behind the last record taken.
    pub fn pump<F: Feed, V: Deliver>(
        &mut self,
        feed: &mut F,
        cat: &Catalogue,
        stream: u32,
        n: u64,
        subs: &Subscriptions,
        to: &mut V,
    ) -> Result<Pumped, PumpFault>
        requires known { length (streams_of self.old) ≤ (F.state feed.old).known }
        requires subs { AreSubscriptions (map view_subscription subs.now) (V.held to.old) }
        requires catalogue { cat.now ≡ V.catalogue to.old }
        requires behind { IfSome (slice_get (streams_of self.old) stream) (λ a. AreBehind a (V.held to.old)) }
        ensures pumped { IfOk result (HasPumped (F.state feed.new).told cat.now stream n
            (map view_subscription subs.now) (streams_of self.old) (streams_of self.new) (V.held to.old)
            (V.held to.new)) }

        // After a fault the stream stands behind the last record taken.
        ensures some { stream < length (streams_of self.old)
            → OnErr result (HasPumpedSome (F.state feed.new).told cat.now stream n
            (map view_subscription subs.now) (streams_of self.old) (streams_of self.new) (V.held to.old)
            (V.held to.new)) }

        // What the next call needs, of this stream or of another.
        ensures behind { IfSome (slice_get (streams_of self.new) stream) (λ a. AreBehind a (V.held to.new)) }
        ensures others { OthersStay (streams_of self.old) stream (V.held to.old) (V.held to.new) }
        ensures all { AreAllBehind (streams_of self.old) (V.held to.old)
            → AreAllBehind (streams_of self.new) (V.held to.new) }
        ensures streams { length (streams_of self.new) ≡ length (streams_of self.old) }
        ensures lists { length (V.held to.new) ≡ length (V.held to.old) }
        ensures catalogue { V.catalogue to.new ≡ V.catalogue to.old }

        // A stream that is not known leaves all as it was.
        ensures no_stream { IsErrOf result PumpFault.NoStream ↔ (length (streams_of self.old) ≤ stream) }
        ensures untouched { length (streams_of self.old) ≤ stream → (streams_of self.new ≡ streams_of self.old)
            × (feed.new ≡ feed.old) × (to.new ≡ to.old) }

        // The feed, and the cause of its fault.
        ensures fault { IsErrOf result PumpFault.Feed → Rose (F.state feed.old).faults (F.state feed.new).faults }
        ensures kept { OnOk result ((F.state feed.new).faults ≡ (F.state feed.old).faults) }
        ensures lacks { IsErrOf result PumpFault.Memory → (F.state feed.new).faults ≡ (F.state feed.old).faults }
        ensures called { OnOk result (0 < n → Rose (F.state feed.old).calls (F.state feed.new).calls) }
        ensures feed { FeedGoes (F.state feed.old) (F.state feed.new) }
    {
        let Some(position) = self.positions.get_mut(stream as usize) else {
            return Err(PumpFault::NoStream);
        };
        match position.run(stream, n, feed, cat, subs, to) {
            Ok((records, stop)) => Ok(Pumped {
                records,
                offset: position.offset(),
                checkpoint: position.checkpoint(),
                stop,
            }),
            Err(Fault::Feed) => Err(PumpFault::Feed),
            Err(Fault::Memory) => Err(PumpFault::Memory),
        }
    }

    /// The low bound of each stream, by number.
    pub fn lows(&self) -> &Lows
        ensures { result.now ≡ map low_of (streams_of self.now) }
    {
        &self.lows
    }

    /// The last checkpoint of a stream, or 0.
    pub fn checkpoint(&self, stream: u32) -> Ts
        requires { stream < length (streams_of self.now) }
        ensures { IfSome (slice_get (streams_of self.now) stream) (λ a. result ≡ a.point.checkpoint) }
    {
        self.positions[stream as usize].checkpoint()
    }

    /// The place in a stream behind the records that were taken, in bytes.
    pub fn offset(&self, stream: u32) -> u64
        requires { stream < length (streams_of self.now) }
        ensures { IfSome (slice_get (streams_of self.now) stream) (λ a. result ≡ a.offset) }
    {
        self.positions[stream as usize].offset()
    }

    /// What the check of a stream keeps, as a copy.
    pub fn point(&self, stream: u32) -> Result<Point, Memory>
        requires { stream < length (streams_of self.now) }
        ensures { IfOk result (λ point. IfSome (slice_get (streams_of self.now) stream)
            (λ a. view_point point ≡ a.point)) }
    {
        self.positions[stream as usize].point()
    }

    /// Goes on with a stream at a place, from a point.
    pub fn start_at(&mut self, stream: u32, offset: u64, point: Point)
        requires { stream < length (streams_of self.old) }
        ensures { streams_of self.new ≡ change_at (started offset (view_point point)) stream (streams_of self.old) }
    {
        self.positions[stream as usize].start_at(offset, point);
    }
}
