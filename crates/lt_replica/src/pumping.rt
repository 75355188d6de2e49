//! The command that pumps a stream.

ghost use Rattle.std.specs.Prelude.{◌≡◌, ◌<◌, ◌≤◌, ◌++◌, ◌∷◌, ◌↔◌, [], List, None, IfErr, IfOk, IfSome, IsErrOf, OnErr, OnOk, length, map as mapped, slice_get, zip};
ghost use Rattle.lt_world.specs.Disk.{Rose};
ghost use Rattle.lt_parts.specs.Parts.{AreParts, ranges};
ghost use Rattle.lt_pending.specs.Held.{held_in};
ghost use Rattle.lt_world.specs.Feed.{FeedGoes};
ghost use Rattle.lt_pump.specs.Given.{AreAllBehind, AreSubscriptions};
ghost use Rattle.lt_pump.specs.Pumps.{HasPumped, HasPumpedSome, streams_of};
ghost use Rattle.lt_pump.specs.View.{view_pumped, view_subscription};
ghost use Rattle.lt_reply.specs.View.{view_reply};
ghost use Rattle.lt_replica.specs.State.{memory_of};
ghost use Rattle.lt_replica.specs.Steps.{PumpFails, HasTaken, Stays};
ghost use Rattle.lt_replica.specs.Pumping.{KeepsParts, KeepsStore};

use crate::delivery::Delivery;
use crate::ranges::{range_of, settle};
use crate::replica::Replica;
use lt_core::Memory;
use lt_io::Feed;
use lt_parts::PartMap;
use lt_pending::Changes;
use lt_pump::{Pump, PumpFault, Pumped, Subscription, Subscriptions};
use lt_reply::{Refusal, Reply};
use lt_schema::Catalogue;
use std::mem;

impl Replica {
    /// Takes at most so many records of a stream, and gives their changes to the partitions of their keys. After a fault it stands behind
    /// the records taken.
    pub(crate) fn take<F: Feed>(
        &mut self,
        stream: u32,
        count: u64,
        feed: &mut F,
    ) -> Result<Reply, Refusal>
        requires known { length (streams_of self.old.pump) ≤ (F.state feed.old).known }
        ensures pumped { IfOk result (HasTaken (F.state feed.new).told self.old self.new stream count) }
        ensures called { OnOk result (0 < count → Rose (F.state feed.old).calls (F.state feed.new).calls) }
        ensures refused { IfErr result (PumpFails (F.state feed.old) (F.state feed.new) self.old self.new stream
            count) }
        ensures kept { OnOk result ((F.state feed.new).faults ≡ (F.state feed.old).faults) }
        ensures streams { length (streams_of self.new.pump) ≡ length (streams_of self.old.pump) }
        ensures keeps { KeepsStore self.old self.new }
        ensures feed { FeedGoes (F.state feed.old) (F.state feed.new) }
    {
        let subs = self.subscriptions()?;
        match self.take_into(stream, count, feed, &subs) {
            Ok(pumped) => Ok(reply_of(stream, pumped)),
            Err(PumpFault::NoStream) => Err(Refusal::NoStream { stream }),
            Err(PumpFault::Feed) => Err(Refusal::FeedFault),
            Err(PumpFault::Memory) => Err(Refusal::Memory),
        }
    }

    /// Takes records of a stream, and gives their changes to the partitions. Their checkpoints follow.
    fn take_into<F: Feed>(
        &mut self,
        stream: u32,
        count: u64,
        feed: &mut F,
        subs: &Subscriptions,
    ) -> Result<Pumped, PumpFault>
        requires known { length (streams_of self.old.pump) ≤ (F.state feed.old).known }
        requires subs { mapped view_subscription subs.now ≡ zip (ranges self.old.map)
            (mapped (λ e. e.resume) self.old.map) }
        requires lawful { AreParts self.old.map }
        ensures pumped { IfOk result (HasPumped (F.state feed.new).told self.old.catalogue stream count
            (mapped view_subscription subs.now) (streams_of self.old.pump) (streams_of self.new.pump)
            (memory_of self.old) (memory_of self.new)) }
        ensures some { stream < length (streams_of self.old.pump)
            → OnErr result (HasPumpedSome (F.state feed.new).told self.old.catalogue stream count
            (mapped view_subscription subs.now) (streams_of self.old.pump) (streams_of self.new.pump)
            (memory_of self.old) (memory_of self.new)) }
        ensures stays { KeepsParts self.old self.new }
        ensures keeps { KeepsStore self.old self.new }
        ensures streams { length (streams_of self.new.pump) ≡ length (streams_of self.old.pump) }
        ensures no_stream { IsErrOf result PumpFault.NoStream ↔ (length (streams_of self.old.pump) ≤ stream) }
        ensures untouched { length (streams_of self.old.pump) ≤ stream → (feed.new ≡ feed.old)
            × Stays self.old self.new }
        ensures fault { IsErrOf result PumpFault.Feed → Rose (F.state feed.old).faults (F.state feed.new).faults }
        ensures kept { OnOk result ((F.state feed.new).faults ≡ (F.state feed.old).faults) }
        ensures lacks { IsErrOf result PumpFault.Memory → (F.state feed.new).faults ≡ (F.state feed.old).faults }
        ensures called { OnOk result (0 < count → Rose (F.state feed.old).calls (F.state feed.new).calls) }
        ensures feed { FeedGoes (F.state feed.old) (F.state feed.new) }
    {
        let pumped = pump_into(
            &mut self.pump,
            &self.catalogue,
            &mut self.parts,
            stream,
            count,
            feed,
            subs,
        );
        settle(&mut self.map, &self.pump);
        pumped
    }

    /// The keys of each partition, and up to when it is durable.
    fn subscriptions(&self) -> Result<Subscriptions, Memory>
        ensures subs { IfOk result (λ subs. mapped view_subscription subs ≡ zip (ranges self.now.map)
            (mapped (λ e. e.resume) self.now.map)) }
        ensures lawful { AreParts self.now.map }
    {
        let mut subs = Subscriptions::new(self.allocator());
        let count = self.map.len();
        for part in 0..count {
            add_subscription(&self.map, part, &mut subs)?;
        }
        Ok(subs)
    }
}

/// Takes records of a stream, and gives their changes to the partitions.
fn pump_into<F: Feed>(
    pump: &mut Pump,
    catalogue: &Catalogue,
    parts: &mut Vec<Changes>,
    stream: u32,
    count: u64,
    feed: &mut F,
    subs: &Subscriptions,
) -> Result<Pumped, PumpFault>
    requires known { length (streams_of pump.old) ≤ (F.state feed.old).known }
    requires subs { AreSubscriptions (mapped view_subscription subs.now) (mapped held_in parts.old.items) }
    requires behind { AreAllBehind (streams_of pump.old) (mapped held_in parts.old.items) }
    ensures pumped { IfOk result (HasPumped (F.state feed.new).told catalogue.now stream count
        (mapped view_subscription subs.now) (streams_of pump.old) (streams_of pump.new)
        (mapped held_in parts.old.items) (mapped held_in parts.new.items)) }
    ensures some { stream < length (streams_of pump.old)
        → OnErr result (HasPumpedSome (F.state feed.new).told catalogue.now stream count
        (mapped view_subscription subs.now) (streams_of pump.old) (streams_of pump.new)
        (mapped held_in parts.old.items) (mapped held_in parts.new.items)) }
    ensures behind { AreAllBehind (streams_of pump.new) (mapped held_in parts.new.items) }
    ensures streams { length (streams_of pump.new) ≡ length (streams_of pump.old) }
    ensures lists { length parts.new.items ≡ length parts.old.items }
    ensures no_stream { IsErrOf result PumpFault.NoStream ↔ (length (streams_of pump.old) ≤ stream) }
    ensures untouched { length (streams_of pump.old) ≤ stream → (feed.new ≡ feed.old)
        × (streams_of pump.new ≡ streams_of pump.old)
        × (mapped held_in parts.new.items ≡ mapped held_in parts.old.items) }
    ensures fault { IsErrOf result PumpFault.Feed → Rose (F.state feed.old).faults (F.state feed.new).faults }
    ensures kept { OnOk result ((F.state feed.new).faults ≡ (F.state feed.old).faults) }
    ensures lacks { IsErrOf result PumpFault.Memory → (F.state feed.new).faults ≡ (F.state feed.old).faults }
    ensures called { OnOk result (0 < count → Rose (F.state feed.old).calls (F.state feed.new).calls) }
    ensures feed { FeedGoes (F.state feed.old) (F.state feed.new) }
{
    let empty = Vec::new(*parts.allocator());
    let mut to = Delivery {
        catalogue,
        parts: mem::replace(parts, empty),
    };
    let pumped = pump.pump(feed, catalogue, stream, count, subs, &mut to);
    *parts = to.parts;
    pumped
}

/// Adds the keys of a partition, and up to when it is durable.
fn add_subscription(map: &PartMap, part: usize, subs: &mut Subscriptions) -> Result<(), Memory>
    requires { part < length map.now }
    ensures { OnOk result (IfSome (slice_get (zip (ranges map.now) (mapped (λ e. e.resume) map.now)) part)
        (λ s. mapped view_subscription subs.new ≡ mapped view_subscription subs.old ++ s ∷ [])) }
{
    let Some(entry) = map.get(part) else {
        return Ok(());
    };
    let range = range_of(map, part, entry)?;
    subs.push(Subscription {
        range,
        from: entry.resume,
    })
}

fn reply_of(stream: u32, pumped: Pumped) -> Reply
    ensures { view_reply result ≡ view_pumped stream pumped }
{
    Reply::Pump {
        stream,
        records: pumped.records,
        offset: pumped.offset,
        checkpoint: pumped.checkpoint,
        stop: pumped.stop,
    }
}
