//! Where a stream stands, and how it takes records: one after another, while they are whole and fair.
//!
//! A call puts the subscriptions in order once, and drops at its end what was read ahead. A change takes time by its bytes, and by
//! the logarithms of the number of subscriptions and of the keys that the check keeps; a checkpoint is only noted there. After a point
//! was handed in, each test goes over its window until a change is taken.

ghost use Rattle.std.specs.Prelude.{◌≡◌, ◌-◌, ◌+◌, ◌<◌, ◌≤◌, ◌^◌, ◌∷◌, [], IfNone, IfOk, IfSome, IsErrOf, IsTrue, None, OnErr, OnOk, Some, length, map, option_map, slice_get, unwrap_or};
ghost use Rattle.lt_terms.specs.declared.Format.TheVariants as format;
ghost use Rattle.lt_world.specs.Disk.{Rose};
ghost use Rattle.lt_tables.specs.Fair.{header_length};
ghost use Rattle.std.specs.List.{AllByRecursion};
ghost use Rattle.lt_terms.specs.Log.{change_item, change_key, changes_in, is_item, spelled};
ghost use Rattle.lt_tables.specs.Pump.{behind_header};
ghost use Rattle.lt_tables.specs.Pump.{holds_change, is_deliverable, put_change, without_change};
ghost use Rattle.lt_tables.specs.Schema.{change_at};
ghost use Rattle.lt_records.specs.View.{view_change, view_header, view_item};
ghost use Rattle.lt_fair.specs.View.{view_point, view_unfair};
ghost use Rattle.lt_world.specs.Feed.{FeedGoes};
ghost use Rattle.lt_pump.specs.Given.{AreBehind, AreSubscriptions, all_given};
ghost use Rattle.lt_pump.specs.Positions.{IsOther, Keeps, Ran, RanSome, Steps, breaks_there, stream_of, with_item};
ghost use Rattle.lt_pump.specs.Reads.{StandAhead, left_of};
ghost use Rattle.lt_pump.specs.View.{view_stop, view_subscription};

use crate::ahead::Ahead;
use crate::deliver::Deliver;
use crate::owners::Owners;
use crate::reading::{Fault, find};
use crate::stop::Stop;
use crate::subscription::Subscriptions;
use lt_core::{KeyBytes, Memory, Ts, encode_prefix};
use lt_fair::{Checker, Point, TakeRefusal, Unfair};
use lt_io::Feed;
use lt_records::{ChangeRecord, Found, LogRecord, StreamHeader};
use lt_schema::Catalogue;

/// The place behind the records that were taken of a stream, and what its check keeps of them.
#[derive(Debug, Drop)]
pub struct Position {
    checker: Checker,
    offset: u64,
}

impl Position {
    /// Behind a header, of a frame of so many bytes.
    pub fn behind(header: StreamHeader, length: usize) -> Position
        requires { length ≡ header_length (view_header header) }
        ensures { stream_of result ≡ behind_header (view_header header) }
    {
        Position {
            checker: Checker::new(header),
            offset: length as u64,
        }
    }

    /// The place behind the records that were taken, in bytes.
    pub fn offset(&self) -> u64
        ensures { result ≡ (stream_of self.now).offset }
    {
        self.offset
    }

    /// The last checkpoint, or 0.
    pub fn checkpoint(&self) -> Ts
        ensures { result ≡ (stream_of self.now).point.checkpoint }
    {
        self.checker.checkpoint()
    }

    /// What the check keeps, as a copy.
    pub fn point(&self) -> Result<Point, Memory>
        ensures { IfOk result (λ point. view_point point ≡ (stream_of self.now).point) }
    {
        self.checker.point()
    }

    /// Goes on at a place, from a point.
    pub fn start_at(&mut self, offset: u64, point: Point)
        ensures { stream_of self.new ≡ record (stream_of self.old) { offset = offset; point = view_point point } }
    {
        self.checker.go_on_at(point);
        self.offset = offset;
    }

    /// Takes records while they are whole and fair, at most so many. Tells how many, and why it stopped. After an `Err` it stands
    /// behind the records taken.
    pub fn run<F: Feed, V: Deliver>(
        &mut self,
        stream: u32,
        n: u64,
        feed: &mut F,
        cat: &Catalogue,
        subs: &Subscriptions,
        to: &mut V,
    ) -> Result<(u64, Stop), Fault>
        requires stream { stream ≡ (stream_of self.old).header.stream }
        requires known { stream < (F.state feed.old).known }
        requires subs { AreSubscriptions (map view_subscription subs.now) (V.held to.old) }
        requires catalogue { cat.now ≡ V.catalogue to.old }
        requires behind { AreBehind (stream_of self.old) (V.held to.old) }
        ensures ran { IfOk result (λ r. Ran (F.state feed.new).told cat.now (map view_subscription subs.now)
            (stream_of self.old) (stream_of self.new) (V.held to.old) (V.held to.new) n r.0 (view_stop r.1)) }
        ensures some { OnErr result (RanSome (F.state feed.new).told cat.now (map view_subscription subs.now)
            (stream_of self.old) (stream_of self.new) (V.held to.old) (V.held to.new) n) }
        ensures behind { AreBehind (stream_of self.new) (V.held to.new) }
        ensures lists { length (V.held to.new) ≡ length (V.held to.old) }
        ensures catalogue { V.catalogue to.new ≡ V.catalogue to.old }
        ensures header { (stream_of self.new).header ≡ (stream_of self.old).header }
        ensures fault { IsErrOf result Fault.Feed → Rose (F.state feed.old).faults (F.state feed.new).faults }
        ensures kept { OnOk result ((F.state feed.new).faults ≡ (F.state feed.old).faults) }
        ensures lacks { IsErrOf result Fault.Memory → (F.state feed.new).faults ≡ (F.state feed.old).faults }
        ensures called { OnOk result (0 < n → Rose (F.state feed.old).calls (F.state feed.new).calls) }
        ensures feed { FeedGoes (F.state feed.old) (F.state feed.new) }
    {
        if n == 0 {
            return Ok((0, Stop::Count));
        }
        let owners = Owners::of(subs.allocator(), subs.as_slice())?;
        let mut ahead = Ahead::new(subs.allocator());
        for records in 0..n {
            if let Some(stop) = self.step(stream, &mut ahead, feed, cat, &owners, to)? {
                return Ok((records, stop));
            }
        }
        Ok((n, Stop::Count))
    }

    /// Takes the next record, or tells why it takes none.
    fn step<F: Feed, V: Deliver>(
        &mut self,
        stream: u32,
        ahead: &mut Ahead,
        feed: &mut F,
        cat: &Catalogue,
        subs: &Owners,
        to: &mut V,
    ) -> Result<Option<Stop>, Fault>
        requires stream { stream ≡ (stream_of self.old).header.stream }
        requires known { stream < (F.state feed.old).known }
        requires subs { AreSubscriptions (map view_subscription subs.now) (V.held to.old) }
        requires catalogue { cat.now ≡ V.catalogue to.old }
        requires behind { AreBehind (stream_of self.old) (V.held to.old) }
        requires place { length (left_of ahead.old) ≤ 2 ^ 63 - self.old.offset }
        requires ahead { StandAhead (F.state feed.old).told stream self.old.offset (left_of ahead.old) }
        ensures place { OnOk result (length (left_of ahead.new) ≤ 2 ^ 63 - self.new.offset) }
        ensures step { IfOk result (Steps (F.state feed.new).told cat.now (map view_subscription subs.now)
            (stream_of self.old) (stream_of self.new) (V.held to.old) (V.held to.new) (left_of ahead.new)) }
        ensures unmoved { OnErr result ((stream_of self.new ≡ stream_of self.old) × (V.held to.new ≡ V.held to.old)) }
        ensures behind { AreBehind (stream_of self.new) (V.held to.new) }
        ensures lists { length (V.held to.new) ≡ length (V.held to.old) }
        ensures catalogue { V.catalogue to.new ≡ V.catalogue to.old }
        ensures fault { IsErrOf result Fault.Feed → Rose (F.state feed.old).faults (F.state feed.new).faults }
        ensures kept { OnOk result ((F.state feed.new).faults ≡ (F.state feed.old).faults) }
        ensures lacks { IsErrOf result Fault.Memory → (F.state feed.new).faults ≡ (F.state feed.old).faults }
        ensures called { OnOk result (left_of ahead.old ≡ [] → Rose (F.state feed.old).calls (F.state feed.new).calls) }
        ensures feed { FeedGoes (F.state feed.old) (F.state feed.new) }
    {
        match find(stream, self.offset, ahead, feed)? {
            Found::Partial => {
                if ahead.left().is_empty() {
                    return Ok(Some(Stop::End));
                }
                Ok(Some(Stop::Partial))
            }
            Found::Malformed(bad) => Ok(Some(Stop::Malformed(bad))),
            Found::Whole { item, length: size } => {
                if let Some(unfair) = self.keep(cat, &item, size, subs, to)? {
                    return Ok(Some(Stop::Unfair(unfair)));
                }
                ahead.skip(size);
                Ok(None)
            }
        }
    }

    /// Tests a record with a frame of this length, hands it over and takes it. Tells the rule that it breaks, if any.
    fn keep<V: Deliver>(
        &mut self,
        cat: &Catalogue,
        item: &LogRecord,
        size: usize,
        subs: &Owners,
        to: &mut V,
    ) -> Result<Option<Unfair>, Memory>
        requires lawful { IsTrue (is_item format.One (view_item item.now)) }
        requires frame { size ≡ length (spelled (view_item item.now)) }
        requires small { size ≤ 2 ^ 63 - self.old.offset }
        requires subs { AreSubscriptions (map view_subscription subs.now) (V.held to.old) }
        requires catalogue { cat.now ≡ V.catalogue to.old }
        requires behind { AreBehind (stream_of self.old) (V.held to.old) }
        ensures keeps { IfOk result (Keeps cat.now (map view_subscription subs.now) (stream_of self.old)
            (stream_of self.new) (V.held to.old) (V.held to.new) (view_item item.now)) }
        ensures offset { IfOk result (λ o. IfNone o (self.new.offset ≡ self.old.offset + size)) }
        ensures unmoved { OnErr result ((stream_of self.new ≡ stream_of self.old) × (V.held to.new ≡ V.held to.old)) }
        ensures behind { AreBehind (stream_of self.new) (V.held to.new) }
        ensures catalogue { V.catalogue to.new ≡ V.catalogue to.old }
    {
        if let Some(unfair) = self.fault(cat, item)? {
            return Ok(Some(unfair));
        }
        self.accept(cat, item, subs, to)?;
        self.offset += size as u64;
        Ok(None)
    }

    /// The rule that a record breaks, if any.
    fn fault(&self, cat: &Catalogue, item: &LogRecord) -> Result<Option<Unfair>, Memory>
        ensures { IfOk result (λ o. breaks_there cat.now (stream_of self.now) (view_item item.now) ≡ option_map
            view_unfair o) }
    {
        match self.checker.test(cat, item) {
            Ok(()) => Ok(None),
            Err(TakeRefusal::Unfair(unfair)) => Ok(Some(unfair)),
            Err(TakeRefusal::Memory) => Err(Memory),
        }
    }

    /// Takes a fair record; a change is handed over before.
    fn accept<V: Deliver>(
        &mut self,
        cat: &Catalogue,
        item: &LogRecord,
        subs: &Owners,
        to: &mut V,
    ) -> Result<(), Memory>
        requires lawful { IsTrue (is_item format.One (view_item item.now)) }
        requires fair { breaks_there cat.now (stream_of self.old) (view_item item.now) ≡ None }
        requires subs { AreSubscriptions (map view_subscription subs.now) (V.held to.old) }
        requires catalogue { cat.now ≡ V.catalogue to.old }
        requires behind { AreBehind (stream_of self.old) (V.held to.old) }
        ensures ok { OnOk result (stream_of self.new ≡ with_item (stream_of self.old) (view_item item.now)) }
        ensures given { OnOk result (V.held to.new ≡ all_given (changes_in (view_item item.now))
            (map view_subscription subs.now) (V.held to.old)) }
        ensures behind { OnOk result (AreBehind (stream_of self.new) (V.held to.new)) }
        ensures unmoved { OnErr result ((stream_of self.new ≡ stream_of self.old) × (V.held to.new ≡ V.held to.old)) }
        ensures catalogue { V.catalogue to.new ≡ V.catalogue to.old }
    {
        match item {
            LogRecord::Change(change) => self.take_change(cat, item, change, subs, to),
            _ => self.take(cat, item),
        }
    }

    /// Takes a fair change, after it was handed over.
    fn take_change<V: Deliver>(
        &mut self,
        cat: &Catalogue,
        item: &LogRecord,
        change: &ChangeRecord,
        subs: &Owners,
        to: &mut V,
    ) -> Result<(), Memory>
        requires item { view_item item.now ≡ change_item (view_change change.now) }
        requires lawful { IsTrue (is_item format.One (view_item item.now)) }
        requires fair { breaks_there cat.now (stream_of self.old) (view_item item.now) ≡ None }
        requires subs { AreSubscriptions (map view_subscription subs.now) (V.held to.old) }
        requires catalogue { cat.now ≡ V.catalogue to.old }
        requires behind { AreBehind (stream_of self.old) (V.held to.old) }
        ensures ok { OnOk result (stream_of self.new ≡ with_item (stream_of self.old) (view_item item.now)) }
        ensures given { OnOk result (V.held to.new ≡ all_given (view_change change.now
            ∷ []) (map view_subscription subs.now) (V.held to.old)) }
        ensures unmoved { OnErr result ((stream_of self.new ≡ stream_of self.old) × (V.held to.new ≡ V.held to.old)) }
        ensures catalogue { V.catalogue to.new ≡ V.catalogue to.old }
    {
        let key = encode_prefix(subs.allocator(), change.table, &change.key)?;
        let given = hand(subs, change, &key, to)?;
        match self.take(cat, item) {
            Ok(()) => Ok(()),
            Err(lack) => {
                undo(given, &key, change.ts, to);
                Err(lack)
            }
        }
    }

    /// Takes a fair record.
    fn take(&mut self, cat: &Catalogue, item: &LogRecord) -> Result<(), Memory>
        requires fair { breaks_there cat.now (stream_of self.old) (view_item item.now) ≡ None }
        ensures ok { OnOk result (stream_of self.new ≡ with_item (stream_of self.old) (view_item item.now)) }
        ensures err { OnErr result (stream_of self.new ≡ stream_of self.old) }
    {
        match self.checker.take(cat, item) {
            Ok(()) => Ok(()),
            Err(TakeRefusal::Memory) => Err(Memory),
            Err(TakeRefusal::Unfair(_)) => unreachable!(),
        }
    }
}

/// Hands a change to the subscription of its key, where it is above where that begins. Tells which has it then.
fn hand<V: Deliver>(
    subs: &Owners,
    change: &ChangeRecord,
    key: &KeyBytes,
    to: &mut V,
) -> Result<Option<usize>, Memory>
    requires key { key.now ≡ change_key (view_change change.now) }
    requires subs { AreSubscriptions (map view_subscription subs.now) (V.held to.old) }
    requires lawful { IsTrue (is_deliverable (V.catalogue to.old) (view_change change.now)) }
    requires fresh { AllByRecursion (AllByRecursion (IsOther (view_change change.now))) (V.held to.old) }
    ensures given { OnOk result (V.held to.new ≡ all_given (view_change change.now
        ∷ []) (map view_subscription subs.now) (V.held to.old)) }
    ensures some { IfOk result (λ o. IfSome o (λ i. (i < length (V.held to.old))
        × (V.held to.new ≡ change_at (put_change (view_change change.now)) i (V.held to.old)))) }
    ensures none { IfOk result (λ o. IfNone o (V.held to.new ≡ V.held to.old)) }
    ensures err { OnErr result (V.held to.new ≡ V.held to.old) }
    ensures catalogue { V.catalogue to.new ≡ V.catalogue to.old }
{
    let all = subs.as_slice();
    let Some(i) = subs.find(key) else {
        return Ok(None);
    };
    if change.ts <= all[i].from {
        return Ok(None);
    }
    to.deliver(i, change, key)?;
    Ok(Some(i))
}

/// Takes a change back from the subscription that has it, if one has.
fn undo<V: Deliver>(given: Option<usize>, key: &KeyBytes, ts: Ts, to: &mut V)
    requires { IfSome given (λ i. (i < length (V.held to.old))
        × IsTrue (holds_change key.now ts (unwrap_or (slice_get (V.held to.old) i) []))) }
    ensures some { IfSome given (λ i. V.held to.new ≡ change_at (without_change key.now ts) i (V.held to.old)) }
    ensures none { IfNone given (V.held to.new ≡ V.held to.old) }
    ensures catalogue { V.catalogue to.new ≡ V.catalogue to.old }
{
    if let Some(sub) = given {
        to.take_back(sub, key, ts);
    }
}
