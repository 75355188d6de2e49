//! Pumps, where no program shows it: feeds that do not fit, a feed that grows between two pumps, and who gets which changes.

ghost use Rattle.std.specs.Prelude.{◌≡◌, ◌≤◌, ◌∷◌, [], IfOk, length, map};
ghost use Rattle.lt_io.specs.Memory.{feed_streams};
ghost use Rattle.lt_pump.specs.Given.{AreAllBehind, AreSubscriptions};
ghost use Rattle.lt_pump.specs.Pumps.{streams_of};
ghost use Rattle.lt_pump.specs.View.{view_subscription};

use crate::pump::slots::Slots;
use lt_core::{Blob, KeyBytes, KeyPart, List, Memory, Range, Ts, encode_prefix};
use lt_io::{Feed, MemFeed};
use lt_pump::{Deliver, Lows, Pump, PumpFault, Pumped, Stop, Subscription, Subscriptions};
use lt_schema::Catalogue;
use lt_schema_json::read_version;
use std::alloc::Global;
use std::test::Fail;

mod slots;

/// The header of stream 0 with all keys.
const WHOLE: &[u8] = b"\x01\0\0\0\x0dLTLOG1\0\0\0\0\0\0\0";

/// The header of stream 0, with the keys below 100 of table 2.
const LOWER: &[u8] = b"\x01\0\0\0\x1bLTLOG1\0\0\0\0\0\0\x01\0\x0c\0\0\0\x02\x80\0\0\0\0\0\0\x64";

/// The header of stream 1, with the keys from 100 of table 2 on.
const UPPER: &[u8] = b"\x01\0\0\0\x19LTLOG1\0\0\0\x01\0\x0c\0\0\0\x02\x80\0\0\0\0\0\0\x64\0";

/// A checkpoint at 1.
const CHECKPOINT: &[u8] = b"\x03\0\0\0\x08\0\0\0\0\0\0\0\x01";

/// Behind the header of the lower stream: key 1 of table 2 is deleted at 4, then a checkpoint at 4, then key 30 is deleted
/// at 9, and then a checkpoint at 9.
const LOG: &[u8] = b"\x01\0\0\0\x1bLTLOG1\0\0\0\0\0\0\x01\0\x0c\0\0\0\x02\x80\0\0\0\0\0\0\x64\
      \x02\0\0\0\x1d\0\0\0\0\0\0\0\x04\0\0\0\x02\0\0\0\x01\x03\x01\x01\0\0\0\0\0\0\0\x01\0\0\
      \x03\0\0\0\x08\0\0\0\0\0\0\0\x04\
      \x02\0\0\0\x1d\0\0\0\0\0\0\0\x09\0\0\0\x02\0\0\0\x01\x03\x01\x01\0\0\0\0\0\0\0\x1e\0\0\
      \x03\0\0\0\x08\0\0\0\0\0\0\0\x09";

/// Table 2, named t: a number as key, a column of numbers.
const VERSION: &[u8] =
    br#"{"table":"t","number":2,"version":1,"key":[["id","int64"]],"columns":[{"number":1,"name":"a","kind":"int64"}]}"#;

fn catalogue(alloc: Global) -> Result<Catalogue, Memory> {
    let mut catalogue = Catalogue::new(alloc);
    let Ok(version) = read_version(alloc, VERSION) else {
        return Err(Memory);
    };
    match catalogue.add(version) {
        Ok(()) => Ok(catalogue),
        Err(_) => Err(Memory),
    }
}

/// The bytes of a key of table 2.
fn key_of(alloc: Global, number: i64) -> Result<KeyBytes, Memory> {
    let mut parts = List::new(alloc);
    parts.push(KeyPart::Int(number))?;
    encode_prefix(alloc, 2, &parts)
}

/// A feed of two streams, of which the upper one has its header alone.
fn feed_of(alloc: Global, lower: &[u8]) -> Result<MemFeed, Memory>
    ensures { IfOk result (λ feed. length (feed_streams feed) ≡ 2) }
{
    let mut feed = MemFeed::new(alloc);
    feed.add_stream(Blob::from_slice(alloc, lower)?)?;
    feed.add_stream(Blob::from_slice(alloc, UPPER)?)?;
    Ok(feed)
}

/// Of the keys from 10 on the changes above 5, and of those below 10 all. Between them stands a range without keys.
fn subscriptions(alloc: Global) -> Result<Subscriptions, Memory>
    ensures { IfOk result (λ subs. AreSubscriptions (map view_subscription subs) ([] ∷ [] ∷ [] ∷ [])) }
{
    let middle = key_of(alloc, 10)?;
    let mut subs = List::new(alloc);
    subs.push(Subscription {
        range: Range {
            low: middle.copy()?,
            high: None,
        },
        from: 5,
    })?;
    subs.push(Subscription {
        range: Range {
            low: middle.copy()?,
            high: Some(middle.copy()?),
        },
        from: 0,
    })?;
    subs.push(Subscription {
        range: Range {
            low: KeyBytes::new(alloc),
            high: Some(middle),
        },
        from: 0,
    })?;
    Ok(subs)
}

/// Pumps stream 0, so many records at a time, until it stops for another reason than their number, at most 9 times. Tells how
/// many records it took, and what the last pump told.
#[tactic(auto, using(crate::proofs::TurnLaws::behind_at, crate::proofs::TurnLaws::subs_again))]
fn pump_through<F: Feed, V: Deliver>(
    pump: &mut Pump,
    feed: &mut F,
    cat: &Catalogue,
    n: u64,
    subs: &Subscriptions,
    to: &mut V,
) -> Result<(u64, Option<Pumped>), PumpFault>
    requires known { length (streams_of pump.old) ≤ (F.state feed.old).known }
    requires subs { AreSubscriptions (map view_subscription subs.now) (V.held to.old) }
    requires catalogue { cat.now ≡ V.catalogue to.old }
    requires behind { AreAllBehind (streams_of pump.old) (V.held to.old) }
    ensures known { length (streams_of pump.new) ≤ (F.state feed.new).known }
    ensures lists { length (V.held to.new) ≡ length (V.held to.old) }
    ensures catalogue { V.catalogue to.new ≡ V.catalogue to.old }
    ensures behind { AreAllBehind (streams_of pump.new) (V.held to.new) }
{
    let mut records = 0u64;
    for _ in 0..9 {
        let pumped = pump.pump(feed, cat, 0, n, subs, to)?;
        records = records.saturating_add(pumped.records);
        if pumped.stop != Stop::Count {
            return Ok((records, Some(pumped)));
        }
    }
    Ok((records, None))
}

/// What is taken of a log of stream 0 that stands in two growths, so many records at a time: how many, how the last pump ended, and
/// the timestamps of what was handed over.
fn pump_growths(
    alloc: Global,
    cat: &Catalogue,
    front: &[u8],
    rest: &[u8],
    n: u64,
) -> Result<String, Fail> {
    let subs = subscriptions(alloc)?.copy()?;
    let mut slots = Slots::new(alloc, cat)?;
    let mut feed = feed_of(alloc, front)?;
    let mut pump = Pump::attach(alloc, &mut feed, None)?;
    let (first, _) = pump_through(&mut pump, &mut feed, cat, n, &subs, &mut slots)?;
    feed.append(0, rest)?;
    let (second, last) = pump_through(&mut pump, &mut feed, cat, n, &subs, &mut slots)?;
    shown(alloc, first.saturating_add(second), last, &slots.times())
}

/// How many records were taken, where the last pump ended, and the timestamps of what was handed over.
fn shown(
    alloc: Global,
    records: u64,
    last: Option<Pumped>,
    times: &[Option<Ts>; 3],
) -> Result<String, Fail> {
    let Some(last) = last else {
        return Ok(format!(in alloc; "{records} and on, {times:?}")?);
    };
    let (offset, checkpoint, stop) = (last.offset, last.checkpoint, last.stop);
    Ok(format!(in alloc; "{records} to {offset}, {checkpoint}, {stop:?}, {times:?}")?)
}

/// What is taken of the log that is cut behind so many bytes, and then goes on.
fn pump_cut(alloc: Global, cat: &Catalogue, cut: usize, n: u64) -> Result<String, Fail> {
    let Some((front, rest)) = LOG.split_at_checked(cut) else {
        return Err(Fail::new("no such cut"));
    };
    pump_growths(alloc, cat, front, rest, n)
}

/// All four records are taken up to byte 126 and checkpoint 9, and the changes at 9 and 4 handed over.
const ALL: &str = "4 to 126, 9, End, [Some(9), None, Some(4)]";

/// A log that is cut anywhere behind its header, and then goes on: pumps of one, of two and of all records take what one takes.
#[test]
fn every_cut_goes_on(rt: HostRuntime) -> Result<(), Fail> {
    let cat = catalogue(rt.alloc())?;
    for cut in LOWER.len()..LOG.len() {
        for n in [1, 2, 9] {
            let told = pump_cut(rt.alloc(), &cat, cut, n)?;
            assert_eq!(rt; told.as_str(), ALL, "cut {cut}");
        }
    }
    Ok(())
}

#[test]
fn a_pump_of_no_records_takes_none(rt: HostRuntime) -> Result<(), Fail> {
    let cat = catalogue(rt.alloc())?;
    let told = pump_cut(rt.alloc(), &cat, LOG.len(), 0)?;
    assert_eq!(rt; told.as_str(), "0 and on, [None, None, None]");
    Ok(())
}

/// Feeds by their streams, whether low bounds were kept for the keys from 99 on, and what attaching them answers.
const FEEDS: [(&[&[u8]], bool, &str); 12] = [
    (&[LOWER, UPPER], false, "None"),
    (&[WHOLE], false, "None"),
    (&[LOWER; 65], false, "Some(Mismatch { stream: 64 })"),
    (&[WHOLE, UPPER], false, "Some(Mismatch { stream: 0 })"),
    (&[WHOLE], true, "Some(Mismatch { stream: 1 })"),
    (&[], false, "Some(Mismatch { stream: 0 })"),
    (&[LOWER], false, "Some(Mismatch { stream: 0 })"),
    (&[UPPER], false, "Some(Mismatch { stream: 0 })"),
    (&[LOWER, CHECKPOINT], false, "Some(Mismatch { stream: 1 })"),
    (&[LOWER, LOWER], false, "Some(Mismatch { stream: 1 })"),
    (&[LOWER, UPPER], true, "Some(Mismatch { stream: 1 })"),
    (&[LOWER, UPPER, UPPER], true, "Some(Mismatch { stream: 2 })"),
];

fn feed(alloc: Global, streams: &[&[u8]]) -> Result<MemFeed, Memory> {
    let mut feed = MemFeed::new(alloc);
    for stream in streams {
        feed.add_stream(Blob::from_slice(alloc, stream)?)?;
    }
    Ok(feed)
}

/// Low bounds of two streams, the upper one from key 99 on.
fn lows(alloc: Global) -> Result<Lows, Memory> {
    let upper = key_of(alloc, 99)?;
    let mut lows = Lows::new(alloc);
    lows.push(KeyBytes::new(alloc))?;
    lows.push(upper)?;
    Ok(lows)
}

/// What a feed of these streams is refused for.
fn refused(alloc: Global, streams: &[&[u8]], kept: bool) -> Result<String, Memory> {
    let mut feed = feed(alloc, streams)?;
    let lows = lows(alloc)?;
    let kept = if kept { Some(&lows) } else { None };
    let refusal = Pump::attach(alloc, &mut feed, kept).err();
    Ok(format!(in alloc; "{refusal:?}")?)
}

#[test]
fn headers_that_do_not_fit(rt: HostRuntime) -> Result<(), Fail> {
    for (streams, kept, wanted) in FEEDS {
        let told = refused(rt.alloc(), streams, kept)?;
        assert_eq!(rt; told.as_str(), wanted);
    }
    Ok(())
}
