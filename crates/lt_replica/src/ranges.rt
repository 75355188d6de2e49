//! The partitions' ranges, and their checkpoints by those of the streams.
//!
//! To settle takes time by partitions times streams.

ghost use Rattle.std.specs.Prelude.{◌≡◌, ◌<◌, ◌≤◌, ◌+◌, ◌&&◌, not, IfNone, IfOk, IfSome, Some, length, map as mapped, min, slice_get};
ghost use Rattle.std.specs.Option.{option_copied, option_map_or};
ghost use Rattle.lt_core.specs.View.{view_range};
ghost use Rattle.lt_terms.specs.Key.{greater_low, is_below_high, lesser_high, meets as ranges_meet};
ghost use Rattle.lt_machine.specs.Machine.{checkpoints_meeting, least as least_in};
ghost use Rattle.lt_tables.specs.Schema.{when};
ghost use Rattle.lt_parts.specs.Parts.{interval, ranges};
ghost use Rattle.lt_pump.specs.Pumps.{streams_of};
ghost use Rattle.lt_replica.specs.Settling.{AreSettled, HasTimes, part_of_entry};

use lt_core::{KeyBytes, Memory, Range, Ts};
use lt_parts::{PartEntry, PartMap};
use lt_pump::Pump;

/// The keys of a partition, by its entry.
pub(crate) fn range_of(map: &PartMap, part: usize, entry: &PartEntry) -> Result<Range, Memory>
    requires { slice_get map.now part ≡ Some entry.now }
    ensures { IfOk result (λ range. slice_get (ranges map.now) part ≡ Some (view_range range)) }
{
    let low = entry.low.copy()?;
    let high = match next_of(map, part) {
        None => None,
        Some(next) => Some(next.low.copy()?),
    };
    Ok(Range { low, high })
}

/// Puts each partition's checkpoint anew: the greater of how far it is durable and the least of the streams that meet it.
pub(crate) fn settle(map: &mut PartMap, pump: &Pump)
    ensures settled { AreSettled map.new (streams_of pump.now) }
    ensures parts { mapped part_of_entry map.new ≡ mapped part_of_entry map.old }
{
    let count = map.len();
    for part in 0..count {
        if let Some((resume, checkpoint)) = times_of(map, pump, part) {
            map.set(part, resume, checkpoint);
        }
    }
}

/// The partition behind another one.
fn next_of<'a>(map: &'a PartMap, part: usize) -> Option<&'a PartEntry>
    ensures { option_copied result ≡ slice_get map.now (part + 1) }
{
    if part >= map.len() {
        return None;
    }
    map.get(part + 1)
}

/// How far a partition is durable, and its checkpoint by the streams.
fn times_of(map: &PartMap, pump: &Pump, part: usize) -> Option<(Ts, Ts)>
    ensures some { IfSome result (λ t. HasTimes map.now (streams_of pump.now) part t.0 t.1) }
    ensures none { IfNone result (length map.now ≤ part) }
{
    let entry = map.get(part)?;
    let high = match next_of(map, part) {
        None => None,
        Some(next) => Some(next.low.as_slice()),
    };
    let safe = least_meeting(pump, entry.low.as_slice(), high);
    Some((entry.resume, entry.resume.max(safe)))
}

/// The least checkpoint of the streams that meet the keys from `low` to before `high`, or 0.
fn least_meeting(pump: &Pump, low: &[u8], high: Option<&[u8]>) -> Ts
    ensures { result ≡ least_in (checkpoints_meeting (streams_of pump.now) (interval low.now high.entry)) }
{
    let count = pump.lows().len();
    let mut least = None;
    for stream in 0..count {
        least = lesser(least, checkpoint_meeting(pump, stream, low, high));
    }
    least.unwrap_or(0)
}

/// The checkpoint of a stream, if it meets the keys from `low` to before `high`.
fn checkpoint_meeting(pump: &Pump, stream: usize, low: &[u8], high: Option<&[u8]>) -> Option<Ts>
    requires { stream < length (streams_of pump.now) }
    ensures { IfSome (slice_get (streams_of pump.now) stream)
        (λ a. result ≡ when (ranges_meet a.header.range (interval low.now high.entry) && not a.closed)
        a.point.checkpoint) }
{
    let lows = pump.lows().as_slice();
    let begin = lows[stream].as_slice();
    if !meets(begin, end_of(lows, stream), low, high) {
        return None;
    }
    Some(pump.checkpoint(stream as u32))
}

/// Where the keys of a stream end, by the low bounds.
fn end_of<'a>(lows: &'a [KeyBytes], stream: usize) -> Option<&'a [u8]>
    requires { stream < length lows.now }
    ensures { option_copied result ≡ slice_get lows.now (stream + 1) }
{
    match lows.get(stream + 1) {
        None => None,
        Some(low) => Some(low.as_slice()),
    }
}

fn lesser(least: Option<Ts>, checkpoint: Option<Ts>) -> Option<Ts>
    ensures none { IfNone checkpoint (result ≡ least) }
    ensures some { IfSome checkpoint (λ c. result ≡ Some (option_map_or (λ l. min l c) least c)) }
{
    match (least, checkpoint) {
        (_, None) => least,
        (None, Some(_)) => checkpoint,
        (Some(least), Some(checkpoint)) => Some(least.min(checkpoint)),
    }
}

/// Whether two ranges have a key in common.
fn meets(low: &[u8], high: Option<&[u8]>, other_low: &[u8], other_high: Option<&[u8]>) -> bool
    ensures { result ≡ ranges_meet (interval low.now high.entry) (interval other_low.now other_high.entry) }
{
    is_below(greater(low, other_low), lesser_end(high, other_high))
}

fn greater<'a>(low: &'a [u8], other: &'a [u8]) -> &'a [u8]
    ensures { result.now ≡ greater_low low.now other.now }
{
    if low.cmp(other).is_lt() { other } else { low }
}

fn lesser_end<'a>(high: Option<&'a [u8]>, other: Option<&'a [u8]>) -> Option<&'a [u8]>
    ensures { option_copied result ≡ lesser_high (option_copied high.entry) (option_copied other.entry) }
{
    match (high, other) {
        (None, _) => other,
        (Some(_), None) => high,
        (Some(a), Some(b)) => Some(if a.cmp(b).is_lt() { a } else { b }),
    }
}

/// Whether a key is below a bound, where there is one.
fn is_below(key: &[u8], high: Option<&[u8]>) -> bool
    ensures { result ≡ is_below_high key.now (option_copied high.entry) }
{
    match high {
        None => true,
        Some(high) => key.cmp(high).is_lt(),
    }
}
