//! Whether what was read is lawful, besides the catalogue.
//!
//! It takes linear time, besides the logarithm by which each id is looked up, and memory for the ids.

ghost use Rattle.std.specs.Prelude.{◌≡◌, ◌∷◌, IfOk, map};
ghost use Rattle.std.specs.List.{list_all};
ghost use Rattle.lt_terms.specs.Key.{rise, tile};
ghost use Rattle.lt_storage.specs.Store as store;
ghost use Rattle.lt_store_codecs.specs.StoreCodec as codecs;
ghost use Rattle.lt_manifest.specs.Rules.{DoesRise, are_deltas, are_listed, are_parts, are_points, are_streams, fit_together, is_delta, is_part, is_placed, is_stream_at, is_window, parts_fit};
ghost use Rattle.lt_manifest.specs.View.{view_delta, view_part, view_stored, view_stream, view_unbuilt};

use crate::reading::Unbuilt;
use crate::reading::ids::{ids_of, is_among, listed_ids, rise};
use crate::stored::{DeltaStored, PartStored, Stored, StreamEntry};
use lt_core::{KeyBytes, MAX_KEY, Memory, Ts};
use std::alloc::Global;

/// The least and the greatest limit of a store file.
const LIMITS: (u64, u64) = (1 << 20, 1 << 40);

/// The most streams, points of a stream, keys of a point, partitions and deltas.
const MAX_STREAMS: usize = 64;

const MAX_POINTS: usize = 4;

const MAX_WINDOW: usize = 1024;

const MAX_PARTS: usize = 1024;

const MAX_DELTAS: usize = 4096;

/// One more than the greatest timestamp.
const TS_END: Ts = 1 << 63;

pub fn has_lawful_parts(alloc: Global, unbuilt: &Unbuilt) -> Result<bool, Memory>
    ensures { IfOk result (λ lawful. lawful ≡ codecs.has_lawful_parts (view_unbuilt unbuilt.now)) }
{
    let known = ids_of(alloc, unbuilt.deltas.as_slice())?;
    let listed = listed_ids(alloc, unbuilt.parts.as_slice())?;
    let streams = are_streams(alloc, unbuilt.streams.as_slice())?;
    Ok(fit_together(unbuilt, streams, &known, &listed))
}

/// Whether all is lawful, given whether the streams are, the ids of the deltas, and those in partitions.
fn fit_together(unbuilt: &Unbuilt, streams: bool, known: &[u64], listed: &[u64]) -> bool
    requires { DoesRise listed.now }
    ensures { result ≡ fit_together streams known.now listed.now (view_unbuilt unbuilt.now) }
{
    streams && is_limit(unbuilt.limit) && parts_fit(unbuilt, known, listed)
}

/// Whether partitions and deltas are lawful, given the ids of the deltas, and those in partitions.
fn parts_fit(unbuilt: &Unbuilt, known: &[u64], listed: &[u64]) -> bool
    requires { DoesRise listed.now }
    ensures { result ≡ parts_fit known.now listed.now (view_unbuilt unbuilt.now) }
{
    if !rise(known) {
        return false;
    }
    are_parts(unbuilt, known) && are_deltas(unbuilt.deltas.as_slice(), listed)
}

fn is_limit(limit: u64) -> bool
    ensures { result ≡ store.is_limit limit }
{
    LIMITS.0 <= limit && limit <= LIMITS.1
}

// ---- streams

fn are_streams(alloc: Global, streams: &[StreamEntry]) -> Result<bool, Memory>
    ensures { IfOk result (λ lawful. lawful ≡ are_streams (map view_stream streams.now)) }
{
    if streams.is_empty() || streams.len() > MAX_STREAMS {
        return Ok(false);
    }
    for stream in streams {
        if !is_stream(alloc, stream)? {
            return Ok(false);
        }
    }
    Ok(true)
}

fn is_stream(alloc: Global, stream: &StreamEntry) -> Result<bool, Memory>
    ensures { IfOk result (λ lawful. lawful ≡ store.is_stream_entry (view_stream stream.now)) }
{
    let offsets = offsets_of(alloc, stream.points.as_slice())?;
    Ok(is_stream_at(stream, &offsets))
}

/// Whether a stream is lawful, given the offsets of its points.
fn is_stream_at(stream: &StreamEntry, offsets: &[u64]) -> bool
    ensures { result ≡ is_stream_at offsets.now (view_stream stream.now) }
{
    stream.low.len() <= MAX_KEY
        && stream.points.len() <= MAX_POINTS
        && rise(offsets)
        && are_points(stream.points.as_slice())
}

fn offsets_of(alloc: Global, points: &[Stored]) -> Result<Vec<u64>, Memory>
    ensures { IfOk result (λ offsets. offsets.items ≡ map (λ p. p.0) (map view_stored points.now)) }
{
    let mut offsets = Vec::new(alloc);
    for point in points {
        offsets.push(point.offset)?;
    }
    Ok(offsets)
}

fn are_points(points: &[Stored]) -> bool
    ensures { result ≡ are_points (map view_stored points.now) }
{
    for stored in points {
        if !is_point(stored) {
            return false;
        }
    }
    true
}

fn is_point(stored: &Stored) -> bool
    ensures { result ≡ is_placed (view_stored stored.now) }
{
    let _offset = stored.offset;
    let point = &stored.point;
    let window = point.window.as_slice();
    point.checkpoint < TS_END
        && point.greatest < TS_END
        && window.len() <= MAX_WINDOW
        && keys_rise(window)
        && are_short(window)
}

/// Whether a window's keys are short enough, and its timestamps low enough.
fn are_short(window: &[(KeyBytes, Ts)]) -> bool
    ensures { result ≡ list_all is_window window.now }
{
    for (key, ts) in window {
        if !(*ts < TS_END && key.len() <= MAX_KEY) {
            return false;
        }
    }
    true
}

// ---- keys

/// What has a key.
trait Keyed {
    ghost use Rattle.std.specs.Prelude.{List as Listed, ℕ};

    ghost key_of: { Self → Listed ℕ };

    fn key(&self) -> &KeyBytes
        ensures { result.now ≡ key_of self.now };
}

impl Keyed for (KeyBytes, Ts) {
    ghost key_of = { λ w. w.0 };

    fn key(&self) -> &KeyBytes {
        &self.0
    }
}

impl Keyed for PartStored {
    ghost key_of = { λ p. p.low };

    fn key(&self) -> &KeyBytes {
        &self.low
    }
}

/// Whether keys rise strictly.
fn keys_rise<T: Keyed>(items: &[T]) -> bool
    ensures { result ≡ rise (map T.key_of items.now) }
{
    match items.split_first() {
        None => true,
        Some((first, rest)) => keys_rise_above(first.key(), rest),
    }
}

/// Whether keys rise strictly, all above a key.
fn keys_rise_above<T: Keyed>(low: &KeyBytes, items: &[T]) -> bool
    ensures { result ≡ rise (low.now ∷ map T.key_of items.now) }
{
    let mut last = low;
    for item in items {
        if !last.as_slice().cmp(item.key().as_slice()).is_lt() {
            return false;
        }
        last = item.key();
    }
    true
}

// ---- partitions and deltas

fn are_parts(unbuilt: &Unbuilt, known: &[u64]) -> bool
    requires { DoesRise known.now }
    ensures { result ≡ are_parts unbuilt.now.minimum unbuilt.now.next_id known.now (map view_part unbuilt.now.parts) }
{
    let parts = unbuilt.parts.as_slice();
    if !do_tile(parts) {
        return false;
    }
    if parts.len() > MAX_PARTS {
        return false;
    }
    for part in parts {
        if !is_part(unbuilt.minimum, unbuilt.next_id, known, part) {
            return false;
        }
    }
    true
}

/// Whether the low bounds rise strictly from the empty one.
fn do_tile(parts: &[PartStored]) -> bool
    ensures { result ≡ tile (map (λ p. p.low) (map view_part parts.now)) }
{
    match parts.split_first() {
        None => false,
        Some((first, rest)) => first.low.is_empty() && lows_rise_above(&first.low, rest),
    }
}

/// Whether low bounds rise strictly, all above one.
fn lows_rise_above(low: &KeyBytes, parts: &[PartStored]) -> bool
    ensures { result ≡ rise (low.now ∷ map (λ p. p.low) (map view_part parts.now)) }
{
    keys_rise_above(low, parts)
}

fn is_part(minimum: Ts, next_id: u64, known: &[u64], part: &PartStored) -> bool
    requires { DoesRise known.now }
    ensures { result ≡ is_part minimum next_id known.now (view_part part.now) }
{
    part.low.len() <= MAX_KEY
        && part.resume < TS_END
        && minimum <= part.resume
        && rise(part.deltas.as_slice())
        && are_listed(next_id, known, part.deltas.as_slice())
}

/// Whether each id is known, and below the next one.
fn are_listed(next_id: u64, known: &[u64], ids: &[u64]) -> bool
    requires { DoesRise known.now }
    ensures { result ≡ are_listed next_id known.now ids.now }
{
    for id in ids {
        if !(is_among(known, *id) && *id < next_id) {
            return false;
        }
    }
    true
}

/// Whether there are few enough deltas, each of which is listed.
fn are_deltas(deltas: &[DeltaStored], listed: &[u64]) -> bool
    requires { DoesRise listed.now }
    ensures { result ≡ are_deltas listed.now (map view_delta deltas.now) }
{
    if deltas.len() > MAX_DELTAS {
        return false;
    }
    for delta in deltas {
        if !is_delta(delta, listed) {
            return false;
        }
    }
    true
}

fn is_delta(delta: &DeltaStored, listed: &[u64]) -> bool
    requires { DoesRise listed.now }
    ensures { result ≡ is_delta listed.now (view_delta delta.now) }
{
    let _place = delta.index.place;
    let _length = delta.index.length;
    is_among(listed, delta.id)
}
