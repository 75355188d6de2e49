//! The keys with a change above the checkpoint, each with its last timestamp.
//!
//! They stand in a map, so that a look-up and a change cost a logarithm, and a checkpoint, prunings aside, a constant. A point that
//! is handed in is a list, and stays one until a key is put: if its keys rise, it then goes into a map, once. A list is gone over
//! at each call. One whose keys do not rise, which no check makes, stays a list.

ghost use Rattle.std.specs.Prelude.{◌≡◌, ◌<◌, [], filter, length, nat_lt, IfOk, IfSome, IsTrue, OnErr, OnOk};
ghost use Rattle.lt_terms.specs.Key.{below};
ghost use Rattle.lt_tables.specs.Fair.{put_key, window_ts};
ghost use Rattle.lt_fair.specs.View.{view_kept};
ghost use Rattle.lt_fair.specs.Windows.{AllBelow, IsPutPlace, stands_at};

use crate::above::KeysAbove;
use crate::point::Window;
use lt_core::{KeyBytes, ListItem, Memory, Ts};
use std::alloc::Global;
use std::collections::BTreeMap;

#[derive(Debug, Drop)]
pub enum Kept {
    Listed(Vec<(KeyBytes, Ts)>),
    Mapped(KeysAbove),
}

impl Kept {
    pub fn new(alloc: Global) -> Kept
        ensures { view_kept result ≡ [] }
    {
        Kept::Mapped(KeysAbove::new(alloc))
    }

    /// The last timestamp of a key, or 0.
    pub fn last_of(&self, key: &KeyBytes) -> Ts
        ensures { result ≡ window_ts key.now (view_kept self.now) }
    {
        match self {
            Kept::Listed(list) => last_in(list, key),
            Kept::Mapped(keys) => keys.last_of(key),
        }
    }

    /// Puts a key's timestamp in its place. An `Err` changes nothing.
    pub fn put(&mut self, key: KeyBytes, ts: Ts) -> Result<(), Memory>
        ensures ok { OnOk result (view_kept self.new ≡ put_key key ts (view_kept self.old)) }
        ensures err { OnErr result (view_kept self.new ≡ view_kept self.old) }
    {
        match self {
            Kept::Mapped(keys) => keys.put(key, ts),
            Kept::Listed(list) => match mapped(list)? {
                None => put_listed(list, key, ts),
                Some(map) => {
                    let mut keys = KeysAbove::all(map);
                    keys.put(key, ts)?;
                    *self = Kept::Mapped(keys);
                    Ok(())
                }
            },
        }
    }

    /// Keeps the keys whose last timestamp is above the checkpoint.
    pub fn keep_above(&mut self, checkpoint: Ts)
        ensures { view_kept self.new ≡ filter (λ w. nat_lt checkpoint w.1) (view_kept self.old) }
    {
        match self {
            Kept::Listed(list) => list.retain(|(_, last)| *last > checkpoint),
            Kept::Mapped(keys) => keys.keep_above(checkpoint),
        }
    }

    /// The keys with their timestamps, as a list.
    pub fn to_window(&self, alloc: Global) -> Result<Window, Memory>
        ensures { IfOk result (λ window. window ≡ view_kept self.now) }
    {
        match self {
            Kept::Listed(list) => ListItem::copy_items(alloc, list),
            Kept::Mapped(keys) => keys.to_window(alloc),
        }
    }
}

fn last_in(list: &[(KeyBytes, Ts)], key: &KeyBytes) -> Ts
    ensures { result ≡ window_ts key.now list.now }
{
    for (other, last) in list {
        if key.cmp(other).is_eq() {
            return *last;
        }
    }
    0
}

/// Where a key stands, or is to stand: the place of the first key that is not below it.
fn place_of(list: &[(KeyBytes, Ts)], key: &KeyBytes) -> usize
    ensures { IsPutPlace key.now list.now result }
{
    let mut at = 0;
    for (other, _) in list {
        if !is_below(other, key) {
            return at;
        }
        at += 1;
    }
    at
}

fn is_below(one: &KeyBytes, other: &KeyBytes) -> bool
    ensures { result ≡ below one.now other.now }
{
    one.cmp(other).is_lt()
}

/// Whether the key stands at the place.
fn stands_at(list: &[(KeyBytes, Ts)], at: usize, key: &KeyBytes) -> bool
    ensures answer { result ≡ stands_at key.now list.now at }
    ensures within { IsTrue result → at < length list.now }
{
    match list.get(at) {
        None => false,
        Some((other, _)) => other.cmp(key).is_eq(),
    }
}

fn put_listed(list: &mut Vec<(KeyBytes, Ts)>, key: KeyBytes, ts: Ts) -> Result<(), Memory>
    ensures ok { OnOk result (list.new.items ≡ put_key key ts list.old.items) }
    ensures err { OnErr result (list.new.items ≡ list.old.items) }
{
    let at = place_of(list, &key);
    if stands_at(list, at, &key) {
        list[at].1 = ts;
    } else {
        list.insert(at, (key, ts))?;
    }
    Ok(())
}

/// The list as a map, if its keys rise.
fn mapped(list: &Vec<(KeyBytes, Ts)>) -> Result<Option<BTreeMap<KeyBytes, Ts>>, Memory>
    ensures { IfOk result (λ found. IfSome found (λ map. map.entries ≡ list.now.items)) }
{
    let mut map = BTreeMap::new(*list.allocator());
    for (key, ts) in list {
        if !comes_last(&map, key) {
            return Ok(None);
        }
        map.insert(key.copy()?, *ts)?;
    }
    Ok(Some(map))
}

/// Whether a key is above those of the map.
fn comes_last(map: &BTreeMap<KeyBytes, Ts>, key: &KeyBytes) -> bool
    ensures { IsTrue result → AllBelow key.now map.now.entries }
{
    match map.last_key_value() {
        None => true,
        Some((last, _)) => is_below(last, key),
    }
}
