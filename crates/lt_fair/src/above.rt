//! The keys with a timestamp above a bound, in a map that may hold others until it is pruned.
//!
//! A look-up and a change cost a logarithm of the map, and a higher bound is only noted. At the first bound by which there were
//! as many changes and bounds as the last pruning left keys, the map is pruned. So a pruning goes over at most twice as many
//! keys as there were changes and bounds since the last one, and after each bound the map has at most twice the keys that the
//! last one left.

ghost use Rattle.std.specs.Prelude.{◌≡◌, ◌&&◌, ◌++◌, ◌∷◌, [], filter, nat_lt, true, IfOk, OnErr, OnOk, ℕ};
ghost use Rattle.std.specs.BTreeMap.{IsOrdered};
ghost use Rattle.lt_terms.specs.Key.{bytes_cmp};
ghost use Rattle.lt_tables.specs.Fair.{put_key, window_ts};
ghost use Rattle.lt_fair.specs.Windows.{is_above, keys_above};

use crate::point::Window;
use lt_core::{KeyBytes, List, Memory, Ts};
use std::alloc::Global;
use std::collections::BTreeMap;
use std::marker::Model;

/// The keys above the bound, which contracts see as the list of them, by rising key.
#[derive(Debug, Drop)]
pub struct KeysAbove {
    map: BTreeMap<KeyBytes, Ts>,
    bound: Option<Ts>,
    /// After so many changes and bounds the next bound prunes the map.
    until_pruned: usize,
}

impl Model for KeysAbove {
    ghost use Rattle.std.specs.Prelude.{List as Listed, ℕ};
    ghost use Rattle.std.specs.BTreeMap.{IsOrdered};
    ghost use Rattle.lt_terms.specs.Key.{bytes_cmp};
    ghost use Rattle.lt_fair.specs.Windows.{keys_above};

    ghost Value = { Listed (Listed ℕ × ℕ) };

    ghost view = { λ a. keys_above a.bound a.map.entries };

    ghost invariant = { λ a. IsOrdered bytes_cmp a.map };
}

impl KeysAbove {
    pub fn new(alloc: Global) -> KeysAbove
        ensures { result ≡ [] }
    {
        KeysAbove::all(BTreeMap::new(alloc))
    }

    /// All keys of a map.
    pub fn all(map: BTreeMap<KeyBytes, Ts>) -> KeysAbove
        ensures { result ≡ map.entries }
    {
        let until_pruned = map.len();
        KeysAbove {
            map,
            bound: None,
            until_pruned,
        }
    }

    /// The timestamp of a key, or 0.
    pub fn last_of(&self, key: &KeyBytes) -> Ts
        ensures { result ≡ window_ts key.now self.now }
    {
        let last = self.map.get(key).copied().unwrap_or(0);
        if is_above(self.bound, last) { last } else { 0 }
    }

    /// Puts a key's timestamp in its place. An `Err` changes nothing.
    pub fn put(&mut self, key: KeyBytes, ts: Ts) -> Result<(), Memory>
        ensures ok { OnOk result (self.new ≡ put_key key ts self.old) }
        ensures err { OnErr result (self.new ≡ self.old) }
    {
        self.until_pruned = self.until_pruned.saturating_sub(1);
        self.bound = bound_below(&mut self.map, self.bound, ts);
        self.map.insert(key, ts)?;
        Ok(())
    }

    /// Keeps the keys whose timestamp is above another bound, too.
    pub fn keep_above(&mut self, bound: Ts)
        ensures { self.new ≡ filter (λ w. nat_lt bound w.1) self.old }
    {
        self.until_pruned = self.until_pruned.saturating_sub(1);
        self.bound = Some(raised(self.bound, bound));
        if self.until_pruned == 0 {
            self.until_pruned = prune(&mut self.map, self.bound);
        }
    }

    /// The keys with their timestamps, as a list.
    pub fn to_window(&self, alloc: Global) -> Result<Window, Memory>
        ensures { IfOk result (λ window. window ≡ self.now) }
    {
        listed(alloc, &self.map, self.bound)
    }
}

/// Whether a timestamp is above the bound, if there is one.
fn is_above(bound: Option<Ts>, ts: Ts) -> bool
    ensures { result ≡ is_above bound ts }
{
    match bound {
        None => true,
        Some(bound) => ts > bound,
    }
}

/// The greater one of two bounds.
fn raised(bound: Option<Ts>, other: Ts) -> Ts
    ensures { (ts : ℕ) → nat_lt result ts ≡ (is_above bound ts && nat_lt other ts) }
{
    match bound {
        None => other,
        Some(bound) => bound.max(other),
    }
}

/// Lets the keys go that are not above the bound, and answers how many are left. It takes no memory.
fn prune(map: &mut BTreeMap<KeyBytes, Ts>, bound: Option<Ts>) -> usize
    ensures entries { map.new.entries ≡ keys_above bound map.old.entries }
    ensures ordered { IsOrdered bytes_cmp map.new }
{
    retain_above(map, bound);
    map.len()
}

fn retain_above(map: &mut BTreeMap<KeyBytes, Ts>, bound: Option<Ts>)
    ensures { map.new.entries ≡ keys_above bound map.old.entries }
{
    match bound {
        None => {}
        Some(low) => map.retain(|_, last| *last > low),
    }
}

/// A bound below the timestamp under which the same keys count: this one, or else none, for which the map is pruned. No check
/// puts a timestamp that is not above the bound.
fn bound_below(map: &mut BTreeMap<KeyBytes, Ts>, bound: Option<Ts>, ts: Ts) -> Option<Ts>
    ensures below { is_above result ts ≡ true }
    ensures same { keys_above result map.new.entries ≡ keys_above bound map.old.entries }
{
    if is_above(bound, ts) {
        return bound;
    }
    prune(map, bound);
    None
}

/// The keys above the bound, as a list.
fn listed(alloc: Global, map: &BTreeMap<KeyBytes, Ts>, bound: Option<Ts>) -> Result<Window, Memory>
    ensures { IfOk result (λ window. window ≡ keys_above bound map.now.entries) }
{
    let mut window = List::new(alloc);
    for (key, ts) in map {
        push_above(&mut window, bound, key, *ts)?;
    }
    Ok(window)
}

/// Adds a key where its timestamp is above the bound.
fn push_above(window: &mut Window, bound: Option<Ts>, key: &KeyBytes, ts: Ts) -> Result<(), Memory>
    ensures { OnOk result (window.new ≡ window.old ++ keys_above bound ((key.now, ts) ∷ [])) }
{
    if is_above(bound, ts) {
        window.push((key.copy()?, ts))?;
    }
    Ok(())
}
