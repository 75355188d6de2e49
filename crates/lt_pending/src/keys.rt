//! The changes of each key, in the order of the keys.

ghost use Rattle.std.specs.Prelude.{◌≡◌, ◌+◌, ◌<◌, ◌^◌, [], false, filter, IfNone, IfOk, IfSome, IsSome, IsTrue, None, not, OnErr, OnOk, if◌then◌else◌, length, unwrap_or};
ghost use Rattle.std.specs.List.{AllByRecursion};
ghost use Rattle.std.specs.BTreeMap.{get};
ghost use Rattle.lt_terms.specs.Key.{below, bytes_cmp};
ghost use Rattle.lt_terms.specs.Log.{change_key};
ghost use Rattle.lt_tables.specs.Pump.{put_change, without_change};
ghost use Rattle.lt_records.specs.View.{view_change};
ghost use Rattle.lt_pending.specs.Stamps.{AreNamed, changes_in};

use crate::stamps::{Stamps, copy_stamps, one_stamp, put_stamp, take_stamp};
use lt_core::{KeyBytes, Memory, Ts};
use lt_records::ChangeRecord;
use std::alloc::Global;
use std::collections::BTreeMap;

/// The changes of each key, each under the bytes of its key.
pub(crate) type Keys = BTreeMap<KeyBytes, Stamps, Global>;

/// Adds a change at its place. An `Err` changes nothing.
pub(crate) fn put_in(keys: &mut Keys, change: ChangeRecord, key: KeyBytes) -> Result<(), Memory>
    requires named { AreNamed keys.old.entries }
    requires key { key ≡ change_key (view_change change) }
    requires fresh { AllByRecursion (λ c. (change_key c ≡ key) → c.ts ≡ change.ts → ⊥) (changes_in keys.old.entries) }
    ensures ok { OnOk result (changes_in keys.new.entries ≡ put_change (view_change change)
        (changes_in keys.old.entries)) }
    ensures err { OnErr result (changes_in keys.new.entries ≡ changes_in keys.old.entries) }
    ensures named { AreNamed keys.new.entries }
{
    match keys.get_mut(&key) {
        Some(stamps) => put_stamp(stamps, change),
        None => put_key(keys, change, key),
    }
}

/// Adds the first change of a key. An `Err` changes nothing.
fn put_key(keys: &mut Keys, change: ChangeRecord, key: KeyBytes) -> Result<(), Memory>
    requires named { AreNamed keys.old.entries }
    requires key { key ≡ change_key (view_change change) }
    requires absent { get bytes_cmp keys.old key ≡ None }
    ensures ok { OnOk result (changes_in keys.new.entries ≡ put_change (view_change change)
        (changes_in keys.old.entries)) }
    ensures err { OnErr result (changes_in keys.new.entries ≡ changes_in keys.old.entries) }
    ensures named { AreNamed keys.new.entries }
{
    let stamps = one_stamp(key.allocator(), change)?;
    keys.insert(key, stamps)?;
    Ok(())
}

/// Takes out the change of a key and a timestamp, and answers whether it was there. Its key stays.
pub(crate) fn take_from(keys: &mut Keys, key: &KeyBytes, ts: Ts) -> bool
    requires { AreNamed keys.old.entries }
    ensures taken { changes_in keys.new.entries ≡ without_change key.now ts (changes_in keys.old.entries) }
    ensures count { length (changes_in keys.new.entries) + (if result then 1 else 0) ≡ length
        (changes_in keys.old.entries) }
    ensures named { AreNamed keys.new.entries }
{
    match keys.get_mut(key) {
        Some(stamps) => take_stamp(stamps, ts),
        None => false,
    }
}

/// Lets a key go that has no change.
pub(crate) fn drop_bare(keys: &mut Keys, key: &KeyBytes)
    requires { AreNamed keys.old.entries }
    ensures changes { changes_in keys.new.entries ≡ changes_in keys.old.entries }
    ensures named { AreNamed keys.new.entries }
{
    if is_bare(keys, key) {
        keys.remove(key);
    }
}

/// Whether a key is kept that has no change.
fn is_bare(keys: &Keys, key: &KeyBytes) -> bool
    ensures bare { IsTrue result → IfSome (get bytes_cmp keys.now key.now) (λ stamps. stamps.entries ≡ []) }
    ensures kept { result ≡ false → IfSome (get bytes_cmp keys.now key.now) (λ stamps. stamps.entries ≡ [] → ⊥) }
{
    match keys.get(key) {
        Some(stamps) => stamps.is_empty(),
        None => false,
    }
}

/// Copies of the keys from this one on, with their changes.
pub(crate) fn copy_from(keys: &Keys, low: &KeyBytes) -> Result<Keys, Memory>
    requires { AreNamed keys.now.entries }
    ensures changes { IfOk result (λ copies. changes_in copies.entries ≡ filter (λ c. not (below (change_key c) low.now))
        (changes_in keys.now.entries)) }
    ensures named { IfOk result (λ copies. AreNamed copies.entries) }
{
    let mut copies = BTreeMap::new(low.allocator());
    for (key, stamps) in keys.range(low..) {
        copies.insert(key.copy()?, copy_stamps(low.allocator(), stamps)?)?;
    }
    Ok(copies)
}

/// Lets the keys go from this one on, and answers how many changes they had. It takes no memory.
pub(crate) fn drop_from(keys: &mut Keys, low: &KeyBytes) -> usize
    requires named { AreNamed keys.old.entries }
    requires few { length (changes_in keys.old.entries) < 2 ^ 64 }
    ensures changes { changes_in keys.new.entries ≡ filter (λ c. below (change_key c) low.now)
        (changes_in keys.old.entries) }
    ensures count { length (changes_in keys.new.entries) + result ≡ length (changes_in keys.old.entries) }
    ensures named { AreNamed keys.new.entries }
{
    let mut dropped = 0;
    'last: while let Some(count) = pop_from(keys, low) {
        dropped += count;
    }
    dropped
}

/// Lets the last key go where it is this one or above it, and answers how many changes it had.
fn pop_from(keys: &mut Keys, low: &KeyBytes) -> Option<usize>
    requires { AreNamed keys.old.entries }
    ensures below { filter (λ c. below (change_key c) low.now) (changes_in keys.new.entries)
        ≡ filter (λ c. below (change_key c) low.now) (changes_in keys.old.entries) }
    ensures count { length (changes_in keys.new.entries) + unwrap_or result 0 ≡ length (changes_in keys.old.entries) }
    ensures fewer { IsSome result → length keys.new.entries < length keys.old.entries }
    ensures end { IfNone result (changes_in keys.new.entries ≡ filter (λ c. below (change_key c) low.now)
        (changes_in keys.old.entries)) }
    ensures named { AreNamed keys.new.entries }
{
    let (last, stamps) = keys.last_key_value()?;
    if last.cmp(low).is_lt() {
        return None;
    }
    let count = stamps.len();
    keys.pop_last();
    Some(count)
}

/// How many changes there are.
pub(crate) fn count_in(keys: &Keys) -> usize
    requires { length (changes_in keys.now.entries) < 2 ^ 64 }
    ensures { result ≡ length (changes_in keys.now.entries) }
{
    let mut count = 0;
    for (_, stamps) in keys.iter() {
        count += stamps.len();
    }
    count
}
