//! The changes of each key of a group, in the order of the keys.

ghost use Rattle.std.specs.Prelude.{◌≡◌, ◌+◌, ◌<◌, [], false, IsTrue, IfSome, None, if◌then◌else◌, length, OnOk, OnErr};
ghost use Rattle.std.specs.BTreeMap.{get};
ghost use Rattle.lt_core.specs.View.{view_range};
ghost use Rattle.lt_terms.specs.Key.{bytes_cmp};
ghost use Rattle.lt_tables.specs.Version.{clip, is_ordered, put_version};
ghost use Rattle.lt_version.specs.View.{view_version};
ghost use Rattle.lt_memdelta.specs.Groups.{rows_below, rows_from, without};
ghost use Rattle.lt_memdelta.specs.Stamps.{rows_of, stamped, version_at};

use crate::change::{Change, Stamps, one_stamp, put_stamp, take_stamp};
use lt_core::{KeyBytes, Memory, Range, Ts};
use lt_version::RowVersion;
use std::alloc::Global;
use std::collections::{BTreeMap, btree_map};

/// The changes of each key.
pub(crate) type Keys = BTreeMap<KeyBytes, Stamps, Global>;

/// Puts a version in its place, instead of one of the same name. An `Err` changes nothing.
pub(crate) fn put_row(keys: &mut Keys, alloc: Global, row: RowVersion) -> Result<(), Memory>
    ensures ok { OnOk result (rows_of keys.new.entries ≡ put_version (view_version row) (rows_of keys.old.entries)) }
    ensures err { OnErr result (rows_of keys.new.entries ≡ rows_of keys.old.entries) }
{
    let RowVersion { key, ts, op, cells } = row;
    let change = Change { op, cells };
    match keys.get_mut(&key) {
        Some(stamps) => put_stamp(stamps, ts, change),
        None => put_key(keys, alloc, key, ts, change),
    }
}

/// Puts the first version of a key. An `Err` changes nothing.
fn put_key(
    keys: &mut Keys,
    alloc: Global,
    key: KeyBytes,
    ts: Ts,
    change: Change,
) -> Result<(), Memory>
    requires { get bytes_cmp keys.old key ≡ None }
    ensures ok { OnOk result (rows_of keys.new.entries ≡ put_version (version_at key (stamped ts, change))
        (rows_of keys.old.entries)) }
    ensures err { OnErr result (rows_of keys.new.entries ≡ rows_of keys.old.entries) }
{
    let stamps = one_stamp(alloc, ts, change)?;
    keys.insert(key, stamps)?;
    Ok(())
}

/// Takes out the version of a name, and answers whether it was there. Its key stays.
pub(crate) fn take_row(keys: &mut Keys, key: &KeyBytes, ts: Ts) -> bool
    requires { IsTrue (is_ordered (rows_of keys.old.entries)) }
    ensures taken { rows_of keys.new.entries ≡ without key.now ts (rows_of keys.old.entries) }
    ensures count { length (rows_of keys.new.entries) + (if result then 1 else 0) ≡ length (rows_of keys.old.entries) }
{
    match keys.get_mut(key) {
        Some(stamps) => take_stamp(stamps, ts),
        None => false,
    }
}

/// Lets a key go that has no version.
pub(crate) fn drop_bare(keys: &mut Keys, key: &KeyBytes)
    ensures { rows_of keys.new.entries ≡ rows_of keys.old.entries }
{
    if is_bare(keys, key) {
        keys.remove(key);
    }
}

/// Whether a key is kept that has no version.
fn is_bare(keys: &Keys, key: &KeyBytes) -> bool
    ensures bare { IsTrue result → IfSome (get bytes_cmp keys.now key.now) (λ stamps. stamps.entries ≡ []) }
    ensures kept { result ≡ false → IfSome (get bytes_cmp keys.now key.now) (λ stamps. stamps.entries ≡ [] → ⊥) }
{
    match keys.get(key) {
        Some(stamps) => stamps.is_empty(),
        None => false,
    }
}

/// The keys in a range, with their changes.
pub(crate) fn keys_in<'a>(
    keys: &'a Keys,
    range: &'a Range,
) -> btree_map::Range<'a, KeyBytes, Stamps>
    ensures { rows_of result ≡ clip (view_range range.now) (rows_of keys.now.entries) }
{
    match &range.high {
        None => keys.range(&range.low..),
        Some(high) if high.cmp(&range.low).is_lt() => keys.range(&range.low..&range.low),
        Some(high) => keys.range(&range.low..high),
    }
}

/// The keys from this one on, with their changes.
pub(crate) fn keys_from<'a>(
    keys: &'a Keys,
    low: &'a KeyBytes,
) -> btree_map::Range<'a, KeyBytes, Stamps>
    ensures { rows_of result ≡ rows_from low.now (rows_of keys.now.entries) }
{
    keys.range(low..)
}

/// Lets the keys go from this one on. It takes no memory.
pub(crate) fn drop_from(keys: &mut Keys, low: &KeyBytes)
    ensures { rows_of keys.new.entries ≡ rows_below low.now (rows_of keys.old.entries) }
{
    'last: while pop_from(keys, low) {}
}

/// Lets the last key go where it is this one or above it, and answers whether it was.
fn pop_from(keys: &mut Keys, low: &KeyBytes) -> bool
    ensures below { rows_below low.now (rows_of keys.new.entries) ≡ rows_below low.now (rows_of keys.old.entries) }
    ensures fewer { IsTrue result → length keys.new.entries < length keys.old.entries }
    ensures end { result ≡ false → rows_of keys.new.entries ≡ rows_below low.now (rows_of keys.old.entries) }
{
    let Some((last, _)) = keys.last_key_value() else {
        return false;
    };
    if last.cmp(low).is_lt() {
        return false;
    }
    keys.pop_last();
    true
}

/// All keys, with their changes.
pub(crate) fn all_keys(keys: &Keys) -> btree_map::Range<'_, KeyBytes, Stamps>
    ensures { rows_of result ≡ rows_of keys.now.entries }
{
    keys.range(..)
}
