//! The changes of one key, the latest first.

ghost use Rattle.std.specs.Prelude.{◌≡◌, ◌+◌, ◌++◌, ◌∷◌, [], ℕ, List, IfOk, OnOk, OnErr, if◌then◌else◌, length, map, reverse};
ghost use Rattle.std.specs.List.{AllByRecursion};
ghost use Rattle.std.specs.Map.{remove_entry};
ghost use Rattle.std.specs.BTreeMap.{IsOrdered, insert_entry, is_at};
ghost use Rattle.lt_terms.specs.Log.{change_key};
ghost use Rattle.lt_records.specs.View.{view_change};
ghost use Rattle.lt_pending.specs.Stamps.{IsNamed, changes_at, later, stamped};

use lt_core::{Memory, Ts};
use lt_records::ChangeRecord;
use std::alloc::Global;
use std::cmp::Reverse;
use std::collections::BTreeMap;

/// The changes of one key, each under its timestamp.
pub(crate) type Stamps = BTreeMap<Reverse<Ts>, ChangeRecord, Global>;

/// A copy equals what it copies.
pub fn copy_change(change: &ChangeRecord) -> Result<ChangeRecord, Memory>
    ensures { IfOk result (λ copy. copy ≡ change.now) }
{
    Ok(ChangeRecord {
        ts: change.ts,
        table: change.table,
        version: change.version,
        op: change.op,
        key: change.key.copy()?,
        set: change.set.copy()?,
    })
}

/// Puts a change in its place, instead of one of the same timestamp. An `Err` changes nothing.
pub(crate) fn put_stamp(stamps: &mut Stamps, change: ChangeRecord) -> Result<(), Memory>
    ensures ok { OnOk result (stamps.new.entries ≡ insert_entry later stamps.old.entries (stamped change.ts) change) }
    ensures err { OnErr result (stamps.new.entries ≡ stamps.old.entries) }
{
    stamps.insert(Reverse(change.ts), change)?;
    Ok(())
}

/// One change alone.
pub(crate) fn one_stamp(alloc: Global, change: ChangeRecord) -> Result<Stamps, Memory>
    ensures { IfOk result (λ stamps. stamps.entries ≡ (stamped change.ts, change) ∷ []) }
{
    let mut stamps = BTreeMap::new(alloc);
    put_stamp(&mut stamps, change)?;
    Ok(stamps)
}

/// A copy of the changes of a key.
pub(crate) fn copy_stamps(alloc: Global, stamps: &Stamps) -> Result<Stamps, Memory>
    ensures { IfOk result (λ copies. copies.entries ≡ stamps.now.entries) }
{
    let mut copies = BTreeMap::new(alloc);
    for (ts, change) in stamps.iter() {
        copies.insert(*ts, copy_change(change)?)?;
    }
    Ok(copies)
}

/// Takes out the change of a timestamp, and answers whether it was there.
pub(crate) fn take_stamp(stamps: &mut Stamps, ts: Ts) -> bool
    ensures count { length stamps.new.entries + (if result then 1 else 0) ≡ length stamps.old.entries }
    ensures taken { stamps.new.entries ≡ remove_entry (is_at (later (stamped ts))) stamps.old.entries }
    ensures ordered { IsOrdered later stamps.old }
{
    let _count = stamps.len();
    stamps.remove(&Reverse(ts)).is_some()
}

/// Adds each change of a key to a list, by rising timestamp.
pub(crate) fn list_stamps<'a>(
    stamps: &'a Stamps,
    list: &mut Vec<&'a ChangeRecord>,
) -> Result<(), Memory>
    ensures { OnOk result (map (λ c. view_change c.now) list.new.items ≡ map (λ c. view_change c.now) list.old.items ++
        reverse (changes_at stamps.now.entries)) }
{
    for (_, change) in stamps.iter().rev() {
        list.push(change)?;
    }
    Ok(())
}
