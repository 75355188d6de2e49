//! What a row version is besides its name, and the versions of one key.

ghost use Rattle.std.specs.Prelude.{◌≡◌, ◌+◌, ◌∷◌, [], IfOk, OnOk, OnErr, if◌then◌else◌, length};
ghost use Rattle.std.specs.Map.{remove_entry};
ghost use Rattle.std.specs.BTreeMap.{insert_entry, is_at};
ghost use Rattle.lt_version.specs.View.{view_version};
ghost use Rattle.lt_memdelta.specs.Stamps.{later, stamped};
ghost use Rattle.lt_memdelta.specs.Walks.{view_item};

use lt_core::{Cells, KeyBytes, Memory, Ts};
use lt_terms::Op;
use lt_version::RowVersion;
use std::alloc::Global;
use std::cmp::Reverse;
use std::collections::BTreeMap;

/// What a version does, and its cells.
#[derive(Debug, Drop)]
pub struct Change {
    pub op: Op,
    pub cells: Cells,
}

/// The versions of one key, the latest first.
pub(crate) type Stamps = BTreeMap<Reverse<Ts>, Change, Global>;

/// A version where it stands: under its key.
#[derive(Clone, Copy)]
pub(crate) struct Item<'a> {
    pub(crate) key: &'a KeyBytes,
    pub(crate) ts: Ts,
    pub(crate) change: &'a Change,
}

impl Item<'_> {
    /// A row version that stands for the same.
    pub(crate) fn copy(&self) -> Result<RowVersion, Memory>
        ensures { IfOk result (λ copy. view_version copy ≡ view_item self.now) }
    {
        Ok(RowVersion {
            key: self.key.copy()?,
            ts: self.ts,
            op: self.change.op,
            cells: self.change.cells.copy()?,
        })
    }
}

/// Puts a version in its place, instead of one of the same timestamp. An `Err` changes nothing.
pub(crate) fn put_stamp(stamps: &mut Stamps, ts: Ts, change: Change) -> Result<(), Memory>
    ensures ok { OnOk result (stamps.new.entries ≡ insert_entry later stamps.old.entries (stamped ts) change) }
    ensures err { OnErr result (stamps.new.entries ≡ stamps.old.entries) }
{
    stamps.insert(Reverse(ts), change)?;
    Ok(())
}

/// One version alone.
pub(crate) fn one_stamp(alloc: Global, ts: Ts, change: Change) -> Result<Stamps, Memory>
    ensures { IfOk result (λ stamps. stamps.entries ≡ (stamped ts, change) ∷ []) }
{
    let mut stamps = BTreeMap::new(alloc);
    put_stamp(&mut stamps, ts, change)?;
    Ok(stamps)
}

/// Takes out the version of a timestamp, and answers whether it was there.
pub(crate) fn take_stamp(stamps: &mut Stamps, ts: Ts) -> bool
    ensures count { length stamps.new.entries + (if result then 1 else 0) ≡ length stamps.old.entries }
    ensures taken { stamps.new.entries ≡ remove_entry (is_at (later (stamped ts))) stamps.old.entries }
{
    stamps.remove(&Reverse(ts)).is_some()
}
