//! The row versions of one group, by rising key and, within a key, falling timestamp.
//!
//! `put` and `remove` take logarithmic time, and `walk` begins in logarithmic time. Only `put` and
//! copies take memory.

ghost use Rattle.std.specs.Prelude.{◌≡◌, ◌+◌, [], IsTrue, if◌then◌else◌, length, IfOk, OnOk, OnErr};
ghost use Rattle.lt_core.specs.View.{view_range};
ghost use Rattle.lt_tables.specs.Version.{clip, is_ordered, put_version};
ghost use Rattle.lt_version.specs.View.{view_version};
ghost use Rattle.lt_memdelta.specs.Groups.{has_rows, rows_below, rows_from, without};
ghost use Rattle.lt_memdelta.specs.Walks.{walk_rest};

use crate::keys::{Keys, all_keys, drop_bare, drop_from, keys_from, keys_in, put_row, take_row};
use crate::walk::Walk;
use lt_core::{KeyBytes, Memory, Range, Ts};
use lt_version::RowVersion;
use std::alloc::Global;
use std::collections::BTreeMap;
use std::marker::Model;

/// The versions of one group, which contracts see as the ordered list of them.
#[derive(Drop)]
pub struct Rows {
    /// A key that has lost its last version is not kept.
    keys: Keys,
}

impl Model for Rows {
    ghost use Rattle.std.specs.Prelude.{IsTrue, List as Listed};
    ghost use Rattle.std.specs.Coded.{coded_list};
    ghost use Rattle.lt_tables.specs.Coded.{coded_row_version};
    ghost use Rattle.lt_tables.specs.Version as model;
    ghost use Rattle.lt_tables.specs.Version.{is_ordered};
    ghost use Rattle.lt_memdelta.specs.Stamps.{rows_of};

    ghost Value = { Listed model.RowVersion };

    ghost coded = { coded_list coded_row_version };

    ghost view = { λ r. rows_of r.keys.entries };

    ghost invariant = { λ r. IsTrue (is_ordered (rows_of r.keys.entries)) };
}

impl Rows {
    pub(crate) fn new(alloc: Global) -> Rows
        ensures { result ≡ [] }
    {
        Rows {
            keys: BTreeMap::new(alloc),
        }
    }

    /// Puts a version in its place, instead of one of the same name. An `Err` changes nothing.
    pub(crate) fn put(&mut self, alloc: Global, row: RowVersion) -> Result<(), Memory>
        ensures ok { OnOk result (self.new ≡ put_version (view_version row) self.old) }
        ensures err { OnErr result (self.new ≡ self.old) }
    {
        put_row(&mut self.keys, alloc, row)
    }

    /// Takes out the version of a name, and answers whether it was there.
    pub(crate) fn remove(&mut self, key: &KeyBytes, ts: Ts) -> bool
        ensures removed { self.new ≡ without key.now ts self.old }
        ensures count { length self.new + (if result then 1 else 0) ≡ length self.old }
    {
        let removed = take_row(&mut self.keys, key, ts);
        drop_bare(&mut self.keys, key);
        removed
    }

    /// Copies of the versions whose key is this one or above it, and how many they are.
    pub(crate) fn copy_from(&self, alloc: Global, low: &KeyBytes) -> Result<(Rows, usize), Memory>
        ensures rows { IfOk result (λ copies. copies.0 ≡ rows_from low.now self.now) }
        ensures count { IfOk result (λ copies. copies.1 ≡ length copies.0) }
    {
        Rows::copied(alloc, Walk::over(keys_from(&self.keys, low)))
    }

    /// Copies of the versions of a walk, and how many they are.
    fn copied(alloc: Global, mut walk: Walk<'_>) -> Result<(Rows, usize), Memory>
        requires { IsTrue (is_ordered (walk_rest walk)) }
        ensures rows { IfOk result (λ copies. copies.0 ≡ walk_rest walk.entry) }
        ensures count { IfOk result (λ copies. copies.1 ≡ length copies.0) }
    {
        let mut rows = Rows::new(alloc);
        let mut count: usize = 0;
        'items: while let Some(item) = walk.next() {
            count = count.checked_add(1).ok_or(Memory)?;
            rows.put(alloc, item.copy()?)?;
        }
        Ok((rows, count))
    }

    /// Lets the versions go whose key is this one or above it.
    pub(crate) fn cut(&mut self, low: &KeyBytes)
        ensures { self.new ≡ rows_below low.now self.old }
    {
        drop_from(&mut self.keys, low);
    }

    /// Walks over the versions whose key is in the range.
    pub(crate) fn walk<'a>(&'a self, range: &'a Range) -> Walk<'a>
        ensures rest { walk_rest result ≡ clip (view_range range.now) self.now }
        ensures ordered { IsTrue (is_ordered self.now) }
    {
        Walk::over(keys_in(&self.keys, range))
    }

    /// Whether there is a version. The first key that is kept has one.
    pub(crate) fn has_rows(&self) -> bool
        ensures { result ≡ has_rows self.now }
    {
        Walk::over(all_keys(&self.keys)).next().is_some()
    }
}
