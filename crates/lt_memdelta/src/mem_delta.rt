//! Memory deltas. `put` and `remove` take logarithmic time in each group that they look in, and there are few groups. `iter` begins
//! in logarithmic time and walks in order. `split_off` takes logarithmic time for each row that it moves. Only `put`, `split_off` and `copy`
//! take memory.

ghost use Rattle.std.specs.Prelude.{◌≡◌, ◌≤◌, [], IsTrue, length, not, option_map, slice_get, IfOk, OnOk, OnErr};
ghost use Rattle.std.specs.List.{AllByRecursion, list_all};
ghost use Rattle.lt_core.specs.View.{view_layout, view_range};
ghost use Rattle.lt_tables.specs.Version.{clip, is_version, same_name};
ghost use Rattle.lt_version.specs.View.{view_version};
ghost use Rattle.lt_memdelta.specs.Deltas.{group_rows, put_in as put_in_group, regrouped, shape_of, table_in, total};
ghost use Rattle.lt_memdelta.specs.Groups.{rows_below, rows_from, without};

use crate::group::{Group, copy_from, drop_empty, keep_below, put_in, table_of, take_out, walk_in};
use crate::mem_iter::MemIter;
use lt_core::{KeyBytes, Layout, List, Memory, Range, Ts};
use lt_version::RowVersion;
use std::alloc::Global;
use std::marker::Model;

/// Row versions by table and schema version, which contracts see as the groups that have some.
#[derive(Drop)]
pub struct MemDelta {
    alloc: Global,
    groups: Vec<Group>,
    count: usize,
}

impl Model for MemDelta {
    ghost use Rattle.std.specs.Prelude.{◌≡◌, List as Listed};
    ghost use Rattle.lt_memdelta.specs.declared.group.Group.{Group as Grouped};
    ghost use Rattle.lt_memdelta.specs.Deltas.{total};

    ghost Value = { Listed Grouped };

    ghost view = { λ m. m.groups.items };

    ghost invariant = { λ m. m.count ≡ total m.groups.items };
}

impl MemDelta {
    ghost use Rattle.lt_memdelta.specs.Iters.{iter_rest, leaves_of};

    /// A delta without rows.
    pub fn new(alloc: Global) -> MemDelta
        ensures { result ≡ [] }
    {
        MemDelta {
            alloc,
            groups: Vec::new(alloc),
            count: 0,
        }
    }

    /// Puts a row version in its place: in the group of its table, whose number its key begins with, and of a schema version.
    /// An `Err` changes nothing.
    pub fn put(&mut self, version: u32, row: RowVersion) -> Result<(), Memory>
        requires table { 4 ≤ length row.key }
        requires fresh { IsTrue (list_all (λ w. not (same_name (view_version row) w))
            (group_rows (table_in row.key) version self.old)) }
        ensures ok { OnOk result (self.new ≡ put_in_group (table_in row.key) version (view_version row) self.old) }
        ensures err { OnErr result (self.new ≡ self.old) }
    {
        if self.count == usize::MAX {
            return Err(Memory);
        }
        let table = table_of(row.key.as_slice());
        put_in(&mut self.groups, self.alloc, table, version, row)?;
        self.count += 1;
        Ok(())
    }

    /// Takes out the row version of a key and a timestamp, where there is one.
    pub fn remove(&mut self, key: &KeyBytes, ts: Ts)
        ensures { self.new ≡ regrouped (without key.now ts) self.old }
    {
        let removed = take_out(&mut self.groups, key, ts);
        drop_empty(&mut self.groups);
        self.count -= removed;
    }

    /// How many row versions there are.
    pub fn len(&self) -> usize
        ensures { result ≡ total self.now }
    {
        self.count
    }

    /// The table and the schema version of a group; none from the number of groups on.
    pub fn shape_at(&self, i: usize) -> Option<(u32, u32)>
        ensures { result ≡ option_map shape_of (slice_get self.now i) }
    {
        let group = self.groups.get(i)?;
        Some((group.table, group.version))
    }

    /// The row versions of one group in a range, by rising key and falling timestamp.
    pub fn iter<'a>(
        &'a self,
        table: u32,
        version: u32,
        range: &'a Range,
        layout: &'a Layout,
    ) -> MemIter<'a>
        requires { AllByRecursion (λ v. IsTrue (is_version (view_layout layout.now) v))
            (group_rows table version self.now) }
        ensures leaves { leaves_of result ≡ view_layout layout.now }
        ensures rest { iter_rest result ≡ clip (view_range range.now) (group_rows table version self.now) }
    {
        let walk = walk_in(&self.groups, table, version, range);
        MemIter::over(layout, walk)
    }

    /// Takes out the row versions whose key is this one or above it, and gives them as a delta of their own. An `Err` changes nothing.
    pub fn split_off(&mut self, key: &KeyBytes) -> Result<MemDelta, Memory>
        ensures kept { OnOk result (self.new ≡ regrouped (rows_below key.now) self.old) }
        ensures moved { IfOk result (λ delta. delta ≡ regrouped (rows_from key.now) self.old) }
        ensures err { OnErr result (self.new ≡ self.old) }
    {
        let (mut groups, count) = copy_from(&self.groups, self.alloc, key)?;
        drop_empty(&mut groups);
        keep_below(&mut self.groups, key);
        self.count -= count;
        Ok(MemDelta {
            alloc: self.alloc,
            groups,
            count,
        })
    }

    /// A copy equals what it copies.
    pub fn copy(&self) -> Result<MemDelta, Memory>
        ensures { IfOk result (λ delta. delta ≡ self.now) }
    {
        let least = List::new(self.alloc);
        let (groups, count) = copy_from(&self.groups, self.alloc, &least)?;
        Ok(MemDelta {
            alloc: self.alloc,
            groups,
            count,
        })
    }

    /// Lets all row versions go.
    pub fn clear(&mut self)
        ensures { self.new ≡ [] }
    {
        self.groups.clear();
        self.count = 0;
    }
}
