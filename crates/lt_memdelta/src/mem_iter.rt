//! The iterator over the row versions of one group in a range. Each call takes constant time on the whole.

ghost use Rattle.std.specs.Prelude.{◌≡◌, ◌<◌, length, drop, option_map, OnOk};
ghost use Rattle.lt_core.specs.View.{view_cell, view_layout};
ghost use Rattle.lt_tables.specs.Version.{first_version};
ghost use Rattle.lt_tables.specs.Version.{AreVersions};
ghost use Rattle.std.proofs.Props.{props};
ghost use Rattle.lt_version.specs.View.{first_cell, name_of, view_head};
ghost use Rattle.lt_memdelta.specs.Walks.{items_rest, walk_rest};

use crate::change::Item;
use crate::walk::Walk;
use lt_core::{Cell, Layout, Memory};
use lt_version::{Head, Shape, Versions};

/// An iterator over the row versions of one group.
#[derive(Drop)]
pub struct MemIter<'a> {
    layout: &'a Layout,
    first: Option<Item<'a>>,
    walk: Walk<'a>,
    pub ghost lawful: { AreVersions (view_layout layout.now) (items_rest first walk) } by { Prim.hlevel props },
}

impl<'a> MemIter<'a> {
    ghost use Rattle.lt_memdelta.specs.Iters.{iter_rest, leaves_of};

    pub(crate) fn over(layout: &'a Layout, mut walk: Walk<'a>) -> MemIter<'a>
        requires { AreVersions (view_layout layout.now) (walk_rest walk) }
        ensures leaves { leaves_of result ≡ view_layout layout.now }
        ensures rest { iter_rest result ≡ walk_rest walk.entry }
    {
        let first = walk.next();
        MemIter {
            layout,
            first,
            walk,
        }
    }
}

impl<'a> Shape for MemIter<'a> {
    ghost use Rattle.lt_memdelta.specs.Iters.{leaves_of};

    ghost leaves = { λ it. leaves_of it };

    fn layout(&self) -> &Layout
        ensures { view_layout result.now ≡ leaves_of self.now }
    {
        self.layout
    }
}

impl<'a> Versions for MemIter<'a> {
    ghost use Rattle.lt_memdelta.specs.Iters.{iter_rest, leaves_of};

    ghost rest = { λ it. iter_rest it };

    fn head(&self) -> Option<Head<'_>>
        ensures { option_map view_head result ≡ option_map name_of (first_version (iter_rest self.now)) }
    {
        match &self.first {
            Some(first) => Some(Head {
                key: first.key.as_slice(),
                ts: first.ts,
                op: first.change.op,
            }),
            None => None,
        }
    }

    fn cell(&self, leaf: usize) -> Cell<'_>
        requires head { 0 < length (iter_rest self.now) }
        requires leaf { leaf < length (leaves_of self.now) }
        ensures { view_cell result ≡ first_cell (iter_rest self.now) leaf }
    {
        let Some(first) = &self.first else {
            return Cell::Unset;
        };
        match first.change.cells.get(leaf) {
            Some(cell) => cell.as_cell(),
            None => Cell::Unset,
        }
    }

    fn advance(&mut self) -> Result<(), Memory>
        requires { 0 < length (iter_rest self.old) }
        ensures ok { OnOk result (iter_rest self.new ≡ drop 1 (iter_rest self.old)) }
        ensures layout { leaves_of self.new ≡ leaves_of self.old }
    {
        let first = self.walk.next();
        self.first = first;
        Ok(())
    }

    ghost lawful = { λ it. it.lawful };
}
