//! The plain iterator, over a list of row versions. Each call takes constant time.

ghost use Rattle.std.specs.Prelude.{◌≡◌, ◌<◌, length, drop, map, option_map, OnOk};
ghost use Rattle.lt_core.specs.View.{view_cell, view_layout};
ghost use Rattle.lt_tables.specs.Version.{first_version};
ghost use Rattle.lt_tables.specs.Version.{AreVersions};
ghost use Rattle.std.proofs.Props.{props};
ghost use Rattle.lt_version.specs.View.{first_cell, name_of, view_head, view_version};

use crate::row_version::RowVersion;
use crate::versions::{Head, Shape, Versions};
use lt_core::{Cell, Layout, List, Memory};

/// An iterator over a list of row versions.
#[derive(Debug, Drop)]
pub struct ListVersions {
    layout: Layout,
    list: List<RowVersion>,
    /// How many were let go.
    at: usize,
    pub ghost lawful: { AreVersions (view_layout layout) (map view_version list) } by { Prim.hlevel props },
}

impl ListVersions {
    ghost use Rattle.lt_version.specs.Lists.{leaves_of, list_rest};

    pub fn new(layout: Layout, list: Vec<RowVersion>) -> ListVersions
        requires { AreVersions (view_layout layout) (map view_version list.items) }
        ensures leaves { leaves_of result ≡ view_layout layout }
        ensures rest { list_rest result ≡ map view_version list.items }
    {
        ListVersions {
            layout,
            list: List::from_vec(list),
            at: 0,
        }
    }
}

impl Shape for ListVersions {
    ghost use Rattle.lt_version.specs.Lists.{leaves_of};

    ghost leaves = { λ it. leaves_of it };

    fn layout(&self) -> &Layout
        ensures { view_layout result.now ≡ leaves_of self.now }
    {
        &self.layout
    }
}

impl Versions for ListVersions {
    ghost use Rattle.lt_version.specs.Lists.{lawful_rest, leaves_of, list_rest};

    ghost rest = { λ it. list_rest it };

    fn head(&self) -> Option<Head<'_>>
        ensures { option_map view_head result ≡ option_map name_of (first_version (list_rest self.now)) }
    {
        match self.list.get(self.at) {
            Some(first) => Some(Head {
                key: first.key.as_slice(),
                ts: first.ts,
                op: first.op,
            }),
            None => None,
        }
    }

    fn cell(&self, leaf: usize) -> Cell<'_>
        requires head { 0 < length (list_rest self.now) }
        requires leaf { leaf < length (leaves_of self.now) }
        ensures { view_cell result ≡ first_cell (list_rest self.now) leaf }
    {
        let Some(first) = self.list.get(self.at) else {
            return Cell::Unset;
        };
        match first.cells.get(leaf) {
            Some(cell) => cell.as_cell(),
            None => Cell::Unset,
        }
    }

    fn advance(&mut self) -> Result<(), Memory>
        requires { 0 < length (list_rest self.old) }
        ensures ok { OnOk result (list_rest self.new ≡ drop 1 (list_rest self.old)) }
        ensures layout { leaves_of self.new ≡ leaves_of self.old }
    {
        if self.at < self.list.len() {
            self.at += 1;
        }
        Ok(())
    }

    ghost lawful = { λ it. lawful_rest it.layout it.list it.at it.lawful };
}
