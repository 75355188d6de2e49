//! Iterators over row versions, by rising key and, within a key, falling timestamp.

ghost use Rattle.std.specs.Prelude.{◌≡◌, ◌<◌, ℕ, List, length, drop, option_map, OnOk};
ghost use Rattle.lt_core.specs.View.{view_cell, view_layout};
ghost use Rattle.lt_terms.specs.Layout as layouts;
ghost use Rattle.lt_tables.specs.Version.{first_version};
ghost use Rattle.lt_tables.specs.Version.{AreVersions, RowVersion};
ghost use Rattle.lt_version.specs.View.{first_cell, name_of, view_head};

use lt_core::{Cell, Layout, Memory, Ts};
use lt_terms::Op;

/// The name of a row version: its key's bytes and its timestamp; and what it does.
#[derive(Clone, Copy, Debug)]
pub struct Head<'a> {
    pub key: &'a [u8],
    pub ts: Ts,
    pub op: Op,
}

/// What has a layout.
pub trait Shape {
    /// The leaves of its layout.
    ghost leaves: { Self → List layouts.Leaf };

    fn layout(&self) -> &Layout
        ensures { view_layout result.now ≡ leaves self.now };
}

/// An iterator over row versions.
pub trait Versions: Shape {
    /// The versions still to come.
    ghost rest: { Self → List RowVersion };

    /// The name of the first one; none where none is to come.
    fn head(&self) -> Option<Head<'_>>
        ensures { option_map view_head result ≡ option_map name_of (first_version (rest self.now)) };

    /// A cell of the first one.
    fn cell(&self, leaf: usize) -> Cell<'_>
        requires head { 0 < length (rest self.now) }
        requires leaf { leaf < length (Self.leaves self.now) }
        ensures { view_cell result ≡ first_cell (rest self.now) leaf };

    /// Lets the first one go. After an `Err` other versions may be to come, and the iterator is to be let go.
    fn advance(&mut self) -> Result<(), Memory>
        requires { 0 < length (rest self.old) }
        ensures ok { OnOk result (rest self.new ≡ drop 1 (rest self.old)) }
        ensures layout { Self.leaves self.new ≡ Self.leaves self.old };

    /// The versions to come are in order, and lawful under the layout.
    ghost lawful: { (it : Self) → AreVersions (Self.Shape.leaves it) (rest it) };
}
