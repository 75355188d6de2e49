//! A store in use.

ghost use Rattle.std.specs.Prelude.{◌<◌};

use lt_space::Space;
use lt_terms::{Extent, Root};

/// The root that counts, what is taken of the file, and whether a write has failed.
#[derive(Debug, Drop)]
pub struct Store {
    pub(crate) root: Root,
    /// What is taken of the file. The pieces of a delta are written to it before the commit that names them.
    pub space: Space,
    /// A write or a sync has failed. Nothing is written until the store is opened anew.
    pub(crate) broken: bool,
    pub ghost slot: { root.slot < 2 },
}

impl Store {
    ghost use Rattle.std.specs.Prelude.{◌≡◌, true};
    ghost use Rattle.lt_storage.specs.Store.{root_extent};

    /// How many commits were made, from 1.
    pub fn generation(&self) -> u64
        ensures { result ≡ self.now.root.generation }
    {
        self.root.generation
    }

    /// How many bytes the file may have.
    pub fn limit(&self) -> u64
        ensures { result ≡ self.now.space.limit }
    {
        self.space.limit()
    }

    /// Where the manifest stands that counts.
    pub fn manifest_at(&self) -> Extent
        ensures { result ≡ root_extent self.now.root }
    {
        Extent {
            place: self.root.place,
            length: self.root.length,
        }
    }

    /// Whether a write or a sync has failed.
    pub fn is_broken(&self) -> bool
        ensures { result ≡ self.now.broken }
    {
        self.broken
    }

    /// A write to the space has failed.
    pub fn break_off(&mut self)
        ensures root { self.new.root ≡ self.old.root }
        ensures space { self.new.space ≡ self.old.space }
        ensures broken { self.new.broken ≡ true }
    {
        self.broken = true;
    }
}
