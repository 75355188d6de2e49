//! The taken extents, in order of place and length. Finding, taking and giving back one takes logarithmic time.

ghost use Rattle.std.specs.Prelude.{◌≡◌, ◌<◌, ◌≤◌, ℕ, IsTrue, IfOk, IfErr, IfSome, OnOk, OnErr, Contains, map, filter, nat_le};
ghost use Rattle.std.specs.List.{list_all};
ghost use Rattle.lt_terms.specs.declared.Extent.{Extent};
ghost use Rattle.lt_world.specs.Extents.{apart, end_of};
ghost use Rattle.lt_space.specs.declared.refusal.SpaceRefusal.TheVariants as refusals;
ghost use Rattle.lt_space.specs.Order.{AreInOrder};
ghost use Rattle.lt_space.specs.Taken.{Adds, extent_at};

use crate::refusal::SpaceRefusal;
use lt_terms::Extent;
use std::alloc::Global;
use std::collections::{BTreeSet, btree_set};
use std::marker::Model;

/// Where an extent stands: its place, its length, and a number by which extents of no bytes at one place differ.
pub type Spot = (u64, u64, usize);

/// The taken extents, which contracts see as the list of them.
#[derive(Debug, Drop)]
pub struct Taken {
    spots: BTreeSet<Spot, Global>,
}

impl Model for Taken {
    ghost use Rattle.std.specs.Prelude.{List as Listed, map};
    ghost use Rattle.lt_terms.specs.declared.Extent.{Extent};
    ghost use Rattle.lt_space.specs.Taken.{extent_at};

    ghost Value = { Listed Extent };

    ghost view = { λ t. map extent_at t.spots.keys };
}

impl Taken {
    /// Extents that stand in order.
    pub fn in_order(alloc: Global, sorted: &[Extent]) -> Result<Taken, SpaceRefusal>
        requires { (limit : ℕ) × AreInOrder 1024 limit sorted.now }
        ensures taken { IfOk result (λ taken. taken ≡ sorted.now) }
        ensures refused { IfErr result (λ e. e ≡ refusals.Memory) }
    {
        let mut spots = BTreeSet::new(alloc);
        for (number, extent) in sorted.iter().enumerate() {
            spots.insert((extent.place, extent.length, number))?;
        }
        Ok(Taken { spots })
    }

    /// Those that begin at a place or behind it.
    pub fn from(&self, place: u64) -> btree_set::Range<'_, Spot>
        ensures { map extent_at result ≡ filter (λ e. nat_le place e.place) self.now }
    {
        self.spots.range((place, 0, 0)..)
    }

    /// One that begins before a place: the last of them, so that a search from there passes few.
    pub fn last_before(&self, place: u64) -> Option<Extent>
        ensures taken { IfSome result (Contains self.now) }
        ensures before { IfSome result (λ e. e.place < place) }
    {
        let spot = self.spots.range(..(place, 0, 0)).next_back()?;
        Some(extent_at(spot))
    }

    /// Takes one that meets no other. An `Err` changes nothing.
    pub fn insert(&mut self, extent: Extent) -> Result<(), SpaceRefusal>
        requires some { 0 < extent.length }
        requires free { IsTrue (list_all (apart extent) self.old) }
        ensures taken { OnOk result (Adds extent self.old self.new) }
        ensures order { OnOk result ((from limit : ℕ) → AreInOrder from limit self.old → from ≤ extent.place → end_of extent
            ≤ limit → AreInOrder from limit self.new) }
        ensures err { OnErr result (self.new ≡ self.old) }
        ensures refused { IfErr result (λ e. e ≡ refusals.Memory) }
    {
        self.spots.insert((extent.place, extent.length, 0))?;
        Ok(())
    }

    /// Gives one back. It takes no memory.
    pub fn remove(&mut self, extent: Extent)
        requires { Contains self.old extent }
        ensures { Adds extent self.new self.old }
    {
        if let Some(&spot) = self.spots.range((extent.place, extent.length, 0)..).next() {
            self.spots.remove(&spot);
        }
    }
}

/// The extent that stands there.
pub fn extent_at(spot: &Spot) -> Extent
    ensures { result ≡ extent_at spot.now }
{
    let (place, length, _) = *spot;
    Extent { place, length }
}
