//! The space of a store file, as the extents of it that are taken, in order of their places.
//!
//! `new` takes time as a sort does. `take` and `give` take logarithmic time, and `take` that of the extents which its search passes.
//! A search goes on where the one before it came to, unless a gap that it needs may stand before: so pieces of one size pass each
//! extent once, wherever the gaps stand. What is given back brings the search back to it. `give` takes no memory.

ghost use Rattle.std.specs.Prelude.{◌≡◌, ◌<◌, IsTrue, IfOk, IfErr, OnOk, OnErr, Contains};
ghost use Rattle.std.specs.List.Sorted.{IsPermutation};
ghost use Rattle.lt_world.specs.Extents.{are_apart, IsLowestGap};
ghost use Rattle.lt_space.specs.Extents.{AreApart, Extents, RefusesAll, RefusesOne, Takes};

use crate::gaps::{NONE, Passed, longest_gap, lowest_gap};
use crate::misplaced::first_misplaced;
use crate::refusal::SpaceRefusal;
use crate::taken::Taken;
use lt_terms::Extent;
use std::alloc::Global;
use std::marker::Model;

/// A store file up to its limit, which contracts see as that limit and the taken extents.
#[derive(Debug, Drop)]
pub struct Space {
    limit: u64,
    taken: Taken,
    passed: Passed,
}

impl Model for Space {
    ghost use Rattle.lt_space.specs.Extents.{Extents};
    ghost use Rattle.lt_space.specs.Gaps.{IsKept};

    ghost Value = { Extents };

    ghost view = { λ s. record { limit = s.limit; taken = s.taken } };

    ghost invariant = { λ s. IsKept s.limit s.taken s.passed };
}

impl Space {
    /// The space in which these extents are taken. `Overlap` where one of them meets the slots, the limit or another one.
    pub fn new(alloc: Global, limit: u64, live: &[Extent]) -> Result<Space, SpaceRefusal>
        ensures limit { IfOk result (λ s. s.limit ≡ limit) }
        ensures taken { IfOk result (λ s. IsPermutation live.now s.taken) }
        ensures apart { IfOk result AreApart }
        ensures live { OnOk result (IsTrue (are_apart limit live.now)) }
        ensures refused { IfErr result (RefusesAll limit live.now) }
    {
        let mut sorted = Vec::from_slice(alloc, live)?;
        sorted.sort_unstable_by_key(|extent| (extent.place, extent.length));
        if let Some(place) = first_misplaced(&sorted, limit) {
            return Err(SpaceRefusal::Overlap { place });
        }
        let taken = Taken::in_order(alloc, &sorted)?;
        Ok(Space {
            limit,
            taken,
            passed: NONE,
        })
    }

    /// How many bytes the file may have.
    pub fn limit(&self) -> u64
        ensures { result ≡ self.now.limit }
    {
        self.limit
    }

    /// Takes the lowest gap of a length. `StoreFull` where none is so long. An `Err` changes nothing.
    pub fn take(&mut self, length: u64) -> Result<Extent, SpaceRefusal>
        requires { 0 < length }
        ensures lowest { IfOk result (IsLowestGap self.old.limit self.old.taken length) }
        ensures taken { IfOk result (λ e. Takes e self.old self.new) }
        ensures there { IfOk result (Contains self.new.taken) }
        ensures apart { AreApart self.new }
        ensures refused { IfErr result (RefusesOne self.old length) }
        ensures err { OnErr result (self.new ≡ self.old) }
    {
        let from = self.passed.before(length);
        let Some(gap) = lowest_gap(&self.taken, self.limit, from, length) else {
            let room = longest_gap(&self.taken, self.limit);
            return Err(SpaceRefusal::StoreFull { need: length, room });
        };
        let extent = Extent {
            place: gap.end,
            length,
        };
        self.taken.insert(extent)?;
        self.passed = Passed {
            end: gap.end + length,
            longest: gap.longest,
        };
        Ok(extent)
    }

    /// Gives back an extent that is taken. It takes no memory.
    pub fn give(&mut self, extent: Extent)
        requires { Contains self.old.taken extent }
        ensures given { Takes extent self.new self.old }
        ensures apart { AreApart self.new }
        // It undoes the taking.
        ensures undoes { (before : Extents) → 0 < extent.length → Takes extent before self.old → self.new ≡ before }
    {
        self.taken.remove(extent);
        self.passed = self.passed.back_to(&self.taken, extent.place);
    }
}
