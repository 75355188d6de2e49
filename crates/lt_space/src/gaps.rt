//! The gaps between extents that stand in order of their places. A search takes time linear in the extents that it passes.

ghost use Rattle.std.specs.Prelude.{◌≡◌, ◌-◌, ◌<◌, ◌≤◌, ◌^◌, ℕ, List, Contains, max, IfSome, IfNone};
ghost use Rattle.lt_terms.specs.declared.Extent.{Extent};
ghost use Rattle.lt_world.specs.Extents.{end_of};
ghost use Rattle.lt_space.specs.Order.{AreInOrder};
ghost use Rattle.lt_space.specs.Gaps.{IsBackTo, IsFirstGap, IsKept, IsLongestGap, HasNoGap};

use crate::FIRST;
use crate::taken::{Taken, extent_at};
use lt_terms::Extent;

/// What a search has passed: the place up to which it came, and the longest gap that begins before.
#[derive(Clone, Copy, Debug)]
pub struct Passed {
    pub end: u64,
    pub longest: u64,
}

/// Before the first extent.
pub const NONE: Passed = Passed {
    end: FIRST,
    longest: 0,
};

impl Passed {
    /// What was passed, where no gap in it is so long; else nothing.
    pub fn before(self, len: u64) -> Passed
        requires { 0 < len }
        ensures kept { (limit : ℕ) (taken : List Extent) → IsKept limit taken self → IsKept limit taken result }
        ensures longer { result.longest < len }
    {
        if self.longest < len { self } else { NONE }
    }

    /// What is passed up to an extent that stands before a place, or up to the first one.
    pub fn back_to(self, taken: &Taken, place: u64) -> Passed
        requires { (e : Extent) → Contains taken.now e → end_of e < 2 ^ 64 }
        ensures { IsBackTo taken.now place self result }
    {
        let end = match taken.last_before(place.min(self.end)) {
            Some(extent) => extent.place + extent.length,
            None => FIRST,
        };
        Passed {
            end,
            longest: self.longest,
        }
    }

    /// One extent more.
    fn with(self, extent: Extent) -> Passed
        requires order { self.end ≤ extent.place }
        requires end { end_of extent < 2 ^ 64 }
        ensures { result ≡ record { end = end_of extent; longest = max self.longest (extent.place - self.end) } }
    {
        Passed {
            end: extent.place + extent.length,
            longest: self.longest.max(extent.place - self.end),
        }
    }
}

/// What stands before the lowest gap of a length, of the gaps that are longer than all that were passed.
pub fn lowest_gap(taken: &Taken, limit: u64, from: Passed, len: u64) -> Option<Passed>
    requires passed { IsKept limit taken.now from }
    requires longer { from.longest < len }
    ensures passed { IfSome result (IsKept limit taken.now) }
    ensures gap { IfSome result (λ p. IsFirstGap limit taken.now len p.end) }
    ensures none { IfNone result (HasNoGap limit taken.now len) }
{
    let mut passed = from;
    for spot in taken.from(from.end) {
        let extent = extent_at(spot);
        if len <= extent.place - passed.end {
            return Some(passed);
        }
        passed = passed.with(extent);
    }
    if len <= limit.saturating_sub(passed.end) {
        Some(passed)
    } else {
        None
    }
}

/// How long the longest gap is.
pub fn longest_gap(taken: &Taken, limit: u64) -> u64
    requires order { AreInOrder 1024 limit taken.now }
    ensures { IsLongestGap limit taken.now result }
{
    let mut passed = NONE;
    for spot in taken.from(FIRST) {
        passed = passed.with(extent_at(spot));
    }
    passed.longest.max(limit.saturating_sub(passed.end))
}
