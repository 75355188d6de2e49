//! Extents that meet the root slots, the limit or each other. Finding the first takes time linear in the extents.

ghost use Rattle.std.specs.Prelude.{◌≡◌, ◌+◌, ◌<◌, ◌≤◌, ◌||◌, ◌⊎◌, IfSome, IfNone, length, nat_lt, slice_index_or};
ghost use Rattle.lt_terms.specs.declared.Extent.{Extent};
ghost use Rattle.lt_world.specs.Extents.{end_of};
ghost use Rattle.lt_space.specs.Extents.{IsOverlap};
ghost use Rattle.lt_space.specs.Order.{AreInOrder, AreSorted};

use crate::FIRST;
use lt_terms::Extent;

/// The least place of an extent that meets the slots, the limit or another one.
pub fn first_misplaced(sorted: &[Extent], limit: u64) -> Option<u64>
    requires { AreSorted sorted.now }
    ensures none { IfNone result (AreInOrder 1024 limit sorted.now) }
    ensures some { IfSome result (IsOverlap limit sorted.now) }
{
    for (i, extent) in sorted.iter().enumerate() {
        if is_misplaced(extent, bound_behind(sorted, i, limit)) {
            return Some(extent.place);
        }
    }
    None
}

/// Where an extent has to end: at the next one, or at the limit.
fn bound_behind(sorted: &[Extent], i: usize, limit: u64) -> u64
    requires { i < length sorted.now }
    ensures limit { result ≤ limit }
    ensures next { (d : Extent) → i + 1 < length sorted.now → result ≤ (slice_index_or sorted.now (i + 1) d).place }
    ensures reached { (result ≡ limit) ⊎ ((i + 1 < length sorted.now)
        × ((d : Extent) → result ≡ (slice_index_or sorted.now (i + 1) d).place)) }
{
    match sorted.get(i + 1) {
        Some(next) => limit.min(next.place),
        None => limit,
    }
}

/// Whether an extent begins within the slots, or ends behind a place.
fn is_misplaced(extent: &Extent, bound: u64) -> bool
    ensures { result ≡ (nat_lt extent.now.place 1024 || nat_lt bound (end_of extent.now)) }
{
    let end = u128::from(extent.place) + u128::from(extent.length);
    extent.place < FIRST || u128::from(bound) < end
}
