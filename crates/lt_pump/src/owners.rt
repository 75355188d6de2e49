//! Subscriptions in the order of their low bounds: the one of a key is found in time logarithmic in their number.

ghost use Rattle.std.specs.Prelude.{◌≡◌, IfNone, IfOk, IfSome, map, not};
ghost use Rattle.lt_terms.specs.Key.{below};
ghost use Rattle.lt_pump.specs.Given.{AreDisjoint, HasKey, IsOutOfAll};
ghost use Rattle.lt_pump.specs.Order.{AreOwners};
ghost use Rattle.lt_pump.specs.View.{view_subscription};

use crate::subscription::Subscription;
use lt_core::{KeyBytes, Memory};
use std::alloc::Global;
use std::marker::Model;

/// A subscription whose range has keys, and its place.
#[derive(Drop)]
pub struct Owner<'a> {
    sub: &'a Subscription,
    place: usize,
}

/// Subscriptions, and those that have keys in the order of their low bounds.
#[derive(Drop)]
pub struct Owners<'a> {
    subs: &'a [Subscription],
    by_low: Vec<Owner<'a>>,
}

impl<'a> Model for Owners<'a> {
    ghost use Rattle.std.specs.Prelude.{List};
    ghost use Rattle.lt_pump.specs.declared.subscription.Subscription.{Subscription};
    ghost use Rattle.lt_pump.specs.Order.{AreOrdered};

    ghost Value = { List Subscription };

    ghost view = { λ o. o.subs.now };

    ghost invariant = { λ o. AreOrdered o.subs.now o.by_low.items };
}

impl<'a> Owners<'a> {
    /// Subscriptions, which are put in order.
    pub fn of(alloc: Global, subs: &'a [Subscription]) -> Result<Owners<'a>, Memory>
        ensures { IfOk result (λ owners. owners ≡ subs.now) }
    {
        let mut by_low = with_keys(alloc, subs)?;
        by_low.sort_unstable_by(|a, b| a.sub.range.low.cmp(&b.sub.range.low));
        Ok(Owners { subs, by_low })
    }

    /// The allocator that it was made with.
    pub fn allocator(&self) -> Global {
        *self.by_low.allocator()
    }

    /// The subscriptions, in the order in which they were given.
    pub fn as_slice(&self) -> &[Subscription]
        ensures { result.now ≡ self.now }
    {
        self.subs
    }

    /// The place of the subscription whose range has a key.
    pub fn find(&self, key: &KeyBytes) -> Option<usize>
        requires { AreDisjoint (map view_subscription self.now) }
        ensures some { IfSome result (λ i. HasKey key.now i (map view_subscription self.now)) }
        ensures none { IfNone result (IsOutOfAll key.now (map view_subscription self.now)) }
    {
        let count = self
            .by_low
            .partition_point(|owner| begins_up_to(owner, key));
        if count == 0 {
            return None;
        }
        let owner = &self.by_low[count - 1];
        if owner.sub.range.contains(key.as_slice()) {
            Some(owner.place)
        } else {
            None
        }
    }
}

/// The subscriptions that have keys, each with its place.
fn with_keys<'a>(alloc: Global, subs: &'a [Subscription]) -> Result<Vec<Owner<'a>>, Memory>
    ensures { IfOk result (λ owners. AreOwners subs.now owners.items) }
{
    let mut owners = Vec::new(alloc);
    for (place, sub) in subs.iter().enumerate() {
        if sub.range.contains(sub.range.low.as_slice()) {
            owners.push(Owner { sub, place })?;
        }
    }
    Ok(owners)
}

/// Whether a range begins at a key or below it.
fn begins_up_to(owner: &Owner, key: &KeyBytes) -> bool
    ensures { result ≡ not (below key.now owner.now.sub.now.range.low) }
{
    !key.cmp(&owner.sub.range.low).is_lt()
}
