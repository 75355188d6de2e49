//! Subscriptions: who gets which changes. They stand in no order. Copying one takes time by the bytes of its bounds.

ghost use Rattle.std.specs.Prelude.{◌≡◌, IfOk};

use lt_core::{KeyBytes, List, ListItem, Memory, Range, Ts};

/// The keys of a range, above a timestamp.
#[derive(Debug, Drop)]
pub struct Subscription {
    pub range: Range,
    pub from: Ts,
}

impl Subscription {
    /// A copy equals what it copies.
    pub fn copy(&self) -> Result<Subscription, Memory>
        ensures { IfOk result (λ sub. sub ≡ self.now) }
    {
        Ok(Subscription {
            range: self.range.copy()?,
            from: self.from,
        })
    }
}

impl ListItem for Subscription {
    fn copy_item(&self) -> Result<Subscription, Memory> {
        self.copy()
    }
}

pub type Subscriptions = List<Subscription>;

/// The low bounds of streams, by number.
pub type Lows = List<KeyBytes>;
