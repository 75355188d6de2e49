//! Whom a pump delivers to: the partitions.

use lt_core::{KeyBytes, Memory, Ts};
use lt_pending::{Changes, copy_change};
use lt_pump::Deliver;
use lt_records::ChangeRecord;
use lt_schema::Catalogue;

/// What each partition holds, while changes come in.
#[derive(Drop)]
pub(crate) struct Delivery<'a> {
    pub(crate) catalogue: &'a Catalogue,
    pub(crate) parts: Vec<Changes>,
}

impl<'a> Deliver for Delivery<'a> {
    ghost use Rattle.std.specs.Prelude.{map};
    ghost use Rattle.lt_pending.specs.Held.{held_in};

    ghost catalogue = { λ d. d.catalogue.now };

    ghost held = { λ d. map held_in d.parts.items };

    fn deliver(&mut self, sub: usize, change: &ChangeRecord, key: &KeyBytes) -> Result<(), Memory> {
        let copy = copy_change(change)?;
        let name = key.copy()?;
        self.parts[sub].put(copy, name)
    }

    fn take_back(&mut self, sub: usize, key: &KeyBytes, ts: Ts) {
        self.parts[sub].remove(key, ts);
    }
}
