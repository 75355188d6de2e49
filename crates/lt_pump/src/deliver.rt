//! Who a pump delivers to.

ghost use Rattle.std.specs.Prelude.{◌≡◌, ◌<◌, [], List, IsTrue, OnErr, OnOk, length, slice_get, unwrap_or};
ghost use Rattle.std.specs.List.{AllByRecursion};
ghost use Rattle.lt_terms.specs.Log.{Change, change_key};
ghost use Rattle.lt_tables.specs.Pump.{holds_change, is_deliverable, put_change, without_change};
ghost use Rattle.lt_tables.specs.Schema as schema;
ghost use Rattle.lt_tables.specs.Schema.{change_at};
ghost use Rattle.lt_records.specs.View.{view_change};

use lt_core::{KeyBytes, Memory, Ts};
use lt_records::ChangeRecord;

/// It keeps a list of changes for each subscription, by rising key and falling timestamp.
pub trait Deliver {
    /// The versions that the changes are of.
    ghost catalogue: { Self → schema.Catalogue };

    /// The changes that each subscription has, in order.
    ghost held: { Self → List (List Change) };

    /// Adds a change to the list of a subscription.
    fn deliver(&mut self, sub: usize, change: &ChangeRecord, key: &KeyBytes) -> Result<(), Memory>
        requires known { sub < length (held self.old) }
        requires key { key.now ≡ change_key (view_change change.now) }
        requires lawful { IsTrue (is_deliverable (catalogue self.old) (view_change change.now)) }
        requires fresh { AllByRecursion (λ c. (change_key c ≡ change_key (view_change change.now))
            → c.ts ≡ (view_change change.now).ts → ⊥) (unwrap_or (slice_get (held self.old) sub) []) }
        ensures ok { OnOk result (held self.new ≡ change_at (put_change (view_change change.now)) sub (held self.old)) }
        ensures err { OnErr result (held self.new ≡ held self.old) }
        ensures catalogue { catalogue self.new ≡ catalogue self.old };

    /// Takes a change back that was delivered. It takes no memory.
    fn take_back(&mut self, sub: usize, key: &KeyBytes, ts: Ts)
        requires known { sub < length (held self.old) }
        requires held { IsTrue (holds_change key.now ts (unwrap_or (slice_get (held self.old) sub) [])) }
        ensures taken { held self.new ≡ change_at (without_change key.now ts) sub (held self.old) }
        ensures catalogue { catalogue self.new ≡ catalogue self.old };
}
