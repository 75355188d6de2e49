//! Three subscriptions' changes, one for each.

ghost use Rattle.std.specs.Prelude.{◌≡◌, ◌∷◌, [], IfOk, None};

use lt_core::{KeyBytes, Memory, Ts};
use lt_pump::Deliver;
use lt_records::ChangeRecord;
use lt_schema::Catalogue;
use std::alloc::Global;

/// It keeps one change for each of three subscriptions: a second one finds no memory.
#[derive(Debug, Drop)]
pub struct Slots<'a> {
    cat: &'a Catalogue,
    slots: Vec<Option<ChangeRecord>>,
}

impl<'a> Slots<'a> {
    /// No changes.
    pub fn new(alloc: Global, cat: &'a Catalogue) -> Result<Slots<'a>, Memory>
        ensures catalogue { IfOk result (λ s. s.cat.now ≡ cat.now) }
        ensures empty { IfOk result (λ s. s.slots.items ≡ None ∷ None ∷ None ∷ []) }
    {
        let mut slots = Vec::new(alloc);
        slots.push(None)?;
        slots.push(None)?;
        slots.push(None)?;
        Ok(Slots { cat, slots })
    }

    /// The timestamps of the subscriptions' changes.
    pub fn times(&self) -> [Option<Ts>; 3] {
        [self.ts(0), self.ts(1), self.ts(2)]
    }

    fn ts(&self, sub: usize) -> Option<Ts> {
        match self.slots.get(sub) {
            Some(Some(change)) => Some(change.ts),
            _ => None,
        }
    }
}

impl<'a> Deliver for Slots<'a> {
    ghost use Rattle.std.specs.Prelude.{map, option_map, unwrap_or};
    ghost use Rattle.lt_records.specs.View.{view_change};

    ghost catalogue = { λ s. s.cat.now };

    ghost held = { λ s. map (λ o. unwrap_or (option_map (λ c. view_change c ∷ []) o) []) s.slots.items };

    fn deliver(&mut self, sub: usize, change: &ChangeRecord, key: &KeyBytes) -> Result<(), Memory> {
        let copy = copy_of(change)?;
        let slot = &mut self.slots[sub];
        match slot {
            Some(_) => Err(Memory),
            None => {
                *slot = Some(copy);
                Ok(())
            }
        }
    }

    fn take_back(&mut self, sub: usize, key: &KeyBytes, ts: Ts) {
        self.slots[sub] = None;
    }
}

/// A copy equals what it copies.
fn copy_of(change: &ChangeRecord) -> Result<ChangeRecord, Memory>
    ensures { IfOk result (λ copy. copy ≡ change.now) }
{
    Ok(ChangeRecord {
        ts: change.ts,
        table: change.table,
        version: change.version,
        op: change.op,
        key: change.key.copy()?,
        set: change.set.copy()?,
    })
}
