//! Changes by rising key and, within a key, falling timestamp.

ghost use Rattle.std.specs.Prelude.{◌≡◌, ◌++◌, [], IfOk, OnErr, OnOk, filter, length, map, not, reverse};
ghost use Rattle.std.proofs.Props.{props};
ghost use Rattle.std.specs.List.{AllByRecursion};
ghost use Rattle.lt_terms.specs.Key.{below};
ghost use Rattle.lt_terms.specs.Log.{change_key};
ghost use Rattle.lt_tables.specs.Pump.{put_change, without_change};
ghost use Rattle.lt_records.specs.View.{view_change};
ghost use Rattle.lt_pending.specs.Stamps.{AreNamed, changes_in};

use crate::keys::{Keys, copy_from, count_in, drop_bare, drop_from, put_in, take_from};
use crate::stamps::list_stamps;
use lt_core::{KeyBytes, Memory, Ts};
use lt_records::ChangeRecord;
use std::alloc::Global;
use std::collections::BTreeMap;

/// The changes of some keys, each under the bytes of its key. `held_in` is the list of them, by rising key and falling timestamp.
#[derive(Drop)]
pub struct Changes {
    /// A key that has lost its last change is not kept.
    keys: Keys,
    count: usize,
    pub ghost named: { AreNamed keys.entries } by { Prim.hlevel props },
    pub ghost counted: { count ≡ length (changes_in keys.entries) },
}

impl Changes {
    ghost use Rattle.lt_pending.specs.Held.{held_in};

    /// No changes.
    pub fn new(alloc: Global) -> Changes
        ensures { held_in result ≡ [] }
    {
        Changes {
            keys: BTreeMap::new(alloc),
            count: 0,
        }
    }

    /// How many changes are held.
    pub fn len(&self) -> usize
        ensures { result ≡ length (held_in self.now) }
    {
        self.count
    }

    /// Adds a change at its place. An `Err` changes nothing.
    pub fn put(&mut self, change: ChangeRecord, key: KeyBytes) -> Result<(), Memory>
        requires key { key ≡ change_key (view_change change) }
        requires fresh { AllByRecursion (λ c. (change_key c ≡ key) → c.ts ≡ change.ts → ⊥) (held_in self.old) }
        ensures ok { OnOk result (held_in self.new ≡ put_change (view_change change) (held_in self.old)) }
        ensures err { OnErr result (held_in self.new ≡ held_in self.old) }
    {
        if self.count == usize::MAX {
            return Err(Memory);
        }
        put_in(&mut self.keys, change, key)?;
        self.count += 1;
        Ok(())
    }

    /// Takes out the change of a key and a timestamp, where it is held. It takes no memory.
    pub fn remove(&mut self, key: &KeyBytes, ts: Ts)
        ensures { held_in self.new ≡ without_change key.now ts (held_in self.old) }
    {
        if take_from(&mut self.keys, key, ts) {
            drop_bare(&mut self.keys, key);
            self.count -= 1;
        }
    }

    /// A copy of the changes from a key on.
    pub fn upper_of(&self, key: &KeyBytes) -> Result<Changes, Memory>
        ensures { IfOk result (λ upper. held_in upper ≡ filter (λ c. not (below (change_key c) key.now))
            (held_in self.now)) }
    {
        let _held = self.count;
        let keys = copy_from(&self.keys, key)?;
        let count = count_in(&keys);
        Ok(Changes { keys, count })
    }

    /// Lets the changes go that do not stand below a key. It takes no memory.
    pub fn keep_below(&mut self, key: &KeyBytes)
        ensures { held_in self.new ≡ filter (λ c. below (change_key c) key.now) (held_in self.old) }
    {
        let held = self.count;
        self.count = held - drop_from(&mut self.keys, key);
    }

    /// Adds each change to a list, by falling key and rising timestamp. After an `Err` the list is some list.
    pub fn list_all<'a>(&'a self, list: &mut Vec<&'a ChangeRecord>) -> Result<(), Memory>
        ensures { OnOk result (map (λ c. view_change c.now) list.new.items ≡ map (λ c. view_change c.now) list.old.items
            ++ reverse (held_in self.now)) }
    {
        for (_, stamps) in self.keys.iter().rev() {
            list_stamps(stamps, list)?;
        }
        Ok(())
    }
}
