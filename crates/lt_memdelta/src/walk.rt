//! A walk over versions: what is left of one key, and the keys behind it.

ghost use Rattle.std.specs.Prelude.{◌≡◌, ◌∷◌, [], MatchOption, IsTrue, length, false, ◌<◌};
ghost use Rattle.lt_memdelta.specs.Stamps.{rows_of};
ghost use Rattle.lt_memdelta.specs.Walks.{keyed_rest, keys_left, view_item, walk_rest};

use crate::change::{Change, Item, Stamps};
use lt_core::{KeyBytes, Ts};
use std::cmp::Reverse;
use std::collections::btree_map;

/// What is left of one key.
#[derive(Drop)]
pub(crate) struct Keyed<'a> {
    key: &'a KeyBytes,
    stamps: btree_map::Iter<'a, Reverse<Ts>, Change>,
}

/// What is left of one key, and the keys behind it.
#[derive(Drop)]
pub(crate) struct Walk<'a> {
    keyed: Option<Keyed<'a>>,
    keys: Option<btree_map::Range<'a, KeyBytes, Stamps>>,
}

impl<'a> Walk<'a> {
    /// A walk over nothing.
    pub(crate) fn none() -> Walk<'a>
        ensures { walk_rest result ≡ [] }
    {
        Walk {
            keyed: None,
            keys: None,
        }
    }

    /// A walk over the versions of these keys.
    pub(crate) fn over(keys: btree_map::Range<'a, KeyBytes, Stamps>) -> Walk<'a>
        ensures { walk_rest result ≡ rows_of keys.entry }
    {
        Walk {
            keyed: None,
            keys: Some(keys),
        }
    }

    /// The next version.
    pub(crate) fn next(&mut self) -> Option<Item<'a>>
        ensures { MatchOption result ((walk_rest self.old ≡ [])
            × (walk_rest self.new ≡ [])) (λ item. walk_rest self.old ≡ view_item item ∷ walk_rest self.new) }
    {
        'keys: loop {
            if let Some(item) = next_stamp(&mut self.keyed) {
                return Some(item);
            }
            if !self.next_key() {
                return None;
            }
        }
    }

    /// Goes on to the next key, and answers whether there is one.
    fn next_key(&mut self) -> bool
        requires { keyed_rest self.old.keyed ≡ [] }
        ensures rest { walk_rest self.new ≡ walk_rest self.old }
        ensures left { IsTrue result → keys_left self.new.keys < keys_left self.old.keys }
        ensures end { result ≡ false → walk_rest self.old ≡ [] }
    {
        let Some(keys) = &mut self.keys else {
            return false;
        };
        let Some((key, stamps)) = keys.next() else {
            return false;
        };
        self.keyed = Some(Keyed {
            key,
            stamps: stamps.iter(),
        });
        true
    }
}

/// The next version of one key.
fn next_stamp<'a>(keyed: &mut Option<Keyed<'a>>) -> Option<Item<'a>>
    ensures { MatchOption result ((keyed_rest keyed.old ≡ [])
        × (keyed_rest keyed.new ≡ [])) (λ item. keyed_rest keyed.old ≡ view_item item ∷ keyed_rest keyed.new) }
{
    let keyed = keyed.as_mut()?;
    let (stamp, change) = keyed.stamps.next()?;
    Some(Item {
        key: keyed.key,
        ts: stamp.0,
        change,
    })
}
