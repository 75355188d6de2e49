//! Tests of entries and tables: that each is lawful, and that they rise. They take time linear in what they look at.

ghost use Rattle.std.specs.Prelude.{◌≡◌, map};
ghost use Rattle.std.specs.List.{list_all};
ghost use Rattle.lt_terms.specs.Key.{below};
ghost use Rattle.lt_storage.specs.Store.{entries_rise, is_entry};
ghost use Rattle.lt_terms.specs.Value.{rises_above, rises_strictly};
ghost use Rattle.lt_delta.specs.Entries as specs;
ghost use Rattle.lt_delta.specs.View.{view_entries, view_entry, view_tables};

use crate::index::{BundleEntry, Entries, TableIndex, TableIndexes};
use lt_core::{KeyBytes, MAX_KEY};

/// Whether there are entries, each is lawful, and they rise.
pub fn are_lawful(entries: &Entries) -> bool
    ensures { result ≡ specs.are_lawful (view_entries entries.now) }
{
    !entries.is_empty() && is_each_lawful(entries) && rise(entries)
}

fn is_each_lawful(entries: &Entries) -> bool
    ensures { result ≡ list_all is_entry (view_entries entries.now) }
{
    for entry in entries.as_slice() {
        if !is_lawful(entry) {
            return false;
        }
    }
    true
}

/// Whether an entry has versions, no more than bytes, and keys that are short and in order.
fn is_lawful(entry: &BundleEntry) -> bool
    ensures { result ≡ is_entry (view_entry entry.now) }
{
    // Any place and any timestamps do. Once they are read they are known to fit 64 bits.
    let _place = entry.place;
    let _least = entry.least;
    let _greatest = entry.greatest;
    0 < entry.versions
        && entry.versions <= entry.length
        && entry.first.len() <= MAX_KEY
        && entry.last.len() <= MAX_KEY
        && !is_below(&entry.last, &entry.first)
}

/// Whether each entry ends below the first key of the next one.
#[tactic(auto, using(crate::proofs::Entries::rise_behind))]
fn rise(entries: &Entries) -> bool
    ensures { result ≡ entries_rise (view_entries entries.now) }
{
    match entries.as_slice().split_first() {
        Some((first, rest)) => rise_from(&first.last, rest),
        None => true,
    }
}

/// Whether the entries rise behind one that ends with this key.
fn rise_from(key: &KeyBytes, entries: &[BundleEntry]) -> bool
    ensures { result ≡ specs.rises_from key.now (view_entries entries.now) }
{
    let mut last = key;
    for entry in entries {
        if !is_below(last, &entry.first) {
            return false;
        }
        last = &entry.last;
    }
    true
}

fn is_below(a: &KeyBytes, b: &KeyBytes) -> bool
    ensures { result ≡ below a.now b.now }
{
    a.as_slice().cmp(b.as_slice()).is_lt()
}

/// Whether the tables stand by rising number.
pub fn tables_rise(tables: &TableIndexes) -> bool
    ensures { result ≡ rises_strictly (map (λ t. t.table) (view_tables tables.now)) }
{
    match tables.as_slice().split_first() {
        Some((first, rest)) => rise_above(first.table, rest),
        None => true,
    }
}

fn rise_above(number: u32, tables: &[TableIndex]) -> bool
    ensures { result ≡ rises_above number (map (λ t. t.table) (view_tables tables.now)) }
{
    let mut low = number;
    for table in tables {
        if table.table <= low {
            return false;
        }
        low = table.table;
    }
    true
}
