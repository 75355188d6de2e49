//! Which bundles of a table meet a range of keys. Finding the table takes time linear in the tables, and its bundles time
//! logarithmic in them.

ghost use Rattle.std.specs.Prelude.{◌≡◌, ◌≤◌, length};
ghost use Rattle.std.specs.Option.{option_copied};
ghost use Rattle.lt_terms.specs.Key.{below, is_below_high};
ghost use Rattle.lt_version_laws.specs.Meets.{AreEntries};
ghost use Rattle.lt_delta.specs.Reading.{IsLawful};
ghost use Rattle.lt_delta.specs.Meeting.{BeginsAt, EndsAt, IsMeeting, entries_of, interval};
ghost use Rattle.lt_delta.specs.View.{view_entries, view_index};

use crate::index::{BundleEntry, DeltaIndex};

impl DeltaIndex {
    /// The first entry of the table whose key interval meets the range, and the one after the last; twice 0 where none meets.
    pub fn meeting(&self, table: u32, low: &[u8], high: Option<&[u8]>) -> (usize, usize)
        requires { IsLawful (view_index self.now) }
        ensures { IsMeeting (entries_of (view_index self.now) table) (interval low.now high.entry) result.0 result.1 }
    {
        if !is_below(low, high) {
            return (0, 0);
        }
        let entries = self.entries(table);
        let first = ended_below(entries, low);
        let end = begun_below(entries, high);
        if first < end { (first, end) } else { (0, 0) }
    }

    /// The entries of a table; none where the delta has nothing of it.
    fn entries(&self, table: u32) -> &[BundleEntry]
        ensures { view_entries result.now ≡ entries_of (view_index self.now) table }
    {
        for one in self.tables.as_slice() {
            if one.table == table {
                return one.entries.as_slice();
            }
        }
        &[]
    }
}

/// How many entries end below a key.
fn ended_below(entries: &[BundleEntry], low: &[u8]) -> usize
    requires { AreEntries (view_entries entries.now) }
    ensures within { result ≤ length entries.now }
    ensures parted { EndsAt low.now (view_entries entries.now) result }
{
    entries.partition_point(|entry| ends_below(entry, low))
}

/// How many entries begin below a bound, if there is one.
fn begun_below(entries: &[BundleEntry], high: Option<&[u8]>) -> usize
    requires { AreEntries (view_entries entries.now) }
    ensures within { result ≤ length entries.now }
    ensures parted { BeginsAt (option_copied high.entry) (view_entries entries.now) result }
{
    entries.partition_point(|entry| begins_below(entry, high))
}

fn ends_below(entry: &BundleEntry, low: &[u8]) -> bool
    ensures { result ≡ below entry.now.last low.now }
{
    entry.last.as_slice().cmp(low).is_lt()
}

fn begins_below(entry: &BundleEntry, high: Option<&[u8]>) -> bool
    ensures { result ≡ is_below_high entry.now.first (option_copied high.entry) }
{
    is_below(entry.first.as_slice(), high)
}

/// Whether a key is below a bound, if there is one.
fn is_below(key: &[u8], high: Option<&[u8]>) -> bool
    ensures { result ≡ is_below_high key.now (option_copied high.entry) }
{
    match high {
        None => true,
        Some(high) => key.cmp(high).is_lt(),
    }
}
