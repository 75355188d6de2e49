//! Partitions found by their bounds, in time logarithmic in the partitions, and by their checkpoints, in linear time.

ghost use Rattle.std.specs.Prelude.{◌≡◌, ◌≤◌, ◌<◌, ℕ, IfNone, IfSome, IsTrue, Some, length, nat_lt, not, slice_get};
ghost use Rattle.std.specs.Option.{option_copied};
ghost use Rattle.lt_terms.specs.Key.{below, is_below_high, rise};
ghost use Rattle.lt_parts.specs.declared.entry.PartEntry.{PartEntry};
ghost use Rattle.lt_parts.specs.Parts.{lows_of};
ghost use Rattle.lt_parts.specs.Search.{IsFirstBelow, NoneBelow};

use crate::entry::PartEntry;
use lt_core::Ts;

/// How many partitions begin at a key or below it.
pub fn count_up_to(entries: &[PartEntry], key: &[u8]) -> usize
    requires { IsTrue (rise (lows_of entries.now)) }
    ensures within { result ≤ length entries.now }
    ensures exact { (n : ℕ) (e : PartEntry) → slice_get entries.now n ≡ Some e
        → not (below key.now e.low) ≡ nat_lt n result }
{
    entries.partition_point(|entry| begins_up_to(entry, key))
}

/// How many partitions begin below a bound.
fn count_below(entries: &[PartEntry], bound: &[u8]) -> usize
    requires { IsTrue (rise (lows_of entries.now)) }
    ensures within { result ≤ length entries.now }
    ensures exact { (n : ℕ) (e : PartEntry) → slice_get entries.now n ≡ Some e
        → below e.low bound.now ≡ nat_lt n result }
{
    entries.partition_point(|entry| begins_below(entry, bound))
}

/// How many partitions begin below a bound, if there is one.
pub fn count_within(entries: &[PartEntry], high: Option<&[u8]>) -> usize
    requires { IsTrue (rise (lows_of entries.now)) }
    ensures within { result ≤ length entries.now }
    ensures exact { (n : ℕ) (e : PartEntry) → slice_get entries.now n ≡ Some e
        → is_below_high e.low (option_copied high.entry) ≡ nat_lt n result }
{
    match high {
        None => entries.len(),
        Some(high) => count_below(entries, high),
    }
}

/// The first of the partitions from `first` to before `last` with a checkpoint below `at`, and that checkpoint.
pub fn first_late(entries: &[PartEntry], first: usize, last: usize, at: Ts) -> Option<(usize, Ts)>
    requires { last ≤ length entries.now }
    ensures some { IfSome result (λ x. IsFirstBelow entries.now first last at x.0 x.1) }
    ensures none { IfNone result (NoneBelow entries.now first last at) }
{
    for part in first..last {
        let checkpoint = entries[part].checkpoint;
        if checkpoint < at {
            return Some((part, checkpoint));
        }
    }
    None
}

/// Whether an interval has no keys.
pub fn is_empty(low: &[u8], high: Option<&[u8]>) -> bool
    ensures { result ≡ not (is_below_high low.now (option_copied high.entry)) }
{
    match high {
        None => false,
        Some(high) => !low.cmp(high).is_lt(),
    }
}

fn begins_up_to(entry: &PartEntry, key: &[u8]) -> bool
    ensures { result ≡ not (below key.now entry.now.low) }
{
    !key.cmp(entry.low.as_slice()).is_lt()
}

fn begins_below(entry: &PartEntry, bound: &[u8]) -> bool
    ensures { result ≡ below entry.now.low bound.now }
{
    entry.low.as_slice().cmp(bound).is_lt()
}
