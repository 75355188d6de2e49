//! All partitions, by rising low bound.
//!
//! `find` and `meeting` take time logarithmic in the partitions, `first_below` and `split` at most linear, the others but `copy`
//! constant.

ghost use Rattle.std.specs.Prelude.{◌≡◌, ◌≤◌, ◌<◌, ◌+◌, ◌∷◌, [], ℕ, IfErr, IfOk, None, OnErr, OnOk, length, slice_get};
ghost use Rattle.std.specs.Option.{option_copied};
ghost use Rattle.lt_tables.specs.Pump.{part_of};
ghost use Rattle.lt_tables.specs.Schema.{change_at};
ghost use Rattle.lt_parts.specs.Search.{IsInner};
ghost use Rattle.lt_parts.specs.Parts.{AreParts, HasKey, IsSplit, Meeting, checkpoints_of, first_below_in, interval, ranges, split_fault, view_refusal, whole_entry, with_times};

use crate::entry::PartEntry;
use crate::refusal::SplitRefusal;
use crate::search::{count_up_to, count_within, first_late, is_empty};
use lt_core::{KeyBytes, Memory, Ts};
use std::alloc::Global;
use std::marker::Model;

/// As many partitions may stand.
pub const MAX_PARTS: usize = 1024;

/// The partitions, which contracts see as the list of their entries.
#[derive(Debug, Drop)]
pub struct PartMap {
    entries: Vec<PartEntry>,
}

impl Model for PartMap {
    ghost use Rattle.std.specs.Prelude.{List};
    ghost use Rattle.lt_parts.specs.declared.entry.PartEntry.{PartEntry};
    ghost use Rattle.lt_parts.specs.Parts.{AreParts};

    ghost Value = { List PartEntry };

    ghost view = { λ m. m.entries.items };

    ghost invariant = { λ m. AreParts m.entries.items };
}

impl PartMap {
    /// One partition with all keys, from the beginning.
    pub fn whole(alloc: Global) -> Result<PartMap, Memory>
        ensures { IfOk result (λ m. m ≡ whole_entry ∷ []) }
    {
        let mut entries = Vec::new(alloc);
        entries.push(PartEntry {
            low: KeyBytes::new(alloc),
            resume: 0,
            checkpoint: 0,
        })?;
        Ok(PartMap { entries })
    }

    /// The partitions of these entries.
    pub fn of(entries: Vec<PartEntry>) -> PartMap
        requires { AreParts entries.items }
        ensures { result ≡ entries.items }
    {
        PartMap { entries }
    }

    /// How many partitions there are: from 1 to 1,024.
    pub fn len(&self) -> usize
        ensures count { result ≡ length self.now }
        ensures lawful { AreParts self.now }
    {
        self.entries.len()
    }

    /// A partition by its number; none from the length on.
    pub fn get(&self, part: usize) -> Option<&PartEntry>
        ensures entry { option_copied result ≡ slice_get self.now part }
        ensures lawful { AreParts self.now }
    {
        self.entries.get(part)
    }

    /// Sets up to when a partition is durable, and its checkpoint.
    pub fn set(&mut self, part: usize, resume: Ts, checkpoint: Ts)
        requires within { part < length self.old }
        requires order { resume ≤ checkpoint }
        ensures times { self.new ≡ change_at (with_times resume checkpoint) part self.old }
        ensures count { length self.new ≡ length self.old }
    {
        let entry = &mut self.entries[part];
        entry.resume = resume;
        entry.checkpoint = checkpoint;
    }

    /// The partition of a key.
    pub fn find(&self, key: &[u8]) -> usize
        ensures here { HasKey self.now key.now result }
        ensures only { (n : ℕ) → HasKey self.now key.now n → n ≡ result }
        ensures within { result < length self.now }
        ensures part { result ≡ part_of (ranges self.now) key.now }
    {
        count_up_to(&self.entries, key) - 1
    }

    /// The first partition that meets the keys from `low` to before `high`, and the one after the last. Where none meets
    /// them, twice 0.
    pub fn meeting(&self, low: &[u8], high: Option<&[u8]>) -> (usize, usize)
        ensures { Meeting self.now (interval low.now high.entry) result.0 result.1 }
    {
        if is_empty(low, high) {
            return (0, 0);
        }
        let first = self.find(low);
        (first, count_within(&self.entries, high))
    }

    /// The first partition that meets the keys from `low` to before `high` with a checkpoint below `at`, and that checkpoint.
    pub fn first_below(&self, low: &[u8], high: Option<&[u8]>, at: Ts) -> Option<(usize, Ts)>
        ensures { result ≡ first_below_in (ranges self.now) (checkpoints_of self.now) (interval low.now high.entry) at }
    {
        let (first, last) = self.meeting(low, high);
        first_late(&self.entries, first, last, at)
    }

    /// Splits the partition of a key there, and answers the number of the upper half. Both halves have the times of the
    /// whole. An `Err` changes nothing.
    pub fn split(&mut self, key: KeyBytes) -> Result<usize, SplitRefusal>
        ensures split { IfOk result (IsSplit self.old key self.new) }
        ensures part { IfOk result (λ n. n ≡ part_of (ranges self.old) key + 1) }
        ensures free { OnOk result (split_fault self.old key ≡ None) }
        ensures refused { IfErr result (λ e. split_fault self.old key ≡ view_refusal e) }
        ensures err { OnErr result (self.new ≡ self.old) }
    {
        let part = self.test_split(key.as_slice())?;
        let lower = &self.entries[part];
        let upper = PartEntry {
            low: key,
            resume: lower.resume,
            checkpoint: lower.checkpoint,
        };
        self.entries.insert(part + 1, upper)?;
        Ok(part + 1)
    }

    /// A copy equals what it copies.
    pub fn copy(&self) -> Result<PartMap, Memory>
        ensures { IfOk result (λ m. m ≡ self.now) }
    {
        let entries = copy_entries(&self.entries)?;
        Ok(PartMap { entries })
    }

    /// The partition that a key may split.
    fn test_split(&self, key: &[u8]) -> Result<usize, SplitRefusal>
        ensures inner { IfOk result (IsInner self.now key.now) }
        ensures free { OnOk result (split_fault self.now key.now ≡ None) }
        ensures refused { IfErr result (λ e. split_fault self.now key.now ≡ view_refusal e) }
    {
        let part = self.find(key);
        if self.entries[part].low.as_slice().cmp(key).is_eq() {
            return Err(SplitRefusal::AtEdge { part });
        }
        if self.entries.len() >= MAX_PARTS {
            return Err(SplitRefusal::TooManyParts);
        }
        Ok(part)
    }
}

fn copy_entries(entries: &Vec<PartEntry>) -> Result<Vec<PartEntry>, Memory>
    ensures { IfOk result (λ copies. copies.items ≡ entries.now.items) }
{
    let mut copies = Vec::new(*entries.allocator());
    for entry in entries {
        copies.push(entry.copy()?)?;
    }
    Ok(copies)
}
