//! Numbers in order. A look-up takes logarithmic time, and each other call linear time, besides a sort.

ghost use Rattle.std.specs.Prelude.{◌≡◌, ◌==◌, IfOk, IsTrue, flat_map, map};
ghost use Rattle.std.specs.List.{list_any};
ghost use Rattle.lt_terms.specs.Value.{rises_above, rises_strictly};
ghost use Rattle.lt_manifest.specs.View.{view_delta, view_part};
ghost use Rattle.lt_manifest.specs.Rules.{DoesRise, SameMembers};

use crate::stored::{DeltaStored, PartStored};
use lt_core::Memory;
use std::alloc::Global;

/// Whether numbers rise strictly.
pub fn rise(numbers: &[u64]) -> bool
    ensures { result ≡ rises_strictly numbers.now }
{
    match numbers.split_first() {
        None => true,
        Some((first, rest)) => rise_above(*first, rest),
    }
}

/// Whether numbers rise strictly, all above a number.
fn rise_above(low: u64, numbers: &[u64]) -> bool
    ensures { result ≡ rises_above low numbers.now }
{
    let mut last = low;
    for number in numbers {
        if *number <= last {
            return false;
        }
        last = *number;
    }
    true
}

/// Whether a number is among some, which do not fall.
pub fn is_among(numbers: &[u64], number: u64) -> bool
    requires { DoesRise numbers.now }
    ensures { result ≡ list_any (λ n. n == number) numbers.now }
{
    numbers.binary_search(&number).is_ok()
}

/// The ids of deltas.
pub fn ids_of(alloc: Global, deltas: &[DeltaStored]) -> Result<Vec<u64>, Memory>
    ensures { IfOk result (λ ids. ids.items ≡ map (λ d. d.0) (map view_delta deltas.now)) }
{
    let mut ids = Vec::new(alloc);
    for delta in deltas {
        ids.push(delta.id)?;
    }
    Ok(ids)
}

/// The ids in partitions, in order.
#[tactic(auto, using(crate::proofs::Numbers::shuffled))]
pub fn listed_ids(alloc: Global, parts: &[PartStored]) -> Result<Vec<u64>, Memory>
    ensures rise { IfOk result (λ ids. DoesRise ids.items) }
    ensures same { IfOk result (λ ids. SameMembers ids.items (flat_map (λ p. p.ids) (map view_part parts.now))) }
{
    let mut ids = joined_ids(alloc, parts)?;
    ids.sort_unstable();
    Ok(ids)
}

/// The ids in partitions, one partition behind the other.
fn joined_ids(alloc: Global, parts: &[PartStored]) -> Result<Vec<u64>, Memory>
    ensures { IfOk result (λ ids. ids.items ≡ flat_map (λ p. p.ids) (map view_part parts.now)) }
{
    let mut ids = Vec::new(alloc);
    for part in parts {
        ids.extend_from_slice(part.deltas.as_slice())?;
    }
    Ok(ids)
}
