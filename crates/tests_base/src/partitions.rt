//! Partitions: worked keys, and that calls succeed where there is memory.

use lt_core::KeyBytes;
use lt_parts::{PartMap, SplitRefusal};
use std::alloc::Global;
use std::test::Fail;

/// What a split answers: the number of the upper half, or the partition whose low bound the key is.
#[derive(Clone, Copy, PartialEq, Eq)]
enum Answer {
    Upper(usize),
    AtEdge(usize),
    TooMany,
    OutOfMemory,
}

use Answer::*;

fn split(alloc: Global, map: &mut PartMap, key: &[u8]) -> Answer {
    let Ok(key) = KeyBytes::from_slice(alloc, key) else {
        return OutOfMemory;
    };
    match map.split(key) {
        Ok(part) => Upper(part),
        Err(SplitRefusal::AtEdge { part }) => AtEdge(part),
        Err(SplitRefusal::TooManyParts) => TooMany,
        Err(SplitRefusal::Memory) => OutOfMemory,
    }
}

/// The first of these rows at which a split answers otherwise.
fn other_answer(alloc: Global, map: &mut PartMap, rows: &[(&[u8], Answer)]) -> Option<usize> {
    for (row, (key, want)) in rows.iter().enumerate() {
        if split(alloc, map, key) != *want {
            return Some(row);
        }
    }
    None
}

/// Whether a partition begins at this bound, and has the times 4 and 7.
fn begins_at(map: &PartMap, part: usize, low: &[u8]) -> bool {
    match map.get(part) {
        Some(entry) => entry.low.as_slice() == low && entry.resume == 4 && entry.checkpoint == 7,
        None => false,
    }
}

#[test]
fn a_split_gives_the_upper_half(rt: HostRuntime) -> Result<(), Fail> {
    let mut map = PartMap::whole(rt.alloc())?;
    map.set(0, 4, 7);
    let rows: [(&[u8], Answer); 7] = [
        (&[3], Upper(1)),
        (&[3], AtEdge(1)),
        (&[], AtEdge(0)),
        (&[0], Upper(1)),
        (&[3], AtEdge(2)),
        (&[255], Upper(3)),
        (&[3, 0], Upper(3)),
    ];
    let row = other_answer(rt.alloc(), &mut map, &rows);
    assert!(rt; row.is_none(), "at row {row:?}");
    let lows: [&[u8]; 5] = [&[], &[0], &[3], &[3, 0], &[255]];
    assert!(rt; map.len() == lows.len());
    for (part, low) in lows.iter().enumerate() {
        assert!(rt; begins_at(&map, part, low), "of partition {part}");
    }
    Ok(())
}

#[test]
fn a_key_has_the_partition_that_begins_at_it_or_below(rt: HostRuntime) -> Result<(), Fail> {
    let mut map = PartMap::whole(rt.alloc())?;
    let bounds: [(&[u8], Answer); 3] = [(&[3], Upper(1)), (&[7, 0], Upper(2)), (&[7, 1], Upper(3))];
    assert!(rt; other_answer(rt.alloc(), &mut map, &bounds).is_none());
    let rows: [(&[u8], usize); 8] = [
        (&[], 0),
        (&[2, 255], 0),
        (&[3], 1),
        (&[3, 0], 1),
        (&[7], 1),
        (&[7, 0], 2),
        (&[7, 0, 255], 2),
        (&[255], 3),
    ];
    for (row, (key, want)) in rows.iter().enumerate() {
        assert!(rt; map.find(key) == *want, "at row {row}");
    }
    Ok(())
}

/// An interval, the partitions that meet it, and the first of these whose checkpoint is below 6.
type Met = (
    &'static [u8],
    Option<&'static [u8]>,
    (usize, usize),
    Option<(usize, u64)>,
);

/// Whether it is so; no partition has a checkpoint below 4.
fn is_met(map: &PartMap, row: &Met) -> bool {
    let (low, high, met, late) = *row;
    map.meeting(low, high) == met
        && map.first_below(low, high, 6) == late
        && map.first_below(low, high, 4).is_none()
}

#[test]
fn partitions_meet_an_interval_up_to_its_bounds(rt: HostRuntime) -> Result<(), Fail> {
    let mut map = PartMap::whole(rt.alloc())?;
    let bounds: [(&[u8], Answer); 2] = [(&[3], Upper(1)), (&[7], Upper(2))];
    assert!(rt; other_answer(rt.alloc(), &mut map, &bounds).is_none());
    assert!(rt; map.len() == 3);
    map.set(0, 0, 9);
    map.set(1, 0, 5);
    map.set(2, 0, 4);
    let rows: [Met; 9] = [
        (&[], None, (0, 3), Some((1, 5))),
        (&[], Some(&[3]), (0, 1), None),
        (&[], Some(&[3, 0]), (0, 2), Some((1, 5))),
        (&[3], Some(&[7]), (1, 2), Some((1, 5))),
        (&[6], Some(&[8]), (1, 3), Some((1, 5))),
        (&[7], None, (2, 3), Some((2, 4))),
        (&[3], Some(&[3]), (0, 0), None),
        (&[8], Some(&[2]), (0, 0), None),
        (&[], Some(&[]), (0, 0), None),
    ];
    for (row, met) in rows.iter().enumerate() {
        assert!(rt; is_met(&map, met), "at row {row}");
    }
    Ok(())
}

/// Splits at each number of two bytes below 1,024; answers the first where the upper half has another number.
fn split_whole(alloc: Global, map: &mut PartMap) -> Option<u16> {
    for n in 1..1024u16 {
        if split(alloc, map, &n.to_be_bytes()) != Upper(usize::from(n)) {
            return Some(n);
        }
    }
    None
}

#[test]
fn at_the_limit_no_more_are_split(rt: HostRuntime) -> Result<(), Fail> {
    let mut map = PartMap::whole(rt.alloc())?;
    assert!(rt; split_whole(rt.alloc(), &mut map).is_none());
    let rows: [(&[u8], Answer); 3] = [
        (&[0, 7], AtEdge(7)),
        (&[0, 7, 0], TooMany),
        (&[], AtEdge(0)),
    ];
    assert!(rt; other_answer(rt.alloc(), &mut map, &rows).is_none());
    let copy = map.copy()?;
    assert!(rt; copy.len() == 1024 && copy.find(&[3, 255]) == 1023);
    Ok(())
}
