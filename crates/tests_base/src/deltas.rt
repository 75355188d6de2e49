//! Memory deltas: worked ones, and that calls succeed where there is memory. A row's key is its table and a number.

ghost use Rattle.std.specs.Prelude.{◌≡◌, ◌+◌, ◌<◌, ◌^◌, [], IsTrue, IfOk, OnOk, length};
ghost use Rattle.lt_tables.specs.Version.{is_version};
ghost use Rattle.lt_memdelta.specs.Deltas.{EachRow, table_in};
ghost use Rattle.tests_base.specs.Stands.{StandsBy};

use lt_core::{KeyBytes, List, Memory, Range};
use lt_memdelta::MemDelta;
use lt_terms::Op;
use lt_version::{RowVersion, Versions};
use std::test::Fail;

fn key(rt: HostRuntime, table: u8, number: u32) -> Result<KeyBytes, Memory>
    ensures { IfOk result (λ key. length key ≡ 8) }
{
    let [a, b, c, d] = number.to_be_bytes();
    List::from_slice(rt.alloc(), &[0, 0, 0, table, a, b, c, d])
}

/// The number that a key ends with.
fn number_in(key: &[u8]) -> u32 {
    match key.split_last_chunk::<4>() {
        Some((_, number)) => u32::from_be_bytes(*number),
        None => 0,
    }
}

/// Puts a row version that is later than all others, of which there are so many.
fn put(
    rt: HostRuntime,
    delta: &mut MemDelta,
    group: (u8, u32),
    number: u32,
    count: u64,
) -> Result<(), Memory>
    requires few { count < 2 ^ 32 }
    requires earlier { EachRow (StandsBy count) delta.old }
    ensures { OnOk result (EachRow (StandsBy (count + 1)) delta.new) }
{
    let row = RowVersion {
        key: key(rt, group.0, number)?,
        ts: count + 1,
        op: Op::Insert,
        cells: List::new(rt.alloc()),
    };
    Ok(delta.put(group.1, row)?)
}

/// The numbers and timestamps of a group's versions, as they are walked, from a number on and below another.
fn walked(
    rt: HostRuntime,
    delta: &MemDelta,
    group: (u8, u32),
    numbers: (u32, Option<u32>),
) -> Result<Vec<(u32, u64)>, Fail>
    requires { EachRow (λ w. IsTrue (is_version [] w)) delta.now }
{
    let layout = List::new(rt.alloc());
    let range = Range {
        low: key(rt, group.0, numbers.0)?,
        high: match numbers.1 {
            Some(high) => Some(key(rt, group.0, high)?),
            None => None,
        },
    };
    let mut versions = delta.iter(u32::from(group.0), group.1, &range, &layout);
    let mut seen = Vec::new(rt.alloc());
    for _ in 0..=delta.len() {
        let Some(head) = versions.head() else {
            return Ok(seen);
        };
        seen.push((number_in(head.key), head.ts))?;
        versions.advance()?;
    }
    Err("more versions than there are".into())
}

/// Whether these versions are walked.
fn walks(
    rt: HostRuntime,
    delta: &MemDelta,
    group: (u8, u32),
    numbers: (u32, Option<u32>),
    want: &[(u32, u64)],
) -> Result<bool, Fail>
    requires { EachRow (λ w. IsTrue (is_version [] w)) delta.now }
{
    Ok(walked(rt, delta, group, numbers)?.as_slice() == want)
}

/// Whether the numbers are 0, 1, 2, and so on.
fn are_counted(seen: &[(u32, u64)]) -> bool {
    for (i, (number, _)) in seen.iter().enumerate() {
        if *number as usize != i {
            return false;
        }
    }
    true
}

#[test]
fn rows_in_random_order_are_walked_in_order(rt: HostRuntime) -> Result<(), Fail> {
    const ROWS: u32 = 100_003;
    let mut delta = MemDelta::new(rt.alloc());
    for i in 0..ROWS {
        let number = (u64::from(i) * 7919 % u64::from(ROWS)) as u32;
        put(rt, &mut delta, (7, 1), number, u64::from(i))?;
    }
    assert!(rt; delta.len() == ROWS as usize);
    let seen = walked(rt, &delta, (7, 1), (0, None))?;
    assert!(rt; seen.len() == ROWS as usize && are_counted(&seen));
    Ok(())
}

/// A delta with rows of three groups, each at the timestamp of its place from 1 on.
fn three_groups(rt: HostRuntime) -> Result<MemDelta, Memory>
    ensures { IfOk result (EachRow (λ w. IsTrue (is_version [] w))) }
{
    let rows = [
        ((7, 1), 5),
        ((7, 1), 3),
        ((7, 2), 5),
        ((8, 1), 4),
        ((7, 1), 5),
        ((7, 2), 9),
    ];
    let mut delta = MemDelta::new(rt.alloc());
    for i in 0..rows.len() {
        let (group, number) = rows[i];
        put(rt, &mut delta, group, number, i as u64)?;
    }
    Ok(delta)
}

#[test]
fn a_group_has_its_own_rows_in_a_range(rt: HostRuntime) -> Result<(), Fail> {
    let delta = three_groups(rt)?;
    let shapes = [Some((7, 1)), Some((7, 2)), Some((8, 1)), None];
    for (i, shape) in shapes.iter().enumerate() {
        assert!(rt; delta.shape_at(i) == *shape, "at {i}");
    }
    let rows: [((u8, u32), (u32, Option<u32>), &[(u32, u64)]); 8] = [
        ((7, 1), (0, None), &[(3, 2), (5, 5), (5, 1)]),
        ((7, 2), (0, None), &[(5, 3), (9, 6)]),
        ((8, 1), (0, None), &[(4, 4)]),
        ((8, 2), (0, None), &[]),
        ((7, 1), (3, Some(5)), &[(3, 2)]),
        ((7, 1), (4, Some(6)), &[(5, 5), (5, 1)]),
        ((7, 1), (5, Some(5)), &[]),
        ((7, 1), (6, Some(2)), &[]),
    ];
    for (row, (group, numbers, want)) in rows.iter().enumerate() {
        assert!(rt; walks(rt, &delta, *group, *numbers, want)?, "at row {row}");
    }
    Ok(())
}

/// A name to remove, how many rows are left, and the third group then.
type Removed = ((u8, u32, u64), usize, Option<(u32, u32)>);

fn removes(rt: HostRuntime, delta: &mut MemDelta, row: &Removed) -> Result<bool, Memory> {
    let ((table, number, ts), left, third) = *row;
    delta.remove(&key(rt, table, number)?, ts);
    Ok(delta.len() == left && delta.shape_at(2) == third)
}

#[test]
fn a_row_that_is_removed_is_gone(rt: HostRuntime) -> Result<(), Fail> {
    let mut delta = three_groups(rt)?;
    let rows: [Removed; 5] = [
        ((7, 5, 2), 6, Some((8, 1))),
        ((9, 5, 1), 6, Some((8, 1))),
        ((7, 5, 5), 5, Some((8, 1))),
        ((8, 4, 4), 4, None),
        ((8, 4, 4), 4, None),
    ];
    for (row, removed) in rows.iter().enumerate() {
        assert!(rt; removes(rt, &mut delta, removed)?, "at row {row}");
    }
    Ok(())
}

#[test]
fn the_rows_from_a_key_on_move(rt: HostRuntime) -> Result<(), Fail> {
    let mut delta = three_groups(rt)?;
    let copy = delta.copy()?;
    let moved = delta.split_off(&key(rt, 7, 5)?)?;
    assert!(rt; walks(rt, &delta, (7, 1), (0, None), &[(3, 2)])?);
    assert!(rt; walks(rt, &moved, (7, 1), (0, None), &[(5, 5), (5, 1)])?);
    assert!(rt; walks(rt, &copy, (7, 1), (0, None), &[(3, 2), (5, 5), (5, 1)])?);
    assert!(rt; delta.len() == 1 && moved.len() == 5 && copy.len() == 6);
    assert!(rt; delta.shape_at(1).is_none() && moved.shape_at(2) == Some((8, 1)));
    delta.clear();
    assert!(rt; delta.len() == 0 && delta.shape_at(0).is_none());
    Ok(())
}
