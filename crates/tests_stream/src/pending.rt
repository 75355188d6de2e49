//! Changes in memory: that calls succeed where there is memory, and worked changes. A change's key is a number.

ghost use Rattle.std.specs.Prelude.{◌≡◌, IfOk};
ghost use Rattle.lt_terms.specs.Log.{change_key};
ghost use Rattle.lt_records.specs.View.{view_change};

use lt_core::{KeyBytes, KeyPart, List, Memory, Op, Ts, encode_prefix};
use lt_pending::{Changes, copy_change};
use lt_records::ChangeRecord;
use std::alloc::Global;
use std::test::Fail;

fn change(alloc: Global, number: i64, ts: Ts) -> Result<ChangeRecord, Memory> {
    let mut key = List::new(alloc);
    key.push(KeyPart::Int(number))?;
    Ok(ChangeRecord {
        ts,
        table: 7,
        version: 1,
        op: Op::Insert,
        key,
        set: List::new(alloc),
    })
}

fn key_of(alloc: Global, change: &ChangeRecord) -> Result<KeyBytes, Memory>
    ensures { IfOk result (λ key. key ≡ change_key (view_change change.now)) }
{
    encode_prefix(alloc, change.table, &change.key)
}

fn key(alloc: Global, number: i64) -> Result<KeyBytes, Memory> {
    key_of(alloc, &change(alloc, number, 1)?)
}

/// Puts a change, in place of one of the same name.
fn put(alloc: Global, changes: &mut Changes, number: i64, ts: Ts) -> Result<(), Memory> {
    let change = change(alloc, number, ts)?;
    let key = key_of(alloc, &change)?;
    changes.remove(&key, change.ts);
    changes.put(change, key)
}

fn number_in(change: &ChangeRecord) -> i64 {
    match change.key.as_slice() {
        [KeyPart::Int(number)] => *number,
        _ => -1,
    }
}

/// How many changes there are, and the number and timestamp of each, as they are listed.
fn tell(alloc: Global, changes: &Changes, told: &mut String) -> Result<(), Memory> {
    let mut list = Vec::new(alloc);
    changes.list_all(&mut list)?;
    let count = format!(in alloc; "{}:", changes.len())?;
    told.push_str(count.as_str())?;
    for change in list {
        tell_one(alloc, change, told)?;
    }
    told.push_str("\n")?;
    Ok(())
}

fn tell_one(alloc: Global, change: &ChangeRecord, told: &mut String) -> Result<(), Memory> {
    let number = number_in(change);
    let one = format!(in alloc; " {number}@{}", change.ts)?;
    told.push_str(one.as_str())?;
    Ok(())
}

/// Six changes of three keys.
fn three_keys(alloc: Global) -> Result<Changes, Memory> {
    let mut changes = Changes::new(alloc);
    for (number, ts) in [(5, 3), (-1, 8), (5, 9), (6, 1), (5, 4), (6, 7)] {
        put(alloc, &mut changes, number, ts)?;
    }
    Ok(changes)
}

/// A hundred keys of ten changes each.
fn hundred_keys(alloc: Global) -> Result<Changes, Memory> {
    let mut changes = Changes::new(alloc);
    for i in 0..1_000_u32 {
        let place = i * 7919 % 1_000;
        put(
            alloc,
            &mut changes,
            i64::from(place / 10),
            u64::from(place % 10),
        )?;
    }
    Ok(changes)
}

/// Whether the changes are those of the keys from 99 down, each with the timestamps 0 to 9, a thousand in all.
fn count_down(alloc: Global, changes: &Changes) -> Result<bool, Memory> {
    let mut list = Vec::new(alloc);
    changes.list_all(&mut list)?;
    let mut place = 0u32;
    for change in list {
        let number = 99i64.wrapping_sub(i64::from(place / 10));
        if number_in(change) != number || change.ts != u64::from(place % 10) {
            return Ok(false);
        }
        place = place.wrapping_add(1);
    }
    Ok(place == 1_000 && changes.len() == 1_000)
}

#[test]
fn changes_in_random_order_are_listed_in_order(rt: HostRuntime) -> Result<(), Fail> {
    let changes = hundred_keys(rt.alloc())?;
    assert!(rt; count_down(rt.alloc(), &changes)?);
    Ok(())
}

/// The six changes below a key, and those from it on, for the keys 5, 6, -1 and 7.
const SPLITS: &str = "\
1: -1@8
5: 6@1 6@7 5@3 5@4 5@9
4: 5@3 5@4 5@9 -1@8
2: 6@1 6@7
0:
6: 6@1 6@7 5@3 5@4 5@9 -1@8
6: 6@1 6@7 5@3 5@4 5@9 -1@8
0:
";

fn told_splits(alloc: Global) -> Result<String, Memory> {
    let mut told = String::new(alloc);
    for number in [5, 6, -1, 7] {
        let key = key(alloc, number)?;
        let mut lower = three_keys(alloc)?;
        let upper = lower.upper_of(&key)?;
        lower.keep_below(&key);
        tell(alloc, &lower, &mut told)?;
        tell(alloc, &upper, &mut told)?;
    }
    Ok(told)
}

#[test]
fn the_changes_from_a_key_on_are_copied_and_let_go(rt: HostRuntime) -> Result<(), Fail> {
    let told = told_splits(rt.alloc())?;
    assert_eq!(rt; told.as_str(), SPLITS);
    Ok(())
}

/// What is left without 5 at 4, then without 5 at 5, 4 at 4, -1 at 8, and again.
const LEFT: &str = "\
5: 6@1 6@7 5@3 5@9 -1@8
5: 6@1 6@7 5@3 5@9 -1@8
5: 6@1 6@7 5@3 5@9 -1@8
4: 6@1 6@7 5@3 5@9
4: 6@1 6@7 5@3 5@9
";

fn told_left(alloc: Global) -> Result<String, Memory> {
    let mut told = String::new(alloc);
    let mut changes = three_keys(alloc)?;
    for (number, ts) in [(5, 4), (5, 5), (4, 4), (-1, 8), (-1, 8)] {
        changes.remove(&key(alloc, number)?, ts);
        tell(alloc, &changes, &mut told)?;
    }
    Ok(told)
}

#[test]
fn a_change_that_is_removed_is_gone(rt: HostRuntime) -> Result<(), Fail> {
    let told = told_left(rt.alloc())?;
    assert_eq!(rt; told.as_str(), LEFT);
    Ok(())
}

fn told_copy(alloc: Global) -> Result<String, Memory> {
    let copy = copy_change(&change(alloc, 3, 2)?)?;
    let number = number_in(&copy);
    Ok(format!(in alloc; "{number}@{} {} {}", copy.ts, copy.table, copy.version)?)
}

#[test]
fn a_copy_is_listed_as_what_it_copies(rt: HostRuntime) -> Result<(), Fail> {
    let told = told_copy(rt.alloc())?;
    assert_eq!(rt; told.as_str(), "3@2 7 1");
    Ok(())
}
