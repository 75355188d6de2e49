//! The check of a stream, where no program shows it: points, and the test of a record beside taking it.

use lt_core::{KeyPart, List, Memory, Op, Range, Settings, Text, Ts, Value, encode_prefix};
use lt_fair::{Checker, Point, TakeRefusal, Unfair, Window};
use lt_records::{ChangeRecord, LogRecord, StreamHeader};
use lt_schema::Catalogue;
use lt_schema_json::read_version;
use std::alloc::Global;
use std::test::Fail;

/// A record of a worked list. Changes are of table 1 under version 1, at a timestamp, with one number as key.
#[derive(Clone, Copy)]
enum Item {
    /// All columns, 10 and "x".
    Insert(Ts, i64),
    /// The first column.
    Update(Ts, i64),
    Delete(Ts, i64),
    Checkpoint(Ts),
}

/// Table 1, named t: a number as key, the columns a, a number, and b, a text.
const VERSION: &[u8] =
    br#"{"table":"t","number":1,"version":1,"key":[["id","int64"]],"columns":[{"number":1,"name":"a","kind":"int64"},{"number":2,"name":"b","kind":"text"}]}"#;

fn catalogue(alloc: Global) -> Result<Catalogue, Memory> {
    let mut catalogue = Catalogue::new(alloc);
    let Ok(version) = read_version(alloc, VERSION) else {
        return Err(Memory);
    };
    match catalogue.add(version) {
        Ok(()) => Ok(catalogue),
        Err(_) => Err(Memory),
    }
}

/// Stream 0 over all keys.
fn header(alloc: Global) -> StreamHeader {
    StreamHeader {
        stream: 0,
        range: Range {
            low: List::new(alloc),
            high: None,
        },
    }
}

fn number_key(alloc: Global, number: i64) -> Result<List<KeyPart>, Memory> {
    let mut key = List::new(alloc);
    key.push(KeyPart::Int(number))?;
    Ok(key)
}

fn settings(alloc: Global, op: Op) -> Result<Settings, Memory> {
    let mut set = List::new(alloc);
    match op {
        Op::Insert => {
            set.push((1, Value::Int(10)))?;
            set.push((2, Value::Text(text(alloc)?)))?;
        }
        Op::Update => set.push((1, Value::Int(1)))?,
        Op::Delete => {}
    }
    Ok(set)
}

fn text(alloc: Global) -> Result<Text, Memory> {
    match Text::from_slice(alloc, b"x") {
        Ok(text) => Ok(text),
        Err(_) => Err(Memory),
    }
}

fn change(alloc: Global, op: Op, ts: Ts, key: i64) -> Result<LogRecord, Memory> {
    let set = settings(alloc, op)?;
    let key = number_key(alloc, key)?;
    Ok(LogRecord::Change(ChangeRecord {
        ts,
        table: 1,
        version: 1,
        op,
        key,
        set,
    }))
}

fn record_of(alloc: Global, item: Item) -> Result<LogRecord, Memory> {
    match item {
        Item::Insert(ts, key) => change(alloc, Op::Insert, ts, key),
        Item::Update(ts, key) => change(alloc, Op::Update, ts, key),
        Item::Delete(ts, key) => change(alloc, Op::Delete, ts, key),
        Item::Checkpoint(ts) => Ok(LogRecord::Checkpoint(ts)),
    }
}

/// What is answered to a record.
fn take(
    alloc: Global,
    cat: &Catalogue,
    checker: &mut Checker,
    item: Item,
) -> Result<Option<TakeRefusal>, Memory> {
    let record = record_of(alloc, item)?;
    Ok(checker.take(cat, &record).err())
}

/// Takes items up to the first that is refused: whether there is none.
fn take_all(
    alloc: Global,
    cat: &Catalogue,
    checker: &mut Checker,
    items: &[Item],
) -> Result<bool, Memory> {
    for item in items {
        if take(alloc, cat, checker, *item)?.is_some() {
            return Ok(false);
        }
    }
    Ok(true)
}

/// The checkpoint and the greatest timestamp of a point, and then the timestamps of its window.
fn shown(alloc: Global, point: &Point) -> Result<String, Memory> {
    let mut shown = format!(in alloc; "{} {}:", point.checkpoint, point.greatest)?;
    for (_, ts) in point.window.as_slice() {
        let ts = format!(in alloc; " {ts}")?;
        shown.push_str(ts.as_str())?;
    }
    Ok(shown)
}

/// A fair list: its last checkpoint is 6, and above it stand changes at 8, 7 and 9 of the keys 1, 2 and 3.
const FAIR: [Item; 8] = [
    Item::Insert(3, 1),
    Item::Insert(5, 2),
    Item::Checkpoint(4),
    Item::Update(7, 2),
    Item::Delete(6, 4),
    Item::Checkpoint(6),
    Item::Insert(9, 3),
    Item::Update(8, 1),
];

/// The point behind a list that is cut and goes on from a copy of the point at the cut.
fn cut_and_gone_on(
    alloc: Global,
    cat: &Catalogue,
    front: &[Item],
    rest: &[Item],
) -> Result<String, Memory> {
    let mut first = Checker::new(header(alloc));
    let fair = take_all(alloc, cat, &mut first, front)?;
    let mut second = Checker::at(header(alloc), first.point()?.copy()?);
    let goes_on = take_all(alloc, cat, &mut second, rest)?;
    if fair && goes_on {
        shown(alloc, &second.point()?)
    } else {
        Ok(format!(in alloc; "refused")?)
    }
}

#[test]
fn every_cut_goes_on(rt: HostRuntime) -> Result<(), Fail> {
    let cat = catalogue(rt.alloc())?;
    for cut in 0..=FAIR.len() {
        let (front, rest) = FAIR.split_at(cut);
        let point = cut_and_gone_on(rt.alloc(), &cat, front, rest)?;
        assert_eq!(rt; point.as_str(), "6 9: 8 7 9");
    }
    Ok(())
}

/// The check of a stream with the keys 1 to 100 at 101 to 200.
fn hundred(alloc: Global, cat: &Catalogue) -> Result<Checker, Memory> {
    let mut checker = Checker::new(header(alloc));
    for key in 1..=100u64 {
        let _refused = take(
            alloc,
            cat,
            &mut checker,
            Item::Insert(key + 100, key as i64),
        )?;
    }
    Ok(checker)
}

/// Whether the keys below this one of 100 were put back, 300 above their number, and those above it still stand.
fn is_put_back(window: &Window, key: u64) -> bool {
    let mut place = 1u64;
    for (_, ts) in window.as_slice() {
        let above = if place < key { 300 } else { 101 };
        if *ts != place.wrapping_add(above) {
            return false;
        }
        place = place.wrapping_add(1);
    }
    place == 100
}

/// Whether a checkpoint lets a key go, and a change puts it back.
fn goes_and_comes(
    alloc: Global,
    cat: &Catalogue,
    checker: &mut Checker,
    key: u8,
) -> Result<bool, Memory> {
    let number = u64::from(key);
    let item = Item::Checkpoint(number.wrapping_add(100));
    let gone = take(alloc, cat, checker, item)?.is_none();
    let point = checker.point()?;
    let update = Item::Update(number.wrapping_add(300), i64::from(key));
    let back = take(alloc, cat, checker, update)?.is_none();
    Ok(gone && back && is_put_back(&point.window, number))
}

/// The keys 1 to 100 stand at 101 to 200. Each checkpoint lets one of them go, and a change puts it back.
#[test]
fn many_checkpoints(rt: HostRuntime) -> Result<(), Fail> {
    let cat = catalogue(rt.alloc())?;
    let mut checker = hundred(rt.alloc(), &cat)?;
    for key in 1..=100u8 {
        assert!(rt; goes_and_comes(rt.alloc(), &cat, &mut checker, key)?);
    }
    Ok(())
}

/// A point whose keys do not rise, which no check makes.
fn fallen(alloc: Global) -> Result<Point, Memory> {
    let second = encode_prefix(alloc, 1, &number_key(alloc, 2)?)?;
    let first = encode_prefix(alloc, 1, &number_key(alloc, 1)?)?;
    let mut window = List::new(alloc);
    window.push((second, 7))?;
    window.push((first, 9))?;
    Ok(Point {
        checkpoint: 6,
        greatest: 9,
        window,
    })
}

fn told_fallen(alloc: Global, cat: &Catalogue) -> Result<String, Memory> {
    let mut checker = Checker::at(header(alloc), fallen(alloc)?);
    let items = [Item::Insert(8, 2), Item::Delete(10, 3)];
    let taken = take_all(alloc, cat, &mut checker, &items)?;
    let refused = take(alloc, cat, &mut checker, Item::Update(9, 1))?;
    let shown = shown(alloc, &checker.point()?)?;
    Ok(format!(in alloc; "{taken}, {refused:?}, {shown}")?)
}

#[test]
fn any_point_goes_on(rt: HostRuntime) -> Result<(), Fail> {
    let cat = catalogue(rt.alloc())?;
    let told = told_fallen(rt.alloc(), &cat)?;
    assert_eq!(rt;
        told.as_str(),
        "true, Some(Unfair(Order { last: 9 })), 6 10: 8 9 10"
    );
    Ok(())
}

/// What `test`, and then `take` twice, answer to a change at the checkpoint.
fn told_late(alloc: Global, cat: &Catalogue) -> Result<String, Memory> {
    let mut checker = Checker::new(header(alloc));
    let items = [Item::Insert(5, 1), Item::Checkpoint(6)];
    let taken = take_all(alloc, cat, &mut checker, &items)?;
    let record = record_of(alloc, Item::Insert(6, 2))?;
    let tested = checker.test(cat, &record);
    let refused = checker.take(cat, &record);
    let again = checker.take(cat, &record);
    let same = tested == refused && refused == again;
    Ok(format!(in alloc; "{taken} {same} {refused:?}")?)
}

#[test]
fn a_record_is_tested_as_it_is_taken(rt: HostRuntime) -> Result<(), Fail> {
    let cat = catalogue(rt.alloc())?;
    let told = told_late(rt.alloc(), &cat)?;
    assert_eq!(rt;
        told.as_str(),
        "true true Err(Unfair(Late { checkpoint: 6 }))"
    );
    Ok(())
}

#[test]
fn refusals_print(rt: HostRuntime) -> Result<(), Fail> {
    let refusal = TakeRefusal::Unfair(Unfair::Late { checkpoint: 6 });
    let shown = format!(in rt.alloc(); "{refusal}")?;
    assert_eq!(rt; shown.as_str(), "not above the checkpoint 6");
    Ok(())
}
