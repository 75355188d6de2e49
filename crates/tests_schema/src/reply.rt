//! Replies and refusals: the printed lines, and that calls succeed where there is memory.

ghost use Rattle.lt_reply.specs.View.{IsCause, IsSpoken};

use lt_core::{Blob, Fields, List, Memory, Row, Text, Value};
use lt_fair::Unfair;
use lt_pump::Stop;
use lt_reply::{
    Cause, DeltaLine, PartLine, PartLines, Refusal, Reply, StreamLine, refusal_text, reply_text,
    rows_text,
};
use lt_schema::{SchemaRefusal, SchemaVersion};
use lt_schema_json::{Field, JsonRefusal, read_version};
use lt_terms::{BadFrame, Progress};
use std::alloc::Global;
use std::test::Fail;

fn text(alloc: Global, text: &str) -> Result<Text, Memory> {
    match Text::from_slice(alloc, text.as_bytes()) {
        Ok(text) => Ok(text),
        Err(_) => Err(Memory),
    }
}

/// A name with characters that are escaped.
fn name(alloc: Global) -> Result<Text, Memory> {
    text(alloc, "q\"\\\n\u{1}é")
}

/// A line that was told, as text.
fn shown(line: &Blob) -> &str {
    str::from_utf8(line.as_slice()).unwrap_or("no text")
}

fn put(told: &mut String, line: &Blob) -> Result<(), Memory> {
    told.push_str(shown(line))?;
    Ok(())
}

/// The line of a reply. Nothing else holds one, since what lets a reply or a refusal go is dear to prove.
fn answered(alloc: Global, reply: Reply) -> Result<Blob, Memory> {
    reply_text(alloc, &reply)
}

/// The line of a refusal.
fn refused(alloc: Global, refusal: Refusal) -> Result<Blob, Memory>
    requires { IsSpoken refusal }
{
    refusal_text(alloc, &refusal)
}

/// Why pumps stop, in the order of their lines.
const STOPS: [Stop; 14] = [
    Stop::Count,
    Stop::End,
    Stop::Partial,
    Stop::Malformed(BadFrame::Kind(255)),
    Stop::Malformed(BadFrame::Length(4294967295)),
    Stop::Malformed(BadFrame::Body),
    Stop::Unfair(Unfair::SecondHeader),
    Stop::Unfair(Unfair::Range),
    Stop::Unfair(Unfair::UnknownTable { number: 3 }),
    Stop::Unfair(Unfair::UnknownVersion { version: 4 }),
    Stop::Unfair(Unfair::Shape),
    Stop::Unfair(Unfair::Late { checkpoint: 5 }),
    Stop::Unfair(Unfair::Order { last: 6 }),
    Stop::Unfair(Unfair::Backward { checkpoint: 7 }),
];

const PUMPS: &str = "\
ok pump 1 records 2 offset 84 checkpoint 9223372036854775807 stop Count
ok pump 1 records 2 offset 84 checkpoint 9223372036854775807 stop End
ok pump 1 records 2 offset 84 checkpoint 9223372036854775807 stop Partial
ok pump 1 records 2 offset 84 checkpoint 9223372036854775807 stop Malformed Kind 255
ok pump 1 records 2 offset 84 checkpoint 9223372036854775807 stop Malformed Length 4294967295
ok pump 1 records 2 offset 84 checkpoint 9223372036854775807 stop Malformed Body
ok pump 1 records 2 offset 84 checkpoint 9223372036854775807 stop SecondHeader
ok pump 1 records 2 offset 84 checkpoint 9223372036854775807 stop Range
ok pump 1 records 2 offset 84 checkpoint 9223372036854775807 stop UnknownTable 3
ok pump 1 records 2 offset 84 checkpoint 9223372036854775807 stop UnknownVersion 4
ok pump 1 records 2 offset 84 checkpoint 9223372036854775807 stop Shape
ok pump 1 records 2 offset 84 checkpoint 9223372036854775807 stop Late 5
ok pump 1 records 2 offset 84 checkpoint 9223372036854775807 stop Order 6
ok pump 1 records 2 offset 84 checkpoint 9223372036854775807 stop Backward 7
";

fn told_pumps(alloc: Global) -> Result<String, Memory> {
    let mut told = String::new(alloc);
    for stop in STOPS {
        let reply = Reply::Pump {
            stream: 1,
            records: 2,
            offset: 84,
            checkpoint: 9223372036854775807,
            stop,
        };
        put(&mut told, &answered(alloc, reply)?)?;
    }
    Ok(told)
}

#[test]
fn pumps(rt: HostRuntime) -> Result<(), Fail> {
    let told = told_pumps(rt.alloc())?;
    assert_eq!(rt; told.as_str(), PUMPS);
    Ok(())
}

/// Replies of one line, in the order of their lines.
fn reply(alloc: Global, which: usize) -> Result<Reply, Memory> {
    Ok(match which {
        0 => Reply::Schema {
            table: text(alloc, "gen")?,
            version: 1,
        },
        1 => Reply::Retire {
            table: text(alloc, "gen")?,
            version: 20,
        },
        2 => Reply::Flush {
            part: 0,
            resume: 6,
            delta: Some(0),
        },
        3 => Reply::Flush {
            part: 2,
            resume: 8,
            delta: None,
        },
        4 => Reply::Compact {
            part: 0,
            inputs: 2,
            delta: Some(3),
        },
        5 => Reply::Compact {
            part: 1,
            inputs: 1,
            delta: None,
        },
        6 => Reply::JobBegin { part: 0, inputs: 1 },
        7 => Reply::JobStep(Progress::More),
        8 => Reply::JobStep(Progress::Done),
        9 => Reply::JobFinish { delta: Some(2) },
        10 => Reply::JobFinish { delta: None },
        11 => Reply::JobDrop,
        12 => Reply::Split { upper: 1 },
        13 => Reply::Retain { at: 9 },
        14 => Reply::Scan { rows: 4 },
        15 => Reply::Page { rows: 1 },
        _ => Reply::Reopen,
    })
}

const REPLIES: &str = "\
ok schema gen 1
ok retire gen 20
ok flush 0 resume 6 delta 0
ok flush 2 resume 8 delta none
ok compact 0 inputs 2 delta 3
ok compact 1 inputs 1 delta none
ok job begin 0 inputs 1
ok job step more
ok job step done
ok job finish delta 2
ok job finish delta none
ok job drop
ok split 1
ok retain 9
ok scan 4
ok page 1
ok reopen
";

fn told_replies(alloc: Global) -> Result<String, Memory> {
    let mut told = String::new(alloc);
    for which in 0..17 {
        put(&mut told, &answered(alloc, reply(alloc, which)?)?)?;
    }
    Ok(told)
}

#[test]
fn replies(rt: HostRuntime) -> Result<(), Fail> {
    let told = told_replies(rt.alloc())?;
    assert_eq!(rt; told.as_str(), REPLIES);
    Ok(())
}

const DELTAS: &str = "delta 1 bundles 1 versions 1 least 5 greatest 5
delta 3 bundles 1 versions 2 least 3 greatest 9
ok deltas 2
";

fn told_deltas(alloc: Global) -> Result<Blob, Memory> {
    let first = DeltaLine {
        id: 1,
        bundles: 1,
        versions: 1,
        least: 5,
        greatest: 5,
    };
    let second = DeltaLine {
        id: 3,
        bundles: 1,
        versions: 2,
        least: 3,
        greatest: 9,
    };
    let lines = List::from_slice(alloc, &[first, second])?;
    answered(alloc, Reply::Deltas { lines })
}

#[test]
fn deltas(rt: HostRuntime) -> Result<(), Fail> {
    let told = told_deltas(rt.alloc())?;
    assert_eq!(rt; shown(&told), DELTAS);
    Ok(())
}

/// A fresh store with one stream of 18 bytes.
const FRESH: &str = "minimum 0
partition 0 low - resume 0 checkpoint 0 pending 0 deltas 0
stream 0 offset 18 checkpoint 0
job none
ok status
";

fn told_fresh(alloc: Global) -> Result<Blob, Memory> {
    let part = PartLine {
        low: List::new(alloc),
        resume: 0,
        checkpoint: 0,
        pending: 0,
        deltas: 0,
    };
    let stream = StreamLine {
        stream: 0,
        offset: 18,
        checkpoint: 0,
    };
    let reply = Reply::Status {
        minimum: 0,
        parts: List::from_vec(Vec::from_array(alloc, [part])?),
        streams: List::from_vec(Vec::from_array(alloc, [stream])?),
        job: None,
    };
    answered(alloc, reply)
}

#[test]
fn status_of_a_fresh_store(rt: HostRuntime) -> Result<(), Fail> {
    let told = told_fresh(rt.alloc())?;
    assert_eq!(rt; shown(&told), FRESH);
    Ok(())
}

const TWO_OF_EACH: &str = "minimum 3
partition 0 low - resume 8 checkpoint 9 pending 1 deltas 2
partition 1 low 000000018000000000000003 resume 5 checkpoint 6 pending 0 deltas 1
stream 0 offset 243 checkpoint 5
stream 1 offset 18446744073709551615 checkpoint 9223372036854775807
job more
ok status
";

/// Two partitions, the upper one from key 3 of table 1 on.
fn two_parts(alloc: Global) -> Result<PartLines, Memory> {
    let lower = PartLine {
        low: List::new(alloc),
        resume: 8,
        checkpoint: 9,
        pending: 1,
        deltas: 2,
    };
    let upper = PartLine {
        low: List::from_slice(alloc, &[0, 0, 0, 1, 128, 0, 0, 0, 0, 0, 0, 3])?,
        resume: 5,
        checkpoint: 6,
        pending: 0,
        deltas: 1,
    };
    Ok(List::from_vec(Vec::from_array(alloc, [lower, upper])?))
}

fn told_two(alloc: Global) -> Result<Blob, Memory> {
    let first = StreamLine {
        stream: 0,
        offset: 243,
        checkpoint: 5,
    };
    let second = StreamLine {
        stream: 1,
        offset: 18446744073709551615,
        checkpoint: 9223372036854775807,
    };
    let reply = Reply::Status {
        minimum: 3,
        parts: two_parts(alloc)?,
        streams: List::from_vec(Vec::from_array(alloc, [first, second])?),
        job: Some(Progress::More),
    };
    answered(alloc, reply)
}

#[test]
fn status_of_two_partitions_and_streams(rt: HostRuntime) -> Result<(), Fail> {
    let told = told_two(rt.alloc())?;
    assert_eq!(rt; shown(&told), TWO_OF_EACH);
    Ok(())
}

/// The refusals that keep no name, in the order of their lines.
fn refusal(which: usize) -> Refusal
    ensures { IsSpoken result }
{
    match which {
        0 => Refusal::NeedsReopen,
        1 => Refusal::Worn,
        2 => Refusal::UnknownVersion {
            version: 4294967295,
        },
        3 => Refusal::Retired { version: 2 },
        4 => Refusal::LastVersion { version: 3 },
        5 => Refusal::NoStream { stream: 4 },
        6 => Refusal::NoPartition { part: 5 },
        7 => Refusal::NoSuchDelta { id: 6 },
        8 => Refusal::KeyTooLong { len: 4097 },
        9 => Refusal::TooOld { min: 9 },
        10 => Refusal::NotSafe {
            part: 0,
            checkpoint: 7,
        },
        11 => Refusal::AboveDurable { durable: 7 },
        12 => Refusal::BelowMin { min: 9 },
        13 => Refusal::AtEdge { part: 1 },
        14 => Refusal::TooManyParts,
        15 => Refusal::TooManyDeltas,
        16 => Refusal::JobOpen,
        17 => Refusal::NoJob,
        18 => Refusal::NotDone,
        19 => Refusal::StoreFull { need: 61, room: 1 },
        20 => Refusal::FeedFault,
        21 => Refusal::DiskFault,
        22 => Refusal::Damaged {
            place: 1024,
            length: 61,
        },
        23 => Refusal::OutFault,
        24 => Refusal::FeedMismatch { stream: 64 },
        _ => Refusal::Memory,
    }
}

const REFUSALS: &str = "\
refused E2 NeedsReopen
refused E33 Worn
refused E4 UnknownVersion 4294967295
refused E5 Retired 2
refused E28 LastVersion 3
refused E7 NoStream 4
refused E8 NoPartition 5
refused E9 NoSuchDelta 6
refused E27 KeyTooLong 4097
refused E12 TooOld 9
refused E13 NotSafe 0 7
refused E14 AboveDurable 7
refused E15 BelowMin 9
refused E16 AtEdge 1
refused E17 TooManyParts
refused E18 TooManyDeltas
refused E19 JobOpen
refused E20 NoJob
refused E21 NotDone
refused E22 StoreFull 61 1
refused E23 FeedFault
refused E24 DiskFault
refused E25 Damaged 1024 61
refused E29 OutFault
refused E30 FeedMismatch 64
refused E26 Memory
";

fn told_refusals(alloc: Global) -> Result<String, Memory> {
    let mut told = String::new(alloc);
    for which in 0..26 {
        put(&mut told, &refused(alloc, refusal(which))?)?;
    }
    Ok(told)
}

#[test]
fn refusals(rt: HostRuntime) -> Result<(), Fail> {
    let told = told_refusals(rt.alloc())?;
    assert_eq!(rt; told.as_str(), REFUSALS);
    Ok(())
}

/// The refusals that keep a name, in the order of their words.
fn named_refusal(name: Text, which: usize) -> Refusal
    ensures { IsSpoken result }
{
    match which {
        0 => Refusal::UnknownTable { name },
        1 => Refusal::BadColumn { name },
        _ => Refusal::WrongType { name },
    }
}

const NAMED_REFUSALS: &str = r#"refused E3 UnknownTable "q\"\\\n\u0001é"
refused E10 BadColumn "q\"\\\n\u0001é"
refused E11 WrongType "q\"\\\n\u0001é"
"#;

fn told_named_refusals(alloc: Global) -> Result<String, Memory> {
    let mut told = String::new(alloc);
    for which in 0..3 {
        put(
            &mut told,
            &refused(alloc, named_refusal(name(alloc)?, which))?,
        )?;
    }
    Ok(told)
}

#[test]
fn named_refusals(rt: HostRuntime) -> Result<(), Fail> {
    let told = told_named_refusals(rt.alloc())?;
    assert_eq!(rt; told.as_str(), NAMED_REFUSALS);
    Ok(())
}

fn because(alloc: Global, cause: Cause) -> Result<Blob, Memory>
    requires { IsCause cause }
{
    refused(alloc, Refusal::BadSchema { cause })
}

/// The causes that keep no name, in the order of their words.
fn cause(which: usize) -> Cause
    ensures { IsCause result }
{
    match which {
        0 => Cause::Json(JsonRefusal::NotJson),
        1 => Cause::Json(JsonRefusal::Wrong(Field::Key)),
        2 => Cause::Version(SchemaRefusal::BadNumber {
            number: -9223372036854775808,
        }),
        3 => Cause::Version(SchemaRefusal::TooDeep),
        4 => Cause::Version(SchemaRefusal::BadDefault { column: 1 }),
        5 => Cause::Version(SchemaRefusal::TableMismatch { number: 2 }),
        6 => Cause::Version(SchemaRefusal::VersionNotNext { expected: 3 }),
        7 => Cause::Version(SchemaRefusal::KeyChanged),
        8 => Cause::Version(SchemaRefusal::ColumnReused { column: 4 }),
        9 => Cause::Version(SchemaRefusal::KindChanged { column: 5 }),
        10 => Cause::Version(SchemaRefusal::DefaultGiven { column: 6 }),
        _ => Cause::Version(SchemaRefusal::Limit { count: 257 }),
    }
}

const CAUSES: &str = "\
refused E6 BadSchema NotJson
refused E6 BadSchema Wrong Key
refused E6 BadSchema BadNumber -9223372036854775808
refused E6 BadSchema TooDeep
refused E6 BadSchema BadDefault 1
refused E6 BadSchema TableMismatch 2
refused E6 BadSchema VersionNotNext 3
refused E6 BadSchema KeyChanged
refused E6 BadSchema ColumnReused 4
refused E6 BadSchema KindChanged 5
refused E6 BadSchema DefaultGiven 6
refused E6 BadSchema Limit 257
";

fn told_causes(alloc: Global) -> Result<String, Memory> {
    let mut told = String::new(alloc);
    for which in 0..12 {
        put(&mut told, &because(alloc, cause(which))?)?;
    }
    Ok(told)
}

#[test]
fn causes(rt: HostRuntime) -> Result<(), Fail> {
    let told = told_causes(rt.alloc())?;
    assert_eq!(rt; told.as_str(), CAUSES);
    Ok(())
}

/// The causes that keep a name, in the order of their words.
fn named(name: Text, which: usize) -> Cause
    ensures { IsCause result }
{
    match which {
        0 => Cause::Json(JsonRefusal::Unknown { name }),
        1 => Cause::Version(SchemaRefusal::BadName { name }),
        _ => Cause::Version(SchemaRefusal::DuplicateName { name }),
    }
}

const NAMED: &str = r#"refused E6 BadSchema Unknown "q\"\\\n\u0001é"
refused E6 BadSchema BadName "q\"\\\n\u0001é"
refused E6 BadSchema DuplicateName "q\"\\\n\u0001é"
"#;

fn told_named(alloc: Global) -> Result<String, Memory> {
    let mut told = String::new(alloc);
    for which in 0..3 {
        put(&mut told, &because(alloc, named(name(alloc)?, which))?)?;
    }
    Ok(told)
}

#[test]
fn named_causes(rt: HostRuntime) -> Result<(), Fail> {
    let told = told_named(rt.alloc())?;
    assert_eq!(rt; told.as_str(), NAMED);
    Ok(())
}

/// The members of a schema text, in the order of their lines.
const FIELDS: [Field; 10] = [
    Field::Top,
    Field::Table,
    Field::Number,
    Field::Version,
    Field::Key,
    Field::Columns,
    Field::Column,
    Field::Name,
    Field::Kind,
    Field::Default,
];

const MEMBERS: &str = "\
refused E6 BadSchema Missing Top
refused E6 BadSchema Missing Table
refused E6 BadSchema Missing Number
refused E6 BadSchema Missing Version
refused E6 BadSchema Missing Key
refused E6 BadSchema Missing Columns
refused E6 BadSchema Missing Column
refused E6 BadSchema Missing Name
refused E6 BadSchema Missing Kind
refused E6 BadSchema Missing Default
";

fn missing(alloc: Global, field: Field) -> Result<Blob, Memory> {
    because(alloc, Cause::Json(JsonRefusal::Missing(field)))
}

fn told_members(alloc: Global) -> Result<String, Memory> {
    let mut told = String::new(alloc);
    for field in FIELDS {
        put(&mut told, &missing(alloc, field)?)?;
    }
    Ok(told)
}

#[test]
fn members(rt: HostRuntime) -> Result<(), Fail> {
    let told = told_members(rt.alloc())?;
    assert_eq!(rt; told.as_str(), MEMBERS);
    Ok(())
}

/// A version with a column of each kind.
const VERSION: &[u8] =
    br#"{"table":"t","number":1,"version":1,"key":[["id","int64"],["s","text"]],"columns":[{"number":1,"name":"a","kind":"bool"},{"number":2,"name":"b","kind":"int32"},{"number":3,"name":"c","kind":"text"},{"number":4,"name":"d","kind":"bytes"},{"number":5,"name":"e","kind":{"enum":[[-1,"low"],[0,"zero"]]}},{"number":6,"name":"f","kind":{"struct":[[1,"g","int64"],[2,"h",{"struct":[[1,"i","bytes"],[3,"j",{"enum":[[7,"seven"]]}]]}],[3,"k","bool"]]}}]}"#;

/// The fields of column f, by falling number; the last one is absent.
fn nested(alloc: Global) -> Result<Value, Memory> {
    let mut inner: Fields = List::new(alloc);
    inner.push((3, Value::Int(7)))?;
    inner.push((1, Value::Bytes(List::from_slice(alloc, &[0, 171])?)))?;
    let mut outer: Fields = List::new(alloc);
    outer.push((2, Value::Struct(inner)))?;
    outer.push((1, Value::Int(-5)))?;
    Ok(Value::Struct(outer))
}

const ROWS: &str =
    r#"row [-7,"q\"\\\n\u0001é",true,-2147483648,"","0x00ff","zero",[-5,["0x00ab","seven"],null]]
row [9223372036854775807,"",null,null,null,"0x",1,null]
ok scan 2
"#;

/// A row whose values are all of their kinds.
fn full(alloc: Global, name: Text, nested: Value) -> Result<Row, Memory> {
    let bytes = List::from_slice(alloc, &[0, 255])?;
    let values = [
        Value::Int(-7),
        Value::Text(name),
        Value::Bool(true),
        Value::Int(-2147483648),
        Value::Text(Text::new(alloc)),
        Value::Bytes(bytes),
        Value::Int(0),
        nested,
    ];
    Ok(List::from_vec(Vec::from_array(alloc, values)?))
}

/// A row with the number 1, which column e does not name.
fn sparse(alloc: Global) -> Result<Row, Memory> {
    let values = [
        Value::Int(9223372036854775807),
        Value::Text(Text::new(alloc)),
        Value::Null,
        Value::Null,
        Value::Null,
        Value::Bytes(List::new(alloc)),
        Value::Int(1),
        Value::Null,
    ];
    Ok(List::from_vec(Vec::from_array(alloc, values)?))
}

fn version(alloc: Global) -> Result<SchemaVersion, Memory> {
    match read_version(alloc, VERSION) {
        Ok(version) => Ok(version),
        Err(_) => Err(Memory),
    }
}

fn told_rows(alloc: Global) -> Result<Blob, Memory> {
    let version = version(alloc)?;
    let rows = [full(alloc, name(alloc)?, nested(alloc)?)?, sparse(alloc)?];
    rows_text(alloc, &version, &rows)
}

#[test]
fn rows(rt: HostRuntime) -> Result<(), Fail> {
    let told = told_rows(rt.alloc())?;
    assert_eq!(rt; shown(&told), ROWS);
    Ok(())
}

fn told_none(alloc: Global) -> Result<Blob, Memory> {
    rows_text(alloc, &version(alloc)?, &[])
}

#[test]
fn no_rows(rt: HostRuntime) -> Result<(), Fail> {
    let told = told_none(rt.alloc())?;
    assert_eq!(rt; shown(&told), "ok scan 0\n");
    Ok(())
}
