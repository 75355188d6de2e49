//! A table of three versions, changes under each of them, and the rows that they make.

use lt_core::{Fields, KeyPart, KeyParts, Memory, Op, Settings, Text, Value};
use lt_records::ChangeRecord;
use lt_schema::{Catalogue, SchemaVersion};
use lt_schema_json::read_version;
use std::alloc::Global;
use std::str::{FromStr, SplitWhitespace};

/// The versions of table 1, named t, with a text as key. Two columns have kinds that go up and down, and a struct of a
/// field x gets a field y.
const VERSIONS: &str =
    r#"{"table":"t","number":1,"version":1,"key":[["id","text"]],"columns":[{"number":1,"name":"c1","kind":"int32"},{"number":2,"name":"c2","kind":"text"},{"number":3,"name":"c3","kind":{"struct":[[1,"x","int64"]]}}]}
{"table":"t","number":1,"version":2,"key":[["id","text"]],"columns":[{"number":1,"name":"c1","kind":"int64"},{"number":2,"name":"c2","kind":"text"},{"number":3,"name":"c3","kind":{"struct":[[1,"x","int64"],[2,"y","text"]]}},{"number":4,"name":"c4","kind":"int64","default":7}]}
{"table":"t","number":1,"version":3,"key":[["id","text"]],"columns":[{"number":1,"name":"c1","kind":"text"},{"number":2,"name":"c2","kind":"int64"},{"number":3,"name":"c3","kind":{"struct":[[1,"x","int64"],[2,"y","text"]]}},{"number":4,"name":"c4","kind":"int64"},{"number":5,"name":"c5","kind":"text","default":"d"}]}"#;

/// Changes: timestamp, version, operation, key, and what is set. A text begins with a quote, `null` is no value, and a
/// number before a slash is a struct of it and of the text behind the slash, where one is.
const STORY: &str = "\
1 1 insert 'k 1 5 2 'x 3 1/
2 1 update 'absent 1 9
3 1 update 'k 2 '30
4 2 insert 'k 1 4294967296 2 'z 3 2/w 4 null
5 2 delete 'k
6 1 update 'k 1 3
7 3 insert 'k 1 '007 2 9 3 null 4 1 5 'e
8 3 update 'k 1 '12
9 1 update 'k 1 6
10 1 insert 'k 1 8 2 'y 3 null
11 1 insert 'k\0 1 0 2 null 3 null
12 1 insert 'k\u{1} 1 1 2 null 3 null
13 1 insert ' 1 2 2 null 3 null
14 1 insert 'j\u{7f} 1 3 2 null 3 null
15 1 insert 'k\0a 1 4 2 null 3 null
";

/// The rows of a version at a moment.
pub const ROWS: &str = r#"
1 0 -> List { inner: [] }
1 1 -> List { inner: [List { inner: [Text(Text { inner: "k" }), Int(5), Text(Text { inner: "x" }), Struct(List { inner: [(1, Int(1))] })] }] }
2 1 -> List { inner: [List { inner: [Text(Text { inner: "k" }), Int(5), Text(Text { inner: "x" }), Struct(List { inner: [(1, Int(1)), (2, Null)] }), Int(7)] }] }
3 1 -> List { inner: [List { inner: [Text(Text { inner: "k" }), Text(Text { inner: "5" }), Null, Struct(List { inner: [(1, Int(1)), (2, Null)] }), Int(7), Text(Text { inner: "d" })] }] }
2 2 -> List { inner: [List { inner: [Text(Text { inner: "k" }), Int(5), Text(Text { inner: "x" }), Struct(List { inner: [(1, Int(1)), (2, Null)] }), Int(7)] }] }
1 3 -> List { inner: [List { inner: [Text(Text { inner: "k" }), Int(5), Text(Text { inner: "30" }), Struct(List { inner: [(1, Int(1))] })] }] }
3 3 -> List { inner: [List { inner: [Text(Text { inner: "k" }), Text(Text { inner: "5" }), Int(30), Struct(List { inner: [(1, Int(1)), (2, Null)] }), Int(7), Text(Text { inner: "d" })] }] }
1 4 -> List { inner: [List { inner: [Text(Text { inner: "k" }), Null, Text(Text { inner: "z" }), Struct(List { inner: [(1, Int(2))] })] }] }
2 4 -> List { inner: [List { inner: [Text(Text { inner: "k" }), Int(4294967296), Text(Text { inner: "z" }), Struct(List { inner: [(1, Int(2)), (2, Text(Text { inner: "w" }))] }), Null] }] }
3 4 -> List { inner: [List { inner: [Text(Text { inner: "k" }), Text(Text { inner: "4294967296" }), Null, Struct(List { inner: [(1, Int(2)), (2, Text(Text { inner: "w" }))] }), Null, Text(Text { inner: "d" })] }] }
2 5 -> List { inner: [] }
1 6 -> List { inner: [] }
2 7 -> List { inner: [List { inner: [Text(Text { inner: "k" }), Null, Text(Text { inner: "9" }), Null, Int(1)] }] }
3 7 -> List { inner: [List { inner: [Text(Text { inner: "k" }), Text(Text { inner: "007" }), Int(9), Null, Int(1), Text(Text { inner: "e" })] }] }
1 8 -> List { inner: [List { inner: [Text(Text { inner: "k" }), Int(12), Text(Text { inner: "9" }), Null] }] }
3 9 -> List { inner: [List { inner: [Text(Text { inner: "k" }), Text(Text { inner: "6" }), Int(9), Null, Int(1), Text(Text { inner: "e" })] }] }
3 10 -> List { inner: [List { inner: [Text(Text { inner: "k" }), Text(Text { inner: "8" }), Null, Null, Int(7), Text(Text { inner: "d" })] }] }
1 15 -> List { inner: [List { inner: [Text(Text { inner: "" }), Int(2), Null, Null] }, List { inner: [Text(Text { inner: "j\u{7f}" }), Int(3), Null, Null] }, List { inner: [Text(Text { inner: "k" }), Int(8), Text(Text { inner: "y" }), Null] }, List { inner: [Text(Text { inner: "k\0" }), Int(0), Null, Null] }, List { inner: [Text(Text { inner: "k\0a" }), Int(4), Null, Null] }, List { inner: [Text(Text { inner: "k\u{1}" }), Int(1), Null, Null] }] }
"#;

fn word<'a>(words: &mut SplitWhitespace<'a>) -> &'a str {
    words.next().unwrap_or("")
}

/// The number that a word spells, or 0.
pub fn parsed<N: FromStr + Default>(word: &str) -> N
where
    N::Err: Drop,
{
    match word.parse::<N>() {
        Ok(number) => number,
        Err(_) => N::default(),
    }
}

fn text(alloc: Global, text: &str) -> Result<Text, Memory> {
    match Text::from_slice(alloc, text.as_bytes()) {
        Ok(text) => Ok(text),
        Err(_) => Err(Memory),
    }
}

fn value(alloc: Global, word: &str) -> Result<Value, Memory> {
    if let Some(told) = word.strip_prefix('\'') {
        return Ok(Value::Text(text(alloc, told)?));
    }
    if let Some((first, second)) = word.split_once('/') {
        return Ok(Value::Struct(fields(alloc, parsed(first), second)?));
    }
    if word == "null" {
        return Ok(Value::Null);
    }
    Ok(Value::Int(parsed(word)))
}

fn fields(alloc: Global, first: i64, second: &str) -> Result<Fields, Memory> {
    let mut fields = Fields::new(alloc);
    fields.push((1, Value::Int(first)))?;
    if !second.is_empty() {
        fields.push((2, Value::Text(text(alloc, second)?)))?;
    }
    Ok(fields)
}

fn operation(word: &str) -> Op {
    match word {
        "insert" => Op::Insert,
        "update" => Op::Update,
        _ => Op::Delete,
    }
}

fn key(alloc: Global, word: &str) -> Result<KeyParts, Memory> {
    let part = KeyPart::Text(text(alloc, word.trim_start_matches('\''))?);
    let mut parts = KeyParts::new(alloc);
    parts.push(part)?;
    Ok(parts)
}

fn settings(alloc: Global, words: &mut SplitWhitespace<'_>) -> Result<Settings, Memory> {
    let mut set = Settings::new(alloc);
    for _ in 0..u16::MAX {
        let Some(number) = words.next() else {
            break;
        };
        let value = value(alloc, word(words))?;
        set.push((parsed(number), value))?;
    }
    Ok(set)
}

fn change(alloc: Global, line: &str) -> Result<ChangeRecord, Memory> {
    let mut words = line.split_whitespace();
    let ts = parsed(word(&mut words));
    let version = parsed(word(&mut words));
    let op = operation(word(&mut words));
    let key = key(alloc, word(&mut words))?;
    let set = settings(alloc, &mut words)?;
    Ok(ChangeRecord {
        ts,
        table: 1,
        version,
        op,
        key,
        set,
    })
}

pub fn story(alloc: Global) -> Result<Vec<ChangeRecord>, Memory> {
    let mut all = Vec::new(alloc);
    for line in STORY.lines() {
        all.push(change(alloc, line)?)?;
    }
    Ok(all)
}

fn version(alloc: Global, line: &str) -> Result<SchemaVersion, Memory> {
    match read_version(alloc, line.as_bytes()) {
        Ok(version) => Ok(version),
        Err(_) => Err(Memory),
    }
}

/// Table 1 with its versions.
pub fn catalogue(alloc: Global) -> Result<Catalogue, Memory> {
    let mut catalogue = Catalogue::new(alloc);
    for line in VERSIONS.lines() {
        if catalogue.add(version(alloc, line)?).is_err() {
            return Err(Memory);
        }
    }
    Ok(catalogue)
}
