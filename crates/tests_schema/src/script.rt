//! Script lines: worked lines, and that calls succeed where there is memory.

use lt_core::Memory;
use lt_script::{Command, Line, read_line};
use std::alloc::Global;
use std::test::Fail;

/// Lines, each with what is read of it. Those of commands that are planned are bad ones.
const LINES: &str = r##"
schema x -> Command(Schema(List { inner: [120] }))
schema {"table": "t", "columns": []} -> Command(Schema(List { inner: [123, 34, 116, 97, 98, 108, 101, 34, 58, 32, 34, 116, 34, 44, 32, 34, 99, 111, 108, 117, 109, 110, 115, 34, 58, 32, 91, 93, 125] }))
schema  two spaces and one behind  -> Command(Schema(List { inner: [32, 116, 119, 111, 32, 115, 112, 97, 99, 101, 115, 32, 97, 110, 100, 32, 111, 110, 101, 32, 98, 101, 104, 105, 110, 100, 32] }))
schema # -> Command(Schema(List { inner: [35] }))
retire t 0 -> Command(Retire { table: Text { inner: "t" }, version: 0 })
retire aaaaaaaaaaaaaaaaaaaaaaaaaaaaaaaaaaaaaaaaaaaaaaaaaaaaaaaaaaaaaaaa 7 -> Command(Retire { table: Text { inner: "aaaaaaaaaaaaaaaaaaaaaaaaaaaaaaaaaaaaaaaaaaaaaaaaaaaaaaaaaaaaaaaa" }, version: 7 })
pump 0 1 -> Command(Pump { stream: 0, count: 1 })
retire t 1 -> Command(Retire { table: Text { inner: "t" }, version: 1 })
pump 0 10 -> Command(Pump { stream: 0, count: 10 })
pump 0 4294967295 -> Command(Pump { stream: 0, count: 4294967295 })
scan aaaaaaaaaaaaaaaaaaaaaaaaaaaaaaaaaaaaaaaaaaaaaaaaaaaaaaaaaaaaaaaa 0 5 -> Command(Scan(Query { table: Text { inner: "aaaaaaaaaaaaaaaaaaaaaaaaaaaaaaaaaaaaaaaaaaaaaaaaaaaaaaaaaaaaaaaa" }, version: 0, at: 5, columns: None, from: None, to: None, after: None, limit: None, filter: All }))
pump 1 9 -> Command(Pump { stream: 1, count: 9 })
pump 4294967295 4294967295 -> Command(Pump { stream: 4294967295, count: 4294967295 })
split t [] -> Command(Split { table: Text { inner: "t" }, key: List { inner: [] } })
split t [50] -> Command(Split { table: Text { inner: "t" }, key: List { inner: [Int(50)] } })
split t ["a",null,true,-3] -> Command(Split { table: Text { inner: "t" }, key: List { inner: [Text(Text { inner: "a" }), Null, Bool(true), Int(-3)] } })
split t [9223372036854775807,-9223372036854775808,"a b"] -> Command(Split { table: Text { inner: "t" }, key: List { inner: [Int(9223372036854775807), Int(-9223372036854775808), Text(Text { inner: "a b" })] } })
scan t 1 0 -> Command(Scan(Query { table: Text { inner: "t" }, version: 1, at: 0, columns: None, from: None, to: None, after: None, limit: None, filter: All }))
scan scan 4294967295 18446744073709551615 -> Command(Scan(Query { table: Text { inner: "scan" }, version: 4294967295, at: 18446744073709551615, columns: None, from: None, to: None, after: None, limit: None, filter: All }))
status -> Command(Status)
split t  [ "a b" , 1 ]  -> Command(Split { table: Text { inner: "t" }, key: List { inner: [Text(Text { inner: "a b" }), Int(1)] } })
flush 4294967295 -> Bad
compact 0 minor 0 2 -> Bad
compact 3 major -> Bad
job begin 0 minor 1 7 18446744073709551615 -> Bad
job begin 1 major -> Bad
job step 4294967295 -> Bad
job finish -> Bad
job drop -> Bad
retain 18446744073709551615 -> Bad
page t 1 5 9 -> Bad
deltas 7 -> Bad
reopen -> Bad
flush -> Bad
flush 0 1 -> Bad
compact 0 -> Bad
compact 0 minor -> Bad
compact 0 minor 1 -> Bad
compact 0 minor 2 2 -> Bad
compact 0 minor 0 3 2 -> Bad
compact 0 minor 0 1  -> Bad
compact 0 minor 0 01 -> Bad
compact 0 minors 0 1 -> Bad
compact 0 major 1 -> Bad
compact minor 0 1 -> Bad
compact x major -> Bad
job -> Bad
job begin -> Bad
job begin 0 -> Bad
job begin 0 minor 1 -> Bad
job step -> Bad
job step 0 -> Bad
job step 1 1 -> Bad
job finish  -> Bad
job  drop -> Bad
job stop -> Bad
retain -> Bad
retain -1 -> Bad
retain 18446744073709551616 -> Bad
page t 1 5 -> Bad
page t 1 5 0 -> Bad
page t 1 5 4294967296 -> Bad
page t 1 5 9 {} -> Bad
deltas x -> Bad
reopen 1 -> Bad
retire  -> Bad
retire t x -> Bad
pump 0  -> Bad
pump 0  1 -> Bad
pump  0 1 -> Bad
 pump 0 1 -> Bad
scan t -> Bad
scan t 1  -> Bad
scan t 01 5 -> Bad
scan t 4294967296 5 -> Bad
scan t 1 -5 -> Bad
scan t 1 5  -> Bad
scan aaaaaaaaaaaaaaaaaaaaaaaaaaaaaaaaaaaaaaaaaaaaaaaaaaaaaaaaaaaaaaaaa 1 5 -> Bad
  -> Bad
 # no comment -> Bad
help -> Bad
schema -> Bad
schema  -> Bad
 schema x -> Bad
Schema x -> Bad
retire -> Bad
retire t -> Bad
retire t  -> Bad
retire  1 -> Bad
retire t  1 -> Bad
retire t 1  -> Bad
retire t 1 2 -> Bad
retire t 01 -> Bad
retire t -1 -> Bad
retire t +1 -> Bad
retire t 4294967296 -> Bad
retire aaaaaaaaaaaaaaaaaaaaaaaaaaaaaaaaaaaaaaaaaaaaaaaaaaaaaaaaaaaaaaaaa 1 -> Bad
pump -> Bad
pump 0 -> Bad
pump 00 1 -> Bad
pump x 1 -> Bad
pump 4294967296 1 -> Bad
pump 0 0 -> Bad
pump 0 01 -> Bad
pump 0 4294967296 -> Bad
pump 0 1  -> Bad
pump 0 1 1 -> Bad
split -> Bad
split t -> Bad
split t  -> Bad
split  [1] -> Bad
split t 50 -> Bad
split t null -> Bad
split t [[1]] -> Bad
split t [{}] -> Bad
split t [1.5] -> Bad
split t [9223372036854775808] -> Bad
split t [1] x -> Bad
split t [1 -> Bad
scan -> Bad
scan t 1 -> Bad
scan  1 5 -> Bad
scan t 1 05 -> Bad
scan t 1 18446744073709551616 -> Bad
scan t 1 5 {} -> Bad
status  -> Bad
status 1 -> Bad
 -> Skipped
# -> Skipped
# pump 0 1 -> Skipped
#schema x -> Skipped
"##;

/// The same of lines with a tab or the end of a line in them.
const CONTROLS: &str = "\
retire #\t\"ü 4294967295 -> Command(Retire { table: Text { inner: \"#\\t\\\"ü\" }, version: 4294967295 })\n\
pump\t0 1 -> Bad\n\
schema\tx -> Bad\n\
pump 0 1\r -> Bad\n\
";

/// Lines that are no text.
const NO_TEXTS: [&[u8]; 2] = [b"#\xff", b"schema \xff"];

/// Lines with what is read of them.
fn told(alloc: Global, lines: &str) -> Result<String, Memory> {
    let mut told = String::new(alloc);
    for line in lines.lines() {
        tell(alloc, line, &mut told)?;
    }
    Ok(told)
}

fn tell(alloc: Global, row: &str, told: &mut String) -> Result<(), Memory> {
    let Some((line, _)) = row.split_once(" -> ") else {
        told.push_str("\n")?;
        return Ok(());
    };
    let read = read(alloc, line.as_bytes())?;
    told.push_str(line)?;
    told.push_str(" -> ")?;
    told.push_str(read.as_str())?;
    told.push_str("\n")?;
    Ok(())
}

/// What is read of a line. Nothing else holds what was read, since what lets it go is dear to prove.
fn read(alloc: Global, line: &[u8]) -> Result<String, Memory> {
    match read_line(alloc, line) {
        Ok(read) => shown(alloc, &read, line),
        Err(memory) => Err(memory),
    }
}

/// A line that was read; of a long schema only that it is what stands behind the first word.
fn shown(alloc: Global, read: &Line, line: &[u8]) -> Result<String, Memory> {
    if line.len() > 1_000 && is_schema(read, line) {
        return Ok(String::from_str(alloc, "schema")?);
    }
    Ok(format!(in alloc; "{read:?}")?)
}

/// Whether a line is the schema that stands behind its first word.
fn is_schema(read: &Line, line: &[u8]) -> bool {
    match read {
        Line::Command(Command::Schema(text)) => line.get(7..) == Some(text.as_slice()),
        _ => false,
    }
}

#[test]
fn lines_read_as_the_table_says(rt: HostRuntime) -> Result<(), Fail> {
    let told = told(rt.alloc(), LINES)?;
    assert_eq!(rt; told.as_str(), LINES);
    Ok(())
}

#[test]
fn tabs_and_returns_are_bytes_like_others(rt: HostRuntime) -> Result<(), Fail> {
    let told = told(rt.alloc(), CONTROLS)?;
    assert_eq!(rt; told.as_str(), CONTROLS);
    Ok(())
}

#[test]
fn a_line_that_is_no_text_is_bad(rt: HostRuntime) -> Result<(), Fail> {
    for line in NO_TEXTS {
        let read = read(rt.alloc(), line)?;
        assert_eq!(rt; read.as_str(), "Bad");
    }
    Ok(())
}

/// How long lines begin, the byte that they go on with, how many bytes they have, and what is read of them.
const LONG: [(&[u8], u8, usize, &str); 5] = [
    (b"#", b'1', 1_048_576, "Skipped"),
    (b"#", b'1', 1_048_577, "Bad"),
    (b"scan t 1 1", b'1', 1_048_577, "Bad"),
    (b"schema ", b'1', 1_048_577, "Bad"),
    (b"schema ", b' ', 1_048_576, "schema"),
];

fn read_long(alloc: Global, front: &[u8], byte: u8, length: usize) -> Result<String, Memory> {
    let mut line = front.to_vec(alloc)?;
    line.resize(length, byte)?;
    read(alloc, line.as_slice())
}

#[test]
fn a_longer_line_is_bad(rt: HostRuntime) -> Result<(), Fail> {
    for (front, byte, length, wanted) in LONG {
        let read = read_long(rt.alloc(), front, byte, length)?;
        assert_eq!(rt; read.as_str(), wanted);
    }
    Ok(())
}
