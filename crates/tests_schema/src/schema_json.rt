//! Schema texts: that the definitions give the worked answers, and that calls succeed where there is memory.

use lt_core::Memory;
use lt_schema_json::{read_version, write_version};
use std::alloc::Global;
use std::test::Fail;

/// Rows of a text and its answer: what is written of the version, or why the text is none.
const TEXTS: &str = r#"
{"table":"t","number":1,"version":1,"key":[["id","int64"]],"columns":[{"number":1,"name":"a","kind":"int64"},{"number":2,"name":"b","kind":"text"}]} => {"columns":[{"kind":"int64","name":"a","number":1},{"kind":"text","name":"b","number":2}],"key":[["id","int64"]],"number":1,"table":"t","version":1}
 { "table" : 1, "table" : "\u0075", "number":4294967295, "version":0, "key":[["s","text"]], "columns":[] } => {"columns":[],"key":[["s","text"]],"number":4294967295,"table":"u","version":0}
schema { => no JSON
{"table":"t"} {} => no JSON
[] => a member of another form: Top
{"zeta":1,"alpha":2} => an unknown member: alpha
{"columns":7} => a missing member: Table
{"table":1} => a member of another form: Table
{"table":"t","version":"1"} => a missing member: Number
{"table":"t","number":-1} => a member of another form: Number
{"table":"t","number":1.0} => a member of another form: Number
{"table":"t","number":4294967296} => a member of another form: Number
{"table":"t","number":1} => a missing member: Version
{"table":"t","number":1,"version":null} => a member of another form: Version
{"table":"t","number":1,"version":1,"columns":[7]} => a missing member: Key
{"table":"t","number":1,"version":1,"key":[["id"]]} => a member of another form: Key
{"table":"t","number":1,"version":1,"key":[["id","int32"]]} => a member of another form: Key
{"table":"t","number":1,"version":1,"key":[]} => a missing member: Columns
{"table":"t","number":1,"version":1,"key":[],"columns":{}} => a member of another form: Columns
"#;

/// The same of the columns of a version that is good.
const COLUMNS: &str = r#"
7,{} => a member of another form: Column
{},7 => a missing member: Number
{"kinds":1} => an unknown member: kinds
{"number":65536} => a member of another form: Number
{"number":1,"kind":7} => a missing member: Name
{"number":1,"name":2} => a member of another form: Name
{"number":1,"name":"a","default":0} => a missing member: Kind
"#;

/// The same of the kind of a column that is good, and of what may stand behind it.
const KINDS: &str = r#"
"Bool" => a member of another form: Kind
{} => a member of another form: Kind
{"enum":[],"struct":[]} => a member of another form: Kind
{"enum":[[2147483648,"x"]]} => a member of another form: Kind
{"struct":[[1,"x"]]} => a member of another form: Kind
{"struct":[[1,"x",{"struct":[[65536,"y","bool"]]}]]} => a member of another form: Kind
{"struct":[[1,"x",{"enum":[[0]]}]]} => a member of another form: Kind
"bool","default":1 => a member of another form: Default
"int32","default":9223372036854775808 => a member of another form: Default
"text","default":7 => a member of another form: Default
"bytes","default":"0xAB" => a member of another form: Default
"bytes","default":"0xabc" => a member of another form: Default
{"enum":[[7,"x"]]},"default":"x" => a member of another form: Default
{"struct":[[1,"x","bool"]]},"default":[] => a member of another form: Default
{"struct":[[1,"x","bool"]]},"default":[true,true] => a member of another form: Default
{"struct":[[1,"x",{"struct":[[1,"y","bool"]]}]]},"default":[[1]] => a member of another form: Default
"#;

/// Every kind, with a default, as it is written.
const WRITTEN: &str =
    r#"{"columns":[{"default":true,"kind":"bool","name":"a","number":1},{"default":2147483648,"kind":"int32","name":"b","number":2},{"default":-9223372036854775808,"kind":"int64","name":"c","number":3},{"default":"x\n","kind":"text","name":"d","number":4},{"default":"0x00ff","kind":"bytes","name":"e","number":5},{"default":7,"kind":{"enum":[[-2147483648,"low"],[0,"zero"]]},"name":"f","number":6},{"default":[null,[1]],"kind":{"struct":[[1,"g","int64"],[65535,"h",{"struct":[[1,"i","int32"]]}]]},"name":"j","number":65535},{"default":null,"kind":"bool","name":"k","number":0}],"key":[],"number":1,"table":"t","version":1}"#;

/// What stands before the columns of a version, and before the kind of its only column.
const BEFORE_COLUMNS: &str = r#"{"table":"t","number":1,"version":1,"key":[],"columns":["#;

const BEFORE_KIND: &str =
    r#"{"table":"t","number":1,"version":1,"key":[],"columns":[{"number":1,"name":"a","kind":"#;

fn answer(alloc: Global, text: &[u8]) -> Result<String, Memory> {
    match read_version(alloc, text) {
        Ok(version) => {
            let text = write_version(alloc, &version)?;
            shown(alloc, str::from_utf8(text.as_slice()).unwrap_or("no text"))
        }
        Err(refusal) => Ok(format!(in alloc; "{refusal}")?),
    }
}

fn shown(alloc: Global, text: &str) -> Result<String, Memory> {
    Ok(String::from_str(alloc, text)?)
}

/// Rows, each with the answer to its text between what stands before and behind it.
fn told(alloc: Global, before: &str, rows: &str, behind: &str) -> Result<String, Memory> {
    let mut told = String::new(alloc);
    for row in rows.lines() {
        tell(alloc, before, row, behind, &mut told)?;
    }
    Ok(told)
}

fn tell(
    alloc: Global,
    before: &str,
    row: &str,
    behind: &str,
    told: &mut String,
) -> Result<(), Memory> {
    let Some((text, _)) = row.split_once(" => ") else {
        told.push_str("\n")?;
        return Ok(());
    };
    let whole = format!(in alloc; "{before}{text}{behind}")?;
    let answer = answer(alloc, whole.as_bytes())?;
    let line = format!(in alloc; "{text} => {answer}\n")?;
    told.push_str(line.as_str())?;
    Ok(())
}

#[test]
fn texts_answer_as_the_table_says(rt: HostRuntime) -> Result<(), Fail> {
    let told = told(rt.alloc(), "", TEXTS, "")?;
    assert_eq!(rt; told.as_str(), TEXTS);
    Ok(())
}

#[test]
fn columns_answer_as_the_table_says(rt: HostRuntime) -> Result<(), Fail> {
    let told = told(rt.alloc(), BEFORE_COLUMNS, COLUMNS, "]}")?;
    assert_eq!(rt; told.as_str(), COLUMNS);
    Ok(())
}

#[test]
fn kinds_answer_as_the_table_says(rt: HostRuntime) -> Result<(), Fail> {
    let told = told(rt.alloc(), BEFORE_KIND, KINDS, "}]}")?;
    assert_eq!(rt; told.as_str(), KINDS);
    Ok(())
}

#[test]
fn each_kind_is_written_as_it_is_read(rt: HostRuntime) -> Result<(), Fail> {
    let written = answer(rt.alloc(), WRITTEN.as_bytes())?;
    assert_eq!(rt; written.as_str(), WRITTEN);
    Ok(())
}

#[test]
fn bytes_that_are_no_text(rt: HostRuntime) -> Result<(), Fail> {
    let answer = answer(rt.alloc(), b"\"\xff\"")?;
    assert_eq!(rt; answer.as_str(), "no JSON");
    Ok(())
}
