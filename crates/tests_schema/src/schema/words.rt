//! Reading versions off the words of the script. A word that is missing or no number reads as an empty one, or as 0.

use lt_core::{FieldKinds, Fields, KeyKind, Kind, List, Memory, Names, Rank, Text, Value};
use lt_schema::{Column, Columns, KeyColumn, KeyColumns, SchemaVersion};
use std::alloc::Global;
use std::str::{FromStr, SplitWhitespace};

/// How deep the kinds and values of the script nest at most.
const DEPTH: u8 = 5;

pub fn word<'a>(words: &mut SplitWhitespace<'a>) -> &'a str {
    words.next().unwrap_or("")
}

pub fn number<N: FromStr + Default>(words: &mut SplitWhitespace<'_>) -> N
where
    N::Err: Drop,
{
    parsed(word(words))
}

fn parsed<N: FromStr + Default>(word: &str) -> N
where
    N::Err: Drop,
{
    match word.parse::<N>() {
        Ok(number) => number,
        Err(_) => N::default(),
    }
}

fn text(alloc: Global, word: &str) -> Result<Text, Memory> {
    match Text::from_slice(alloc, word.as_bytes()) {
        Ok(text) => Ok(text),
        Err(_) => Err(Memory),
    }
}

/// Table, number, version, key and columns.
pub fn read_version(
    alloc: Global,
    words: &mut SplitWhitespace<'_>,
) -> Result<SchemaVersion, Memory> {
    Ok(SchemaVersion {
        table: text(alloc, word(words))?,
        number: number(words),
        version: number(words),
        key: read_key(alloc, words)?,
        columns: read_columns(alloc, words)?,
    })
}

/// Names and kinds in brackets.
fn read_key(alloc: Global, words: &mut SplitWhitespace<'_>) -> Result<KeyColumns, Memory> {
    let mut key = List::new(alloc);
    let _open = word(words);
    for _ in 0..u16::MAX {
        let first = word(words);
        if first == "]" {
            break;
        }
        let name = text(alloc, first)?;
        let kind = key_kind(word(words));
        key.push(KeyColumn { name, kind })?;
    }
    Ok(key)
}

fn key_kind(word: &str) -> KeyKind {
    if word == "int64" {
        KeyKind::Int64
    } else {
        KeyKind::Text
    }
}

/// Columns, each up to a `;`.
fn read_columns(alloc: Global, words: &mut SplitWhitespace<'_>) -> Result<Columns, Memory> {
    let mut columns = List::new(alloc);
    for _ in 0..u16::MAX {
        let Some(first) = words.next() else {
            break;
        };
        columns.push(read_column(alloc, parsed(first), words)?)?;
    }
    Ok(columns)
}

/// Name, kind and perhaps a default behind `=`.
fn read_column(
    alloc: Global,
    number: u16,
    words: &mut SplitWhitespace<'_>,
) -> Result<Column, Memory> {
    Ok(Column {
        number,
        name: text(alloc, word(words))?,
        kind: read_kind(alloc, DEPTH, words)?,
        fallback: read_fallback(alloc, words)?,
    })
}

/// A default behind `=`, or none, up to a `;`.
fn read_fallback(alloc: Global, words: &mut SplitWhitespace<'_>) -> Result<Option<Value>, Memory> {
    if word(words) == ";" {
        return Ok(None);
    }
    let value = read_value(alloc, DEPTH, words)?;
    let _end = word(words);
    Ok(Some(value))
}

/// A rank, an enum in angles, or a struct in braces.
#[cycle(kind)]
fn read_kind(alloc: Global, depth: u8, words: &mut SplitWhitespace<'_>) -> Result<Kind, Memory> {
    match word(words) {
        "bool" => Ok(Kind::Plain(Rank::Bool)),
        "int32" => Ok(Kind::Plain(Rank::Int32)),
        "int64" => Ok(Kind::Plain(Rank::Int64)),
        "bytes" => Ok(Kind::Plain(Rank::Bytes)),
        "<" => Ok(Kind::Enum(read_names(alloc, words)?)),
        "{" if depth > 0 => Ok(Kind::Struct(read_field_kinds(alloc, depth - 1, words)?)),
        _ => Ok(Kind::Plain(Rank::Text)),
    }
}

#[cycle(kind)]
fn read_field_kinds(
    alloc: Global,
    depth: u8,
    words: &mut SplitWhitespace<'_>,
) -> Result<FieldKinds, Memory> {
    let mut fields = List::new(alloc);
    for _ in 0..u16::MAX {
        let first = word(words);
        if first == "}" {
            break;
        }
        let name = text(alloc, word(words))?;
        let kind = read_kind(alloc, depth, words)?;
        fields.push((parsed(first), name, kind))?;
    }
    Ok(fields)
}

fn read_names(alloc: Global, words: &mut SplitWhitespace<'_>) -> Result<Names, Memory> {
    let mut names = List::new(alloc);
    for _ in 0..u16::MAX {
        let first = word(words);
        if first == ">" {
            break;
        }
        names.push((parsed(first), text(alloc, word(words))?))?;
    }
    Ok(names)
}

/// `null`, `true`, a number, a text behind a quote, or a struct in parentheses.
#[cycle(value)]
fn read_value(alloc: Global, depth: u8, words: &mut SplitWhitespace<'_>) -> Result<Value, Memory> {
    let first = word(words);
    if let Some(told) = first.strip_prefix('"') {
        return Ok(Value::Text(text(alloc, told)?));
    }
    match first {
        "null" => Ok(Value::Null),
        "true" => Ok(Value::Bool(true)),
        "(" if depth > 0 => Ok(Value::Struct(read_fields(alloc, depth - 1, words)?)),
        other => Ok(Value::Int(parsed(other))),
    }
}

#[cycle(value)]
fn read_fields(
    alloc: Global,
    depth: u8,
    words: &mut SplitWhitespace<'_>,
) -> Result<Fields, Memory> {
    let mut fields = List::new(alloc);
    for _ in 0..u16::MAX {
        let first = word(words);
        if first == ")" {
            break;
        }
        fields.push((parsed(first), read_value(alloc, depth, words)?))?;
    }
    Ok(fields)
}
