//! Conversions: that the definitions give the worked values, and that calls succeed where there is memory. A value is
//! written as a log spells it.

use lt_coerce::convert;
use lt_core::{FieldKinds, Kind, List, Rank, Reader, Text, TextRefusal, Value};
use lt_records::read_value;
use std::alloc::Global;
use std::test::Fail;

/// A spelled value at a kind; none where memory runs out.
fn converted(alloc: Global, spelling: &[u8], kind: &Kind) -> Option<Value> {
    let value = read_value(alloc, &mut Reader::new(spelling)).ok()?;
    convert(alloc, &value, kind).ok()
}

/// What a primitive value is, in a word.
fn is_word(value: &Value, word: &str) -> bool {
    match value {
        Value::Null => word == "null",
        Value::Bool(true) => word == "true",
        Value::Int(-17) => word == "-17",
        Value::Text(text) => text.as_str() == word,
        _ => false,
    }
}

#[test]
fn worked_conversions(rt: HostRuntime) {
    let rows: [(&[u8], Rank, &str); 9] = [
        (b"\x03\0\0\0\x03007", Rank::Int64, "null"),
        (b"\x03\0\0\0\x02-0", Rank::Int64, "null"),
        (b"\x03\0\0\0\x011", Rank::Bool, "true"),
        (b"\x02\0\0\0\0\0\0\0\x02", Rank::Bool, "null"),
        (b"\x02\0\0\x01\0\0\0\0\0", Rank::Int32, "null"),
        (b"\x04\0\0\0\x03-17", Rank::Int32, "-17"),
        (b"\x04\0\0\0\x01\xFF", Rank::Text, "null"),
        (b"\x02\xFF\xFF\xFF\xFF\xFF\xFF\xFF\xFB", Rank::Text, "-5"),
        (b"\x01\x01", Rank::Text, "1"),
    ];
    for (spelling, rank, word) in rows {
        let value = converted(rt.alloc(), spelling, &Kind::Plain(rank));
        assert!(rt;
            matches!(&value, Some(value) if is_word(value, word)),
            "{word}"
        );
    }
}

/// Two fields of a whole number, with the numbers 1 and 3.
fn two_kinds(alloc: Global) -> Result<FieldKinds, TextRefusal> {
    let mut kinds = List::new(alloc);
    for (number, name) in [(1u16, b"a"), (3, b"c")] {
        let name = Text::from_slice(alloc, name)?;
        kinds.push((number, name, Kind::Plain(Rank::Int64)))?;
    }
    Ok(kinds)
}

/// Whether it is a struct whose field 1 is 1 and whose field 3 is null.
fn has_two_fields(value: &Value) -> bool {
    match value {
        Value::Struct(found) => {
            found.len() == 2
                && matches!(found.get(0), Some((1, Value::Int(1))))
                && matches!(found.get(1), Some((3, Value::Null)))
        }
        _ => false,
    }
}

#[test]
fn fields_by_number(rt: HostRuntime) -> Result<(), Fail> {
    // Field 1 is true, and field 2 is 7.
    let spelling = b"\x05\0\x02\0\x01\x01\x01\0\x02\x02\0\0\0\0\0\0\0\x07";
    let kind = Kind::Struct(two_kinds(rt.alloc())?);
    let value = converted(rt.alloc(), spelling, &kind);
    assert!(rt; matches!(&value, Some(value) if has_two_fields(value)));
    Ok(())
}
