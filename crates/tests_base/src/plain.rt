//! Keys, texts, readers, writers and copies: that the definitions give the worked bytes, and that calls succeed where
//! there is memory.

use lt_core::{
    Cell, DecodeRefusal, Ids, Key, KeyKind, KeyKinds, KeyPart, KeyRefusal, Kind, Leaf, List,
    MAX_KEY, Memory, Range, Rank, Reader, Short, Text, TextRefusal, Value, Writer, decode_key,
    encode_key, encode_prefix,
};
use std::alloc::Global;
use std::test::Fail;

/// A part of a worked key.
#[derive(Clone, Copy)]
enum Part {
    Int(i64),
    Text(&'static [u8]),
}

fn made(alloc: Global, part: Part) -> Result<KeyPart, TextRefusal> {
    Ok(match part {
        Part::Int(number) => KeyPart::Int(number),
        Part::Text(text) => KeyPart::Text(Text::from_slice(alloc, text)?),
    })
}

fn key_of(alloc: Global, table: u32, worked: &[Part]) -> Result<Key, TextRefusal> {
    let mut parts = List::new(alloc);
    for one in worked {
        parts.push(made(alloc, *one)?)?;
    }
    Ok(Key { table, parts })
}

fn kinds_of(alloc: Global, parts: &[Part]) -> Result<KeyKinds, Memory> {
    let mut kinds = List::new(alloc);
    for part in parts {
        kinds.push(match part {
            Part::Int(_) => KeyKind::Int64,
            Part::Text(_) => KeyKind::Text,
        })?;
    }
    Ok(kinds)
}

fn is_encoded(alloc: Global, key: &Key, bytes: &[u8]) -> bool {
    match encode_key(alloc, key) {
        Ok(encoded) => encoded.as_slice() == bytes,
        Err(_) => false,
    }
}

fn is_prefix(alloc: Global, key: &Key, bytes: &[u8]) -> bool {
    match encode_prefix(alloc, key.table, &key.parts) {
        Ok(encoded) => encoded.as_slice() == bytes,
        Err(_) => false,
    }
}

/// Whether these are the bytes of a key with parts of these kinds; none where memory runs out.
fn is_decoded(alloc: Global, bytes: &[u8], kinds: &KeyKinds) -> Option<bool> {
    match decode_key(alloc, bytes, kinds) {
        Ok(key) => Some(is_encoded(alloc, &key, bytes)),
        Err(DecodeRefusal::NotAKey) => Some(false),
        Err(DecodeRefusal::Memory) => None,
    }
}

#[test]
fn keys_have_their_bytes(rt: HostRuntime) -> Result<(), Fail> {
    let alloc = rt.alloc();
    let rows: [(u32, &[Part], &[u8]); 4] = [
        (1, &[Part::Int(1)], b"\0\0\0\x01\x80\0\0\0\0\0\0\x01"),
        (1, &[Part::Text(b"a\0")], b"\0\0\0\x01a\0\xFF\0\x01"),
        (
            0xFFFF_FFFF,
            &[Part::Int(-1)],
            b"\xFF\xFF\xFF\xFF\x7F\xFF\xFF\xFF\xFF\xFF\xFF\xFF",
        ),
        (
            4,
            &[Part::Text(b""), Part::Int(i64::MIN)],
            b"\0\0\0\x04\0\x01\0\0\0\0\0\0\0\0",
        ),
    ];
    for (table, parts, bytes) in rows {
        let key = key_of(alloc, table, parts)?;
        let written = is_encoded(alloc, &key, bytes) && is_prefix(alloc, &key, bytes);
        assert!(rt; written, "{bytes:?}");
    }
    Ok(())
}

#[test]
fn keys_are_read_and_other_bytes_are_none(rt: HostRuntime) -> Result<(), Fail> {
    let alloc = rt.alloc();
    let rows: [(&[Part], &[u8], bool); 10] = [
        (&[Part::Int(0)], b"\0\0\0\x01\x80\0\0\0\0\0\0\x01", true),
        (&[Part::Text(b"")], b"\0\0\0\x01a\0\xFF\0\x01", true),
        (
            &[Part::Int(0)],
            b"\xFF\xFF\xFF\xFF\x7F\xFF\xFF\xFF\xFF\xFF\xFF\xFF",
            true,
        ),
        (
            &[Part::Text(b""), Part::Int(0)],
            b"\0\0\0\x04\0\x01\0\0\0\0\0\0\0\0",
            true,
        ),
        (&[Part::Int(0)], b"", false),
        (&[Part::Int(0)], b"\0\0\0\x01\x80\0\0\0\0\0\0", false),
        (&[Part::Int(0)], b"\0\0\0\x01\x80\0\0\0\0\0\0\0\0", false),
        (&[Part::Text(b"")], b"\0\0\0\x01a\0", false),
        (&[Part::Text(b"")], b"\0\0\0\x01a\0\x02\0\x01", false),
        (&[Part::Text(b"")], b"\0\0\0\x01\xFF\0\x01", false),
    ];
    for (parts, bytes, want) in rows {
        let kinds = kinds_of(alloc, parts)?;
        assert!(rt; is_decoded(alloc, bytes, &kinds) == Some(want), "{bytes:?}");
    }
    Ok(())
}

/// The key of one text of so many bytes.
fn long_key(alloc: Global, length: usize) -> Result<Key, Fail> {
    let mut name = Vec::new(alloc);
    name.resize(length, b'a')?;
    let mut parts = List::new(alloc);
    parts.push(KeyPart::Text(Text::from_bytes(List::from_vec(name))?))?;
    Ok(Key { table: 1, parts })
}

fn has_length(alloc: Global, key: &Key, want: usize) -> bool {
    matches!(&encode_key(alloc, key), Ok(bytes) if bytes.len() == want)
}

fn is_too_long(alloc: Global, key: &Key, want: usize) -> bool {
    matches!(&encode_key(alloc, key), Err(KeyRefusal::TooLong { len }) if *len == want)
}

#[test]
fn keys_have_a_limit(rt: HostRuntime) -> Result<(), Fail> {
    let alloc = rt.alloc();
    for over in 0..2usize {
        let key = long_key(alloc, MAX_KEY - 6 + over)?;
        assert!(rt; has_length(alloc, &key, MAX_KEY) == (over == 0));
        assert!(rt; is_too_long(alloc, &key, MAX_KEY + 1) == (over == 1));
    }
    Ok(())
}

fn worked_bytes(writer: &mut Writer) -> Result<(), Memory> {
    writer.u8(1)?;
    writer.u16(2)?;
    writer.u32(3)?;
    writer.u64(4)?;
    writer.bytes(b"ab")
}

fn worked_numbers(reader: &mut Reader<'_>) -> Result<bool, Short> {
    Ok(reader.u8()? == 1 && reader.u16()? == 2 && reader.u32()? == 3 && reader.u64()? == 4)
}

/// Whether two bytes are left, three are too many, and nothing is left behind the two.
fn worked_end(reader: &mut Reader<'_>) -> bool {
    reader.bytes(3).is_err()
        && matches!(reader.bytes(2), Ok(bytes) if bytes == b"ab".as_slice())
        && reader.left() == 0
}

#[test]
fn a_reader_takes_what_a_writer_wrote(rt: HostRuntime) {
    let mut writer = Writer::new(rt.alloc());
    assert!(rt; worked_bytes(&mut writer).is_ok());
    let written = writer.finish();
    assert!(rt; written.as_slice() == b"\x01\0\x02\0\0\0\x03\0\0\0\0\0\0\0\x04ab".as_slice());
    let mut reader = Reader::new(written.as_slice());
    assert!(rt; matches!(worked_numbers(&mut reader), Ok(true)));
    assert!(rt; worked_end(&mut reader));
}

/// A list of one item.
fn only<T: Drop>(alloc: Global, item: T) -> Result<List<T>, Memory> {
    let mut list = List::new(alloc);
    list.push(item)?;
    Ok(list)
}

fn text_is_copied(alloc: Global) -> Result<bool, TextRefusal> {
    let text = Text::from_slice(alloc, "é".as_bytes())?;
    Ok(text.copy()?.as_str() == "é")
}

fn two_fields(alloc: Global) -> Result<Value, TextRefusal> {
    let text = Text::from_slice(alloc, b"a")?;
    let mut fields = only(alloc, (1, Value::Text(text)))?;
    fields.push((2, Value::Bytes(List::from_slice(alloc, &[1])?)))?;
    Ok(Value::Struct(fields))
}

fn row_is_copied(alloc: Global) -> Result<bool, TextRefusal> {
    let row = only(alloc, two_fields(alloc)?)?;
    Ok(row.copy()?.len() == 1)
}

fn enum_of_one(alloc: Global) -> Result<Kind, TextRefusal> {
    let name = Text::from_slice(alloc, b"new")?;
    Ok(Kind::Enum(only(alloc, (-1, name))?))
}

fn kind_is_copied(alloc: Global) -> Result<bool, TextRefusal> {
    let name = Text::from_slice(alloc, b"a")?;
    let fields = only(alloc, (1, name, enum_of_one(alloc)?))?;
    let copy = Kind::Struct(fields).copy()?;
    Ok(matches!(&copy, Kind::Struct(fields) if fields.len() == 1))
}

fn layout_is_copied(alloc: Global) -> Result<bool, Memory> {
    let leaf = Leaf {
        column: 1,
        path: List::from_slice(alloc, &[1, 2])?,
        rank: Rank::Int32,
        presence: false,
    };
    Ok(only(alloc, leaf)?.copy()?.len() == 1)
}

fn cells_are_copied(alloc: Global) -> Result<bool, Memory> {
    let cells = only(alloc, Cell::Bytes(b"a").to_scalar(alloc)?)?;
    Ok(cells.copy()?.len() == 1)
}

fn key_is_copied(alloc: Global) -> Result<bool, TextRefusal> {
    let key = key_of(alloc, 1, &[Part::Int(1), Part::Text(b"a")])?;
    Ok(key.copy()?.parts.len() == 2)
}

fn key_kinds_are_copied(alloc: Global) -> Result<bool, Memory> {
    let kinds = kinds_of(alloc, &[Part::Int(1), Part::Text(b"a")])?;
    Ok(kinds.copy()?.len() == 2)
}

fn range_is_copied(alloc: Global) -> Result<bool, Memory> {
    let range = Range {
        low: List::from_slice(alloc, &[1])?,
        high: Some(List::from_slice(alloc, &[2])?),
    };
    Ok(range.copy()?.low.len() == 1)
}

fn numbers_are_copied(alloc: Global) -> Result<bool, Memory> {
    let ids: Ids = List::from_slice(alloc, &[1, 2])?;
    Ok(ids.copy()?.len() == 2)
}

#[test]
fn copies_are_made(rt: HostRuntime) {
    let alloc = rt.alloc();
    assert!(rt; matches!(text_is_copied(alloc), Ok(true)));
    assert!(rt; matches!(row_is_copied(alloc), Ok(true)));
    assert!(rt; matches!(kind_is_copied(alloc), Ok(true)));
    assert!(rt; matches!(layout_is_copied(alloc), Ok(true)));
    assert!(rt; matches!(cells_are_copied(alloc), Ok(true)));
    assert!(rt; matches!(key_is_copied(alloc), Ok(true)));
    assert!(rt; matches!(key_kinds_are_copied(alloc), Ok(true)));
    assert!(rt; matches!(range_is_copied(alloc), Ok(true)));
    assert!(rt; matches!(numbers_are_copied(alloc), Ok(true)));
}

#[test]
fn only_utf8_is_a_text(rt: HostRuntime) {
    let refused = Text::from_slice(rt.alloc(), &[0xFF]).err();
    assert!(rt; matches!(refused, Some(TextRefusal::NotUtf8)));
}
