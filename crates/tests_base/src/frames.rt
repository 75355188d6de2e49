//! What no clause shows: that the definitions give the worked bytes, and that calls succeed where there is memory.

ghost use Rattle.std.specs.Prelude.{IfOk, IsTrue};
ghost use Rattle.lt_terms.specs.declared.Format.TheVariants as format;
ghost use Rattle.lt_terms.specs.Log.{is_content, is_header, is_log_value};
ghost use Rattle.lt_core.specs.View.{view_value};
ghost use Rattle.lt_records.specs.View.{view_header, view_item};

use lt_core::{Blob, KeyPart, List, Memory, Op, Range, Reader, Text, TextRefusal, Value, Writer};
use lt_records::{
    BadFrame, ChangeRecord, Found, LogRecord, StreamHeader, ValueRefusal, WriteRefusal, next,
    read_value, write, write_value,
};
use std::alloc::Global;
use std::test::Fail;

/// The header of stream 0, with no bounds.
const HEAD: [u8; 18] = [
    1, 0, 0, 0, 0x0D, 0x4C, 0x54, 0x4C, 0x4F, 0x47, 0x31, 0, 0, 0, 0, 0, 0, 0,
];

/// The insert at 5 of the key 1, with 10 and "x".
const INSERT: [u8; 53] = [
    2, 0, 0, 0, 0x30, 0, 0, 0, 0, 0, 0, 0, 5, 0, 0, 0, 1, 0, 0, 0, 1, 1, 1, 1, 0, 0, 0, 0, 0, 0, 0,
    1, 0, 2, 0, 1, 2, 0, 0, 0, 0, 0, 0, 0, 0x0A, 0, 2, 3, 0, 0, 0, 1, 0x78,
];

/// The checkpoint 7.
const CHECKPOINT_7: [u8; 13] = [3, 0, 0, 0, 8, 0, 0, 0, 0, 0, 0, 0, 7];

/// The header of stream 0, with no bounds.
fn head(alloc: Global) -> StreamHeader
    ensures { IsTrue (is_header format.One (view_header result)) }
{
    StreamHeader {
        stream: 0,
        range: Range {
            low: List::new(alloc),
            high: None,
        },
    }
}

/// The insert at 5 of the key 1, with 10 and a value.
#[tactic(auto, using(crate::proofs::Lawful::ten_and_a_value))]
fn insert(alloc: Global, value: Value) -> Result<LogRecord, Memory>
    requires { IsTrue (is_log_value (view_value value)) }
    ensures { IfOk result (λ r. IsTrue (is_content format.One (view_item r))) }
{
    let mut key = List::new(alloc);
    key.push(KeyPart::Int(1))?;
    let mut set = List::new(alloc);
    set.push((1, Value::Int(10)))?;
    set.push((2, value))?;
    Ok(LogRecord::Change(ChangeRecord {
        ts: 5,
        table: 1,
        version: 1,
        op: Op::Insert,
        key,
        set,
    }))
}

/// The text "x".
fn text_x(alloc: Global) -> Result<Value, TextRefusal>
    ensures { IfOk result (λ v. IsTrue (is_log_value (view_value v))) }
{
    Ok(Value::Text(Text::from_slice(alloc, b"x")?))
}

fn is_written(alloc: Global, item: &LogRecord, frame: &[u8]) -> bool
    requires { IsTrue (is_content format.One (view_item item.now)) }
{
    match write(alloc, item) {
        Ok(written) => written.as_slice() == frame,
        Err(_) => false,
    }
}

/// Whether the bytes are a whole frame, whose item is written as they are.
#[tactic(auto, using(lt_records::proofs::Front::found_content))]
fn is_read(alloc: Global, frame: &[u8]) -> bool {
    match next(alloc, frame) {
        Ok(Found::Whole { item, length }) => {
            length == frame.len() && is_written(alloc, &item, frame)
        }
        _ => false,
    }
}

/// Whether the item is written as these bytes, and they are read as an item that is written so.
fn has_frame(alloc: Global, item: &LogRecord, frame: &[u8]) -> bool
    requires { IsTrue (is_content format.One (view_item item.now)) }
{
    is_written(alloc, item, frame) && is_read(alloc, frame)
}

fn has_header_frame(alloc: Global) -> Result<bool, Memory> {
    let header = head(alloc).copy()?;
    Ok(has_frame(alloc, &LogRecord::Header(header), &HEAD))
}

fn has_insert_frame(alloc: Global) -> Result<bool, TextRefusal> {
    let item = insert(alloc, text_x(alloc)?)?;
    Ok(has_frame(alloc, &item, &INSERT))
}

#[test]
fn frame_bytes(rt: HostRuntime) {
    let alloc = rt.alloc();
    assert!(rt; matches!(has_header_frame(alloc), Ok(true)));
    assert!(rt; matches!(has_insert_frame(alloc), Ok(true)));
    assert!(rt; has_frame(alloc, &LogRecord::Checkpoint(7), &CHECKPOINT_7));
}

fn is_partial(alloc: Global, bytes: &[u8]) -> bool {
    matches!(next(alloc, bytes), Ok(Found::Partial))
}

/// The first cut of a frame that is not partial.
fn whole_cut(alloc: Global, frame: &[u8]) -> Option<usize> {
    for length in 0..frame.len() {
        if !is_partial(alloc, &frame[..length]) {
            return Some(length);
        }
    }
    None
}

#[test]
fn every_cut_is_partial(rt: HostRuntime) {
    for frame in [HEAD.as_slice(), &INSERT, &CHECKPOINT_7] {
        assert!(rt; whole_cut(rt.alloc(), frame).is_none(), "{frame:?}");
    }
}

/// Whether the bytes never become a frame, for this reason.
fn is_malformed(alloc: Global, bytes: &[u8], why: BadFrame) -> bool {
    match next(alloc, bytes) {
        Ok(Found::Malformed(bad)) => bad == why,
        _ => false,
    }
}

#[test]
fn malformed_heads(rt: HostRuntime) {
    let alloc = rt.alloc();
    let rows: [(&[u8], BadFrame); 6] = [
        (&[7], BadFrame::Kind(7)),
        (&[0, 0, 0, 0, 8], BadFrame::Kind(0)),
        (&[4], BadFrame::Kind(4)),
        (&[3, 0, 0x10, 0, 1], BadFrame::Length(1_048_577)),
        (&[1, 0xFF, 0xFF, 0xFF, 0xFF], BadFrame::Length(u32::MAX)),
        (&[3, 0, 0, 0, 0], BadFrame::Body),
    ];
    for (bytes, why) in rows {
        assert!(rt; is_malformed(alloc, bytes, why), "{bytes:?}");
    }
    assert!(rt; is_partial(alloc, &[2, 0, 0x10, 0, 0]));
    assert!(rt; is_partial(alloc, &[2, 0xFF, 0xFF, 0xFF]));
}

/// Whether a frame with one byte changed has a body off the grammar.
fn spoils(alloc: Global, frame: &[u8], place: usize, byte: u8) -> Result<bool, Memory> {
    let mut bytes = Blob::new(alloc);
    for (i, old) in frame.iter().enumerate() {
        bytes.push(if i == place { byte } else { *old })?;
    }
    Ok(is_malformed(alloc, bytes.as_slice(), BadFrame::Body))
}

/// The first of these changes of one byte that does not spoil the frame.
fn harmless(alloc: Global, frame: &[u8], changes: &[(usize, u8)]) -> Result<Option<usize>, Memory> {
    for (place, byte) in changes {
        if !spoils(alloc, frame, *place, *byte)? {
            return Ok(Some(*place));
        }
    }
    Ok(None)
}

#[test]
fn malformed_bodies(rt: HostRuntime) -> Result<(), Fail> {
    let rows: [(&[u8], &[(usize, u8)]); 3] = [
        (&HEAD, &[(4, 0x0C), (10, 0x32), (16, 1), (17, 1), (17, 2)]),
        (&CHECKPOINT_7, &[(5, 0x80), (12, 0)]),
        (
            &INSERT,
            &[
                (12, 0),
                (14, 1),
                (16, 0),
                (19, 2),
                (20, 0),
                (21, 0),
                (21, 3),
                (21, 4),
                (22, 0),
                (22, 9),
                (35, 2),
                (47, 6),
                (52, 0xFF),
            ],
        ),
    ];
    for (frame, changes) in rows {
        let place = harmless(rt.alloc(), frame, changes)?;
        assert!(rt; place.is_none(), "at {place:?}");
    }
    Ok(())
}

/// A value of so many bytes.
fn long_value(alloc: Global, length: u32) -> Result<Value, Memory>
    ensures { IfOk result (λ v. IsTrue (is_log_value (view_value v))) }
{
    let mut bytes = Vec::new(alloc);
    bytes.resize(length as usize, 9)?;
    Ok(Value::Bytes(Blob::from_vec(bytes)))
}

fn has_length(alloc: Global, item: &LogRecord, want: usize) -> bool
    requires { IsTrue (is_content format.One (view_item item.now)) }
{
    matches!(&write(alloc, item), Ok(frame) if frame.len() == want)
}

fn is_too_long(alloc: Global, item: &LogRecord, want: usize) -> bool
    requires { IsTrue (is_content format.One (view_item item.now)) }
{
    matches!(write(alloc, item), Err(WriteRefusal::TooLong { len }) if len == want)
}

#[test]
fn bodies_have_a_limit(rt: HostRuntime) -> Result<(), Fail> {
    let alloc = rt.alloc();
    for over in 0..2u32 {
        let item = insert(alloc, long_value(alloc, 1_048_576 - 47 + over)?)?;
        assert!(rt; has_length(alloc, &item, 5 + 1_048_576) == (over == 0));
        assert!(rt; is_too_long(alloc, &item, 1_048_577) == (over == 1));
    }
    Ok(())
}

/// The spelling of a struct of so many levels, with one field each.
fn nested(alloc: Global, levels: u8) -> Result<Blob, Memory> {
    let mut bytes = Blob::new(alloc);
    for _ in 0..levels {
        bytes.extend_from_slice(&[5, 0, 1, 0, 1])?;
    }
    bytes.push(0)?;
    Ok(bytes)
}

fn is_spelled(alloc: Global, value: &Value, spelling: &[u8]) -> bool
    requires { IsTrue (is_log_value (view_value value.now)) }
{
    let mut to = Writer::new(alloc);
    let written = write_value(alloc, &mut to, value).is_ok();
    written && to.finish().as_slice() == spelling
}

/// Whether a value of these bytes is read, also where others follow, and written so again.
fn is_value(alloc: Global, spelling: &[u8]) -> Result<bool, Memory> {
    let mut longer = Blob::from_slice(alloc, spelling)?;
    longer.extend_from_slice(&[9, 9])?;
    let mut from = Reader::new(longer.as_slice());
    match read_value(alloc, &mut from) {
        Ok(value) => Ok(from.left() == 2 && is_spelled(alloc, &value, spelling)),
        Err(_) => Ok(false),
    }
}

#[test]
fn worked_values(rt: HostRuntime) -> Result<(), Fail> {
    let alloc = rt.alloc();
    let rows: [&[u8]; 8] = [
        &[0],
        &[1, 0],
        &[1, 1],
        &[2, 0xFF, 0xFF, 0xFF, 0xFF, 0xFF, 0xFF, 0xFF, 0xFE],
        &[3, 0, 0, 0, 2, 0xC3, 0xA9],
        &[4, 0, 0, 0, 1, 0xFF],
        &[5, 0, 0],
        &[5, 0, 2, 0, 1, 0, 0xFF, 0xFF, 1, 1],
    ];
    for spelling in rows {
        assert!(rt; is_value(alloc, spelling)?, "{spelling:?}");
    }
    assert!(rt; is_value(alloc, nested(alloc, 4)?.as_slice())?);
    Ok(())
}

/// Whether no value stands at the front, and none of the bytes is taken.
fn is_refused(alloc: Global, bytes: &[u8]) -> bool {
    let mut from = Reader::new(bytes);
    let found = read_value(alloc, &mut from);
    matches!(found, Err(ValueRefusal::NotAValue)) && from.left() == bytes.len()
}

#[test]
fn other_bytes_are_no_value(rt: HostRuntime) -> Result<(), Fail> {
    let alloc = rt.alloc();
    let rows: [&[u8]; 9] = [
        &[],
        &[6],
        &[1, 2],
        &[2, 0, 0, 0, 0, 0, 0, 0],
        &[3, 0, 0, 0, 1, 0xC3],
        &[3, 0, 0, 0, 2, 0x61],
        &[5, 0, 1, 0, 0, 0],
        &[5, 0, 2, 0, 1, 0, 0, 1, 0],
        &[5, 0, 2, 0, 2, 0, 0, 1, 0],
    ];
    for bytes in rows {
        assert!(rt; is_refused(alloc, bytes), "{bytes:?}");
    }
    assert!(rt; is_refused(alloc, nested(alloc, 5)?.as_slice()));
    Ok(())
}
