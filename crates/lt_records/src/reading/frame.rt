//! Frames: a kind, a length, and a body of that length.
//!
//! The kind and the length decide first, so nothing is read behind a frame. Finding takes time linear in the frame.

ghost use Rattle.std.specs.Prelude.{◌≡◌, ◌<◌, ◌≤◌, ◌&&◌, IfOk, nat_le, nat_lt};
ghost use Rattle.lt_terms.specs.declared.Format.TheVariants as format;
ghost use Rattle.lt_terms.specs.Log.{IsFound};
ghost use Rattle.lt_codecs.specs.Codec as codec;
ghost use Rattle.lt_codecs.specs.LogCodec as log;
ghost use Rattle.lt_records.specs.Reading.{Gives, GivesWhole, NothingElse};
ghost use Rattle.lt_records.specs.View.{view_found, view_item};

use crate::reading::change::{change_at, timestamp_at};
use crate::reading::fault::Stop;
use crate::reading::header::header_at;
use crate::record::{Found, LogRecord};
use lt_core::{Memory, Reader};
use lt_terms::BadFrame;
use std::alloc::Global;

/// The most bytes that a body may have.
pub const MAX_BODY: u32 = 1_048_576;

/// How many bytes stand before a body.
const HEAD: usize = 5;

/// The kinds of frames.
pub const HEADER: u8 = 1;

pub const CHANGE: u8 = 2;

pub const CHECKPOINT: u8 = 3;

/// What stands at the front of bytes: a whole frame, too few bytes to tell, or bytes that never become a frame.
pub fn next(alloc: Global, bytes: &[u8]) -> Result<Found, Memory>
    ensures found { IfOk result (λ found. IsFound format.One bytes.now (view_found found)) }
    ensures only { IfOk result (λ found. NothingElse bytes.now (view_found found)) }
{
    find(alloc, bytes)
}

#[tactic(auto, unfolding(lt_codecs::specs::LogCodec::found))]
fn find(alloc: Global, bytes: &[u8]) -> Result<Found, Memory>
    ensures { IfOk result (λ found. view_found found ≡ log.found format.One bytes.now) }
{
    match bytes {
        [] => Ok(Found::Partial),
        [kind, behind @ ..] => {
            if HEADER <= *kind && *kind <= CHECKPOINT {
                find_behind(alloc, *kind, behind)
            } else {
                Ok(Found::Malformed(BadFrame::Kind(*kind)))
            }
        }
    }
}

/// What stands behind a kind.
fn find_behind(alloc: Global, kind: u8, behind: &[u8]) -> Result<Found, Memory>
    requires { (0 < kind) × (kind ≤ 3) }
    ensures { IfOk result (λ found. view_found found ≡ log.found_sized format.One kind (codec.u32.read behind.now)) }
{
    let mut from = Reader::new(behind);
    let Ok(length) = from.u32() else {
        return Ok(Found::Partial);
    };
    if length > MAX_BODY {
        return Ok(Found::Malformed(BadFrame::Length(length)));
    }
    let Ok(body) = from.bytes(length as usize) else {
        return Ok(Found::Partial);
    };
    match body_of(alloc, kind, body) {
        Ok(item) => Ok(Found::Whole {
            item,
            length: HEAD + body.len(),
        }),
        Err(Stop::Unlike) => Ok(Found::Malformed(BadFrame::Body)),
        Err(Stop::Memory) => Err(Memory),
    }
}

/// The item that a whole body spells.
fn body_of(alloc: Global, kind: u8, body: &[u8]) -> Result<LogRecord, Stop>
    requires { (0 < kind) × (kind ≤ 3) }
    ensures { GivesWhole view_item (codec.whole (log.item_body format.One kind) body.now) result }
{
    let mut from = Reader::new(body);
    let item = item_at(alloc, kind, &mut from)?;
    if from.left() == 0 {
        Ok(item)
    } else {
        Err(Stop::Unlike)
    }
}

#[tactic(auto, unfolding(lt_codecs::specs::LogCodec::item_body))]
fn item_at(alloc: Global, kind: u8, from: &mut Reader<'_>) -> Result<LogRecord, Stop>
    requires { (0 < kind) × (kind ≤ 3) }
    ensures { Gives view_item ((log.item_body format.One kind).read from.old) result from.new }
{
    match kind {
        HEADER => Ok(LogRecord::Header(header_at(alloc, from)?)),
        CHANGE => Ok(LogRecord::Change(change_at(alloc, from)?)),
        _ => Ok(LogRecord::Checkpoint(timestamp_at(from)?)),
    }
}
