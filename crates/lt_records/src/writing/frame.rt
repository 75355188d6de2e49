//! Writing frames: a kind, a length, and a body of that length. It takes time linear in the frame.

ghost use Rattle.std.specs.Prelude.{◌≡◌, ◌≤◌, ◌++◌, length, IsTrue, IfOk, IfErr, OnOk};
ghost use Rattle.lt_terms.specs.declared.Format.TheVariants as format;
ghost use Rattle.lt_terms.specs.Log.{IsFrame, is_content, kind_byte};
ghost use Rattle.lt_codecs.specs.Codec as codec;
ghost use Rattle.lt_records.specs.View.{view_item};
ghost use Rattle.lt_records.specs.Writing.{WriteRefused, body_of};

use crate::reading::{CHANGE, CHECKPOINT, HEADER, MAX_BODY};
use crate::record::LogRecord;
use crate::refusal::WriteRefusal;
use crate::writing::change::put_change;
use crate::writing::field::put_bytes32;
use crate::writing::header::put_header;
use lt_core::{Blob, Memory, Writer};
use std::alloc::Global;

/// The frame of an item. `TooLong` exactly where its body passes the limit.
pub fn write(alloc: Global, item: &LogRecord) -> Result<Blob, WriteRefusal>
    requires { IsTrue (is_content format.One (view_item item.now)) }
    ensures frame { IfOk result (λ bytes. IsFrame format.One (view_item item.now) bytes) }
    ensures refused { IfErr result (WriteRefused (view_item item.now)) }
{
    let body = body_of_item(alloc, item)?;
    let len = body.len();
    if len > MAX_BODY as usize {
        return Err(WriteRefusal::TooLong { len });
    }
    let mut to = Writer::new(alloc);
    put_frame(&mut to, kind_of(item), &body)?;
    Ok(to.finish())
}

fn put_frame(to: &mut Writer, kind: u8, body: &Blob) -> Result<(), Memory>
    requires { length body.now ≤ 1048576 }
    ensures { OnOk result (to.new ≡ to.old ++ (codec.u8.spell kind ++ codec.bytes32.spell body.now)) }
{
    to.u8(kind)?;
    put_bytes32(to, body.as_slice())?;
    Ok(())
}

fn kind_of(item: &LogRecord) -> u8
    ensures { result ≡ kind_byte (view_item item.now) }
{
    match item {
        LogRecord::Header(_) => HEADER,
        LogRecord::Change(_) => CHANGE,
        LogRecord::Checkpoint(_) => CHECKPOINT,
    }
}

fn body_of_item(alloc: Global, item: &LogRecord) -> Result<Blob, Memory>
    requires { IsTrue (is_content format.One (view_item item.now)) }
    ensures { IfOk result (λ bytes. bytes ≡ body_of item.now) }
{
    let mut to = Writer::new(alloc);
    put_body(&mut to, item)?;
    Ok(to.finish())
}

#[tactic(auto, using(crate::proofs::Spellings::header_body_is, crate::proofs::Spellings::change_body_is, crate::proofs::Spellings::checkpoint_body_is))]
fn put_body(to: &mut Writer, item: &LogRecord) -> Result<(), Memory>
    requires { IsTrue (is_content format.One (view_item item.now)) }
    ensures { OnOk result (to.new ≡ to.old ++ body_of item.now) }
{
    match item {
        LogRecord::Header(header) => put_header(to, header),
        LogRecord::Change(change) => put_change(to, change),
        LogRecord::Checkpoint(ts) => to.u64(*ts),
    }
}
