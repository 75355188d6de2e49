//! The loop that hands bytes to a sink.

ghost use Rattle.std.specs.Prelude.{OnErr, OnOk};
ghost use Rattle.std.specs.Io.KnownBytes.{Appends};
ghost use Rattle.lightning_log.specs.Front.{AppendsFront};

use lt_io::{Sink, WriteFault};

/// Writes all of the bytes. After a fault some first ones may have been written.
pub fn put<K: Sink>(out: &mut K, bytes: &[u8]) -> Result<(), WriteFault>
    ensures all { OnOk result (Appends (K.state out.old).told (K.state out.new).told bytes.now) }
    ensures front { OnErr result (AppendsFront (K.state out.old).told (K.state out.new).told bytes.now) }
{
    let mut at = 0;
    while at < bytes.len() {
        let (_, left) = bytes.split_at(at);
        at += out.write(left)?;
    }
    Ok(())
}

/// Writes a note for a person. Where that fails, nobody can be told.
pub fn note<N: Sink>(notes: &mut N, text: &[u8]) {
    match put(notes, text) {
        Ok(()) | Err(WriteFault) => {}
    }
}
