//! What the program writes: texts in one spelling, and the loop that hands bytes to a sink.

ghost use Rattle.std.specs.Prelude.{◌≡◌, ◌++◌, ◌≤◌, [], IfErr, OnErr, OnOk, length, take};
ghost use Rattle.std.specs.Io.KnownBytes.{Appends};
ghost use Rattle.lt_world.specs.Object.{BytesGo};
ghost use Rattle.lightning_cli.specs.Serving.{Failed, Finishes, Unfailed, WritesSome};

use lt_core::Memory;
use lt_io::{Sink, WriteFault};

/// The writer failed behind so many of the bytes.
#[derive(Clone, Copy, Debug, PartialEq, Eq)]
pub struct Cut {
    pub written: usize,
}

/// Writes all of the bytes. An `Err` says how many of them were written.
pub fn put<K: Sink>(out: &mut K, bytes: &[u8]) -> Result<(), Cut>
    ensures all { OnOk result (Appends (K.state out.old).told (K.state out.new).told bytes.now) }
    ensures unfailed { OnOk result (Unfailed (K.state out.old) (K.state out.new)) }
    ensures front { IfErr result (λ c. (c.written ≤ length bytes.now)
        × Appends (K.state out.old).told (K.state out.new).told (take c.written bytes.now)) }
    ensures failed { OnErr result (Failed (K.state out.old) (K.state out.new)) }
    ensures goes { BytesGo (K.state out.old) (K.state out.new) }
{
    let mut at = 0;
    while at < bytes.len() {
        let (_, left) = bytes.split_at(at);
        match out.write(left) {
            Ok(n) => at += n,
            Err(WriteFault) => return Err(Cut { written: at }),
        }
    }
    Ok(())
}

/// Writes all of the text, and empties it. After a fault what was not written is left of it.
pub fn pour<K: Sink>(out: &mut K, text: &mut Vec<u8>) -> Result<(), WriteFault>
    ensures some { WritesSome (K.state out.old).told (K.state out.new).told text.old.items text.new.items }
    ensures all { OnOk result (text.new.items ≡ []) }
    ensures unfailed { OnOk result (Unfailed (K.state out.old) (K.state out.new)) }
    ensures failed { OnErr result (Failed (K.state out.old) (K.state out.new)) }
    ensures goes { BytesGo (K.state out.old) (K.state out.new) }
{
    match put(out, text.as_slice()) {
        Ok(()) => {
            text.clear();
            Ok(())
        }
        Err(cut) => {
            text.drain(..cut.written);
            Err(WriteFault)
        }
    }
}

/// Writes a last line, and gives the status that it says; 4 where the sink fails.
pub fn finish<K: Sink>(out: &mut K, line: &[u8], status: u8) -> u8
    ensures finishes { Finishes (K.state out.old) (K.state out.new) line.now status result }
    ensures goes { BytesGo (K.state out.old) (K.state out.new) }
{
    match put(out, line) {
        Ok(()) => status,
        Err(_) => 4,
    }
}

/// Adds bytes to a text. An `Err` changes nothing.
pub fn add(text: &mut Vec<u8>, bytes: &[u8]) -> Result<(), Memory>
    ensures ok { OnOk result (text.new.items ≡ text.old.items ++ bytes.now) }
    ensures err { OnErr result (text.new.items ≡ text.old.items) }
{
    text.extend_from_slice(bytes)?;
    Ok(())
}
