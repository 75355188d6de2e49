//! Lines to a log: reads the text in pieces, and writes the frames of the lines that a piece ends.

ghost use Rattle.std.specs.Prelude.{◌≡◌, ℕ, List, MatchOption, Option, OnErr, OnOk, [], ◌++◌};
ghost use Rattle.std.specs.Io.KnownBytes.{Appends, Consumes, IsAtEnd};
ghost use Rattle.lightning_log.specs.Front.{AppendsFront};
ghost use Rattle.lightning_log.specs.Writing.{HasWritten, IsWriting, IsWritingTo, Stops};

use crate::encoder::{Encoder, Stop};
use crate::output::{note, put};
use lt_io::{ReadFault, Sink, Source, WriteFault};
use std::alloc::Global;

/// How much is read at once, in bytes.
const PIECE: usize = 65_536;

const INPUT_FAULT: &[u8] = b"the input has failed\n";

/// Writes the frames that the lines of the input say, up to the first line that is refused. A frame is written whole, but where the
/// output fails.
pub fn write<S: Source, K: Sink, N: Sink>(
    alloc: Global,
    input: &mut S,
    out: &mut K,
    notes: &mut N,
) -> u8
    ensures { HasWritten (S.state input.old).told (S.state input.new).told (K.state out.old).told (K.state out.new).told result }
{
    let mut encoder = Encoder::new(alloc);
    for _ in 0..u64::MAX {
        if let Some(status) = turn(alloc, &mut encoder, input, out, notes) {
            return status;
        }
    }
    note(notes, INPUT_FAULT);
    3
}

/// Takes what the input gives next. Gives the status of a run that is over.
fn turn<S: Source, K: Sink, N: Sink>(
    alloc: Global,
    encoder: &mut Encoder,
    input: &mut S,
    out: &mut K,
    notes: &mut N,
) -> Option<u8>
    ensures { (i o : Option (List ℕ)) → IsWriting i (S.state input.old).told o (K.state out.old).told encoder.old
        → MatchOption result (IsWriting i (S.state input.new).told o (K.state out.new).told encoder.new)
        (HasWritten i (S.state input.new).told o (K.state out.new).told) }
{
    let mut buffer = [0u8; PIECE];
    let n = match input.read(&mut buffer) {
        Ok(n) => n,
        Err(ReadFault) => {
            note(notes, INPUT_FAULT);
            return Some(3);
        }
    };
    if n == 0 {
        return Some(finish(alloc, encoder, out, notes));
    }
    digest(alloc, encoder, out, notes, &buffer[..n])
}

/// Takes a piece of the text, and writes the frames of the lines that it ends.
fn digest<K: Sink, N: Sink>(
    alloc: Global,
    encoder: &mut Encoder,
    out: &mut K,
    notes: &mut N,
    piece: &[u8],
) -> Option<u8>
    ensures { (i i' o : Option (List ℕ)) (taken : List ℕ) → Consumes i i' (taken ++ piece.now)
        → IsWritingTo taken o (K.state out.old).told encoder.old
        → MatchOption result (IsWriting i i' o (K.state out.new).told encoder.new)
        (HasWritten i i' o (K.state out.new).told) }
{
    match encoder.take(alloc, piece) {
        Ok(()) => match flush(encoder, out) {
            Ok(()) => None,
            Err(WriteFault) => Some(4),
        },
        Err(stop) => Some(refuse(alloc, encoder, out, notes, stop)),
    }
}

/// Writes what is left to write where the text ends.
fn finish<K: Sink, N: Sink>(alloc: Global, encoder: &mut Encoder, out: &mut K, notes: &mut N) -> u8
    ensures { (i i' o : Option (List ℕ)) (taken : List ℕ) → Consumes i i' taken → IsAtEnd i'
        → IsWritingTo taken o (K.state out.old).told encoder.old
        → HasWritten i i' o (K.state out.new).told result }
{
    match encoder.end(alloc) {
        Ok(()) => match flush(encoder, out) {
            Ok(()) => 0,
            Err(WriteFault) => 4,
        },
        Err(stop) => refuse(alloc, encoder, out, notes, stop),
    }
}

/// Writes the frames before a line that ends the run, and says why it does.
fn refuse<K: Sink, N: Sink>(
    alloc: Global,
    encoder: &mut Encoder,
    out: &mut K,
    notes: &mut N,
    stop: Stop,
) -> u8
    ensures { (i i' o : Option (List ℕ)) (taken written : List ℕ) → Consumes i i' taken
        → Appends o (K.state out.old).told written → Stops taken written encoder.old stop
        → HasWritten i i' o (K.state out.new).told result }
{
    match flush(encoder, out) {
        Ok(()) => {
            note_line(alloc, notes, encoder.number(), &stop);
            stop.status()
        }
        Err(WriteFault) => 4,
    }
}

/// Says why a line ends the run. Where there is no memory for the words, the status alone says it.
fn note_line<N: Sink>(alloc: Global, notes: &mut N, number: u64, stop: &Stop) {
    if let Ok(text) = format!(in alloc; "line {number}: {stop}\n") {
        note(notes, text.as_bytes());
    }
}

/// Writes the frames that are not written yet.
fn flush<K: Sink>(encoder: &mut Encoder, out: &mut K) -> Result<(), WriteFault>
    ensures all { OnOk result (Appends (K.state out.old).told (K.state out.new).told encoder.old.frames.items
        × (encoder.new.frames.items ≡ []) × (encoder.new.line.items ≡ encoder.old.line.items)) }
    ensures front { OnErr result (AppendsFront (K.state out.old).told (K.state out.new).told
        encoder.old.frames.items) }
{
    put(out, encoder.frames())?;
    encoder.forget_frames();
    Ok(())
}
