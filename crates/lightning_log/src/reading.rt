//! A log to lines: reads the log in pieces, and writes the lines of the frames that a piece ends.

ghost use Rattle.std.specs.Prelude.{◌≡◌, OnErr, OnOk, []};
ghost use Rattle.std.specs.Io.KnownBytes.{Appends};
ghost use Rattle.lightning_log.specs.Front.{AppendsFront};

use crate::decoder::{Break, Decoder};
use crate::output::{note, put};
use lt_io::{ReadFault, Sink, Source, WriteFault};
use lt_records::BadFrame;
use std::alloc::Global;

/// How much is read at once, in bytes.
const PIECE: usize = 65_536;

const INPUT_FAULT: &[u8] = b"the input has failed\n";

/// Writes the lines of the log's frames, up to where the log stops being whole.
pub fn read<S: Source, K: Sink, N: Sink>(
    alloc: Global,
    input: &mut S,
    out: &mut K,
    notes: &mut N,
) -> u8 {
    let mut decoder = Decoder::new(alloc);
    for _ in 0..u64::MAX {
        if let Some(status) = turn(alloc, &mut decoder, input, out, notes) {
            return status;
        }
    }
    note(notes, INPUT_FAULT);
    3
}

/// Takes what the input gives next. Gives the status of a run that is over.
fn turn<S: Source, K: Sink, N: Sink>(
    alloc: Global,
    decoder: &mut Decoder,
    input: &mut S,
    out: &mut K,
    notes: &mut N,
) -> Option<u8> {
    let mut buffer = [0u8; PIECE];
    let n = match input.read(&mut buffer) {
        Ok(n) => n,
        Err(ReadFault) => {
            note(notes, INPUT_FAULT);
            return Some(3);
        }
    };
    if n == 0 {
        return Some(finish(alloc, decoder, notes));
    }
    let taken = decoder.take(alloc, &buffer[..n]);
    if flush(decoder, out).is_err() {
        return Some(4);
    }
    match taken {
        Ok(()) => None,
        Err(cause) => Some(stop(alloc, decoder.offset(), notes, cause)),
    }
}

/// The status where the log ends.
fn finish<N: Sink>(alloc: Global, decoder: &Decoder, notes: &mut N) -> u8 {
    if decoder.is_whole() {
        return 0;
    }
    note_at(alloc, notes, decoder.offset(), "the log is cut off");
    1
}

/// Says why the log is not read further, and gives the status.
fn stop<N: Sink>(alloc: Global, offset: u64, notes: &mut N, cause: Break) -> u8 {
    let (status, why) = match cause {
        Break::Malformed(BadFrame::Kind(_)) => (1, "no kind of frame"),
        Break::Malformed(BadFrame::Length(_)) => (1, "a frame longer than 1048576 bytes"),
        Break::Malformed(BadFrame::Body) => (1, "a frame that spells no record"),
        Break::Far => (10, "the log is too long"),
        Break::Memory => (10, "out of memory"),
    };
    note_at(alloc, notes, offset, why);
    status
}

/// Says what is so at an offset. Where there is no memory for the words, the status alone says it.
fn note_at<N: Sink>(alloc: Global, notes: &mut N, offset: u64, why: &str) {
    if let Ok(text) = format!(in alloc; "offset {offset}: {why}\n") {
        note(notes, text.as_bytes());
    }
}

/// Writes the lines that are not written yet.
fn flush<K: Sink>(decoder: &mut Decoder, out: &mut K) -> Result<(), WriteFault>
    ensures all { OnOk result (Appends (K.state out.old).told (K.state out.new).told decoder.old.lines
        × (decoder.new.lines ≡ [])) }
    ensures front { OnErr result (AppendsFront (K.state out.old).told (K.state out.new).told decoder.old.lines) }
{
    put(out, decoder.lines())?;
    decoder.forget_lines();
    Ok(())
}
