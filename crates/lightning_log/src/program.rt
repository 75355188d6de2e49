//! The program's top call: what it does by its words.

ghost use Rattle.std.specs.Prelude.{◌≡◌, map, string_bytes};
ghost use Rattle.lightning_log.specs.Program.{RunBy, is_word};

use crate::output::note;
use crate::reading::read;
use crate::writing::write;
use lt_io::{Sink, Source};
use std::alloc::Global;

const USAGE: &[u8] =
    b"usage: lightning_log write < LINES > LOG, or lightning_log read < LOG > LINES\n";

/// Runs the program by its words, those behind its name, and gives its exit status: 0, 1, 2, 3, 4 or 10.
pub fn run<S: Source, K: Sink, N: Sink>(
    alloc: Global,
    words: &[String],
    input: &mut S,
    out: &mut K,
    notes: &mut N,
) -> u8
    ensures by { RunBy (map (λ w. string_bytes w) words.now) (S.state input.old).told (S.state input.new).told
        (K.state out.old).told (K.state out.new).told result }
{
    if is_word(words, b"write") {
        return write(alloc, input, out, notes);
    }
    if is_word(words, b"read") {
        return read(alloc, input, out, notes);
    }
    note(notes, USAGE);
    2
}

/// Whether this is the one word.
fn is_word(words: &[String], wanted: &[u8]) -> bool
    ensures { result ≡ is_word (map (λ w. string_bytes w) words.now) wanted.now }
{
    match words {
        [word] => word.as_bytes() == wanted,
        _ => false,
    }
}
