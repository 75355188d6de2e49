//! The lines of a status.

ghost use Rattle.std.specs.Prelude.{◌≡◌, ◌++◌, ◌<◌, flat_map, string_bytes, IfOk, OnOk};
ghost use Rattle.lt_words.specs.Reply.{bound_text, ended, job_text, part_line, part_lines, status_told, stream_line};
ghost use Rattle.lt_words.specs.SchemaText.{hex_glyph, hex_text};
ghost use Rattle.lt_reply.specs.View.{Prints, view_part, view_parts, view_stream, view_streams};

use crate::reply::{PartLine, PartLines, StreamLine, StreamLines};
use crate::text::replies::progress_word;
use lt_core::{KeyBytes, Memory, Ts};
use lt_terms::Progress;
use std::alloc::Global;

/// The minimum, a line for each partition and for each stream, and where the job stands.
pub fn status_words(
    alloc: Global,
    minimum: Ts,
    parts: &PartLines,
    streams: &StreamLines,
    job: Option<Progress>,
) -> Result<String, Memory>
    ensures { IfOk result (λ s.
        Prints (string_bytes s) (status_told minimum (view_parts parts.now) (view_streams streams.now) job)) }
{
    let parts = parts_text(alloc, parts.as_slice())?;
    let streams = streams_text(alloc, streams.as_slice())?;
    let job = job_word(job);
    Ok(format!(in alloc; "minimum {minimum}\n{parts}{streams}job {job}\nok status")?)
}

/// Whether the open job has keys left, or that none is open.
fn job_word(job: Option<Progress>) -> &'static str
    ensures { result.now ≡ job_text job }
{
    match job {
        Some(progress) => progress_word(progress),
        None => "none",
    }
}

/// The lines of the partitions, which are numbered from 0.
fn parts_text(alloc: Global, parts: &[PartLine]) -> Result<String, Memory>
    ensures { IfOk result (λ s. string_bytes s ≡ part_lines 0 (view_parts parts.now)) }
{
    let mut text = String::new(alloc);
    for (number, part) in parts.iter().enumerate() {
        put_part(alloc, &mut text, number, part)?;
    }
    Ok(text)
}

/// Appends a partition's line.
fn put_part(alloc: Global, text: &mut String, number: usize, part: &PartLine) -> Result<(), Memory>
    ensures { OnOk result (string_bytes text.new ≡ string_bytes text.old ++ part_line number (view_part part.now)) }
{
    let words = part_words(alloc, number, part)?;
    text.push_str(words.as_str())?;
    text.push('\n')?;
    Ok(())
}

fn part_words(alloc: Global, number: usize, part: &PartLine) -> Result<String, Memory>
    ensures { IfOk result (λ words. ended (string_bytes words) ≡ part_line number (view_part part.now)) }
{
    let low = bound_text(alloc, &part.low)?;
    let PartLine {
        resume,
        checkpoint,
        pending,
        deltas,
        ..
    } = part;
    Ok(format!(in alloc;
        "partition {number} low {low} resume {resume} checkpoint {checkpoint} pending {pending} deltas {deltas}"
    )?)
}

/// The lines of the streams.
fn streams_text(alloc: Global, streams: &[StreamLine]) -> Result<String, Memory>
    ensures { IfOk result (λ s. string_bytes s ≡ flat_map stream_line (view_streams streams.now)) }
{
    let mut text = String::new(alloc);
    for stream in streams {
        put_stream(alloc, &mut text, stream)?;
    }
    Ok(text)
}

/// Appends a stream's line.
fn put_stream(alloc: Global, text: &mut String, line: &StreamLine) -> Result<(), Memory>
    ensures { OnOk result (string_bytes text.new ≡ string_bytes text.old ++ stream_line (view_stream line.now)) }
{
    let words = stream_words(alloc, line)?;
    text.push_str(words.as_str())?;
    text.push('\n')?;
    Ok(())
}

fn stream_words(alloc: Global, line: &StreamLine) -> Result<String, Memory>
    ensures { IfOk result (λ words. ended (string_bytes words) ≡ stream_line (view_stream line.now)) }
{
    let StreamLine {
        stream,
        offset,
        checkpoint,
    } = line;
    Ok(format!(in alloc; "stream {stream} offset {offset} checkpoint {checkpoint}")?)
}

/// A bound's hexadecimal digits, or `-` where it is empty.
fn bound_text(alloc: Global, bound: &KeyBytes) -> Result<String, Memory>
    ensures { IfOk result (λ s. string_bytes s ≡ bound_text bound.now) }
{
    match bound.as_slice() {
        [] => Ok(String::from_str(alloc, "-")?),
        bytes => hex_text(alloc, bytes),
    }
}

/// Lower-case pairs of hexadecimal digits.
fn hex_text(alloc: Global, bytes: &[u8]) -> Result<String, Memory>
    ensures { IfOk result (λ s. string_bytes s ≡ hex_text bytes.now) }
{
    let mut text = String::new(alloc);
    for byte in bytes {
        text.push(hex_glyph(byte / 16))?;
        text.push(hex_glyph(byte % 16))?;
    }
    Ok(text)
}

/// The lower-case hexadecimal digit of a value below 16.
fn hex_glyph(value: u8) -> char
    requires { value < 16 }
    ensures { result ≡ hex_glyph value }
{
    if value < 10 {
        char::from(b'0' + value)
    } else {
        char::from(b'a' - 10 + value)
    }
}
