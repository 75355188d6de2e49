//! Replies in words.

ghost use Rattle.std.specs.Prelude.{◌≡◌, string_bytes, IfOk};
ghost use Rattle.lt_words.specs.Reply.{compact_done, flush_done, id_text, job_finished, job_stepped, progress_text, pump_done};
ghost use Rattle.lt_pump.specs.View.{view_stop};
ghost use Rattle.lt_reply.specs.View.{Prints, view_reply};

use crate::reply::Reply;
use crate::text::deltas::deltas_words;
use crate::text::status::status_words;
use crate::text::stop::stop_words;
use lt_core::{Memory, Ts};
use lt_pump::Stop;
use lt_terms::Progress;
use std::alloc::Global;

/// A reply, without the end of its last line.
#[tactic(auto, unfolding(lt_words::specs::Reply::reply_text))]
pub fn reply_words(alloc: Global, reply: &Reply) -> Result<String, Memory>
    ensures { IfOk result (λ words. Prints (string_bytes words) (view_reply reply.now)) }
{
    match reply {
        Reply::Schema { table, version } => Ok(format!(in alloc; "ok schema {table} {version}")?),
        Reply::Retire { table, version } => Ok(format!(in alloc; "ok retire {table} {version}")?),
        Reply::Pump {
            stream,
            records,
            offset,
            checkpoint,
            stop,
        } => pump_words(alloc, *stream, *records, *offset, *checkpoint, stop),
        Reply::Flush {
            part,
            resume,
            delta,
        } => flush_words(alloc, *part, *resume, *delta),
        Reply::Compact {
            part,
            inputs,
            delta,
        } => compact_words(alloc, *part, *inputs, *delta),
        Reply::JobBegin { part, inputs } => {
            Ok(format!(in alloc; "ok job begin {part} inputs {inputs}")?)
        },
        Reply::JobStep(progress) => step_words(alloc, *progress),
        Reply::JobFinish { delta } => finish_words(alloc, *delta),
        Reply::JobDrop => Ok(format!(in alloc; "ok job drop")?),
        Reply::Split { upper } => Ok(format!(in alloc; "ok split {upper}")?),
        Reply::Retain { at } => Ok(format!(in alloc; "ok retain {at}")?),
        Reply::Scan { rows } => Ok(format!(in alloc; "ok scan {rows}")?),
        Reply::Page { rows } => Ok(format!(in alloc; "ok page {rows}")?),
        Reply::Status {
            minimum,
            parts,
            streams,
            job,
        } => status_words(alloc, *minimum, parts, streams, *job),
        Reply::Deltas { lines } => deltas_words(alloc, lines),
        Reply::Reopen => Ok(format!(in alloc; "ok reopen")?),
    }
}

#[tactic(auto, unfolding(lt_words::specs::Reply::reply_text))]
fn pump_words(
    alloc: Global,
    stream: u32,
    records: u64,
    offset: u64,
    checkpoint: Ts,
    stop: &Stop,
) -> Result<String, Memory>
    ensures { IfOk result (λ words.
        Prints (string_bytes words) (pump_done stream records offset checkpoint (view_stop stop.now))) }
{
    let why = stop_words(alloc, stop)?;
    Ok(format!(in alloc;
        "ok pump {stream} records {records} offset {offset} checkpoint {checkpoint} stop {why}"
    )?)
}

#[tactic(auto, unfolding(lt_words::specs::Reply::reply_text))]
fn flush_words(alloc: Global, part: u32, resume: Ts, delta: Option<u64>) -> Result<String, Memory>
    ensures { IfOk result (λ words. Prints (string_bytes words) (flush_done part resume delta)) }
{
    let delta = id_text(alloc, delta)?;
    Ok(format!(in alloc; "ok flush {part} resume {resume} delta {delta}")?)
}

#[tactic(auto, unfolding(lt_words::specs::Reply::reply_text))]
fn compact_words(
    alloc: Global,
    part: u32,
    inputs: u64,
    delta: Option<u64>,
) -> Result<String, Memory>
    ensures { IfOk result (λ words. Prints (string_bytes words) (compact_done part inputs delta)) }
{
    let delta = id_text(alloc, delta)?;
    Ok(format!(in alloc; "ok compact {part} inputs {inputs} delta {delta}")?)
}

#[tactic(auto, unfolding(lt_words::specs::Reply::reply_text))]
fn step_words(alloc: Global, progress: Progress) -> Result<String, Memory>
    ensures { IfOk result (λ words. Prints (string_bytes words) (job_stepped progress)) }
{
    let word = progress_word(progress);
    Ok(format!(in alloc; "ok job step {word}")?)
}

#[tactic(auto, unfolding(lt_words::specs::Reply::reply_text))]
fn finish_words(alloc: Global, delta: Option<u64>) -> Result<String, Memory>
    ensures { IfOk result (λ words. Prints (string_bytes words) (job_finished delta)) }
{
    let delta = id_text(alloc, delta)?;
    Ok(format!(in alloc; "ok job finish delta {delta}")?)
}

/// A delta's id, or `none`.
fn id_text(alloc: Global, id: Option<u64>) -> Result<String, Memory>
    ensures { IfOk result (λ word. string_bytes word ≡ id_text id) }
{
    match id {
        Some(id) => Ok(format!(in alloc; "{id}")?),
        None => Ok(String::from_str(alloc, "none")?),
    }
}

/// Whether a job has keys left.
pub fn progress_word(progress: Progress) -> &'static str
    ensures { result.now ≡ progress_text progress }
{
    match progress {
        Progress::More => "more",
        Progress::Done => "done",
    }
}
