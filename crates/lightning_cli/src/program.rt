//! The program's top call: what it does by its words, and the status that it ends with.

ghost use Rattle.std.specs.Prelude.{IfOk, ◌≡◌, if◌then◌else◌, map, string_bytes};
ghost use Rattle.lt_machine.specs.InMemory.{in_memory, only_run};
ghost use Rattle.lt_world.specs.Object.{BytesGo};
ghost use Rattle.lt_machine.specs.Program.{Did, EndsFor, OutsideGoes, Tells, Told, outside_of};
ghost use Rattle.lt_machine.specs.Run.{no_words_known, start_damaged, start_mismatch, start_text, word_run};
ghost use Rattle.lt_engine.specs.State.{view_start};
ghost use Rattle.lightning_cli.specs.Turns.{HasStopped};

use crate::output::finish;
use crate::serve::serve;
use lt_core::Memory;
use lt_disk::Disk;
use lt_engine::{Replica, StartRefusal};
use lt_io::{Feed, Sink, Source};
use std::alloc::Global;

const USAGE: &[u8] = b"usage: lightning init LIMIT | run | gen N\n";

const NO_STORE: &[u8] = b"stopped 5 NoStore\n";

const STORE_THERE: &[u8] = b"stopped 5 StoreThere\n";

const DISK_FAULT: &[u8] = b"stopped 6 DiskFault\n";

const FEED_FAULT: &[u8] = b"stopped 7 FeedFault\n";

/// The status of a store that is damaged.
const DAMAGED: u8 = 11;

/// Runs the program by its words, those behind its name, and gives its exit status: 0, 2, 3, 4, 7, 8, 9 or 10.
pub fn run<D: Disk, F: Feed, S: Source, K: Sink>(
    alloc: Global,
    words: &[String],
    disk: &mut D,
    feed: &mut F,
    script: &mut S,
    out: &mut K,
) -> u8
    // Over objects that expose their contents: one trace says what it took, what it wrote, and what each line did.
    ensures did { (old new : Told)
        → Tells (outside_of (D.state disk.old) (F.state feed.old) (S.state script.old) (K.state out.old)) old
        → Tells (outside_of (D.state disk.new) (F.state feed.new) (S.state script.new) (K.state out.new)) new
        → Did in_memory (map (λ w. string_bytes w) words.now)
        (outside_of (D.state disk.old) (F.state feed.old) (S.state script.old) (K.state out.old))
        (outside_of (D.state disk.new) (F.state feed.new) (S.state script.new) (K.state out.new)) old new result }

    // Whatever the objects expose: why it ended with its status.
    ensures ends { EndsFor in_memory (map (λ w. string_bytes w) words.now)
        (outside_of (D.state disk.old) (F.state feed.old) (S.state script.old) (K.state out.old))
        (outside_of (D.state disk.new) (F.state feed.new) (S.state script.new) (K.state out.new)) result }

    // The disk was not used, and the other objects went on.
    ensures goes { (disk.new ≡ disk.old)
        × OutsideGoes (outside_of (D.state disk.old) (F.state feed.old) (S.state script.old) (K.state out.old))
        (outside_of (D.state disk.new) (F.state feed.new) (S.state script.new) (K.state out.new)) }
{
    if !asks_run(words) {
        return finish(out, USAGE, 2);
    }
    match Replica::start(alloc, disk, feed) {
        Ok(replica) => serve(alloc, replica, disk, feed, script, out),
        Err(refusal) => stop(alloc, refusal, out),
    }
}

/// Writes why no replica begins, and gives the status that the line says. Only a line with a number takes memory.
fn stop<K: Sink>(alloc: Global, refusal: StartRefusal, out: &mut K) -> u8
    ensures stopped { HasStopped (view_start refusal) (K.state out.old) (K.state out.new) result }
    ensures goes { BytesGo (K.state out.old) (K.state out.new) }
{
    match refusal {
        StartRefusal::NoStore => finish(out, NO_STORE, 5),
        StartRefusal::StoreThere => finish(out, STORE_THERE, 5),
        StartRefusal::Disk => finish(out, DISK_FAULT, 6),
        StartRefusal::Feed => finish(out, FEED_FAULT, 7),
        StartRefusal::Mismatch { stream } => match mismatch_line(alloc, stream) {
            Ok(line) => finish(out, line.as_bytes(), 8),
            Err(Memory) => 10,
        },
        StartRefusal::Damaged { place, length } => match damage_line(alloc, place, length) {
            Ok(line) => finish(out, line.as_bytes(), DAMAGED),
            Err(Memory) => 10,
        },
        StartRefusal::Memory => 10,
    }
}

/// The line that says which stream does not fit.
fn mismatch_line(alloc: Global, stream: u32) -> Result<String, Memory>
    ensures { IfOk result (λ line. string_bytes line ≡ start_text (start_mismatch stream)) }
{
    Ok(format!(in alloc; "stopped 8 FeedMismatch {stream}\n")?)
}

/// The line that says where a store is damaged.
fn damage_line(alloc: Global, place: u64, length: u64) -> Result<String, Memory>
    ensures { IfOk result (λ line. string_bytes line ≡ start_text (start_damaged place length)) }
{
    Ok(format!(in alloc; "stopped {DAMAGED} Damaged {place} {length}\n")?)
}

/// Whether the words are the one that runs a script.
fn asks_run(words: &[String]) -> bool
    ensures { only_run (map (λ w. string_bytes w) words.now) ≡ (if result then word_run else no_words_known) }
{
    match words {
        [word] => word.as_bytes() == b"run".as_slice(),
        _ => false,
    }
}
