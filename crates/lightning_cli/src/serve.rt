//! A run of a script: reads it in pieces, and answers each line that a piece ends; each reply is written before the next line is read. A read
//! gives what is there, so a pipe that waits for a reply before it sends its next line gets the reply.
//!
//! A run ends where the script does, where it is too long, or where a device fails or memory runs out.

ghost use Rattle.std.specs.Prelude.{IfSome, ◌≡◌, ◌+◌, ◌<◌, ◌≤◌, ◌^◌, ◌++◌, ◌⊎◌, [], ℕ, List, Some, length};
ghost use Rattle.std.specs.Io.KnownBytes.{Consumes};
ghost use Rattle.lt_world.specs.Object.{BytesGo, BytesState};
ghost use Rattle.lt_world.specs.Feed.{FeedGoes};
ghost use Rattle.lt_machine.specs.Program.{Tells, Told, outside_of};
ghost use Rattle.lt_machine.specs.Run.{Moment, max_script};
ghost use Rattle.lt_engine.specs.State.{IsFed};
ghost use Rattle.lightning_cli.specs.Commands.{StandsIn};
ghost use Rattle.lightning_cli.specs.Serving.{HasServed, IsRunStatus, IsServing, IsTaken, OutOver, ScriptOver, Unfailed};
ghost use Rattle.lightning_cli.specs.Turns.{IfMore, IfOver, MatchTurn};

use crate::output::finish;
use crate::server::Server;
use lt_disk::Disk;
use lt_engine::Replica;
use lt_io::{Feed, ReadFault, Sink, Source};
use std::alloc::Global;

/// The longest script, in bytes.
pub const MAX_SCRIPT: u64 = 4294967296;

/// Each turn takes a byte at least.
const MOST_TURNS: u64 = MAX_SCRIPT + 1;

/// How much is read at once, in bytes.
const PIECE: usize = 65536;

const SCRIPT_FAULT: &[u8] = b"stopped 3 ScriptFault\n";

const TOO_LONG: &[u8] = b"stopped 9 TooLong\n";

/// How a turn of a run ended: with so many bytes taken, or with the run's status.
#[derive(Clone, Copy, Debug, PartialEq, Eq)]
pub enum Turn {
    More(u64),
    Over(u8),
}

/// Answers the line that is open where the script ends, and writes what is left to write.
fn end<D: Disk, F: Feed, K: Sink>(
    server: &mut Server,
    alloc: Global,
    disk: &mut D,
    feed: &mut F,
    out: &mut K,
) -> u8
    requires fed { IsFed server.old.replica (F.state feed.old) }
    ensures served { (m : Moment) (old : Told) (script : BytesState) (count : ℕ)
        → script.told ≡ Some [] → count ≤ max_script
        → IsServing m old (outside_of (D.state disk.old) (F.state feed.old) script (K.state out.old))
        count [] server.old
        → HasServed m old (outside_of (D.state disk.new) (F.state feed.new) script (K.state out.new)) result }
    ensures over { OutOver (K.state out.old) (K.state out.new) result }
    ensures statuses { (result ≡ 0) ⊎ (result ≡ 4) ⊎ (result ≡ 10) }
    ensures goes { (disk.new ≡ disk.old) × FeedGoes (F.state feed.old) (F.state feed.new)
        × BytesGo (K.state out.old) (K.state out.new) }
{
    match server.answer(alloc, disk, feed, out) {
        Ok(()) => finish(out, server.replies(), 0),
        Err(fault) => fault.status(),
    }
}

/// Answers the lines that the last lawful bytes of a script end that is too long.
fn cut<D: Disk, F: Feed, K: Sink>(
    server: &mut Server,
    alloc: Global,
    disk: &mut D,
    feed: &mut F,
    out: &mut K,
    bytes: &[u8],
) -> u8
    requires fed { IsFed server.old.replica (F.state feed.old) }
    requires written { server.old.replies.items ≡ [] }
    ensures served { (m : Moment) (old : Told) (script : BytesState) (count : ℕ) (more : List ℕ)
        → count + length bytes.now ≡ max_script → 0 < length more
        → IsServing m old (outside_of (D.state disk.old) (F.state feed.old) script (K.state out.old))
        count (bytes.now ++ more) server.old
        → HasServed m old (outside_of (D.state disk.new) (F.state feed.new) script (K.state out.new)) result }
    ensures over { OutOver (K.state out.old) (K.state out.new) result }
    ensures statuses { (result ≡ 4) ⊎ (result ≡ 9) ⊎ (result ≡ 10) }
    ensures goes { (disk.new ≡ disk.old) × FeedGoes (F.state feed.old) (F.state feed.new)
        × BytesGo (K.state out.old) (K.state out.new) }
{
    match server.take(alloc, disk, feed, out, bytes) {
        Ok(()) => finish(out, TOO_LONG, 9),
        Err(fault) => fault.status(),
    }
}

/// Takes a piece of the script, and writes the replies to the lines that it ends.
fn digest<D: Disk, F: Feed, K: Sink>(
    server: &mut Server,
    alloc: Global,
    disk: &mut D,
    feed: &mut F,
    out: &mut K,
    piece: &[u8],
) -> Turn
    requires fed { IsFed server.old.replica (F.state feed.old) }
    ensures serves { (m : Moment) (old : Told) (script : BytesState) (count : ℕ)
        → count + length piece.now ≤ max_script
        → IsServing m old (outside_of (D.state disk.old) (F.state feed.old) script (K.state out.old))
        count piece.now server.old
        → MatchTurn result
        (λ n. IsServing m old (outside_of (D.state disk.new) (F.state feed.new) script (K.state out.new))
        (count + n) [] server.new)
        (HasServed m old (outside_of (D.state disk.new) (F.state feed.new) script (K.state out.new))) }
    ensures more { IfMore result (λ n. (n ≡ length piece.now) × (server.new.replies.items ≡ [])
        × Unfailed (K.state out.old) (K.state out.new)) }
    ensures over { IfOver result (OutOver (K.state out.old) (K.state out.new)) }
    ensures statuses { IfOver result (λ status. (status ≡ 4) ⊎ (status ≡ 10)) }
    ensures fed { IfMore result (λ n. IsFed server.new.replica (F.state feed.new)) }
    ensures goes { (disk.new ≡ disk.old) × FeedGoes (F.state feed.old) (F.state feed.new)
        × BytesGo (K.state out.old) (K.state out.new) }
{
    match server.take(alloc, disk, feed, out, piece) {
        Ok(()) => Turn::More(piece.len() as u64),
        Err(fault) => Turn::Over(fault.status()),
    }
}

/// Takes what the script gives next. So many bytes were taken before.
fn take_piece<D: Disk, F: Feed, S: Source, K: Sink>(
    server: &mut Server,
    alloc: Global,
    disk: &mut D,
    feed: &mut F,
    script: &mut S,
    out: &mut K,
    count: u64,
) -> Turn
    requires fed { IsFed server.old.replica (F.state feed.old) }
    requires written { server.old.replies.items ≡ [] }
    requires short { count ≤ max_script }
    ensures serves { (m : Moment) (old : Told)
        → IsServing m old (outside_of (D.state disk.old) (F.state feed.old) (S.state script.old) (K.state out.old))
        count [] server.old
        → MatchTurn result
        (λ n. IsServing m old (outside_of (D.state disk.new) (F.state feed.new) (S.state script.new) (K.state out.new))
        (count + n) [] server.new)
        (HasServed m old (outside_of (D.state disk.new) (F.state feed.new) (S.state script.new) (K.state out.new))) }
    ensures more { IfMore result (λ n. (0 < n) × (count + n ≤ max_script) × (server.new.replies.items ≡ [])) }
    ensures taken { IfMore result (IsTaken (S.state script.old).told (S.state script.new).told) }
    ensures unfailed { IfMore result (λ n. Unfailed (S.state script.old) (S.state script.new)
        × Unfailed (K.state out.old) (K.state out.new)) }
    ensures script_over { IfOver result (ScriptOver (S.state script.old) (S.state script.new)) }
    ensures out_over { IfOver result (OutOver (K.state out.old) (K.state out.new)) }
    ensures too_long { IfOver result (λ status. status ≡ 9
        → IfSome (S.state script.old).told (λ s. max_script < count + length s)) }
    ensures statuses { IfOver result IsRunStatus }
    ensures fed { IfMore result (λ n. IsFed server.new.replica (F.state feed.new)) }
    ensures goes { (disk.new ≡ disk.old) × FeedGoes (F.state feed.old) (F.state feed.new)
        × BytesGo (S.state script.old) (S.state script.new) × BytesGo (K.state out.old) (K.state out.new) }
{
    let mut buffer = [0u8; PIECE];
    let n = match script.read(&mut buffer) {
        Ok(n) => n,
        Err(ReadFault) => return Turn::Over(finish(out, SCRIPT_FAULT, 3)),
    };
    if n == 0 {
        return Turn::Over(end(server, alloc, disk, feed, out));
    }
    let room = (MAX_SCRIPT - count) as usize;
    if n > room {
        return Turn::Over(cut(server, alloc, disk, feed, out, &buffer[..room]));
    }
    digest(server, alloc, disk, feed, out, &buffer[..n])
}

/// Runs a script from a replica, and gives the program's status.
pub fn serve<D: Disk, F: Feed, S: Source, K: Sink>(
    alloc: Global,
    replica: Replica,
    disk: &mut D,
    feed: &mut F,
    script: &mut S,
    out: &mut K,
) -> u8
    requires fed { IsFed replica (F.state feed.old) }
    ensures served { (m : Moment) (old : Told)
        → Tells (outside_of (D.state disk.old) (F.state feed.old) (S.state script.old) (K.state out.old)) old
        → m.feed ≡ old.feed → m.counts ≡ old.counts → StandsIn (D.state disk.old) m replica
        → HasServed m old (outside_of (D.state disk.new) (F.state feed.new) (S.state script.new) (K.state out.new))
        result }
    ensures script_over { ScriptOver (S.state script.old) (S.state script.new) result }
    ensures out_over { OutOver (K.state out.old) (K.state out.new) result }
    ensures too_long { result ≡ 9 → IfSome (S.state script.old).told (λ s. max_script < length s) }
    ensures statuses { IsRunStatus result }
    ensures goes { (disk.new ≡ disk.old) × FeedGoes (F.state feed.old) (F.state feed.new)
        × BytesGo (S.state script.old) (S.state script.new) × BytesGo (K.state out.old) (K.state out.new) }
{
    let mut server = Server::new(alloc, replica);
    let mut count = 0;
    for _ in 0..MOST_TURNS {
        match take_piece(&mut server, alloc, disk, feed, script, out, count) {
            Turn::More(n) => count += n,
            Turn::Over(status) => return status,
        }
    }
    unreachable!()
}
