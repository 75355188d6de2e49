//! Answers a command: the text of its rows and of its reply. It takes the time of the replica's step, and time by the length of the text.

ghost use Rattle.std.specs.Prelude.{◌≡◌, ◌&&◌, ℕ, List, None, OnErr, Option, OnOk, Some, IfErr, IfOk, IsSome, IsTrue, option_map};
ghost use Rattle.lt_command.specs.View.{view_command};
ghost use Rattle.lt_engine.specs.State.{IsFed, StandsFor};
ghost use Rattle.lt_engine.specs.Steps.{answer_of, fell};
ghost use Rattle.lt_words.specs.Lines.{is_built};
ghost use Rattle.lt_machine.specs.Machine.{cat_of};
ghost use Rattle.lt_world.specs.Feed.{FeedGoes};
ghost use Rattle.lt_world.specs.Object.{BytesGo};
ghost use Rattle.lt_machine.specs.InMemory.{on_memory};
ghost use Rattle.lt_machine.specs.Outside.{is_command, world_of};
ghost use Rattle.lt_machine.specs.Step.{Stepped};
ghost use Rattle.lightning_cli.specs.Rows.{LeadsOut, rows_state};
ghost use Rattle.lt_machine.specs.Run.{Moment, result_text};
ghost use Rattle.lt_machine.specs.Sound.{Session};
ghost use Rattle.lt_reply.specs.View.{IsSpoken};
ghost use Rattle.lt_schema.specs.View.{view_version};
ghost use Rattle.lightning_cli.specs.Commands.{HasAnswered, IsNow, StandsIn, version_named, version_read};
ghost use Rattle.lightning_cli.specs.Serving.{OutOver, Unfailed};
ghost use Rattle.lightning_cli.specs.Turns.{take_status};

use crate::output::add;
use crate::rows::{NoRows, RowWriter};
use crate::server::TakeFault;
use lt_command::{Command, Query};
use lt_core::{Blob, Memory};
use lt_disk::Disk;
use lt_engine::Replica;
use lt_io::{Feed, Sink};
use lt_reply::{Refusal, Reply, refusal_text, reply_text};
use lt_schema::{Catalogue, SchemaVersion};
use std::alloc::Global;

/// Answers a command: its rows and its reply go behind a text, of which some may be written. An `Err` is the end of the run: the replica
/// has gone on.
pub fn answer<D: Disk, F: Feed, K: Sink>(
    alloc: Global,
    replica: &mut Replica,
    command: &Command,
    disk: &mut D,
    feed: &mut F,
    text: &mut Vec<u8>,
    out: &mut K,
) -> Result<(), TakeFault>
    requires fed { IsFed replica.old (F.state feed.old) }
    requires command { IsTrue (is_command (view_command command.now) && is_built (view_command command.now)) }
    ensures answered { (start m : Moment) → IsSome (K.state out.old).told
        → IsNow (D.state disk.old) (F.state feed.old) start m → StandsIn (D.state disk.old) m replica.old
        → HasAnswered start m (view_command command.now) (D.state disk.new) (F.state feed.new) replica.new
        (K.state out.old).told (K.state out.new).told text.old.items text.new.items result }
    ensures unfailed { OnOk result (Unfailed (K.state out.old) (K.state out.new)) }
    ensures over { IfErr result (λ e. OutOver (K.state out.old) (K.state out.new) (take_status e)) }
    ensures fed { IsFed replica.new (F.state feed.new) }
    ensures goes { (disk.new ≡ disk.old) × FeedGoes (F.state feed.old) (F.state feed.new)
        × BytesGo (K.state out.old) (K.state out.new) }
{
    let Ok(version) = version_of(replica.catalogue(), command) else {
        return Ok(add(text, refusal_text(alloc, &Refusal::Memory)?.as_slice())?);
    };
    match version {
        Some(version) => answer_by(alloc, replica, command, &version, disk, feed, text, out),
        None => Ok(answer_alone(alloc, replica, command, disk, feed, text)?),
    }
}

/// Answers a command whose rows are read by this version.
fn answer_by<D: Disk, F: Feed, K: Sink>(
    alloc: Global,
    replica: &mut Replica,
    command: &Command,
    version: &SchemaVersion,
    disk: &mut D,
    feed: &mut F,
    text: &mut Vec<u8>,
    out: &mut K,
) -> Result<(), TakeFault>
    requires fed { IsFed replica.old (F.state feed.old) }
    requires command { IsTrue (is_command (view_command command.now) && is_built (view_command command.now)) }
    requires version { (x : Session) → StandsFor replica.old x
        → version_read (cat_of x.state) (view_command command.now) ≡ Some (view_version version.now) }
    ensures answered { (start m : Moment) → IsSome (K.state out.old).told
        → IsNow (D.state disk.old) (F.state feed.old) start m → StandsIn (D.state disk.old) m replica.old
        → HasAnswered start m (view_command command.now) (D.state disk.new) (F.state feed.new) replica.new
        (K.state out.old).told (K.state out.new).told text.old.items text.new.items result }
    ensures unfailed { OnOk result (Unfailed (K.state out.old) (K.state out.new)) }
    ensures over { IfErr result (λ e. OutOver (K.state out.old) (K.state out.new) (take_status e)) }
    ensures fed { IsFed replica.new (F.state feed.new) }
    ensures goes { (disk.new ≡ disk.old) × FeedGoes (F.state feed.old) (F.state feed.new)
        × BytesGo (K.state out.old) (K.state out.new) }
{
    let answer = step_writing(replica, command, version, disk, feed, text, out);
    if is_cut(&answer) {
        return Err(TakeFault::Sink);
    }
    Ok(add(text, line_of(alloc, &answer)?.as_slice())?)
}

/// Takes a step whose rows go behind a text, of which some may be written.
fn step_writing<D: Disk, F: Feed, K: Sink>(
    replica: &mut Replica,
    command: &Command,
    version: &SchemaVersion,
    disk: &mut D,
    feed: &mut F,
    text: &mut Vec<u8>,
    out: &mut K,
) -> Result<Reply, Refusal>
    requires fed { IsFed replica.old (F.state feed.old) }
    requires command { IsTrue (is_command (view_command command.now) && is_built (view_command command.now)) }
    ensures stepped { (x : Session) → StandsFor replica.old x → (y : Session) × StandsFor replica.new y
        × Stepped on_memory
        (world_of (D.state disk.old) (F.state feed.old) (rows_state version.now (K.state out.old) text.old.items))
        (world_of (D.state disk.new) (F.state feed.new) (rows_state version.now (K.state out.new) text.new.items))
        x y (view_command command.now) (answer_of result) }
    ensures led { LeadsOut (K.state out.old) (K.state out.new) (fell result) }
    ensures fed { IsFed replica.new (F.state feed.new) }
    ensures spoken { IfErr result IsSpoken }
    ensures goes { (disk.new ≡ disk.old) × FeedGoes (F.state feed.old) (F.state feed.new) }
{
    let mut rows = RowWriter::new(version, text, out);
    let answer = replica.step(command, disk, feed, &mut rows);
    let RowWriter {
        version: _,
        text: _,
        out: _,
    } = rows;
    answer
}

/// Answers a command that has no rows, or is refused.
fn answer_alone<D: Disk, F: Feed>(
    alloc: Global,
    replica: &mut Replica,
    command: &Command,
    disk: &mut D,
    feed: &mut F,
    text: &mut Vec<u8>,
) -> Result<(), Memory>
    requires fed { IsFed replica.old (F.state feed.old) }
    requires command { IsTrue (is_command (view_command command.now) && is_built (view_command command.now)) }
    requires version { (x : Session) → StandsFor replica.old x
        → version_read (cat_of x.state) (view_command command.now) ≡ None }
    ensures answered { (start m : Moment) (held : Option (List ℕ))
        → IsNow (D.state disk.old) (F.state feed.old) start m → StandsIn (D.state disk.old) m replica.old
        → HasAnswered start m (view_command command.now) (D.state disk.new) (F.state feed.new) replica.new
        held held text.old.items text.new.items result }
    ensures fed { IsFed replica.new (F.state feed.new) }
    ensures goes { (disk.new ≡ disk.old) × FeedGoes (F.state feed.old) (F.state feed.new) }
{
    let mut rows = NoRows;
    let answer = replica.step(command, disk, feed, &mut rows);
    add(text, line_of(alloc, &answer)?.as_slice())
}

/// Whether the output failed within the rows.
fn is_cut(answer: &Result<Reply, Refusal>) -> bool
    ensures { result ≡ fell answer.now }
{
    matches!(answer, Err(Refusal::OutFault))
}

/// The version that a command's rows are read by, where the catalogue has it.
fn version_of(catalogue: &Catalogue, command: &Command) -> Result<Option<SchemaVersion>, Memory>
    ensures { IfOk result (λ version. option_map view_version version
        ≡ version_read catalogue.now (view_command command.now)) }
{
    match command {
        Command::Scan(query) => version_for(catalogue, query),
        Command::Page(query) => version_for(catalogue, query),
        _ => Ok(None),
    }
}

/// The version that a query names, where the catalogue has it.
fn version_for(catalogue: &Catalogue, query: &Query) -> Result<Option<SchemaVersion>, Memory>
    ensures { IfOk result (λ version. option_map view_version version
        ≡ version_named catalogue.now query.now.table query.now.version) }
{
    let Some(number) = catalogue.table(query.table.as_slice()) else {
        return Ok(None);
    };
    match catalogue.get(number, query.version) {
        Some(version) => Ok(Some(version.copy()?)),
        None => Ok(None),
    }
}

/// The line of a reply or a refusal.
fn line_of(alloc: Global, answer: &Result<Reply, Refusal>) -> Result<Blob, Memory>
    requires { IfErr answer.now IsSpoken }
    ensures { IfOk result (λ line. line ≡ result_text (answer_of answer.now)) }
{
    match answer {
        Ok(reply) => reply_text(alloc, reply),
        Err(refusal) => refusal_text(alloc, refusal),
    }
}
