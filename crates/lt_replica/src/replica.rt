//! The replica, and one step of it.

ghost use Rattle.std.specs.Prelude.{◌≡◌, ◌&&◌, IsTrue, length, map as mapped};
ghost use Rattle.lt_pending.specs.Held.{held_in};
ghost use Rattle.lt_pump.specs.Pumps.{streams_of};
ghost use Rattle.lt_replica.specs.Behind.{are_behind};
ghost use Rattle.lt_replica.specs.Settling.{AreSettled};
ghost use Rattle.lt_replica.specs.Numbers.{HasLawfulShape, durable_with, has_manifest, numbers_of};
ghost use Rattle.lt_storage.specs.Store.{bare_manifest};

use crate::refusal::StartRefusal;
use lt_command::Command;
use lt_disk::Disk;
use lt_io::Feed;
use lt_parts::PartMap;
use lt_pending::Changes;
use lt_pump::Pump;
use lt_reply::{Refusal, Reply};
use lt_scan::RowSink;
use lt_schema::Catalogue;
use lt_store::Store;
use std::alloc::Global;

/// The store, the catalogue, where the streams stand, the partitions, and the changes that each holds.
#[derive(Drop)]
pub struct Replica {
    pub(crate) store: Store,
    pub(crate) catalogue: Catalogue,
    /// The id of the next delta.
    pub(crate) next_id: u64,
    pub(crate) pump: Pump,
    pub(crate) map: PartMap,
    /// What each partition holds, by number.
    pub(crate) parts: Vec<Changes>,
    pub ghost as_many: { length parts.items ≡ length map },
    pub ghost behind: { IsTrue (are_behind (streams_of pump) (mapped held_in parts.items)) },
    pub ghost settled: { AreSettled map (streams_of pump) },
    pub ghost lawful: { HasLawfulShape (bare_manifest (durable_with catalogue (numbers_of store next_id) map
        (streams_of pump))) },
    pub ghost taken: { IsTrue (has_manifest store) },
}

impl Replica {
    ghost use Rattle.std.specs.Prelude.{◌≡◌, IfErr, IfOk};
    ghost use Rattle.lt_words.specs.Lines.{is_built};
    ghost use Rattle.lt_replica.specs.BareStore.{on_bare_store};
    ghost use Rattle.lt_world.specs.Disk.{DiskGoes, LeftOnly};
    ghost use Rattle.lt_world.specs.Feed.{FeedGoes};
    ghost use Rattle.lt_machine.specs.Outside.{WorldGoes, is_command, world_of};
    ghost use Rattle.lt_machine.specs.Sound.{Session};
    ghost use Rattle.lt_machine.specs.Step.{NotStarted, Started, Stepped};
    ghost use Rattle.lt_command.specs.View.{view_command};
    ghost use Rattle.lt_reply.specs.View.{IsSpoken};
    ghost use Rattle.lt_replica.specs.State.{IsFed, StandsFor, view_start};
    ghost use Rattle.lt_replica.specs.Steps.{answer_of, fell};

    /// Begins on the store that the disk has, with each stream behind its header. It begins with a sync, and writes nothing.
    pub fn start<D: Disk, F: Feed>(
        alloc: Global,
        disk: &mut D,
        feed: &mut F,
    ) -> Result<Replica, StartRefusal>
        // A session began, which serves the feed.
        ensures started { IfOk result (λ r. (x : Session) × StandsFor r x × IsFed r (F.state feed.new)
            × Started on_bare_store (D.state disk.old) (D.state disk.new) (F.state feed.old) (F.state feed.new) x) }

        // None began, by its cause.
        ensures refused { IfErr result (λ e. NotStarted on_bare_store (D.state disk.old) (D.state disk.new)
            (F.state feed.old) (F.state feed.new) (view_start e)) }

        // Nothing was written: a crash leaves what it might have left before. The disk and the feed went on.
        ensures crash { LeftOnly (D.state disk.old) (D.state disk.new) (D.state disk.old).leaves }
        ensures told { (D.state disk.new).told ≡ (D.state disk.old).told }
        ensures goes { DiskGoes (D.state disk.old) (D.state disk.new) × FeedGoes (F.state feed.old) (F.state feed.new) }
    {
        match Replica::open(alloc, disk, feed) {
            Ok(replica) => Ok(replica),
            Err(refusal) => Err(refusal.at_start()),
        }
    }

    /// The versions that were registered.
    pub fn catalogue(&self) -> &Catalogue
        ensures { (x : Session) → StandsFor self.now x → result.now ≡ x.state.durable.catalogue }
    {
        &self.catalogue
    }

    /// Answers a command. The rows of a scan are given before its reply. A refusal changes nothing, but that a pump that fails stands
    /// behind the records that it took.
    pub fn step<D: Disk, F: Feed, R: RowSink>(
        &mut self,
        command: &Command,
        disk: &mut D,
        feed: &mut F,
        rows: &mut R,
    ) -> Result<Reply, Refusal>
        requires fed { IsFed self.old (F.state feed.old) }
        requires command { IsTrue (is_command (view_command command.now) && is_built (view_command command.now)) }

        // It led from the session that the replica stood for to the one that it stands for now.
        ensures stepped { (x : Session) → StandsFor self.old x → (y : Session) × StandsFor self.new y
            × Stepped on_bare_store (world_of (D.state disk.old) (F.state feed.old) (R.state rows.old))
            (world_of (D.state disk.new) (F.state feed.new) (R.state rows.new)) x y (view_command command.now) (answer_of result) }

        // The next step may follow, and the refusal can be printed.
        ensures fed { IsFed self.new (F.state feed.new) }
        ensures spoken { IfErr result IsSpoken }

        // The rows of a scan led the row sink on, to its fault where that is answered.
        ensures led { R.led rows.old rows.new (fell result) }

        // The disk, the feed and the row sink went on.
        ensures goes { WorldGoes (world_of (D.state disk.old) (F.state feed.old) (R.state rows.old))
            (world_of (D.state disk.new) (F.state feed.new) (R.state rows.new)) }
    {
        match command {
            Command::Schema(text) => self.schema(text.as_slice(), disk),
            Command::Retire { table, version } => self.retire(table, *version, disk),
            Command::Pump { stream, count } => self.take(*stream, *count, feed),
            Command::Split { table, key } => self.split(table, key, disk),
            Command::Scan(query) => self.scan(query, rows),
            Command::Status => self.status(),
            // No other command is built.
            _ => unreachable!(),
        }
    }

    /// The allocator that it was made with.
    pub(crate) fn allocator(&self) -> Global {
        *self.parts.allocator()
    }
}
