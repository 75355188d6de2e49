//! What happened to a disk in memory, from its beginning on. It grows with each write.

ghost use Rattle.std.specs.Prelude.{◌≡◌, [], ◌∷◌, ◌<◌, length, drop, OnOk, OnErr};

use lt_core::{Blob, Memory};
use std::alloc::Global;
use std::marker::Model;

/// What a crash may show of a call: a write, which changed the bytes or was refused, or a sync that succeeded.
#[derive(Debug, Drop)]
pub enum Event {
    Write {
        place: u64,
        bytes: Blob,
        taken: bool,
    },
    Sync,
}

/// The events. Contracts see the newest first.
#[derive(Debug, Drop)]
pub struct History {
    events: Vec<Event>,
}

impl Model for History {
    ghost use Rattle.std.specs.Prelude.{List, reverse};
    ghost use Rattle.lt_disk.specs.declared.history.Event.{Event};

    ghost Value = { List Event };

    ghost view = { λ h. reverse h.events.items };
}

impl Event {
    ghost use Rattle.lt_disk.specs.Crash.{is_write};

    pub fn is_write(&self) -> bool
        ensures { result ≡ is_write self.now }
    {
        match self {
            Event::Write { .. } => true,
            Event::Sync => false,
        }
    }
}

impl History {
    ghost use Rattle.std.specs.Prelude.{List, ℕ, reverse};
    ghost use Rattle.lt_disk.specs.History.{replay};
    ghost use Rattle.lt_disk.specs.Crash.{since_sync, synced_bytes};

    pub fn new(alloc: Global) -> History
        ensures { result ≡ [] }
    {
        History {
            events: Vec::new(alloc),
        }
    }

    pub fn allocator(&self) -> Global {
        *self.events.allocator()
    }

    /// Notes an event. An `Err` changes nothing.
    #[tactic(auto, using(crate::proofs::Histories::newest_first))]
    pub fn note(&mut self, event: Event) -> Result<(), Memory>
        ensures ok { OnOk result (self.new ≡ event ∷ self.old) }
        ensures err { OnErr result (self.new ≡ self.old) }
    {
        self.events.push(event)?;
        Ok(())
    }

    /// The events up to the last sync, and the writes since; the oldest first.
    pub fn parted(&self) -> (&[Event], &[Event])
        ensures since { since_sync self.now ≡ reverse result.1.now }
        ensures synced { (first : List ℕ) → synced_bytes first self.now ≡ replay first (reverse result.0.now) }
    {
        let events = self.events.as_slice();
        let mut start = events.len();
        while start > 0 && events[start - 1].is_write() {
            start -= 1;
        }
        events.split_at(start)
    }

    /// Drops the newest event.
    pub fn forget(&mut self)
        ensures { self.new ≡ drop 1 self.old }
    {
        self.events.pop();
    }
}
