//! A disk in memory. It keeps all that happened to it, so that it tells each image that a crash may leave at each moment. A read
//! or a write takes time by its length, and memory is taken for each write and each sync.

ghost use Rattle.std.specs.Prelude.{◌≡◌, ◌∷◌, [], ◌<◌, ◌≤◌, ℕ, List, Some, length, is_err, IfOk, IfSome, OnOk, OnErr, true};
ghost use Rattle.std.proofs.Props.{props};
ghost use Rattle.lt_world.specs.Disk.{AreBytes, CountsOne, Follows, HasCause, Only, Reads, Torn, bytes_at, with_bytes};
ghost use Rattle.lt_world.specs.Disk.{DiskCalled, WritesTold};
ghost use Rattle.lt_disk.specs.Plan.{no_plan, listing, stopping, with_fault, counted, GoesByPlan, GoesUnlessLacking, FailsOnly};
ghost use Rattle.lt_disk.specs.History.{replay, HoldBytes};
ghost use Rattle.lt_disk.specs.declared.history.Event.TheVariants.{Sync, Write};

use crate::calls::Calls;
use crate::content::Content;
use crate::crash::{Pick, replayed, tear};
use crate::disk::Disk;
use crate::fault::DiskFault;
use crate::history::{Event, History};
use lt_core::{Blob, List, Memory};
use std::alloc::Global;

/// A disk in memory. A write or a sync for which it finds no memory fails.
#[derive(Debug, Drop)]
pub struct MemDisk {
    content: Content,
    history: History,
    calls: Calls,
    write_faults: u64,
    reads: u64,
    lacks: u64,
    ghost replays: { content.now ≡ replay content.first history },
    ghost bytes: { HoldBytes content.first history } by { Prim.hlevel props },
    pub ghost fails_only: { FailsOnly calls lacks },
}

impl MemDisk {
    ghost use Rattle.lt_disk.specs.Memory.{disk_held, disk_first, disk_history, disk_may_leave, disk_plan, disk_reads, disk_lacks, IsFresh, OnlyPlans};
    ghost use Rattle.lt_disk.specs.Crash.{left_by};

    /// An empty disk.
    pub fn new(alloc: Global) -> MemDisk
        ensures held { disk_held result ≡ [] }
        ensures fresh { IsFresh result }
    {
        MemDisk::holding(alloc, List::new(alloc))
    }

    /// A disk that holds these bytes, also after a crash.
    pub fn holding(alloc: Global, bytes: Blob) -> MemDisk
        ensures held { disk_held result ≡ bytes }
        ensures fresh { IsFresh result }
    {
        are_bytes(bytes.as_slice());
        MemDisk {
            content: Content::new(alloc, bytes),
            history: History::new(alloc),
            calls: Calls::new(alloc),
            write_faults: 0,
            reads: 0,
            lacks: 0,
        }
    }

    /// Lists further calls that are to fail, by their numbers from 1 over all calls since the disk was made.
    pub fn fail(&mut self, calls: &[u64]) -> Result<(), Memory>
        ensures ok { OnOk result (disk_plan self.new ≡ listing (disk_plan self.old) calls.now) }
        ensures err { OnErr result (disk_plan self.new ≡ disk_plan self.old) }
        ensures rest { OnlyPlans self.old self.new }
    {
        self.calls.list(calls)
    }

    /// After so many further calls every call fails.
    pub fn stop_after(&mut self, calls: u64)
        ensures plan { disk_plan self.new ≡ stopping (disk_plan self.old) calls }
        ensures rest { OnlyPlans self.old self.new }
    {
        self.calls.stop_after(calls);
    }

    /// The disk after a crash, as one that holds what the crash left. The k-th pick says what it left of the k-th write since
    /// the last sync that succeeded, taken or refused. A missing pick is `Old`.
    pub fn crash(&self, picks: &[Pick]) -> Result<MemDisk, Memory>
        ensures held { IfOk result (λ disk. disk_held disk ≡ left_by picks.now (disk_first self.now)
            (disk_history self.now)) }
        ensures image { IfOk result (λ disk. disk_may_leave self.now (disk_held disk)) }
        ensures fresh { IfOk result IsFresh }
    {
        let alloc = self.history.allocator();
        let (synced, since) = self.history.parted();
        let mut image = replayed(alloc, self.content.first(), synced)?;
        tear(&mut image, since, picks)?;
        Ok(MemDisk::holding(alloc, List::from_slice(alloc, image.as_slice())?))
    }

    /// The bytes as they read, up to the last one held or written.
    pub fn bytes(&self) -> &[u8]
        ensures { result.now ≡ disk_held self.now }
    {
        self.content.bytes()
    }

    /// How many calls of `read_at` were made.
    pub fn reads(&self) -> u64
        ensures { result ≡ disk_reads self.now }
    {
        self.reads
    }

    /// How many writes and syncs found no memory. Where no call was to fail, it failed only so often.
    pub fn lacks(&self) -> u64
        ensures lacks { result ≡ disk_lacks self.now }
        ensures fails_only { FailsOnly (disk_plan self.now) result }
    {
        self.lacks
    }
}

impl Disk for MemDisk {
    ghost use Rattle.lt_disk.specs.Memory.{disk_held, disk_may_leave, disk_plan, disk_state, disk_write_faults, disk_reads, disk_lacks, disk_history, NotesWrite, NotesSync};
    ghost use Rattle.lt_disk.specs.HistoryLaws as laws;
    ghost use Rattle.std.proofs.Common.{subst, sym};

    ghost state = { disk_state };

    fn read_at(&mut self, place: u64, buf: &mut [u8]) -> Result<(), DiskFault>
        requires { 0 < length buf.old }
        ensures bytes { OnOk result (Reads (Some (disk_held self.old)) place buf.new) }
        ensures same { Some (disk_held self.new) ≡ Some (disk_held self.old) }
        ensures crash { (c : List ℕ) → disk_may_leave self.new c → disk_may_leave self.old c }
        ensures called { DiskCalled (disk_state self.old) (disk_state self.new) result }
        ensures read { CountsOne (disk_reads self.old) (disk_reads self.new) }
        ensures written { disk_write_faults self.new ≡ disk_write_faults self.old }
        ensures plan { GoesByPlan (disk_plan self.old) (disk_plan self.new) (is_err result) }
        ensures counted { disk_reads self.new ≡ counted (disk_reads self.old) }
        ensures lacks { disk_lacks self.new ≡ disk_lacks self.old }
        ensures history { disk_history self.new ≡ disk_history self.old }
    {
        self.reads = self.reads.saturating_add(1);
        if self.calls.next_fails() {
            return Err(DiskFault);
        }
        fill(self.content.bytes(), place, buf);
        Ok(())
    }

    fn write_at(&mut self, place: u64, bytes: &[u8]) -> Result<(), DiskFault>
        requires { 0 < length bytes.now }
        ensures bytes { WritesTold (Some (disk_held self.old)) (Some (disk_held self.new)) place bytes.now result }
        ensures crash { Follows (Torn place (length bytes.now)) (disk_may_leave self.old) (disk_may_leave self.new) }
        ensures called { DiskCalled (disk_state self.old) (disk_state self.new) result }
        ensures read { disk_reads self.new ≡ disk_reads self.old }
        ensures written { HasCause (disk_write_faults self.old) (disk_write_faults self.new) result }
        ensures plan { GoesUnlessLacking (disk_plan self.old) (disk_plan self.new) (disk_lacks self.old)
            (disk_lacks self.new) (is_err result) }
        ensures failed { OnErr result (disk_held self.new ≡ disk_held self.old) }
        ensures noted { NotesWrite self.old self.new place bytes.now result }
    {
        if self.calls.next_fails() {
            self.write_faults = self.write_faults.saturating_add(1);
            if note_write(&mut self.history, place, bytes, false).is_err() {
                self.lacks = self.lacks.saturating_add(1);
            }
            return Err(DiskFault);
        }
        if write(&mut self.content, &mut self.history, place, bytes).is_err() {
            count_lack(&mut self.calls, &mut self.write_faults, &mut self.lacks);
            return Err(DiskFault);
        }
        Ok(())
    }

    fn sync(&mut self) -> Result<(), DiskFault>
        ensures durable { OnOk result (IfSome (Some (disk_held self.new))
            (λ image. Only image (disk_may_leave self.new))) }
        ensures same { Some (disk_held self.new) ≡ Some (disk_held self.old) }
        ensures crash { (c : List ℕ) → disk_may_leave self.new c → disk_may_leave self.old c }
        ensures called { DiskCalled (disk_state self.old) (disk_state self.new) result }
        ensures read { disk_reads self.new ≡ disk_reads self.old }
        ensures written { HasCause (disk_write_faults self.old) (disk_write_faults self.new) result }
        ensures plan { GoesUnlessLacking (disk_plan self.old) (disk_plan self.new) (disk_lacks self.old)
            (disk_lacks self.new) (is_err result) }
        ensures noted { NotesSync self.old self.new result }
    {
        if self.calls.next_fails() {
            self.write_faults = self.write_faults.saturating_add(1);
            return Err(DiskFault);
        }
        if self.history.note(Event::Sync).is_err() {
            count_lack(&mut self.calls, &mut self.write_faults, &mut self.lacks);
            return Err(DiskFault);
        }
        Ok(())
    }

    ghost counts_now = { λ d. laws.counts_now d.content.first d.history };

    ghost only_now = { λ d. laws.only_now d.content.first d.history };

    ghost reads_an_image = { λ d. subst (disk_may_leave d) (sym d.replays) (laws.replay_is_image d.content.first d.history d.bytes) };
}

/// The items of a slice of bytes are bytes.
fn are_bytes(bytes: &[u8])
    ensures { AreBytes bytes.now }
{}

/// Fills the buffer with the bytes from a place on, and with 0 past their end.
#[tactic(auto, using(crate::proofs::Overwrites::filled))]
fn fill(bytes: &[u8], place: u64, buf: &mut [u8])
    ensures { buf.new ≡ bytes_at bytes.now place (length buf.old) }
{
    let start = bytes.len().min(place as usize);
    let (_, rest) = bytes.split_at(start);
    let n = rest.len().min(buf.len());
    let (front, back) = buf.split_at_mut(n);
    front.copy_from_slice(&rest[..n]);
    back.fill(0);
}

/// Counts a write or a sync that found no memory.
fn count_lack(calls: &mut Calls, write_faults: &mut u64, lacks: &mut u64)
    ensures calls { calls.new ≡ with_fault calls.old }
    ensures later { calls.old.faults ≤ calls.new.faults }
    ensures write_faults { write_faults.new ≡ counted write_faults.old }
    ensures write_later { write_faults.old ≤ write_faults.new }
    ensures lacks { lacks.new ≡ counted lacks.old }
{
    calls.count_fault();
    *write_faults = write_faults.saturating_add(1);
    *lacks = lacks.saturating_add(1);
}

/// Makes a write, and notes it. An `Err` changes nothing.
fn write(
    content: &mut Content,
    history: &mut History,
    place: u64,
    bytes: &[u8],
) -> Result<(), Memory>
    ensures content_ok { OnOk result (content.new.now ≡ with_bytes content.old.now place bytes.now) }
    ensures history_ok { OnOk result (history.new ≡ Write place bytes.now true ∷ history.old) }
    ensures content_err { OnErr result (content.new.now ≡ content.old.now) }
    ensures history_err { OnErr result (history.new ≡ history.old) }
    ensures first { content.new.first ≡ content.old.first }
{
    note_write(history, place, bytes, true)?;
    let outcome = content.put(place, bytes);
    if outcome.is_err() {
        history.forget();
    }
    outcome
}

/// Notes a write that was taken or refused. An `Err` changes nothing.
fn note_write(history: &mut History, place: u64, bytes: &[u8], taken: bool) -> Result<(), Memory>
    ensures ok { OnOk result (history.new ≡ Write place bytes.now taken ∷ history.old) }
    ensures err { OnErr result (history.new ≡ history.old) }
{
    let bytes = List::from_slice(history.allocator(), bytes)?;
    history.note(Event::Write {
        place,
        bytes,
        taken,
    })
}
