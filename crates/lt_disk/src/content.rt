//! The bytes of a disk in memory: what it held first, and what reads now. A write takes time by what it writes, and by how far
//! the file grows; the first one copies what was held.

ghost use Rattle.std.specs.Prelude.{◌≡◌, ◌<◌, ◌≤◌, ◌+◌, ◌-◌, ◌++◌, length, take, drop, OnOk, OnErr};
ghost use Rattle.lt_world.specs.Disk.{bytes_at, with_bytes, zeros};

use lt_core::{Blob, Memory};
use std::alloc::Global;
use std::marker::Model;

#[derive(Debug, Drop)]
pub struct Content {
    alloc: Global,
    first: Blob,
    written: Option<Vec<u8>>,
}

impl Model for Content {
    ghost use Rattle.std.specs.Option.{option_map_or};
    ghost use Rattle.lt_disk.specs.Content.{Bytes};

    ghost Value = { Bytes };

    ghost view = { λ c. record { first = c.first; now = option_map_or (λ v. v.items) c.written c.first } };
}

impl Content {
    pub fn new(alloc: Global, first: Blob) -> Content
        ensures first { result.first ≡ first }
        ensures now { result.now ≡ first }
    {
        Content {
            alloc,
            first,
            written: None,
        }
    }

    /// The bytes that were held first.
    pub fn first(&self) -> &[u8]
        ensures { result.now ≡ self.now.first }
    {
        self.first.as_slice()
    }

    /// The bytes as they read.
    pub fn bytes(&self) -> &[u8]
        ensures { result.now ≡ self.now.now }
    {
        match &self.written {
            Some(bytes) => bytes.as_slice(),
            None => self.first.as_slice(),
        }
    }

    /// Writes bytes at a place. An `Err` changes nothing.
    pub fn put(&mut self, place: u64, bytes: &[u8]) -> Result<(), Memory>
        ensures ok { OnOk result (self.new.now ≡ with_bytes self.old.now place bytes.now) }
        ensures err { OnErr result (self.new.now ≡ self.old.now) }
        ensures first { self.new.first ≡ self.old.first }
    {
        let mut now = match self.written.take() {
            Some(now) => now,
            None => Vec::from_slice(self.alloc, self.first.as_slice())?,
        };
        let outcome = overwrite(&mut now, place, bytes);
        self.written = Some(now);
        outcome
    }
}

/// Writes bytes at a place of a file, which grows where they end behind it. An `Err` changes nothing.
#[tactic(auto, using(crate::proofs::Overwrites::overwritten, std::proofs::lemmas::List::with_items_is))]
pub fn overwrite(file: &mut Vec<u8>, place: u64, bytes: &[u8]) -> Result<(), Memory>
    ensures ok { OnOk result (file.new.items ≡ with_bytes file.old.items place bytes.now) }
    ensures err { OnErr result (file.new.items ≡ file.old.items) }
{
    let at = place as usize;
    let end = at.checked_add(bytes.len()).ok_or(Memory)?;
    reach(file, end)?;
    put_in(file, at, bytes);
    Ok(())
}

/// Puts bytes at a place of a file that is long enough.
fn put_in(file: &mut [u8], at: usize, bytes: &[u8])
    requires { at + length bytes.now ≤ length file.old }
    ensures value { file.new ≡ take at file.old ++ (bytes.now ++ drop (at + length bytes.now) file.old) }
    ensures length { length file.new ≡ length file.old }
{
    let (_, rest) = file.split_at_mut(at);
    let (range, _) = rest.split_at_mut(bytes.len());
    range.copy_from_slice(bytes);
}

/// Makes a file at least so long, with 0 behind what it has. An `Err` changes nothing.
fn reach(file: &mut Vec<u8>, end: usize) -> Result<(), Memory>
    ensures ok { OnOk result (file.new.items ≡ file.old.items ++ zeros (end - length file.old.items)) }
    ensures err { OnErr result (file.new.items ≡ file.old.items) }
{
    if file.len() < end {
        file.resize(end, 0)?;
    }
    Ok(())
}
