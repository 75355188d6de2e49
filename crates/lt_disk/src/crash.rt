//! What a crash leaves of a disk in memory. Making it takes time and memory by all that was written.

ghost use Rattle.std.specs.Prelude.{◌≡◌, reverse, slice_get, IfOk, OnOk};
ghost use Rattle.lt_disk.specs.Crash.{left_of, left_of_write, torn_by};
ghost use Rattle.lt_disk.specs.History.{replay, after_event};

use crate::content::overwrite;
use crate::history::Event;
use lt_core::Memory;
use std::alloc::Global;

/// What a crash leaves of one write: the old bytes, the new ones, a prefix of the new ones, or one byte throughout.
#[derive(Clone, Copy, Debug, PartialEq, Eq)]
pub enum Pick {
    Old,
    New,
    Prefix(u64),
    Fill(u8),
}

/// The bytes after these events, as they read.
pub fn replayed(alloc: Global, first: &[u8], events: &[Event]) -> Result<Vec<u8>, Memory>
    ensures { IfOk result (λ image. image.items ≡ replay first.now (reverse events.now)) }
{
    let mut image = Vec::from_slice(alloc, first)?;
    for event in events {
        follow(&mut image, event)?;
    }
    Ok(image)
}

fn follow(image: &mut Vec<u8>, event: &Event) -> Result<(), Memory>
    ensures { OnOk result (image.new.items ≡ after_event event.now image.old.items) }
{
    match event {
        Event::Write {
            place,
            bytes,
            taken: true,
        } => overwrite(image, *place, bytes.as_slice()),
        _ => Ok(()),
    }
}

/// Leaves of each of these writes what its pick says.
pub fn tear(image: &mut Vec<u8>, events: &[Event], picks: &[Pick]) -> Result<(), Memory>
    ensures { OnOk result (image.new.items ≡ torn_by picks.now (reverse events.now) image.old.items) }
{
    for (number, event) in events.iter().enumerate() {
        leave(image, event, pick_at(picks, number))?;
    }
    Ok(())
}

fn pick_at(picks: &[Pick], number: usize) -> Option<Pick>
    ensures { result ≡ slice_get picks.now number }
{
    match picks.get(number) {
        Some(pick) => Some(*pick),
        None => None,
    }
}

fn leave(image: &mut Vec<u8>, event: &Event, pick: Option<Pick>) -> Result<(), Memory>
    ensures { OnOk result (image.new.items ≡ left_of pick event.now image.old.items) }
{
    match event {
        Event::Write { place, bytes, .. } => leave_of_write(image, *place, bytes.as_slice(), pick),
        Event::Sync => Ok(()),
    }
}

fn leave_of_write(
    image: &mut Vec<u8>,
    place: u64,
    bytes: &[u8],
    pick: Option<Pick>,
) -> Result<(), Memory>
    ensures { OnOk result (image.new.items ≡ left_of_write pick place bytes.now image.old.items) }
{
    match pick {
        None | Some(Pick::Old) => Ok(()),
        Some(Pick::New) => overwrite(image, place, bytes),
        Some(Pick::Prefix(n)) => {
            let (front, _) = bytes.split_at(bytes.len().min(n as usize));
            overwrite(image, place, front)
        }
        Some(Pick::Fill(byte)) => {
            let mut filled = Vec::new(*image.allocator());
            filled.resize(bytes.len(), byte)?;
            overwrite(image, place, filled.as_slice())
        }
    }
}
