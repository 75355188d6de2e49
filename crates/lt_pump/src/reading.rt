//! Reading a stream: pieces of 64 KiB, until a whole frame stands at the front.
//!
//! A piece is zeroed before it is read, so each read takes the time of 64 KiB, also where the feed gives less, and each pump of
//! one record or more reads at least once. A look at the front that finds too few bytes takes constant time, so the rest takes time by the bytes.

ghost use Rattle.std.specs.Prelude.{◌≡◌, ◌+◌, ◌-◌, ◌<◌, ◌≤◌, ◌^◌, [], length, false, true, IfOk, IfSome, OnOk, IsErrOf};
ghost use Rattle.lt_world.specs.Disk.{Rose};
ghost use Rattle.lt_world.specs.Feed.{FeedReads};
ghost use Rattle.lt_records.specs.Reading.{NothingElse};
ghost use Rattle.lt_records.specs.View.{view_found};
ghost use Rattle.lt_world.specs.Feed.{FeedGoes};
ghost use Rattle.lt_pump.specs.Reads.{FoundAhead, IsWhole, More, StandAhead, left_of};
ghost use Rattle.lt_pump.specs.declared.reading.Fault.TheVariants as faults;

use crate::ahead::Ahead;
use lt_core::Memory;
use lt_io::{Feed, FeedFault};
use lt_records::{Found, next};
use std::alloc::{AllocError, Global};

/// How many bytes are read at once.
const PIECE: usize = 65536;

/// Why reading ends early.
#[derive(Clone, Copy, Debug, PartialEq, Eq)]
pub enum Fault {
    Feed,
    Memory,
}

impl From<FeedFault> for Fault {
    ghost from_gives = { λ _ e. e ≡ faults.Feed };

    fn from(_: FeedFault) -> Self {
        Fault::Feed
    }
}

impl From<Memory> for Fault {
    ghost from_gives = { λ _ e. e ≡ faults.Memory };

    fn from(_: Memory) -> Self {
        Fault::Memory
    }
}

impl From<AllocError> for Fault {
    ghost from_gives = { λ _ e. e ≡ faults.Memory };

    fn from(_: AllocError) -> Self {
        Fault::Memory
    }
}

/// What stands in a stream at an offset, with the feed as it stands on return. A whole frame was read ahead.
pub fn find<F: Feed>(
    stream: u32,
    offset: u64,
    ahead: &mut Ahead,
    feed: &mut F,
) -> Result<Found, Fault>
    requires known { stream < (F.state feed.old).known }
    requires place { length (left_of ahead.old) ≤ 2 ^ 63 - offset }
    requires ahead { StandAhead (F.state feed.old).told stream offset (left_of ahead.old) }
    ensures place { OnOk result (length (left_of ahead.new) ≤ 2 ^ 63 - offset) }
    ensures found { IfOk result (λ found. IfSome (F.state feed.new).told
        (λ f. FoundAhead f stream offset (left_of ahead.new) (view_found found))) }
    ensures whole { IfOk result (λ found. IsWhole (view_found found) (left_of ahead.new)) }
    ensures only { IfOk result (λ found. NothingElse (left_of ahead.new) (view_found found)) }
    ensures fault { IsErrOf result Fault.Feed → Rose (F.state feed.old).faults (F.state feed.new).faults }
    ensures kept { OnOk result ((F.state feed.new).faults ≡ (F.state feed.old).faults) }
    ensures lacks { IsErrOf result Fault.Memory → (F.state feed.new).faults ≡ (F.state feed.old).faults }
    ensures called { OnOk result (left_of ahead.old ≡ [] → Rose (F.state feed.old).calls (F.state feed.new).calls) }
    ensures feed { FeedGoes (F.state feed.old) (F.state feed.new) }
{
    loop {
        match next(ahead.allocator(), ahead.left())? {
            Found::Partial => {
                if !more(stream, offset, ahead, feed)? {
                    return Ok(Found::Partial);
                }
            }
            found => return Ok(found),
        }
    }
}

/// Reads a piece more; false where the stream has none.
fn more<F: Feed>(stream: u32, offset: u64, ahead: &mut Ahead, feed: &mut F) -> Result<bool, Fault>
    requires known { stream < (F.state feed.old).known }
    requires place { length (left_of ahead.old) ≤ 2 ^ 63 - offset }
    requires ahead { StandAhead (F.state feed.old).told stream offset (left_of ahead.old) }
    ensures place { OnOk result (length (left_of ahead.new) ≤ 2 ^ 63 - offset) }
    ensures more { IfOk result (λ some. IfSome (F.state feed.new).told
        (λ f. More some f stream offset (left_of ahead.old) (left_of ahead.new))) }
    ensures same { IfOk result (λ some. some ≡ false → left_of ahead.new ≡ left_of ahead.old) }
    ensures longer { IfOk result (λ some. some ≡ true → length (left_of ahead.old) < length (left_of ahead.new)) }
    ensures fault { IsErrOf result Fault.Feed → Rose (F.state feed.old).faults (F.state feed.new).faults }
    ensures kept { OnOk result ((F.state feed.new).faults ≡ (F.state feed.old).faults) }
    ensures lacks { IsErrOf result Fault.Memory → (F.state feed.new).faults ≡ (F.state feed.old).faults }
    ensures called { OnOk result (Rose (F.state feed.old).calls (F.state feed.new).calls) }
    ensures feed { FeedGoes (F.state feed.old) (F.state feed.new) }
{
    let mut piece = new_piece(ahead.allocator())?;
    let buffer = piece.as_mut_slice();
    let count = read_behind(stream, offset, ahead, feed, buffer)?;
    if count == 0 {
        return Ok(false);
    }
    let (read, _) = buffer.split_at(count);
    ahead.add(read)?;
    Ok(true)
}

fn new_piece(alloc: Global) -> Result<Vec<u8>, Fault>
    ensures room { IfOk result (λ piece. 0 < length piece.items) }
    ensures memory { IsErrOf result Fault.Feed → ⊥ }
{
    let mut piece = Vec::new(alloc);
    piece.resize(PIECE, 0)?;
    Ok(piece)
}

/// Reads what stands behind the bytes that were read ahead, and tells how many bytes.
fn read_behind<F: Feed>(
    stream: u32,
    offset: u64,
    ahead: &Ahead,
    feed: &mut F,
    piece: &mut [u8],
) -> Result<usize, Fault>
    requires known { stream < (F.state feed.old).known }
    requires place { length (left_of ahead.now) ≤ 2 ^ 63 - offset }
    requires room { 0 < length piece.old }
    ensures bound { IfOk result (λ n. (n ≤ length piece.new) × (length (left_of ahead.now) + n ≤ 2 ^ 63 - offset)) }
    ensures bytes { IfOk result (λ n. FeedReads (F.state feed.new).told stream (offset + length (left_of ahead.now))
        piece.new n) }
    ensures fault { IsErrOf result Fault.Feed → Rose (F.state feed.old).faults (F.state feed.new).faults }
    ensures kept { OnOk result ((F.state feed.new).faults ≡ (F.state feed.old).faults) }
    ensures lacks { IsErrOf result Fault.Memory → (F.state feed.new).faults ≡ (F.state feed.old).faults }
    ensures called { Rose (F.state feed.old).calls (F.state feed.new).calls }
    ensures feed { FeedGoes (F.state feed.old) (F.state feed.new) }
{
    let at = offset + ahead.left().len() as u64;
    Ok(feed.read_at(stream, at, piece)?)
}
