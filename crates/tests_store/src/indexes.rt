//! Indexes: worked bytes that read back as they are, bytes that are none, and the bundles that meet a range.

ghost use Rattle.std.specs.Prelude.{IfOk, IfSome};
ghost use Rattle.lt_delta.specs.Reading.{IsLawful};
ghost use Rattle.lt_delta.specs.View.{view_index};

use crate::manifests::spoiled;
use lt_core::{List, Memory};
use lt_delta::{DeltaIndex, DeltaRefusal, read_index, seal};
use lt_disk::MemDisk;
use lt_space::{Extent, Space};
use std::alloc::Global;
use std::test::Fail;

/// One table with two leaves, and one bundle of 76 bytes at place 1,178.
pub const ONE: &[u8] = b"\
    LTI1\0\0\0\x01\0\0\0\x01\0\0\0\x02\0\x01\0\x03\0\0\x02\0\x04\0\0\0\0\0\0\0\0\x01\0\0\0\0\0\0\x04\
    \x9a\0\0\0\0\0\0\0L\0\0\0\0\0\0\0\x01\0\x0c\0\0\0\x01\x80\0\0\0\0\0\0\x01\0\x0c\0\0\0\x01\x80\0\
    \0\0\0\0\0\x01\0\0\0\0\0\0\0\x05\0\0\0\0\0\0\0\x05";

/// The key of the bundle's one version.
const KEY: &[u8] = b"\0\0\0\x01\x80\0\0\0\0\0\0\x01";

/// The next key in the order of bytes.
const BEHIND: &[u8] = b"\0\0\0\x01\x80\0\0\0\0\0\0\x01\0";

/// A disk with these bytes.
fn disk_of(alloc: Global, bytes: &[u8]) -> Result<MemDisk, Memory> {
    let mut held = List::new(alloc);
    held.extend_from_slice(bytes)?;
    Ok(MemDisk::holding(alloc, held))
}

/// The index that the bytes of an extent at the front spell, if any.
fn index_of(alloc: Global, bytes: &[u8], length: u64) -> Result<Option<DeltaIndex>, Memory>
    ensures { IfOk result (λ found. IfSome found (λ index. IsLawful (view_index index))) }
{
    let mut disk = disk_of(alloc, bytes)?;
    let at = Extent { place: 0, length };
    match read_index(alloc, &mut disk, at) {
        Ok(index) => Ok(Some(index)),
        Err(DeltaRefusal::Memory) => Err(Memory),
        Err(_) => Ok(None),
    }
}

/// A disk on which an index was sealed behind the slots.
fn sealed(alloc: Global, index: &DeltaIndex) -> Result<Option<MemDisk>, Memory>
    requires { IsLawful (view_index index.now) }
{
    let mut disk = MemDisk::new(alloc);
    let Ok(mut space) = Space::new(alloc, 4096, &[]) else {
        return Err(Memory);
    };
    match seal(alloc, &mut disk, &mut space, index) {
        Ok(at) if at.place == 1024 => Ok(Some(disk)),
        Ok(_) => Ok(None),
        Err(_) => Err(Memory),
    }
}

/// Whether an index is sealed as these bytes.
fn is_sealed_as(alloc: Global, index: &DeltaIndex, bytes: &[u8]) -> Result<bool, Memory>
    requires { IsLawful (view_index index.now) }
{
    match sealed(alloc, index)? {
        Some(disk) => Ok(disk.bytes().get(1024..) == Some(bytes)),
        None => Ok(false),
    }
}

#[test]
fn an_index_reads_back(rt: HostRuntime) -> Result<(), Fail> {
    let alloc = rt.alloc();
    let index = index_of(alloc, ONE, 102)?;
    assert!(rt; index.is_some());
    if let Some(index) = index {
        assert!(rt; is_sealed_as(alloc, &index, ONE)?);
    }
    Ok(())
}

/// A place, another byte there, and whether that is an index still.
const SPOILED: [(usize, u8, bool); 16] = [
    (0, b'l', false),
    (4, 0xFF, false),
    (7, 0, false),
    (11, 7, true),
    (12, 0xFF, false),
    (19, 0, false),
    (19, 2, true),
    (20, 1, false),
    (22, 1, false),
    (33, 0, false),
    (49, 0, false),
    (57, 0, false),
    (57, 76, true),
    (57, 77, false),
    (71, 2, false),
    (85, 2, true),
];

#[test]
fn one_other_byte_counts(rt: HostRuntime) -> Result<(), Fail> {
    for (place, byte, lawful) in SPOILED {
        let bytes = spoiled(rt.alloc(), ONE, place, byte)?;
        let index = index_of(rt.alloc(), bytes.as_slice(), 102)?;
        assert!(rt; index.is_some() == lawful, "{place}");
    }
    Ok(())
}

#[test]
fn no_front_is_an_index(rt: HostRuntime) -> Result<(), Fail> {
    for length in 0..102 {
        assert!(rt; index_of(rt.alloc(), ONE, length)?.is_none(), "{length}");
    }
    Ok(())
}

/// The first bundle of table 1 that meets each of these ranges, and the one behind the last.
#[test]
fn a_bundle_meets_what_has_its_key(rt: HostRuntime) -> Result<(), Fail> {
    let index = index_of(rt.alloc(), ONE, 102)?;
    assert!(rt; index.is_some());
    if let Some(index) = index {
        assert!(rt; index.meeting(1, b"", None) == (0, 1));
        assert!(rt; index.meeting(1, KEY, None) == (0, 1));
        assert!(rt; index.meeting(1, KEY, Some(BEHIND)) == (0, 1));
        assert!(rt; index.meeting(1, b"", Some(KEY)) == (0, 0));
        assert!(rt; index.meeting(1, BEHIND, None) == (0, 0));
        assert!(rt; index.meeting(1, KEY, Some(KEY)) == (0, 0));
        assert!(rt; index.meeting(2, b"", None) == (0, 0));
    }
    Ok(())
}
