//! Stores whose bytes were changed: each opening ends with a named answer.

ghost use Rattle.std.specs.Prelude.{◌≤◌, ◌<◌};

use crate::indexes::ONE;
use crate::manifests::FULL;
use lt_disk::{Disk, DiskFault, MemDisk};
use lt_root::{commit, format};
use lt_store::{OpenRefusal, open};
use std::alloc::Global;
use std::test::Fail;

/// How long the manifest is.
pub const LENGTH: u64 = 356;

/// How many bytes the file may have.
const LIMIT: u64 = 1 << 20;

/// Where the second index stands.
const SECOND: u64 = 4096;

/// Where the extents of the two indexes stand in the manifest, which is at place 1,024.
const DELTAS: [u64; 2] = [1340, 1364];

fn write_number(disk: &mut MemDisk, place: u64, number: u64) -> Result<(), DiskFault> {
    disk.write_at(place, &number.to_be_bytes())
}

/// Writes an index with one bundle, which stands behind it and ends at a place.
fn write_index(disk: &mut MemDisk, place: u64, end: u64) -> Result<(), DiskFault>
    requires { place < 8192 }
{
    let bundle = place + 102;
    disk.write_at(place, ONE)?;
    // The second column is an enum.
    disk.write_at(place + 24, &[2])?;
    write_number(disk, place + 34, bundle)?;
    write_number(disk, place + 42, end.saturating_sub(bundle))
}

/// A disk with a store of two tables and two deltas, which has only so many bytes free: those behind its manifest. Both gates are open, and
/// both slots name that manifest.
pub fn stocked(alloc: Global, room: u64) -> Result<MemDisk, DiskFault>
    requires { room ≤ 1000 }
{
    let first = 1024 + LENGTH + room;
    let mut disk = MemDisk::new(alloc);
    disk.write_at(1024, FULL)?;
    write_number(&mut disk, 1028, LIMIT)?;
    write_number(&mut disk, DELTAS[0], first)?;
    write_index(&mut disk, first, SECOND)?;
    write_index(&mut disk, SECOND, LIMIT)?;
    let mut root = format(&mut disk, 1024, LENGTH)?;
    commit(&mut disk, &mut root, 1024, LENGTH)?;
    Ok(disk)
}

/// Whether an opening ends with a store, or says what is wrong with the bytes.
fn is_named(alloc: Global, disk: &mut MemDisk) -> bool {
    matches!(
        open(alloc, disk),
        Ok(_) | Err(OpenRefusal::NoStore) | Err(OpenRefusal::Damaged { .. })
    )
}

/// Whether each opening ends so with another byte at a place, which is then put back.
fn is_named_by_byte(alloc: Global, disk: &mut MemDisk, place: u64) -> bool {
    let mut byte = [0u8];
    if disk.read_at(place, &mut byte).is_err() {
        return false;
    }
    let [was] = byte;
    for other in [0, 0xFF, was.wrapping_add(1), was.wrapping_sub(1)] {
        if disk.write_at(place, &[other]).is_err() || !is_named(alloc, disk) {
            return false;
        }
    }
    disk.write_at(place, &[was]).is_ok()
}

#[test]
fn each_byte_of_the_slots_and_the_manifest_may_be_another(rt: HostRuntime) -> Result<(), Fail> {
    let mut disk = stocked(rt.alloc(), 668)?;
    assert!(rt; open(rt.alloc(), &mut disk).is_ok());
    for place in 0..1024 + LENGTH {
        assert!(rt; is_named_by_byte(rt.alloc(), &mut disk, place), "{place}");
    }
    assert!(rt; open(rt.alloc(), &mut disk).is_ok());
    Ok(())
}

#[test]
fn each_byte_of_an_index_may_be_another(rt: HostRuntime) -> Result<(), Fail> {
    let mut disk = stocked(rt.alloc(), 668)?;
    for place in SECOND..SECOND + 102 {
        assert!(rt; is_named_by_byte(rt.alloc(), &mut disk, place), "{place}");
    }
    assert!(rt; open(rt.alloc(), &mut disk).is_ok());
    Ok(())
}

/// The places of all numbers that say where something stands, or how long it is.
const NUMBERS: [u64; 14] = [
    14, 22, 526, 534, 1028, 1340, 1348, 1364, 1372, 2082, 2090, 4130, 4138, 4146,
];

/// Whether each opening ends with a named answer where a number is another one.
fn is_named_by_number(alloc: Global, place: u64) -> Result<bool, DiskFault> {
    let mut disk = stocked(alloc, 668)?;
    for number in [0, LIMIT, LIMIT + 1, 1 << 40, 1 << 63, u64::MAX] {
        write_number(&mut disk, place, number)?;
        if !is_named(alloc, &mut disk) {
            return Ok(false);
        }
    }
    Ok(true)
}

#[test]
fn no_stated_length_is_too_great(rt: HostRuntime) -> Result<(), Fail> {
    for place in NUMBERS {
        assert!(rt; is_named_by_number(rt.alloc(), place)?, "{place}");
    }
    Ok(())
}

/// Where and what is written, and the place and the length of the damage.
const ROWS: [(u64, &[u8], u64, u64); 19] = [
    (512, b"l", 512, 512),
    (525, b"\x01", 0, 1024),
    (526, &[0; 8], 512, 512),
    (526, &[255; 8], u64::MAX, 356),
    (534, &[255; 8], 1024, u64::MAX),
    (534, &[0, 0, 1, 0, 0, 0, 0, 0], 1024, 1 << 40),
    (541, b"\x65", 1024, 357),
    (1024, b"l", 1024, 356),
    (1028, &[255; 8], 1024, 356),
    (1340, &[255; 8], u64::MAX, 102),
    (1348, &[255; 8], 2048, u64::MAX),
    (1379, b"\x65", 4096, 101),
    (2048, b"l", 2048, 102),
    (2059, b"\x07", 2048, 102),
    (2070, b"\x09", 2048, 102),
    (2072, b"\x04", 2048, 102),
    (4107, b"\x07", 4096, 102),
    (2088, b"\x08\x65", 2048, 102),
    (4145, b"\x9b", 4198, 1_044_379),
];

#[test]
fn the_first_damage_is_named(rt: HostRuntime) -> Result<(), Fail> {
    for (at, bytes, place, length) in ROWS {
        let mut disk = stocked(rt.alloc(), 668)?;
        if !bytes.is_empty() {
            disk.write_at(at, bytes)?;
        }
        let found = open(rt.alloc(), &mut disk).err();
        assert!(rt;
            found == Some(OpenRefusal::Damaged { place, length }),
            "{at}: {found:?}"
        );
    }
    Ok(())
}
