//! Manifests: worked bytes that read back as they are, and bytes that are none.

use lt_core::Memory;
use lt_manifest::{ReadRefusal, read, write};
use std::alloc::Global;
use std::test::Fail;

/// A fresh store of one stream, with the limit 1,048,576.
pub const FRESH: &[u8] = b"\
    LTM1\0\0\0\0\0\x10\0\0\0\0\0\0\0\0\0\0\0\0\0\0\0\0\0\0\0\0\0\0\0\0\0\x01\0\0\0\0\0\0\x01\0\0\0\0\
    \0\0\0\0\0\0\0\0\0\0\0\0\0\0";

/// Two tables with a retired version, an enum, nested structs and defaults; two streams, one with a point; two partitions that
/// share a delta.
pub const FULL: &[u8] = b"\
    LTM1\0\0\x01\0\0\0\0\0\0\0\0\0\0\0\0\x03\0\0\0\0\0\0\0\x03\0\0\0\x02\0\0\0\x01\0\x01t\x01\0\x02i\
    d\x01\0\x02\0\0\x01\0\x01\0\x01a\x03\0\x01\0\x03\0\x01\0\x01a\x04\0\0\x02\0\x01s\x06\0\x02\0\0\0\
    \0\0\x03new\0\0\0\x07\0\x04paid\x01\x02\0\0\0\0\0\0\0\x07\0\x05\0\x01z\x07\0\x02\0\x01\0\x01w\
    \x02\0\x03\0\x02in\x07\0\x01\0\x01\0\x01x\x05\0\0\0\0\x09\0\x01u\x02\0\x01r\x02\0\x01n\x01\0\x01\
    \x01\0\x01\0\x01\0\x01b\x01\x01\x01\x01\0\0\0\x02\0\0\x01\0\0\0\0\0\0\0\x12\0\0\0\0\0\0\0\x04\0\
    \0\0\0\0\0\0\x06\0\0\0\x01\0\x0c\0\0\0\x01\x80\0\0\0\0\0\0\x05\0\0\0\0\0\0\0\x06\0\x0c\0\0\0\x01\
    \x80\0\0\0\0\0\0\x05\0\0\0\0\x02\0\0\0\0\0\0\0\0\0\x04\0\0\0\x02\0\0\0\0\0\0\0\0\0\0\0\0\0\0\0\
    \x02\0\x0c\0\0\0\x01\x80\0\0\0\0\0\0\x05\0\0\0\0\0\0\0\x05\0\0\0\x01\0\0\0\0\0\0\0\x02\0\0\0\x02\
    \0\0\0\0\0\0\0\0\0\0\0\0\0\0\x08\0\0\0\0\0\0\0\0f\0\0\0\0\0\0\0\x02\0\0\0\0\0\0\x10\0\0\0\0\0\0\
    \0\0f";

/// Whether bytes are a manifest, which is written as they are.
fn reads_back(alloc: Global, bytes: &[u8]) -> Result<bool, Memory> {
    match read(alloc, bytes) {
        Ok(manifest) => Ok(write(alloc, &manifest)?.as_slice() == bytes),
        Err(ReadRefusal::NotAManifest) => Ok(false),
        Err(ReadRefusal::Memory) => Err(Memory),
    }
}

/// A copy with another byte at a place.
pub fn spoiled(alloc: Global, bytes: &[u8], place: usize, byte: u8) -> Result<Vec<u8>, Memory> {
    let mut copy = Vec::new(alloc);
    copy.extend_from_slice(bytes)?;
    if let Some(there) = copy.get_mut(place) {
        *there = byte;
    }
    Ok(copy)
}

/// Whether the bytes with another one at a place are a manifest.
fn reads_spoiled(alloc: Global, bytes: &[u8], place: usize, byte: u8) -> Result<bool, Memory> {
    reads_back(alloc, spoiled(alloc, bytes, place, byte)?.as_slice())
}

/// Whether some first bytes, but not all, are a manifest.
fn has_lawful_front(alloc: Global, bytes: &[u8]) -> Result<bool, Memory> {
    let mut found = false;
    for length in 0..bytes.len() {
        found = found || reads_back(alloc, &bytes[..length])?;
    }
    Ok(found)
}

#[test]
fn worked_manifests_read_back(rt: HostRuntime) -> Result<(), Fail> {
    let alloc = rt.alloc();
    assert!(rt; FRESH.len() == 61);
    assert!(rt; reads_back(alloc, FRESH)?);
    assert!(rt; reads_back(alloc, FULL)?);
    Ok(())
}

#[test]
fn no_front_is_a_manifest(rt: HostRuntime) -> Result<(), Fail> {
    let alloc = rt.alloc();
    assert!(rt; !has_lawful_front(alloc, FRESH)?);
    assert!(rt; !has_lawful_front(alloc, FULL)?);
    Ok(())
}

/// Of the fresh store's manifest: a place, another byte there, and whether that is a manifest still.
const SPOILED: [(usize, u8, bool); 19] = [
    (0, b'l', false),
    (6, 1, false),
    (7, 1, true),
    (9, 15, false),
    (19, 1, false),
    (27, 5, true),
    (28, 0xFF, false),
    (31, 1, false),
    (32, 0xFF, false),
    (35, 0, false),
    (35, 2, false),
    (38, 1, false),
    (42, 0, false),
    (44, 1, false),
    (45, 0x7F, true),
    (45, 0x80, false),
    (52, 9, true),
    (56, 1, false),
    (60, 1, false),
];

#[test]
fn one_other_byte_counts(rt: HostRuntime) -> Result<(), Fail> {
    for (place, byte, lawful) in SPOILED {
        let reads = reads_spoiled(rt.alloc(), FRESH, place, byte)?;
        assert!(rt; reads == lawful, "{place}");
    }
    Ok(())
}
