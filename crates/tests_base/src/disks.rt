//! A disk in memory with calls that fail, and the file once.

use lt_core::List;
use lt_disk::{Disk, FileDisk, MemDisk, Pick};
use std::fs;
use std::test::Fail;

/// A call of a disk. A read has the bytes that are wanted.
#[derive(Clone, Copy)]
enum Call {
    Write(u64, &'static [u8]),
    Read(u64, [u8; 4]),
    Sync,
}

/// Whether the call succeeds or fails as is wanted, and the buffer of a read holds what is wanted.
fn answers(disk: &mut MemDisk, call: Call, works: bool) -> bool {
    match call {
        Call::Write(place, bytes) => {
            !bytes.is_empty() && disk.write_at(place, bytes).is_ok() == works
        }
        Call::Read(place, want) => {
            let mut buf = *b"....";
            disk.read_at(place, &mut buf).is_ok() == works && buf == want
        }
        Call::Sync => disk.sync().is_ok() == works,
    }
}

#[test]
fn a_disk_reads_as_written_but_for_the_calls_that_fail(rt: HostRuntime) -> Result<(), Fail> {
    let mut disk = MemDisk::holding(rt.alloc(), List::from_slice(rt.alloc(), b"abcd")?);
    disk.fail(&[2, 5])?;
    let calls: [(Call, bool, &[u8]); 9] = [
        (Call::Write(2, b"XY"), true, b"abXY"),
        (Call::Write(0, b"Z"), false, b"abXY"),
        (Call::Write(6, b"!"), true, b"abXY\0\0!"),
        (Call::Read(5, *b"\0!\0\0"), true, b"abXY\0\0!"),
        (Call::Read(0, *b"...."), false, b"abXY\0\0!"),
        (Call::Sync, true, b"abXY\0\0!"),
        (Call::Read(u64::MAX, *b"\0\0\0\0"), true, b"abXY\0\0!"),
        (Call::Write(6, b"?"), false, b"abXY\0\0!"),
        (Call::Sync, false, b"abXY\0\0!"),
    ];
    for (number, (call, works, held)) in calls.iter().enumerate() {
        if number == 6 {
            disk.stop_after(1);
        }
        assert!(rt; answers(&mut disk, *call, *works), "at call {number}");
        assert!(rt; disk.bytes() == *held, "at call {number}");
    }
    assert!(rt; disk.reads() == 3 && disk.lacks() == 0);
    Ok(())
}

/// Whether a crash by these picks leaves these bytes, on a disk that works again.
fn leaves(disk: &MemDisk, picks: &[Pick], want: &[u8]) -> bool {
    match disk.crash(picks) {
        Ok(mut left) => left.bytes() == want && left.sync().is_ok(),
        Err(_) => false,
    }
}

/// Writes, a sync, writes of which one fails, and one more.
fn is_written(disk: &mut MemDisk) -> bool {
    disk.write_at(0, b"XY").is_ok()
        && disk.sync().is_ok()
        && disk.write_at(2, b"PQ").is_ok()
        && disk.fail(&[4]).is_ok()
        && disk.write_at(4, b"RS").is_err()
        && disk.write_at(7, b"!").is_ok()
}

#[test]
fn a_crash_leaves_what_the_picks_say(rt: HostRuntime) -> Result<(), Fail> {
    let mut disk = MemDisk::holding(rt.alloc(), List::from_slice(rt.alloc(), b"abcdef")?);
    assert!(rt; is_written(&mut disk));
    let crashes: [(&[Pick], &[u8]); 5] = [
        (&[], b"XYcdef"),
        (&[Pick::Old, Pick::Fill(b'-')], b"XYcd--"),
        (&[Pick::Prefix(1), Pick::Old, Pick::New], b"XYPdef\0!"),
        (&[Pick::New, Pick::New, Pick::New, Pick::New], b"XYPQRS\0!"),
        (&[Pick::Prefix(9)], b"XYPQef"),
    ];
    for (picks, want) in crashes {
        assert!(rt; leaves(&disk, picks, want), "by {picks:?}");
    }
    Ok(())
}

/// Whether a read gives these bytes; a fault is no answer.
fn reads<D: Disk>(disk: &mut D, place: u64, want: &[u8; 6]) -> bool {
    let mut buf = *b"......";
    disk.read_at(place, &mut buf).is_ok() && buf == *want
}

/// Whether a read fails.
fn refuses<D: Disk>(disk: &mut D, place: u64) -> bool {
    let mut buf = *b"......";
    disk.read_at(place, &mut buf).is_err()
}

fn is_kept<D: Disk>(disk: &mut D) -> bool {
    reads(disk, 0, &[0; 6])
        && disk.write_at(3, b"abc").is_ok()
        && disk.sync().is_ok()
        && reads(disk, 2, b"\0abc\0\0")
}

#[test]
fn a_file_is_made_at_the_first_call_and_reads_as_written(rt: HostRuntime) -> Result<(), Fail> {
    let _ = fs::remove_file(&rt, "store.lt");
    let mut disk = FileDisk::new(rt);
    assert!(rt; is_kept(&mut disk));
    let held = fs::read(&rt, "store.lt")?;
    assert!(rt; held.as_slice() == b"\0\0\0abc".as_slice());
    assert!(rt; refuses(&mut disk, u64::MAX));
    let mut second = FileDisk::new(rt);
    assert!(rt; refuses(&mut second, 2));
    drop(disk);
    assert!(rt; reads(&mut second, 3, b"abc\0\0\0"));
    fs::remove_file(&rt, "store.lt")?;
    Ok(())
}
