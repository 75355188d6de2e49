//! Roots: worked slots, that calls succeed, and what is left of a commit that is stopped.

use lt_disk::{Disk, DiskFault, MemDisk, Pick};
use lt_root::{Root, RootRefusal, commit, format, load};
use std::alloc::Global;
use std::test::Fail;

const FIRST: Root = Root {
    generation: 1,
    place: 1024,
    length: 61,
    slot: 0,
};

const SECOND: Root = Root {
    generation: 2,
    place: 1085,
    length: 62,
    slot: 1,
};

const THIRD: Root = Root {
    generation: 3,
    place: 1024,
    length: 7,
    slot: 0,
};

const fn damaged(place: u64, length: u64) -> Result<Root, RootRefusal> {
    Err(RootRefusal::Damaged { place, length })
}

/// A disk on which the second root counts, and the slot of the first one is open.
fn committed(alloc: Global) -> Result<MemDisk, DiskFault> {
    let mut disk = MemDisk::new(alloc);
    let mut root = format(&mut disk, FIRST.place, FIRST.length)?;
    commit(&mut disk, &mut root, SECOND.place, SECOND.length)?;
    Ok(disk)
}

fn loads(disk: &mut MemDisk, want: Result<Root, RootRefusal>) -> bool {
    load(disk) == want
}

fn makes_first(disk: &mut MemDisk) -> bool {
    matches!(format(disk, FIRST.place, FIRST.length), Ok(root) if root == FIRST)
}

#[test]
fn a_new_store_has_one_open_slot(rt: HostRuntime) {
    let mut disk = MemDisk::new(rt.alloc());
    assert!(rt; loads(&mut disk, Err(RootRefusal::NoStore)));
    assert!(rt; makes_first(&mut disk));
    assert!(rt; loads(&mut disk, Ok(FIRST)));
    let mut want = [0; 1024];
    want[..30].copy_from_slice(b"LTROOT\0\0\0\0\0\0\0\x01\0\0\0\0\0\0\x04\0\0\0\0\0\0\0\0\x3d");
    want[511] = 0xA5;
    assert!(rt; disk.bytes() == want.as_slice());
}

/// Whether a crash that leaves this of the last write leaves this root.
fn leaves(disk: &MemDisk, pick: Pick, want: Result<Root, RootRefusal>) -> bool {
    match disk.crash(&[pick]) {
        Ok(mut left) => loads(&mut left, want),
        Err(_) => false,
    }
}

#[test]
fn a_stopped_making_opens_the_gate_last(rt: HostRuntime) {
    let rows = [
        (2, Pick::Old, Err(RootRefusal::NoStore)),
        (3, Pick::Old, Err(RootRefusal::NoStore)),
        (3, Pick::New, Ok(FIRST)),
        (4, Pick::Old, Ok(FIRST)),
    ];
    for (calls, pick, want) in rows {
        let mut disk = MemDisk::new(rt.alloc());
        disk.stop_after(calls);
        assert!(rt; makes_first(&mut disk) == (calls == 4));
        assert!(rt; leaves(&disk, pick, want), "after {calls} calls");
    }
}

fn overwrites(disk: &mut MemDisk, writes: &[(u64, &[u8])]) -> bool {
    for (place, bytes) in writes {
        if bytes.is_empty() || disk.write_at(*place, bytes).is_err() {
            return false;
        }
    }
    true
}

#[test]
fn the_open_slot_of_the_greater_generation_counts(rt: HostRuntime) -> Result<(), Fail> {
    let greatest = Root {
        generation: u64::MAX,
        ..FIRST
    };
    let rows: [(&[(u64, &[u8])], Result<Root, RootRefusal>); 14] = [
        (&[], Ok(SECOND)),
        (&[(1023, b"\0")], Ok(FIRST)),
        (&[(511, b"\xA4"), (1023, b"\0")], Err(RootRefusal::NoStore)),
        (&[(0, b"l"), (511, b"\0")], Ok(SECOND)),
        (&[(6, &[255; 8])], Ok(greatest)),
        (&[(13, b"\x02")], damaged(0, 1024)),
        (&[(13, b"\0")], damaged(0, 512)),
        (&[(20, b"\x03")], damaged(0, 512)),
        (&[(29, b"\0")], damaged(0, 512)),
        (&[(510, b"\x01")], damaged(0, 512)),
        (&[(5, b"t")], damaged(0, 512)),
        (&[(512, b"l")], damaged(512, 512)),
        (&[(0, b"l"), (512, b"l")], damaged(0, 512)),
        (&[(0, b"l"), (511, b"\0"), (512, b"l")], damaged(512, 512)),
    ];
    for (row, (writes, want)) in rows.iter().enumerate() {
        let mut disk = committed(rt.alloc())?;
        assert!(rt;
            overwrites(&mut disk, writes) && loads(&mut disk, *want),
            "at row {row}"
        );
    }
    Ok(())
}

/// Whether the third root is committed; where it is not, the second still counts.
fn makes_third(disk: &mut MemDisk) -> Option<bool> {
    let mut root = SECOND;
    match commit(disk, &mut root, THIRD.place, THIRD.length) {
        Ok(()) if root == THIRD => Some(true),
        Err(DiskFault) if root == SECOND => Some(false),
        _ => None,
    }
}

/// The first of these picks by which a crash leaves another root.
fn other_root(disk: &MemDisk, picks: &[Pick; 6], wants: &[Root; 6]) -> Option<usize> {
    for i in 0..6usize {
        if !leaves(disk, picks[i], Ok(wants[i])) {
            return Some(i);
        }
    }
    None
}

#[test]
fn a_stopped_commit_leaves_the_old_root_or_the_new_one(rt: HostRuntime) -> Result<(), Fail> {
    let picks = [
        Pick::Old,
        Pick::New,
        Pick::Prefix(1),
        Pick::Fill(0xA5),
        Pick::Fill(0),
        Pick::Fill(85),
    ];
    // The root that counts after so many calls, by what the crash leaves of the last write.
    let old = [SECOND; 6];
    let gate = [SECOND, THIRD, THIRD, THIRD, SECOND, SECOND];
    let rows = [old, old, old, old, old, old, gate, gate, [THIRD; 6]];
    for (calls, wants) in rows.iter().enumerate() {
        let mut disk = committed(rt.alloc())?;
        disk.stop_after(calls as u64);
        assert!(rt;
            makes_third(&mut disk) == Some(calls == 8),
            "after {calls} calls"
        );
        let pick = other_root(&disk, &picks, wants);
        assert!(rt; pick.is_none(), "after {calls} calls, by {pick:?}");
    }
    Ok(())
}
