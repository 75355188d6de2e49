//! Stores: made, opened and led on, without end where there is room, and over a disk on which a call fails.

ghost use Rattle.std.specs.Prelude.{◌≤◌, ◌<◌, [], IfSome};
ghost use Rattle.lt_store.specs.Commits.{HasTaken};
ghost use Rattle.lt_storage.specs.Store.{IsLawfulManifest};
ghost use Rattle.lt_manifest.specs.View.{view_manifest};

use crate::damages::{LENGTH, stocked};
use crate::manifests::{FRESH, spoiled};
use lt_core::KeyBytes;
use lt_disk::{MemDisk, Pick};
use lt_manifest::{Manifest, read};
use lt_store::{CommitRefusal, MakeRefusal, OpenRefusal, Store, make, open, test_vacant};
use std::alloc::Global;
use std::test::Fail;

/// A disk with the fresh store of one stream, with the limit 1,048,576.
fn fresh(alloc: Global) -> Result<MemDisk, MakeRefusal> {
    let mut disk = MemDisk::new(alloc);
    make(alloc, &mut disk, 1 << 20, &[KeyBytes::new(alloc)])?;
    Ok(disk)
}

/// The fresh store's manifest, but that its partition is written up to this moment.
fn resumed(alloc: Global, resume: u8) -> Option<Manifest>
    ensures { IfSome result (λ m. IsLawfulManifest (view_manifest m)) }
{
    let bytes = spoiled(alloc, FRESH, 52, resume).ok()?;
    read(alloc, bytes.as_slice()).ok()
}

/// What a commit answers, if the store may make one.
#[tactic(auto, using(lt_store::proofs::Keeping::kept_taken))]
fn commits(
    alloc: Global,
    disk: &mut MemDisk,
    store: &mut Store,
    next: &Manifest,
) -> Option<Result<(), CommitRefusal>>
    requires lawful { IsLawfulManifest (view_manifest next.now) }
    requires taken { HasTaken store.old [] }
    ensures taken { HasTaken store.new [] }
{
    if store.is_broken() || store.generation() == u64::MAX {
        return None;
    }
    Some(store.commit(alloc, disk, next, &[]))
}

/// Opens a store, and commits that its partition is written up to a moment: what it answers, and whether the store is broken then.
#[tactic(auto, using(lt_store::proofs::Keeping::stands_taken))]
fn resumes(
    alloc: Global,
    disk: &mut MemDisk,
    resume: u8,
) -> Option<(Result<(), CommitRefusal>, bool)> {
    let next = resumed(alloc, resume)?;
    let Ok(mut opened) = open(alloc, disk) else {
        return None;
    };
    let answer = commits(alloc, disk, &mut opened.store, &next)?;
    Some((answer, opened.store.is_broken()))
}

/// The generation that a disk opens with, and up to where its first partition is written.
fn opens(alloc: Global, disk: &mut MemDisk) -> Option<(u64, u64)> {
    let opened = open(alloc, disk).ok()?;
    let part = opened.manifest.parts.get(0)?;
    Some((opened.store.generation(), part.resume))
}

#[test]
fn a_fresh_store_opens(rt: HostRuntime) -> Result<(), Fail> {
    let mut disk = MemDisk::new(rt.alloc());
    assert!(rt; test_vacant(&mut disk) == Ok(()));
    assert!(rt; matches!(open(rt.alloc(), &mut disk), Err(OpenRefusal::NoStore)));
    let mut disk = fresh(rt.alloc())?;
    assert!(rt; disk.bytes().get(1024..) == Some(FRESH));
    assert!(rt; test_vacant(&mut disk) == Err(MakeRefusal::StoreThere));
    let opened = open(rt.alloc(), &mut disk)?;
    assert!(rt; opened.store.limit() == 1 << 20 && !opened.store.is_broken());
    assert!(rt; opens(rt.alloc(), &mut disk) == Some((1, 0)));
    disk.stop_after(0);
    assert!(rt; test_vacant(&mut disk) == Err(MakeRefusal::Disk));
    assert!(rt; matches!(open(rt.alloc(), &mut disk), Err(OpenRefusal::Unsynced)));
    Ok(())
}

/// Two extents are taken in turn.
#[test]
fn each_commit_opens(rt: HostRuntime) -> Result<(), Fail> {
    let mut disk = fresh(rt.alloc())?;
    for resume in 1..20u8 {
        let answer = resumes(rt.alloc(), &mut disk, resume);
        assert!(rt; answer == Some((Ok(()), false)), "{resume}");
        let want = u64::from(resume);
        assert!(rt;
            opens(rt.alloc(), &mut disk) == Some((want + 1, want)),
            "{resume}"
        );
        assert!(rt; disk.bytes().len() == 1024 + 2 * FRESH.len());
    }
    Ok(())
}

/// The one commit that a store of this room makes.
#[tactic(auto, using(lt_store::proofs::Keeping::stands_taken))]
fn commits_again(alloc: Global, disk: &mut MemDisk) -> Option<Result<(), CommitRefusal>> {
    let Ok(mut opened) = open(alloc, disk) else {
        return None;
    };
    commits(alloc, disk, &mut opened.store, &opened.manifest)
}

#[test]
fn room_for_two_manifests_is_enough(rt: HostRuntime) -> Result<(), Fail> {
    let mut disk = stocked(rt.alloc(), LENGTH)?;
    for n in 0..20 {
        assert!(rt; commits_again(rt.alloc(), &mut disk) == Some(Ok(())), "{n}");
        let opened = open(rt.alloc(), &mut disk)?;
        assert!(rt; opened.indexes.len() == 2);
    }
    Ok(())
}

#[test]
fn too_little_room_is_told(rt: HostRuntime) -> Result<(), Fail> {
    for room in [0, 1, 100, LENGTH - 1] {
        let mut disk = stocked(rt.alloc(), room)?;
        let full = CommitRefusal::StoreFull { need: LENGTH, room };
        assert!(rt;
            commits_again(rt.alloc(), &mut disk) == Some(Err(full)),
            "{room}"
        );
    }
    Ok(())
}

/// A disk after so many commits, none of whose calls counts yet.
fn committed(alloc: Global, count: u8) -> Option<MemDisk> {
    let mut disk = fresh(alloc).ok()?;
    for resume in 1..=count {
        resumes(alloc, &mut disk, resume)?.0.ok()?;
    }
    disk.crash(&[]).ok()
}

/// What a crash may leave of the last write.
const PICKS: [Pick; 6] = [
    Pick::Old,
    Pick::New,
    Pick::Prefix(1),
    Pick::Fill(0xA5),
    Pick::Fill(0),
    Pick::Fill(85),
];

/// Whether each crash leaves a state from the first one to the last one of these: as many commits as it says, and no other.
fn leaves(alloc: Global, disk: &MemDisk, least: u8, most: u8) -> bool {
    for pick in PICKS {
        let Ok(mut left) = disk.crash(&[pick]) else {
            return false;
        };
        let found = opens(alloc, &mut left);
        if !is_state(found, least) && !is_state(found, most) {
            return false;
        }
    }
    true
}

/// Whether a disk opens with what so many commits have made.
fn is_state(found: Option<(u64, u64)>, count: u8) -> bool {
    found == Some((u64::from(count) + 1, u64::from(count)))
}

/// Whether a commit of which one call fails ends as it should. Any fault but that of the read, its third call, breaks the store. A crash
/// leaves the state before, and from the last write on that or the one after.
fn ends_well(alloc: Global, count: u8, calls: u64, call: u64) -> Option<bool>
    requires { call < 9 }
{
    let next = count.saturating_add(1);
    let mut disk = committed(alloc, count)?;
    // The opening makes a sync and three reads.
    disk.fail(&[call + 5]).ok()?;
    let (answer, broken) = resumes(alloc, &mut disk, next)?;
    let fails = call < calls;
    let told = if fails {
        Err(CommitRefusal::Disk)
    } else {
        Ok(())
    };
    let least = if fails { count } else { next };
    let most = if call + 2 < calls { count } else { next };
    let stands = leaves(alloc, &disk, least, most);
    Some(answer == told && broken == (fails && call != 2) && stands)
}

/// The first call of a commit, after so many others, that does not end well where it fails.
fn ends_badly(alloc: Global, count: u8, calls: u64) -> Option<u64> {
    for call in 0..9u64 {
        if ends_well(alloc, count, calls, call) != Some(true) {
            return Some(call);
        }
    }
    None
}

/// The first commit finds the other gate closed, and makes two calls less.
#[test]
fn a_failed_call_leaves_the_old_manifest_or_the_new_one(rt: HostRuntime) {
    for (count, calls) in [(0, 7), (1, 9), (2, 9)] {
        let call = ends_badly(rt.alloc(), count, calls);
        assert!(rt; call.is_none(), "after {count}, {call:?}");
    }
}

/// Whether a store which one failed call breaks commits again once it is opened anew, and then opens with that commit.
fn mends(alloc: Global, call: u64) -> Option<bool>
    requires { call < 9 }
{
    let mut disk = committed(alloc, 1)?;
    disk.fail(&[call + 5]).ok()?;
    let broke = resumes(alloc, &mut disk, 2)?;
    let again = resumes(alloc, &mut disk, 3)?;
    let (_, resume) = opens(alloc, &mut disk)?;
    Some(broke == (Err(CommitRefusal::Disk), true) && again == (Ok(()), false) && resume == 3)
}

#[test]
fn a_broken_store_that_is_opened_anew_commits(rt: HostRuntime) {
    for call in [0, 1, 3, 4, 5, 6, 7, 8] {
        assert!(rt; mends(rt.alloc(), call) == Some(true), "{call}");
    }
}
