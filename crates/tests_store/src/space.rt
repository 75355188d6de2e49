//! The space of a store file: worked places, and that calls succeed where there is memory.

ghost use Rattle.std.specs.Prelude.{◌≡◌, ◌<◌};
ghost use Rattle.std.specs.Bool.{OnTrue};

use lt_space::{Space, SpaceRefusal};
use lt_terms::Extent;
use std::alloc::Global;
use std::test::Fail;

const fn at(place: u64, length: u64) -> Extent {
    Extent { place, length }
}

/// Whether an extent of this length is taken at this place.
fn takes(space: &mut Space, length: u64, place: u64) -> bool
    requires { 0 < length }
{
    matches!(space.take(length), Ok(extent) if extent.place == place)
}

/// Whether an extent of this length is refused where the longest gap has this room.
fn is_full(space: &mut Space, length: u64, longest: u64) -> bool
    requires { 0 < length }
    ensures { OnTrue result (space.new ≡ space.old) }
{
    matches!(space.take(length), Err(SpaceRefusal::StoreFull { need, room }) if need == length && room == longest)
}

#[test]
fn what_is_given_back_is_taken_again(rt: HostRuntime) -> Result<(), Fail> {
    let mut space = Space::new(rt.alloc(), 1_048_576, &[])?;
    let whole = space.take(1_047_552)?;
    assert!(rt; whole.place == 1024);
    assert!(rt; is_full(&mut space, 1, 0));
    space.give(whole);
    assert!(rt; takes(&mut space, 1, 1024));
    Ok(())
}

/// The least place of an extent that overlaps, in a file of 2,048 bytes; none where all are taken.
fn overlap(alloc: Global, live: &[Extent]) -> Option<u64> {
    match Space::new(alloc, 2048, live) {
        Err(SpaceRefusal::Overlap { place }) => Some(place),
        Err(_) => Some(0),
        Ok(_) => None,
    }
}

#[test]
fn extents_that_meet_are_refused_by_the_least_place(rt: HostRuntime) {
    let rows: [(&[Extent], Option<u64>); 9] = [
        (&[], None),
        (&[at(1034, 6), at(1024, 10)], None),
        (&[at(1034, 6), at(1023, 10)], Some(1023)),
        (&[at(1100, 9), at(1033, 1), at(1024, 10)], Some(1024)),
        (&[at(1024, 1), at(2047, 2)], Some(2047)),
        (&[at(u64::MAX, 1)], Some(u64::MAX)),
        (&[at(1030, 5), at(1030, 5)], Some(1030)),
        (&[at(1034, 5), at(1024, 10), at(1034, 0), at(1034, 0)], None),
        (&[at(1030, 0), at(1024, 10)], Some(1024)),
    ];
    for (row, (live, want)) in rows.iter().enumerate() {
        assert!(rt; overlap(rt.alloc(), live) == *want, "at row {row}");
    }
}

#[test]
fn an_extent_is_the_lowest_gap_that_fits(rt: HostRuntime) -> Result<(), Fail> {
    let mut space = Space::new(rt.alloc(), 1064, &[at(1050, 5), at(1030, 10)])?;
    assert!(rt; takes(&mut space, 7, 1040));
    assert!(rt; takes(&mut space, 4, 1024));
    assert!(rt; is_full(&mut space, 10, 9));
    assert!(rt; takes(&mut space, 9, 1055));
    assert!(rt; takes(&mut space, 3, 1047));
    assert!(rt; takes(&mut space, 2, 1028));
    assert!(rt; is_full(&mut space, 1, 0));
    assert!(rt; is_full(&mut space, u64::MAX, 0));
    Ok(())
}
