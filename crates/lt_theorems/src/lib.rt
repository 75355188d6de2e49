//! The laws of the definitions: conversion, rows, schema texts, fair streams, version lists, the machine.
//!
//! Each function here has an empty body: its contract is a law over the definitions, for all values. No crate stands above this one.
#![tactic(auto)]

ghost use Rattle.lt_machine.specs.Claims.{WholeClaims};
ghost use Rattle.lt_tables.specs.Fair.{PointSuffices};
ghost use Rattle.lt_machine.specs.Laws.{ConversionLaws, FaultKeeps, FlattensBack, FrontLaws, GrowsLaws, LayoutLaws, ListLaws, MachineLaws, MinimumNeverFalls, PumpLaws, SessionIsReached, SnapshotLaws, VersionLaws};
ghost use Rattle.lt_machine.specs.Outside.{HeldScans, UnrefusedAsks};
ghost use Rattle.lt_tables.specs.Row.{ReadsInOrder};
ghost use Rattle.lt_words.specs.SchemaText.{TextReadsBack};
ghost use Rattle.lt_machine.specs.Sound.{GrowthKeeps, OpeningIsGood, ScanIsSnapshot, SoundGrows, StepKeeps};
ghost use Rattle.lt_storage.specs.Store.{HoldsLawful, HoldsOne};
ghost use Rattle.lt_tables.specs.Version.{ComposeLaws};

/// A value read by way of a carrier is the value read at once, and what went up a kind comes down as it was.
pub fn conversion_laws()
    ensures { ConversionLaws }
{}

/// What was set reads back from a row's cells.
pub fn flattens_back()
    ensures { FlattensBack }
{}

/// By way of a layout between two, cells are as at once; so deltas go over to the carriers of a longer catalogue; carriers are a layout.
pub fn layout_laws()
    ensures { LayoutLaws }
{}

/// Two versions of one key, one after the other, are as their composition.
pub fn compose_laws()
    ensures { ComposeLaws }
{}

/// What the merge of lists is, what a key's composed version has the effect of, and that collapsing and cutting lose nothing.
pub fn version_laws()
    ensures { VersionLaws }
{}

/// How lists of row versions are merged, clipped, coerced and collapsed together.
pub fn list_laws()
    ensures { ListLaws }
{}

/// Claims that count in a partition's whole range are the partition's list of deltas.
pub fn whole_claims()
    ensures { WholeClaims }
{}

/// Where a key's changes rise in the list, its row takes them in the list's order.
pub fn rows_read_in_order()
    ensures { ReadsInOrder }
{}

/// Snapshots and answers go by the rows alone; nothing that follows a checkpoint, and no longer catalogue, changes those up to it.
pub fn snapshot_laws()
    ensures { SnapshotLaws }
{}

/// What a check of a stream keeps tells what the whole list of items tells.
pub fn point_suffices()
    ensures { PointSuffices }
{}

/// A feed grows to itself, and growing twice is growing.
pub fn grows_laws()
    ensures { GrowsLaws }
{}

/// Each stream has one front, which a longer feed and a longer catalogue only lengthen, and each feed whose headers tile has its fronts.
pub fn front_laws()
    ensures { FrontLaws }
{}

/// What a pump takes from where a stream stands is what its front has next, and all of it where what stands next stops the pump.
pub fn pump_laws()
    ensures { PumpLaws }
{}

/// An opening finds a good session.
pub fn opening_is_good()
    ensures { OpeningIsGood }
{}

/// A longer feed keeps a good session, and neither it nor a longer catalogue changes an answer up to a safe moment.
pub fn growth_keeps()
    ensures { GrowthKeeps }
{}

/// An image that is sound for a feed is sound for each longer one.
pub fn sound_grows()
    ensures { SoundGrows }
{}

/// A scan at a safe moment reads, from what is stored and what is pending, the source's snapshot.
pub fn scan_is_snapshot()
    ensures { ScanIsSnapshot }
{}

/// In a session that belongs to a feed, a scan of the store and of memory in the window answers over the source's snapshot.
pub fn held_scans()
    ensures { HeldScans }
{}

/// A scan or page that the state does not refuse asks in the window.
pub fn unrefused_asks()
    ensures { UnrefusedAsks }
{}

/// A step of a good session, broken or not, leaves a good session.
pub fn step_keeps()
    ensures { StepKeeps }
{}

/// A fault in place of an answer leaves a good session.
pub fn fault_keeps()
    ensures { FaultKeeps }
{}

/// The minimum falls at no command, nor at a fault.
pub fn minimum_never_falls()
    ensures { MinimumNeverFalls }
{}

/// The laws of rows, streams, snapshots, steps, faults and scans in one.
pub fn machine_laws()
    ensures { MachineLaws }
{}

/// From a fresh store a schema, a pump and a flush reach a good session with a delta on its shelf.
pub fn a_session_is_reached()
    ensures { SessionIsReached }
{}

/// A durable part that an image holds is lawful.
pub fn holds_lawful()
    ensures { HoldsLawful }
{}

/// An image holds at most one durable part.
pub fn holds_one()
    ensures { HoldsOne }
{}

/// A version's schema text, as it is written, reads back as the version.
pub fn written_texts_read_back()
    ensures { TextReadsBack }
{}
