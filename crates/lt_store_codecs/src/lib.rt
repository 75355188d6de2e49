//! The codecs of the store's formats, and the laws of their bytes.
//!
//! Each function here has an empty body: its contract is a law over the definitions, for all values.
#![tactic(auto)]

ghost use Rattle.lt_store_codecs.specs.StoreFront.{AreColumnsPrefixFree, AreIndexesPrefixFree, AreKindsPrefixFree, AreManifestsPrefixFree, BundlesAreLawful, DecidesIndexes, DecidesManifests, SpellOneList, StoreCodecs};

/// Each codec of the store reads what the store's grammar spells.
pub fn store_codecs_read_back()
    ensures { StoreCodecs }
{}

/// No kind's bytes begin another's.
pub fn kinds_are_prefix_free()
    ensures { AreKindsPrefixFree }
{}

/// No column's bytes begin another's.
pub fn columns_are_prefix_free()
    ensures { AreColumnsPrefixFree }
{}

/// A manifest is lawful exactly where its codec can spell it and its catalogue is lawful.
pub fn decides_manifests()
    ensures { DecidesManifests }
{}

/// No manifest's bytes begin another's.
pub fn manifests_are_prefix_free()
    ensures { AreManifestsPrefixFree }
{}

/// An index is lawful exactly where its codec can spell it and its layouts are layouts of columns.
pub fn decides_indexes()
    ensures { DecidesIndexes }
{}

/// No index's bytes begin another's.
pub fn indexes_are_prefix_free()
    ensures { AreIndexesPrefixFree }
{}

/// The codec of bundles can spell each bundle of fewer than 2^64 bytes.
pub fn bundles_are_lawful()
    ensures { BundlesAreLawful }
{}

/// Fewer than 2^64 bytes are, of one table and under one layout, the bundle of at most one list of versions.
pub fn bundles_spell_one_list()
    ensures { SpellOneList }
{}
