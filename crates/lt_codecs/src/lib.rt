//! The laws of keys and of the log's bytes, and the codecs that every binary format is built from.
//!
//! Each function here has an empty body: its contract is a law over the definitions, for all values.
#![tactic(auto)]

ghost use Rattle.lt_terms.specs.Key.{AreKeysPrefixFree, KeepsOrder};
ghost use Rattle.lt_terms.specs.Log.{AreValuesPrefixFree, IsPrefixFree};
ghost use Rattle.lt_codecs.specs.CodecLaws.{KeepCodecs, Parts};
ghost use Rattle.lt_codecs.specs.Front.{DecidesWhole, FindsOne, LogCodecs, ReadsValue, ReadsWhole, StaysFound};

/// For keys of one table the order of the bytes is the order of the parts.
pub fn keys_keep_order()
    ensures { KeepsOrder }
{}

/// No key's bytes begin another's of its table.
pub fn keys_are_prefix_free()
    ensures { AreKeysPrefixFree }
{}

/// No value's bytes begin another's.
pub fn values_are_prefix_free()
    ensures { AreValuesPrefixFree }
{}

/// No frame begins another of its format.
pub fn frames_are_prefix_free()
    ensures { IsPrefixFree }
{}

/// Exactly one thing is found at the front of bytes.
pub fn finds_exactly_one()
    ensures { FindsOne }
{}

/// Reading gives an item exactly where it stands whole at the front.
pub fn reads_whole_items()
    ensures { ReadsWhole }
{}

/// Either an item stands whole at the front of bytes, or none does.
pub fn decides_whole_items()
    ensures { DecidesWhole }
{}

/// What is found whole or malformed stays so while bytes are appended.
pub fn stays_found_while_bytes_grow()
    ensures { StaysFound }
{}

/// Reading gives a value exactly where one stands at the front.
pub fn reads_values()
    ensures { ReadsValue }
{}

/// Any codecs of `A` and of `B` and any grammar of `B`: a law over all codecs is one over all of these, since no clause ranges over codecs.
pub trait AnyCodecs<A, B> {
    ghost parts: { Parts A B };
}

/// Each way to build a codec gives a codec.
pub fn combinators_keep_codecs<A, B, C: AnyCodecs<A, B>>()
    ensures { KeepCodecs C.parts }
{}

/// Each codec of the log reads what the log's grammar spells.
pub fn log_codecs_read_back()
    ensures { LogCodecs }
{}
