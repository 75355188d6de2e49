//! Keys out of their bytes. Decoding takes time linear in the bytes, and copies each text once.

ghost use Rattle.std.specs.Prelude.{◌≡◌, IfOk, IsErrOf};
ghost use Rattle.lt_codecs.specs.Codec.{whole};
ghost use Rattle.lt_core.specs.View.{view_key, view_part, view_parts};
ghost use Rattle.lt_core.specs.KeyCodec.{Decodes, IsKey, NoKey, NoOtherKey, Steps, after_zero, key_number, key_of, key_part, key_parts, key_text, number_of, unescaped};
ghost use Rattle.lt_core.specs.declared.key.decode.DecodeRefusal.TheVariants as refusals;

use crate::key::{Key, KeyKinds, KeyPart, KeyParts};
use crate::list::List;
use crate::memory::Memory;
use crate::reader::{Reader, Short};
use crate::text::Text;
use crate::value::Blob;
use lt_terms::KeyKind;
use std::alloc::Global;
use std::error::Error;
use std::fmt;

/// What follows a byte 00 where a text has a byte 00 there.
const ESCAPED: u8 = 255;

/// What follows a byte 00 at the end of a text.
const END: u8 = 1;

/// Why bytes give no key.
#[derive(Clone, Copy, Debug, PartialEq, Eq)]
pub enum DecodeRefusal {
    NotAKey,
    Memory,
}

impl fmt::Display for DecodeRefusal {
    ghost use Rattle.std.specs.Prelude.{Some};
    ghost use Rattle.lt_core.specs.Messages.{decode_message};

    ghost output = { λ e. Some (decode_message e) };

    fn fmt<W: fmt::Write>(&self, f: &mut fmt::Formatter<W>) -> fmt::Result {
        match self {
            DecodeRefusal::NotAKey => f.write_str("not a key of these kinds"),
            DecodeRefusal::Memory => write!(f, "{Memory}"),
        }
    }
}

impl Error for DecodeRefusal {}

impl From<Memory> for DecodeRefusal {
    ghost from_gives = { λ _ e. e ≡ refusals.Memory };

    fn from(_: Memory) -> Self {
        DecodeRefusal::Memory
    }
}

impl From<Short> for DecodeRefusal {
    ghost from_gives = { λ _ e. e ≡ refusals.NotAKey };

    fn from(_: Short) -> Self {
        DecodeRefusal::NotAKey
    }
}

/// The number whose key this is.
fn lowered(raised: u64) -> i64
    ensures { result ≡ number_of raised }
{
    (i128::from(raised) - (1i128 << 63)) as i64
}

#[tactic(auto, unfolding(crate::specs::KeyCodec::key_number))]
fn take_number(from: &mut Reader<'_>) -> Result<i64, DecodeRefusal>
    ensures { Decodes (λ z. (z, from.new)) (key_number.read from.old) result }
{
    Ok(lowered(from.u64()?))
}

/// The next byte of a text; none at its end.
#[tactic(auto, using(crate::proofs::KeyReads::u8_some, crate::proofs::KeyReads::u8_none))]
fn next_byte(from: &mut Reader<'_>) -> Result<Option<u8>, DecodeRefusal>
    ensures { Steps unescaped from.old result from.new }
{
    let byte = from.u8()?;
    if byte == 0 {
        after_zero(from)
    } else {
        Ok(Some(byte))
    }
}

#[tactic(auto, using(crate::proofs::KeyReads::u8_some, crate::proofs::KeyReads::u8_none))]
fn after_zero(from: &mut Reader<'_>) -> Result<Option<u8>, DecodeRefusal>
    ensures { Steps after_zero from.old result from.new }
{
    let byte = from.u8()?;
    if byte == ESCAPED {
        Ok(Some(0))
    } else if byte == END {
        Ok(None)
    } else {
        Err(DecodeRefusal::NotAKey)
    }
}

/// The bytes of a text, up to its end.
#[tactic(auto, using(crate::proofs::KeyReads::text_more, crate::proofs::KeyReads::text_ends, crate::proofs::KeyReads::text_fails))]
fn unescape(alloc: Global, from: &mut Reader<'_>) -> Result<Blob, DecodeRefusal>
    ensures { Decodes (λ text. (text, from.new)) (unescaped from.old) result }
{
    let mut text = List::new(alloc);
    while let Some(byte) = next_byte(from)? {
        text.push(byte)?;
    }
    Ok(text)
}

#[tactic(auto, unfolding(crate::specs::KeyCodec::key_text))]
fn take_text(alloc: Global, from: &mut Reader<'_>) -> Result<Text, DecodeRefusal>
    ensures { Decodes (λ text. (text, from.new)) (key_text.read from.old) result }
{
    let bytes = unescape(alloc, from)?;
    match Text::from_bytes(bytes) {
        Ok(text) => Ok(text),
        Err(_) => Err(DecodeRefusal::NotAKey),
    }
}

#[tactic(auto, unfolding(crate::specs::KeyCodec::key_part))]
fn take_part(alloc: Global, from: &mut Reader<'_>, kind: KeyKind) -> Result<KeyPart, DecodeRefusal>
    ensures { Decodes (λ part. (view_part part, from.new)) ((key_part kind).read from.old) result }
{
    match kind {
        KeyKind::Int64 => Ok(KeyPart::Int(take_number(from)?)),
        KeyKind::Text => Ok(KeyPart::Text(take_text(alloc, from)?)),
    }
}

#[tactic(auto, unfolding(crate::specs::KeyCodec::key_parts), using(crate::proofs::KeyReads::parts_start, crate::proofs::KeyReads::parts_more, crate::proofs::KeyReads::parts_fail, crate::proofs::KeyReads::parts_end))]
fn take_parts(
    alloc: Global,
    from: &mut Reader<'_>,
    kinds: &KeyKinds,
) -> Result<KeyParts, DecodeRefusal>
    ensures { Decodes (λ parts. (view_parts parts, from.new)) ((key_parts kinds.now).read from.old) result }
{
    let mut parts = List::new(alloc);
    for kind in kinds.as_slice() {
        parts.push(take_part(alloc, from, *kind)?)?;
    }
    Ok(parts)
}

#[tactic(auto, unfolding(crate::specs::KeyCodec::key_of))]
fn read_key(alloc: Global, bytes: &[u8], kinds: &KeyKinds) -> Result<Key, DecodeRefusal>
    ensures { Decodes view_key (whole (key_of kinds.now) bytes.now) result }
{
    let mut from = Reader::new(bytes);
    let table = from.u32()?;
    let parts = take_parts(alloc, &mut from, kinds)?;
    if from.left() == 0 {
        Ok(Key { table, parts })
    } else {
        Err(DecodeRefusal::NotAKey)
    }
}

/// The key of these kinds whose bytes these are; `NotAKey` where there is none.
#[tactic(auto, using(crate::proofs::KeyCodecs::key_read, crate::proofs::KeyCodecs::one_key, crate::proofs::KeyCodecs::no_key))]
pub fn decode_key(alloc: Global, bytes: &[u8], kinds: &KeyKinds) -> Result<Key, DecodeRefusal>
    ensures key { IfOk result (λ key. IsKey kinds.now bytes.now (view_key key)) }
    ensures only { IfOk result (λ key. NoOtherKey kinds.now bytes.now (view_key key)) }
    ensures refused { IsErrOf result DecodeRefusal.NotAKey → NoKey kinds.now bytes.now }
{
    read_key(alloc, bytes, kinds)
}
