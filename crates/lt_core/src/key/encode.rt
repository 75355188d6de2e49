//! The bytes of a key: its table's number, and then its parts, so that the order of the bytes is the order of the parts.
//!
//! A number has its top bit flipped, the greatest byte first. A text has each byte 00 written 00 FF, and ends with 00 01.
//! Encoding takes time linear in the bytes.

ghost use Rattle.std.specs.Prelude.{◌≡◌, ◌≤◌, [], ◌∷◌, ◌++◌, length, IfOk, IfErr, OnOk};
ghost use Rattle.lt_terms.specs.Key.{escaped, key_bytes, max_key, number_key, part_bytes};
ghost use Rattle.lt_core.specs.View.{view_part, view_parts};
ghost use Rattle.lt_core.specs.Keys.{KeepsOrder, KeyRefused, encoded, escaped_byte};
ghost use Rattle.lt_core.specs.declared.key.encode.KeyRefusal.TheVariants as refusals;

use crate::key::{Key, KeyBytes, KeyPart, KeyParts};
use crate::list::List;
use crate::memory::Memory;
use std::alloc::Global;
use std::error::Error;
use std::fmt;

/// The most bytes that a key, or a bound of a range, may have.
pub const MAX_KEY: usize = 4096;

/// What a byte 00 of a text is written as.
const ZERO: [u8; 2] = [0, 255];

/// What a text ends with.
const END: [u8; 2] = [0, 1];

/// Why a key has no bytes.
#[derive(Clone, Copy, Debug, PartialEq, Eq)]
pub enum KeyRefusal {
    TooLong { len: usize },
    Memory,
}

impl fmt::Display for KeyRefusal {
    ghost use Rattle.std.specs.Prelude.{Some};
    ghost use Rattle.lt_core.specs.Messages.{key_message};

    ghost output = { λ e. Some (key_message e) };

    fn fmt<W: fmt::Write>(&self, f: &mut fmt::Formatter<W>) -> fmt::Result {
        match self {
            KeyRefusal::TooLong { len } => write!(f, "a key of {len} bytes"),
            KeyRefusal::Memory => write!(f, "{Memory}"),
        }
    }
}

impl Error for KeyRefusal {}

impl From<Memory> for KeyRefusal {
    ghost from_gives = { λ _ e. e ≡ refusals.Memory };

    fn from(_: Memory) -> Self {
        KeyRefusal::Memory
    }
}

/// The bytes of a key; `TooLong` where they are more than `MAX_KEY`.
#[tactic(auto, using(crate::proofs::KeyText::in_order))]
pub fn encode_key(alloc: Global, key: &Key) -> Result<KeyBytes, KeyRefusal>
    ensures bytes { IfOk result (λ bytes. bytes ≡ encoded key.now) }
    ensures order { IfOk result (KeepsOrder key.now) }
    ensures fits { OnOk result (length (encoded key.now) ≤ max_key) }
    ensures refused { IfErr result (KeyRefused (encoded key.now)) }
{
    let bytes = encode_prefix(alloc, key.table, &key.parts)?;
    let len = bytes.len();
    if len > MAX_KEY {
        return Err(KeyRefusal::TooLong { len });
    }
    Ok(bytes)
}

/// The bytes that all keys begin with whose first parts these are.
pub fn encode_prefix(alloc: Global, table: u32, parts: &KeyParts) -> Result<KeyBytes, Memory>
    ensures { IfOk result (λ bytes. bytes ≡ key_bytes table (view_parts parts.now)) }
{
    let mut out = List::new(alloc);
    out.extend_from_slice(&table.to_be_bytes())?;
    for part in parts.as_slice() {
        write_part(&mut out, part)?;
    }
    Ok(out)
}

fn write_part(out: &mut KeyBytes, part: &KeyPart) -> Result<(), Memory>
    ensures { OnOk result (out.new ≡ out.old ++ part_bytes (view_part part.now)) }
{
    match part {
        KeyPart::Int(number) => out.extend_from_slice(&raised(*number).to_be_bytes()),
        KeyPart::Text(text) => write_text(out, text.as_slice()),
    }
}

/// The number with its top bit flipped, so that a negative one comes first.
fn raised(number: i64) -> u64
    ensures { result ≡ number_key number }
{
    (i128::from(number) + (1i128 << 63)) as u64
}

#[tactic(auto, using(crate::proofs::KeyText::ended))]
fn write_text(out: &mut KeyBytes, text: &[u8]) -> Result<(), Memory>
    ensures { OnOk result (out.new ≡ out.old ++ (escaped text.now ++ 0 ∷ 1 ∷ [])) }
{
    for byte in text {
        write_byte(out, *byte)?;
    }
    out.extend_from_slice(&END)?;
    Ok(())
}

fn write_byte(out: &mut KeyBytes, byte: u8) -> Result<(), Memory>
    ensures { OnOk result (out.new ≡ out.old ++ escaped_byte byte) }
{
    if byte == 0 {
        out.extend_from_slice(&ZERO)
    } else {
        out.push(byte)
    }
}
