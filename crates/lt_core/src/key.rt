//! Keys and ranges of keys. A key is its table's number and its parts; a range is of the bytes of keys.
//!
//! Copying takes time linear in what is copied, and looking up a key in a range time linear in the key.

ghost use Rattle.std.specs.Prelude.{◌≡◌, IfOk};
ghost use Rattle.lt_terms.specs.Key.{in_range};
ghost use Rattle.lt_core.specs.View.{view_range};

mod decode;
mod encode;

use crate::list::{List, ListItem};
use crate::memory::Memory;
use crate::text::Text;
pub use decode::{DecodeRefusal, decode_key};
pub use encode::{KeyRefusal, MAX_KEY, encode_key, encode_prefix};
use lt_terms::KeyKind;
use std::alloc::Global;

/// The bytes of a key, or a bound of a range.
pub type KeyBytes = List<u8>;

/// The kinds of a key's parts.
pub type KeyKinds = List<KeyKind>;

/// The parts of a key, or the first ones.
pub type KeyParts = List<KeyPart>;

/// A part of a key.
#[derive(Debug, Drop)]
pub enum KeyPart {
    Int(i64),
    Text(Text),
}

/// A table's number, and the key's parts.
#[derive(Debug, Drop)]
pub struct Key {
    pub table: u32,
    pub parts: KeyParts,
}

/// The keys from the low bound on, and below the high bound where there is one.
#[derive(Debug, Drop)]
pub struct Range {
    pub low: KeyBytes,
    pub high: Option<KeyBytes>,
}

impl KeyPart {
    /// A copy equals what it copies.
    pub fn copy(&self) -> Result<KeyPart, Memory>
        ensures { IfOk result (λ part. part ≡ self.now) }
    {
        match self {
            KeyPart::Int(number) => Ok(KeyPart::Int(*number)),
            KeyPart::Text(text) => Ok(KeyPart::Text(text.copy()?)),
        }
    }
}

impl Key {
    /// A copy equals what it copies.
    pub fn copy(&self) -> Result<Key, Memory>
        ensures { IfOk result (λ key. key ≡ self.now) }
    {
        Ok(Key {
            table: self.table,
            parts: self.parts.copy()?,
        })
    }
}

impl Range {
    /// Whether a key lies in the range.
    pub fn contains(&self, key: &[u8]) -> bool
        ensures { result ≡ in_range key.now (view_range self.now) }
    {
        if key.cmp(self.low.as_slice()).is_lt() {
            return false;
        }
        match &self.high {
            None => true,
            Some(high) => key.cmp(high.as_slice()).is_lt(),
        }
    }

    /// A copy equals what it copies.
    pub fn copy(&self) -> Result<Range, Memory>
        ensures { IfOk result (λ range. range ≡ self.now) }
    {
        let low = self.low.copy()?;
        match &self.high {
            None => Ok(Range { low, high: None }),
            Some(high) => Ok(Range {
                low,
                high: Some(high.copy()?),
            }),
        }
    }
}

impl ListItem for KeyPart {
    fn copy_item(&self) -> Result<KeyPart, Memory> {
        self.copy()
    }
}

impl ListItem for KeyKind {
    fn copy_item(&self) -> Result<KeyKind, Memory> {
        Ok(*self)
    }

    fn copy_items(alloc: Global, items: &[KeyKind]) -> Result<KeyKinds, Memory> {
        List::from_slice(alloc, items)
    }
}
