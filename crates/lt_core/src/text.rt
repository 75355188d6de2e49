//! Texts, which are always UTF-8. Making or copying one takes time linear in its bytes, and no other call does.

ghost use Rattle.std.specs.Prelude.{◌≡◌, ◌↔◌, [], length, true, false, slice_get, IsTrue, IfOk, OnOk, IsErr, IsErrOf};
ghost use Rattle.std.specs.Option.{option_copied};
ghost use Rattle.std.specs.Str.{is_utf8};
ghost use Rattle.lt_core.specs.declared.text.TextRefusal.TheVariants as refusals;

use crate::list::{List, ListItem};
use crate::memory::Memory;
use std::alloc::Global;
use std::error::Error;
use std::fmt;
use std::marker::Model;

/// The bytes are not UTF-8.
#[derive(Clone, Copy, Debug, PartialEq, Eq)]
pub struct NotUtf8;

impl fmt::Display for NotUtf8 {
    ghost use Rattle.std.specs.Prelude.{Some};
    ghost use Rattle.lt_core.specs.Messages.{not_utf8};

    ghost output = { λ _. Some not_utf8 };

    fn fmt<W: fmt::Write>(&self, f: &mut fmt::Formatter<W>) -> fmt::Result {
        f.write_str("not UTF-8")
    }
}

impl Error for NotUtf8 {}

/// Why bytes are no text.
#[derive(Clone, Copy, Debug, PartialEq, Eq)]
pub enum TextRefusal {
    NotUtf8,
    Memory,
}

impl fmt::Display for TextRefusal {
    ghost use Rattle.std.specs.Prelude.{Some};
    ghost use Rattle.lt_core.specs.Messages.{text_message};

    ghost output = { λ e. Some (text_message e) };

    fn fmt<W: fmt::Write>(&self, f: &mut fmt::Formatter<W>) -> fmt::Result {
        match self {
            TextRefusal::NotUtf8 => write!(f, "{NotUtf8}"),
            TextRefusal::Memory => write!(f, "{Memory}"),
        }
    }
}

impl Error for TextRefusal {}

impl From<Memory> for TextRefusal {
    ghost from_gives = { λ _ e. e ≡ refusals.Memory };

    fn from(_: Memory) -> Self {
        TextRefusal::Memory
    }
}

/// A text, which contracts see as its bytes.
#[derive(Debug, Drop)]
pub struct Text {
    inner: String,
}

impl Model for Text {
    ghost use Rattle.std.specs.Prelude.{List as Listed, ℕ, string_bytes};

    ghost Value = { Listed ℕ };

    ghost view = { λ t. string_bytes t.inner };
}

impl Text {
    /// The empty text.
    pub fn new(alloc: Global) -> Text
        ensures { result ≡ [] }
    {
        Text {
            inner: String::new(alloc),
        }
    }

    /// A text of these bytes; `NotUtf8` where they are none.
    pub fn from_slice(alloc: Global, bytes: &[u8]) -> Result<Text, TextRefusal>
        ensures bytes { IfOk result (λ text. text ≡ bytes.now) }
        ensures text { OnOk result (is_utf8 bytes.now ≡ true) }
        ensures refused { IsErrOf result TextRefusal.NotUtf8 ↔ (is_utf8 bytes.now ≡ false) }
    {
        let Ok(text) = str::from_utf8(bytes) else {
            return Err(TextRefusal::NotUtf8);
        };
        match String::from_str(alloc, text) {
            Ok(inner) => Ok(Text { inner }),
            Err(_) => Err(TextRefusal::Memory),
        }
    }

    /// A text of these bytes, which are not copied; `NotUtf8` where they are none.
    pub fn from_bytes(bytes: List<u8>) -> Result<Text, NotUtf8>
        ensures bytes { IfOk result (λ text. text ≡ bytes) }
        ensures refused { IsErr result ↔ (is_utf8 bytes ≡ false) }
    {
        let Ok(inner) = String::from_utf8(bytes.into_vec()) else {
            return Err(NotUtf8);
        };
        Ok(Text { inner })
    }

    pub fn len(&self) -> usize
        ensures { result ≡ length self.now }
    {
        self.inner.len()
    }

    pub fn is_empty(&self) -> bool
        ensures { IsTrue result ↔ (self.now ≡ []) }
    {
        self.inner.is_empty()
    }

    /// The byte at a place; none from the length on.
    pub fn get(&self, i: usize) -> Option<&u8>
        ensures { option_copied result ≡ slice_get self.now i }
    {
        self.as_slice().get(i)
    }

    /// The allocator that it was made with.
    pub fn allocator(&self) -> Global {
        *self.inner.allocator()
    }

    pub fn as_str(&self) -> &str
        ensures { result.now ≡ self.now }
    {
        self.inner.as_str()
    }

    pub fn as_slice(&self) -> &[u8]
        ensures bytes { result.now ≡ self.now }
        ensures text { is_utf8 self.now ≡ true }
    {
        self.inner.as_str().as_bytes()
    }

    /// A copy equals what it copies.
    pub fn copy(&self) -> Result<Text, Memory>
        ensures { IfOk result (λ text. text ≡ self.now) }
    {
        let inner = String::from_str(self.allocator(), self.as_str())?;
        Ok(Text { inner })
    }
}

impl fmt::Display for Text {
    ghost use Rattle.std.specs.Prelude.{Some};

    ghost output = { λ t. Some t };

    fn fmt<W: fmt::Write>(&self, f: &mut fmt::Formatter<W>) -> fmt::Result {
        f.write_str(self.as_str())
    }
}

impl ListItem for Text {
    fn copy_item(&self) -> Result<Text, Memory> {
        self.copy()
    }
}
