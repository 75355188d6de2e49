//! Writing numbers and bytes, the greatest byte of a number first. A call takes time linear in what it writes.

ghost use Rattle.std.specs.Prelude.{◌≡◌, [], ◌++◌, OnOk, OnErr};
ghost use Rattle.lt_codecs.specs.Codec as codec;

use crate::list::List;
use crate::memory::Memory;
use crate::value::Blob;
use std::alloc::Global;
use std::marker::Model;

/// A writer, which contracts see as the bytes written so far. A call that finds no memory writes none.
#[derive(Debug, Drop)]
pub struct Writer {
    written: Blob,
}

impl Model for Writer {
    ghost use Rattle.std.specs.Prelude.{List as Listed, ℕ};

    ghost Value = { Listed ℕ };

    ghost view = { λ w. w.written };
}

impl Writer {
    pub fn new(alloc: Global) -> Writer
        ensures { result ≡ [] }
    {
        Writer {
            written: List::new(alloc),
        }
    }

    #[tactic(auto, unfolding(lt_codecs::specs::Codec::u8))]
    pub fn u8(&mut self, v: u8) -> Result<(), Memory>
        ensures ok { OnOk result (self.new ≡ self.old ++ codec.u8.spell v) }
        ensures err { OnErr result (self.new ≡ self.old) }
    {
        self.bytes(&v.to_be_bytes())
    }

    #[tactic(auto, unfolding(lt_codecs::specs::Codec::u16))]
    pub fn u16(&mut self, v: u16) -> Result<(), Memory>
        ensures ok { OnOk result (self.new ≡ self.old ++ codec.u16.spell v) }
        ensures err { OnErr result (self.new ≡ self.old) }
    {
        self.bytes(&v.to_be_bytes())
    }

    #[tactic(auto, unfolding(lt_codecs::specs::Codec::u32))]
    pub fn u32(&mut self, v: u32) -> Result<(), Memory>
        ensures ok { OnOk result (self.new ≡ self.old ++ codec.u32.spell v) }
        ensures err { OnErr result (self.new ≡ self.old) }
    {
        self.bytes(&v.to_be_bytes())
    }

    #[tactic(auto, unfolding(lt_codecs::specs::Codec::u64))]
    pub fn u64(&mut self, v: u64) -> Result<(), Memory>
        ensures ok { OnOk result (self.new ≡ self.old ++ codec.u64.spell v) }
        ensures err { OnErr result (self.new ≡ self.old) }
    {
        self.bytes(&v.to_be_bytes())
    }

    pub fn bytes(&mut self, v: &[u8]) -> Result<(), Memory>
        ensures ok { OnOk result (self.new ≡ self.old ++ v.now) }
        ensures err { OnErr result (self.new ≡ self.old) }
    {
        self.written.extend_from_slice(v)
    }

    /// What was written.
    pub fn finish(self) -> Blob
        ensures { result ≡ self }
    {
        self.written
    }
}
