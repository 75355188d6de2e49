//! Reading numbers and bytes off the front of a slice, the greatest byte of a number first.
//!
//! Each call takes constant time, and none takes memory.

ghost use Rattle.std.specs.Prelude.{◌≡◌, ◌↔◌, ◌<◌, length, IsErr};
ghost use Rattle.lt_core.specs.Reading.{Reads, front};
ghost use Rattle.lt_codecs.specs.Codec as codec;

use std::error::Error;
use std::fmt;
use std::marker::Model;

/// Too few bytes are left.
#[derive(Clone, Copy, Debug, PartialEq, Eq)]
pub struct Short;

impl fmt::Display for Short {
    ghost use Rattle.std.specs.Prelude.{Some, codes};

    ghost output = { λ _. Some (codes "too few bytes are left") };

    fn fmt<W: fmt::Write>(&self, f: &mut fmt::Formatter<W>) -> fmt::Result {
        f.write_str("too few bytes are left")
    }
}

impl Error for Short {}

/// A reader, which contracts see as the bytes that are left. A call that answers `Short` takes none of them.
#[derive(Debug, Drop)]
pub struct Reader<'a> {
    rest: &'a [u8],
}

impl<'a> Model for Reader<'a> {
    ghost use Rattle.std.specs.Prelude.{List as Listed, ℕ};

    ghost Value = { Listed ℕ };

    ghost view = { λ r. r.rest.now };
}

impl<'a> Reader<'a> {
    pub fn new(bytes: &'a [u8]) -> Reader<'a>
        ensures { result ≡ bytes.now }
    {
        Reader { rest: bytes }
    }

    #[tactic(auto, unfolding(lt_codecs::specs::Codec::u8))]
    pub fn u8(&mut self) -> Result<u8, Short>
        ensures read { Reads (λ n. n) (codec.u8.read self.old) result self.old self.new }
        ensures short { IsErr result ↔ (length self.old < 1) }
    {
        let Some((first, rest)) = self.rest.split_first_chunk::<1>() else {
            return Err(Short);
        };
        self.rest = rest;
        Ok(u8::from_be_bytes(*first))
    }

    #[tactic(auto, unfolding(lt_codecs::specs::Codec::u16))]
    pub fn u16(&mut self) -> Result<u16, Short>
        ensures read { Reads (λ n. n) (codec.u16.read self.old) result self.old self.new }
        ensures short { IsErr result ↔ (length self.old < 2) }
    {
        let Some((first, rest)) = self.rest.split_first_chunk::<2>() else {
            return Err(Short);
        };
        self.rest = rest;
        Ok(u16::from_be_bytes(*first))
    }

    #[tactic(auto, unfolding(lt_codecs::specs::Codec::u32))]
    pub fn u32(&mut self) -> Result<u32, Short>
        ensures read { Reads (λ n. n) (codec.u32.read self.old) result self.old self.new }
        ensures short { IsErr result ↔ (length self.old < 4) }
    {
        let Some((first, rest)) = self.rest.split_first_chunk::<4>() else {
            return Err(Short);
        };
        self.rest = rest;
        Ok(u32::from_be_bytes(*first))
    }

    #[tactic(auto, unfolding(lt_codecs::specs::Codec::u64))]
    pub fn u64(&mut self) -> Result<u64, Short>
        ensures read { Reads (λ n. n) (codec.u64.read self.old) result self.old self.new }
        ensures short { IsErr result ↔ (length self.old < 8) }
    {
        let Some((first, rest)) = self.rest.split_first_chunk::<8>() else {
            return Err(Short);
        };
        self.rest = rest;
        Ok(u64::from_be_bytes(*first))
    }

    /// The next bytes, so many of them.
    pub fn bytes(&mut self, n: usize) -> Result<&'a [u8], Short>
        ensures read { Reads (λ bytes. bytes.now) (front n self.old) result self.old self.new }
        ensures short { IsErr result ↔ (length self.old < n) }
    {
        let Some((first, rest)) = self.rest.split_at_checked(n) else {
            return Err(Short);
        };
        self.rest = rest;
        Ok(first)
    }

    /// How many bytes are left.
    pub fn left(&self) -> usize
        ensures { result ≡ length self.now }
    {
        self.rest.len()
    }
}
