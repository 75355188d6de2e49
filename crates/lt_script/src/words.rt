//! Words, which exactly one space parts: the first one, and what a word stands for.

ghost use Rattle.std.specs.Prelude.{◌≡◌, IfOk, IfNone, IfSome};
ghost use Rattle.lt_words.specs.Script.{count_word, large_word, small_word, table_word};
ghost use Rattle.lt_script.specs.Lines.{IsParted, NoSpace};

use lt_core::{Memory, Text, TextRefusal};
use std::alloc::{AllocError, Global};

/// The longest name of a table, in bytes.
const MAX_TABLE: usize = 64;

/// The least count.
const LEAST_COUNT: u32 = 1;

/// A line's first word and what stands behind the space after it; none where the line is one word.
pub fn first_word(line: &str) -> Option<(&str, &str)>
    ensures parted { IfSome result (λ part. IsParted line.now part.0.now part.1.now) }
    ensures whole { IfNone result (NoSpace line.now) }
{
    line.split_once(' ')
}

/// The table that the word names: one to 64 bytes.
pub fn table_name(alloc: Global, word: &str) -> Result<Option<Text>, Memory>
    ensures { IfOk result (λ found. found ≡ table_word word.now) }
{
    if word.is_empty() || word.len() > MAX_TABLE {
        return Ok(None);
    }
    Ok(Some(copied(alloc, word)?))
}

/// A copy of a text.
pub fn copied(alloc: Global, text: &str) -> Result<Text, Memory>
    ensures { IfOk result (λ copy. copy ≡ text.now) }
{
    match Text::from_slice(alloc, text.as_bytes()) {
        Ok(copy) => Ok(copy),
        Err(TextRefusal::Memory) => Err(Memory),
        Err(TextRefusal::NotUtf8) => unreachable!(),
    }
}

/// The number up to 2^32 - 1 that the digits spell, without leading zeros.
pub fn small_number(alloc: Global, digits: &str) -> Result<Option<u32>, AllocError>
    ensures { IfOk result (λ found. found ≡ small_word digits.now) }
{
    match large_number(alloc, digits)? {
        Some(n) if n <= u32::MAX as u64 => Ok(Some(n as u32)),
        _ => Ok(None),
    }
}

/// The number from 1 to 2^32 - 1 that the digits spell, without leading zeros.
pub fn count(alloc: Global, digits: &str) -> Result<Option<u64>, AllocError>
    ensures { IfOk result (λ found. found ≡ count_word digits.now) }
{
    match small_number(alloc, digits)? {
        Some(n) if n >= LEAST_COUNT => Ok(Some(u64::from(n))),
        _ => Ok(None),
    }
}

/// The number up to 2^64 - 1 that the digits spell, without leading zeros.
pub fn large_number(alloc: Global, digits: &str) -> Result<Option<u64>, AllocError>
    ensures { IfOk result (λ found. found ≡ large_word digits.now) }
{
    let Ok(n) = digits.parse::<u64>() else {
        return Ok(None);
    };
    let again = format!(in alloc; "{n}")?;
    if again.as_str() == digits {
        Ok(Some(n))
    } else {
        Ok(None)
    }
}
