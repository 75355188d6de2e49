//! Whether a key's bytes are few enough, told without making them. It takes time linear in the key.

ghost use Rattle.std.specs.Prelude.{◌≡◌, ◌≤◌, ◌+◌, ◌-◌, flat_map, length, nat_le, SomeIff};
ghost use Rattle.lt_terms.specs.Key.{escaped, max_key, part_bytes};
ghost use Rattle.lt_core.specs.View.{view_part, view_parts};

use lt_core::{KeyPart, KeyParts, MAX_KEY};

/// How many bytes of a key its table's number takes.
const TABLE: usize = 4;

/// How many bytes of a key a number takes.
const NUMBER: usize = 8;

/// How many bytes of a key the end of a text takes.
const TEXT_END: usize = 2;

/// Whether a key of these parts has at most `MAX_KEY` bytes.
pub fn key_fits(parts: &KeyParts) -> bool
    ensures { result ≡ nat_le (4 + length (flat_map part_bytes (view_parts parts.now))) max_key }
{
    let mut left = MAX_KEY - TABLE;
    for part in parts.as_slice() {
        let Some(behind) = left_behind(left, part) else {
            return false;
        };
        left = behind;
    }
    true
}

/// What is left of so many bytes behind a part; none where it takes more.
fn left_behind(left: usize, part: &KeyPart) -> Option<usize>
    ensures { let taken = length (part_bytes (view_part part.now)) in SomeIff result (taken ≤ left) (left - taken) }
{
    match part {
        KeyPart::Int(_) => left.checked_sub(NUMBER),
        KeyPart::Text(text) => left_behind_text(left, text.as_slice()),
    }
}

/// What is left behind a text; none where it takes more.
fn left_behind_text(left: usize, text: &[u8]) -> Option<usize>
    ensures { let taken = length (escaped text.now) + 2 in SomeIff result (taken ≤ left) (left - taken) }
{
    let zeros = zeros_in(text);
    left.checked_sub(text.len())?
        .checked_sub(zeros)?
        .checked_sub(TEXT_END)
}

/// How many bytes 00 a text has, each of which takes two bytes of a key.
#[tactic(auto, using(crate::proofs::KeyLength::escaped_length))]
fn zeros_in(text: &[u8]) -> usize
    ensures { length text.now + result ≡ length (escaped text.now) }
{
    text.iter().filter(|byte| **byte == 0).count()
}
