//! The lines of compactions, at once and by a job.

ghost use Rattle.std.specs.Prelude.{◌≡◌, ◌++◌, codes, option_map, IfOk};
ghost use Rattle.lt_words.specs.Script.{id_words, large_word, mode_words, words};
ghost use Rattle.lt_words.specs.SchemaText.{all_of};
ghost use Rattle.lt_terms.specs.Value.{rises_strictly};
ghost use Rattle.lt_command.specs.View.{view_command, view_mode};
ghost use Rattle.lt_script.specs.Lines.{NoSpace, command_read, part_and_mode, view_part_mode};

use crate::words::{count, first_word, large_number, small_number};
use lt_command::{Command, Mode};
use lt_core::{Ids, List, Memory};
use std::alloc::Global;

/// How many deltas a minor compaction names, at least and at most.
const LEAST_IDS: usize = 2;

const MOST_IDS: usize = 64;

/// `compact P MODE`, by what stands behind the first word.
#[tactic(auto, using(crate::proofs::JobLaws::compact_read))]
pub fn read_compact(alloc: Global, rest: &str) -> Result<Option<Command>, Memory>
    ensures { IfOk result (λ found. option_map view_command found ≡ command_read (codes "compact " ++ rest.now)) }
{
    let Some((part, mode)) = read_part_mode(alloc, rest)? else {
        return Ok(None);
    };
    Ok(Some(Command::Compact { part, mode }))
}

/// `job begin P MODE`, `job step N`, `job finish` or `job drop`, by what stands behind the first word.
pub fn read_job(alloc: Global, rest: &str) -> Result<Option<Command>, Memory>
    ensures { IfOk result (λ found. option_map view_command found ≡ command_read (codes "job " ++ rest.now)) }
{
    let Some((verb, rest)) = first_word(rest) else {
        return Ok(one_verb(rest));
    };
    match verb {
        "begin" => read_begin(alloc, rest),
        "step" => read_step(alloc, rest),
        _ => Ok(None),
    }
}

/// `job` and one word.
fn one_verb(word: &str) -> Option<Command>
    requires alone { NoSpace word.now }
    ensures { option_map view_command result ≡ command_read (codes "job " ++ word.now) }
{
    match word {
        "finish" => Some(Command::JobFinish),
        "drop" => Some(Command::JobDrop),
        _ => None,
    }
}

/// `job begin P MODE`, by what stands behind the second word.
#[tactic(auto, using(crate::proofs::JobLaws::begin_read))]
fn read_begin(alloc: Global, rest: &str) -> Result<Option<Command>, Memory>
    ensures { IfOk result (λ found. option_map view_command found ≡ command_read (codes "job begin " ++ rest.now)) }
{
    let Some((part, mode)) = read_part_mode(alloc, rest)? else {
        return Ok(None);
    };
    Ok(Some(Command::JobBegin { part, mode }))
}

/// `job step N`, by what stands behind the second word.
#[tactic(auto, using(crate::proofs::JobLaws::step_read))]
fn read_step(alloc: Global, rest: &str) -> Result<Option<Command>, Memory>
    ensures { IfOk result (λ found. option_map view_command found ≡ command_read (codes "job step " ++ rest.now)) }
{
    let Some(keys) = count(alloc, rest)? else {
        return Ok(None);
    };
    Ok(Some(Command::JobStep { keys }))
}

/// `P MODE`.
fn read_part_mode(alloc: Global, text: &str) -> Result<Option<(u32, Mode)>, Memory>
    ensures { IfOk result (λ found. option_map view_part_mode found ≡ part_and_mode (words text.now)) }
{
    let Some((part, mode)) = first_word(text) else {
        return Ok(None);
    };
    let Some(part) = small_number(alloc, part)? else {
        return Ok(None);
    };
    let Some(mode) = read_mode(alloc, mode)? else {
        return Ok(None);
    };
    Ok(Some((part, mode)))
}

/// `minor ID ID ..` or `major`.
fn read_mode(alloc: Global, text: &str) -> Result<Option<Mode>, Memory>
    ensures { IfOk result (λ found. option_map view_mode found ≡ mode_words (words text.now)) }
{
    let Some((word, rest)) = first_word(text) else {
        return Ok(one_mode(text));
    };
    match word {
        "minor" => read_minor(alloc, rest),
        _ => Ok(None),
    }
}

/// `minor ID ID ..`, by what stands behind the first word.
fn read_minor(alloc: Global, rest: &str) -> Result<Option<Mode>, Memory>
    ensures { IfOk result (λ found. option_map view_mode found ≡ mode_words (words (codes "minor " ++ rest.now))) }
{
    let Some(ids) = read_ids(alloc, rest)? else {
        return Ok(None);
    };
    Ok(Some(Mode::Minor(ids)))
}

/// A mode of one word.
fn one_mode(word: &str) -> Option<Mode>
    requires alone { NoSpace word.now }
    ensures { option_map view_mode result ≡ mode_words (words word.now) }
{
    match word {
        "major" => Some(Mode::Major),
        _ => None,
    }
}

/// 2 to 64 ids, which rise strictly.
fn read_ids(alloc: Global, text: &str) -> Result<Option<Ids>, Memory>
    ensures { IfOk result (λ found. found ≡ id_words (words text.now)) }
{
    let Some(ids) = read_numbers(alloc, text)? else {
        return Ok(None);
    };
    if LEAST_IDS <= ids.len() && ids.len() <= MOST_IDS && rises_strictly(ids.as_slice()) {
        Ok(Some(ids))
    } else {
        Ok(None)
    }
}

/// Numbers up to 2^64 - 1, which single spaces part.
fn read_numbers(alloc: Global, text: &str) -> Result<Option<Ids>, Memory>
    ensures { IfOk result (λ found. found ≡ all_of large_word (words text.now)) }
{
    let mut numbers = List::new(alloc);
    let mut rest = text;
    'words: while let Some((word, behind)) = first_word(rest) {
        let Some(number) = large_number(alloc, word)? else {
            return Ok(None);
        };
        numbers.push(number)?;
        rest = behind;
    }
    let Some(last) = large_number(alloc, rest)? else {
        return Ok(None);
    };
    numbers.push(last)?;
    Ok(Some(numbers))
}

/// Each is above the one before it.
fn rises_strictly(numbers: &[u64]) -> bool
    ensures { result ≡ rises_strictly numbers.now }
{
    let [first, rest @ ..] = numbers else {
        return true;
    };
    let mut low = *first;
    for number in rest {
        if *number <= low {
            return false;
        }
        low = *number;
    }
    true
}
