//! What a line says: nothing, a command, or something that is none.

ghost use Rattle.std.specs.Prelude.{◌≡◌, IfOk};
ghost use Rattle.lt_words.specs.Lines.{line_read};
ghost use Rattle.lt_script.specs.Lines.{view_line};

use crate::built::is_built;
use crate::command::read_command;
use lt_command::Command;
use lt_core::Memory;
use std::alloc::Global;

/// The longest line, in bytes without its end.
pub const MAX_LINE: usize = 1048576;

const HASH: u8 = b'#';

/// What a line says.
#[derive(Debug, Drop)]
pub enum Line {
    /// Nothing: it is empty or a comment.
    Skipped,
    /// No command, or one that is not built.
    Bad,
    Command(Command),
}

/// What a line says, without the byte that ends it.
pub fn read_line(alloc: Global, line: &[u8]) -> Result<Line, Memory>
    ensures { IfOk result (λ l. view_line l ≡ line_read line.now) }
{
    if line.len() > MAX_LINE {
        return Ok(Line::Bad);
    }
    let Ok(text) = str::from_utf8(line) else {
        return Ok(Line::Bad);
    };
    let Some(first) = line.first() else {
        return Ok(Line::Skipped);
    };
    if *first == HASH {
        return Ok(Line::Skipped);
    }
    let Some(command) = read_command(alloc, text)? else {
        return Ok(Line::Bad);
    };
    if is_built(&command) {
        Ok(Line::Command(command))
    } else {
        Ok(Line::Bad)
    }
}
