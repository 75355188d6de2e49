//! The lines of replies and refusals.

ghost use Rattle.std.specs.Prelude.{◌≡◌, string_bytes, IfOk};
ghost use Rattle.lt_words.specs.Reply.{ended, refusal_text as refusal_line, reply_text as reply_line};
ghost use Rattle.lt_reply.specs.View.{IsSpoken, view_refusal, view_reply};

mod cause;
mod deltas;
mod refusals;
mod replies;
mod status;
mod stop;

use crate::refusal::Refusal;
use crate::reply::Reply;
use crate::text::refusals::refusal_words;
use crate::text::replies::reply_words;
use lt_core::{Blob, List, Memory};
use std::alloc::Global;

/// The lines of a reply; of a scan's or a page's, without the rows before them.
pub fn reply_text(alloc: Global, reply: &Reply) -> Result<Blob, Memory>
    ensures { IfOk result (λ text. text ≡ reply_line (view_reply reply.now)) }
{
    line_of(reply_words(alloc, reply)?)
}

/// The line of a refusal.
#[tactic(auto, unfolding(lt_words::specs::Reply::refusal_text))]
pub fn refusal_text(alloc: Global, refusal: &Refusal) -> Result<Blob, Memory>
    requires { IsSpoken refusal.now }
    ensures { IfOk result (λ text. text ≡ refusal_line (view_refusal refusal.now)) }
{
    line_of(refusal_words(alloc, refusal)?)
}

/// The line of some words.
fn line_of(words: String) -> Result<Blob, Memory>
    ensures { IfOk result (λ line. line ≡ ended (string_bytes words)) }
{
    let mut line = words;
    line.push('\n')?;
    Ok(List::from_vec(line.into_bytes()))
}
