//! Why a pump stops, in words.

ghost use Rattle.std.specs.Prelude.{◌≡◌, string_bytes, IfOk};
ghost use Rattle.lt_words.specs.Reply.{bad_text, stop_text, unfair_text};
ghost use Rattle.lt_fair.specs.View.{view_unfair};
ghost use Rattle.lt_pump.specs.View.{view_stop};

use lt_core::Memory;
use lt_fair::Unfair;
use lt_pump::Stop;
use lt_terms::BadFrame;
use std::alloc::Global;

/// Why a pump stops.
pub fn stop_words(alloc: Global, stop: &Stop) -> Result<String, Memory>
    ensures { IfOk result (λ s. string_bytes s ≡ stop_text (view_stop stop.now)) }
{
    match *stop {
        Stop::Count => Ok(String::from_str(alloc, "Count")?),
        Stop::End => Ok(String::from_str(alloc, "End")?),
        Stop::Partial => Ok(String::from_str(alloc, "Partial")?),
        Stop::Malformed(bad) => frame_words(alloc, bad),
        Stop::Unfair(unfair) => unfair_words(alloc, unfair),
    }
}

/// What is wrong with a frame.
fn frame_words(alloc: Global, bad: BadFrame) -> Result<String, Memory>
    ensures { IfOk result (λ s. string_bytes s ≡ bad_text bad) }
{
    Ok(match bad {
        BadFrame::Kind(kind) => format!(in alloc; "Malformed Kind {kind}")?,
        BadFrame::Length(length) => format!(in alloc; "Malformed Length {length}")?,
        BadFrame::Body => format!(in alloc; "Malformed Body")?,
    })
}

/// The rule that a record breaks.
fn unfair_words(alloc: Global, unfair: Unfair) -> Result<String, Memory>
    ensures { IfOk result (λ s. string_bytes s ≡ unfair_text (view_unfair unfair)) }
{
    Ok(match unfair {
        Unfair::SecondHeader => format!(in alloc; "SecondHeader")?,
        Unfair::Range => format!(in alloc; "Range")?,
        Unfair::UnknownTable { number } => format!(in alloc; "UnknownTable {number}")?,
        Unfair::UnknownVersion { version } => format!(in alloc; "UnknownVersion {version}")?,
        Unfair::Shape => format!(in alloc; "Shape")?,
        Unfair::Late { checkpoint } => format!(in alloc; "Late {checkpoint}")?,
        Unfair::Order { last } => format!(in alloc; "Order {last}")?,
        Unfair::Backward { checkpoint } => format!(in alloc; "Backward {checkpoint}")?,
    })
}
