//! The lines of a partition's deltas.

ghost use Rattle.std.specs.Prelude.{◌≡◌, ◌++◌, flat_map, string_bytes, IfOk, OnOk};
ghost use Rattle.lt_words.specs.Reply.{delta_line, deltas_told, ended};
ghost use Rattle.lt_reply.specs.View.{Prints, view_delta, view_deltas};

use crate::reply::{DeltaLine, DeltaLines};
use lt_core::Memory;
use std::alloc::Global;

/// A line for each delta, and how many there are.
pub fn deltas_words(alloc: Global, lines: &DeltaLines) -> Result<String, Memory>
    ensures { IfOk result (λ s. Prints (string_bytes s) (deltas_told (view_deltas lines.now))) }
{
    let text = deltas_text(alloc, lines.as_slice())?;
    let count = lines.len();
    Ok(format!(in alloc; "{text}ok deltas {count}")?)
}

/// The lines of the deltas.
fn deltas_text(alloc: Global, deltas: &[DeltaLine]) -> Result<String, Memory>
    ensures { IfOk result (λ s. string_bytes s ≡ flat_map delta_line (view_deltas deltas.now)) }
{
    let mut text = String::new(alloc);
    for delta in deltas {
        put_delta(alloc, &mut text, delta)?;
    }
    Ok(text)
}

/// Appends a delta's line.
fn put_delta(alloc: Global, text: &mut String, line: &DeltaLine) -> Result<(), Memory>
    ensures { OnOk result (string_bytes text.new ≡ string_bytes text.old ++ delta_line (view_delta line.now)) }
{
    let words = delta_words(alloc, line)?;
    text.push_str(words.as_str())?;
    text.push('\n')?;
    Ok(())
}

fn delta_words(alloc: Global, line: &DeltaLine) -> Result<String, Memory>
    ensures { IfOk result (λ words. ended (string_bytes words) ≡ delta_line (view_delta line.now)) }
{
    let DeltaLine {
        id,
        bundles,
        versions,
        least,
        greatest,
    } = line;
    Ok(format!(in alloc;
        "delta {id} bundles {bundles} versions {versions} least {least} greatest {greatest}"
    )?)
}
