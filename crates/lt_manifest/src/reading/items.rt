//! Items behind their count. Reading them takes time linear in the bytes that are taken, and nothing is set aside for the
//! count: a list grows by what was read.

ghost use Rattle.std.specs.Prelude.{◌≡◌, map};
ghost use Rattle.lt_codecs.specs.Codec.{read_times};
ghost use Rattle.lt_manifest.specs.Reading.{Gives};

use crate::reading::fault::Stop;
use lt_core::{List, Reader};
use std::alloc::Global;

/// What is read off the front of bytes.
pub trait Reads: Drop {
    ghost use Rattle.std.specs.Prelude.{List as Listed, Option, ℕ};

    // What it stands for.
    ghost Seen: { Type 0 };

    ghost view: { Self → Seen };

    // What reading gives, and the bytes behind it.
    ghost reading: { Listed ℕ → Option (Seen × Listed ℕ) };

    fn read(alloc: Global, from: &mut Reader<'_>) -> Result<Self, Stop>
        ensures { Gives view (reading from.old) result from.new };
}

/// So many items.
pub fn items_at<T: Reads>(alloc: Global, count: u32, from: &mut Reader<'_>) -> Result<List<T>, Stop>
    ensures { Gives (map T.view) (read_times T.reading count from.old) result from.new }
{
    let mut items = List::new(alloc);
    for _ in 0..count {
        let item = T::read(alloc, from)?;
        items.push(item)?;
    }
    Ok(items)
}
