//! Items that have a codec, and lists of them. No list is allocated before its items were read, so a count on the disk takes no
//! memory by itself. Reading and writing take time linear in the bytes.

ghost use Rattle.std.specs.Prelude.{◌≡◌, ◌++◌, map, OnOk};
ghost use Rattle.std.specs.List.{flat_map, AllByRecursion};
ghost use Rattle.lt_codecs.specs.Codec.{Codec, read_times};
ghost use Rattle.lt_delta.specs.Reading.{Gives};

use crate::stop::Stop;
use lt_core::{List, Memory, Reader, Writer};
use std::alloc::Global;

/// An item of the format.
pub trait Coded: Drop {
    /// What it stands for in the definitions.
    ghost Seen: { Type 0 };

    ghost view: { Self → Seen };

    ghost codec: { Codec Seen };

    fn read(alloc: Global, from: &mut Reader<'_>) -> Result<Self, Stop>
        ensures { Gives view (codec.read from.old) result from.new };

    fn put(&self, to: &mut Writer) -> Result<(), Memory>
        requires { codec.Lawful (view self.now) }
        ensures { OnOk result (to.new ≡ to.old ++ codec.spell (view self.now)) };
}

/// So many items.
pub fn counted<T: Coded>(alloc: Global, count: u64, from: &mut Reader<'_>) -> Result<List<T>, Stop>
    ensures { Gives (map T.view) (read_times T.codec.read count from.old) result from.new }
{
    let mut items = List::new(alloc);
    for _ in 0..count {
        let item = T::read(alloc, from)?;
        items.push(item)?;
    }
    Ok(items)
}

/// Each item in turn.
pub fn put_all<T: Coded>(to: &mut Writer, items: &[T]) -> Result<(), Memory>
    requires { AllByRecursion T.codec.Lawful (map T.view items.now) }
    ensures { OnOk result (to.new ≡ to.old ++ flat_map T.codec.spell (map T.view items.now)) }
{
    for item in items {
        item.put(to)?;
    }
    Ok(())
}
