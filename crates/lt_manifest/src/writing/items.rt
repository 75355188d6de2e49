//! Items, alone and behind their count.

ghost use Rattle.std.specs.Prelude.{◌≡◌, ◌++◌, OnOk, flat_map, length, map};
ghost use Rattle.std.specs.List.{AllByRecursion};
ghost use Rattle.lt_codecs.specs.Codec as codec;
ghost use Rattle.lt_manifest.specs.Writing.{listed};

use lt_core::{Memory, Writer};
use std::alloc::Global;

/// What is written.
pub trait Writes {
    ghost use Rattle.std.specs.Prelude.{List as Listed, ℕ};

    // What it stands for.
    ghost Seen: { Type 0 };

    ghost view: { Self → Seen };

    // Its spelling, and where it has one.
    ghost spelling: { Seen → Listed ℕ };

    ghost Fits: { Seen → Type 0 };

    fn put(&self, alloc: Global, to: &mut Writer) -> Result<(), Memory>
        requires { Fits (view self.now) }
        ensures { OnOk result (to.new ≡ to.old ++ spelling (view self.now)) };
}

/// One behind the other.
pub fn put_items<T: Writes>(alloc: Global, to: &mut Writer, items: &[T]) -> Result<(), Memory>
    requires { AllByRecursion T.Fits (map T.view items.now) }
    ensures { OnOk result (to.new ≡ to.old ++ flat_map T.spelling (map T.view items.now)) }
{
    for item in items {
        item.put(alloc, to)?;
    }
    Ok(())
}

/// How many there are, in four bytes, and each of them.
pub fn put_list<T: Writes>(alloc: Global, to: &mut Writer, items: &[T]) -> Result<(), Memory>
    requires few { codec.u32.Lawful (length (map T.view items.now)) }
    requires fit { AllByRecursion T.Fits (map T.view items.now) }
    ensures { OnOk result (to.new ≡ to.old ++ listed codec.u32 T.spelling (map T.view items.now)) }
{
    put_count32(to, items)?;
    put_items(alloc, to, items)?;
    Ok(())
}

/// How many there are, in two bytes, and each of them.
pub fn put_list16<T: Writes>(alloc: Global, to: &mut Writer, items: &[T]) -> Result<(), Memory>
    requires few { codec.u16.Lawful (length (map T.view items.now)) }
    requires fit { AllByRecursion T.Fits (map T.view items.now) }
    ensures { OnOk result (to.new ≡ to.old ++ listed codec.u16 T.spelling (map T.view items.now)) }
{
    put_count16(to, items)?;
    put_items(alloc, to, items)?;
    Ok(())
}

/// How many there are, in one byte, and each of them.
pub fn put_list8<T: Writes>(alloc: Global, to: &mut Writer, items: &[T]) -> Result<(), Memory>
    requires few { codec.byte.Lawful (length (map T.view items.now)) }
    requires fit { AllByRecursion T.Fits (map T.view items.now) }
    ensures { OnOk result (to.new ≡ to.old ++ listed codec.byte T.spelling (map T.view items.now)) }
{
    put_count8(to, items)?;
    put_items(alloc, to, items)?;
    Ok(())
}

fn put_count32<T: Writes>(to: &mut Writer, items: &[T]) -> Result<(), Memory>
    requires { codec.u32.Lawful (length (map T.view items.now)) }
    ensures { OnOk result (to.new ≡ to.old ++ codec.u32.spell (length (map T.view items.now))) }
{
    to.u32(items.len() as u32)
}

fn put_count16<T: Writes>(to: &mut Writer, items: &[T]) -> Result<(), Memory>
    requires { codec.u16.Lawful (length (map T.view items.now)) }
    ensures { OnOk result (to.new ≡ to.old ++ codec.u16.spell (length (map T.view items.now))) }
{
    to.u16(items.len() as u16)
}

fn put_count8<T: Writes>(to: &mut Writer, items: &[T]) -> Result<(), Memory>
    requires { codec.byte.Lawful (length (map T.view items.now)) }
    ensures { OnOk result (to.new ≡ to.old ++ codec.byte.spell (length (map T.view items.now))) }
{
    to.u8(items.len() as u8)?;
    Ok(())
}
