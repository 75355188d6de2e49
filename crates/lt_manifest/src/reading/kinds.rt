//! Kinds. A struct's fields are read one level deeper, and the levels are counted down, so no bytes make the recursion deep.

ghost use Rattle.std.specs.Prelude.{◌≡◌, map};
ghost use Rattle.lt_core.specs.View.{view_kind};
ghost use Rattle.lt_codecs.specs.Codec as codec;
ghost use Rattle.lt_codecs.specs.Codec.{read_times};
ghost use Rattle.lt_schema.specs.View.{view_field};
ghost use Rattle.lt_manifest.specs.Reading.{Gives};
ghost use Rattle.lt_manifest.specs.Texts as texts;

use crate::reading::fault::Stop;
use crate::reading::fields::{i32_at, text_at};
use crate::reading::items::{Reads, items_at};
use lt_core::{FieldKinds, Kind, List, Names, Rank, Reader, Text};
use std::alloc::Global;

/// How deep kinds may nest.
pub const MAX_DEPTH: u8 = 4;

/// A kind that nests at most so deep.
#[cycle(kind)]
#[tactic(auto, unfolding(crate::specs::Texts::kind))]
pub fn kind_at(alloc: Global, depth: u8, from: &mut Reader<'_>) -> Result<Kind, Stop>
    ensures { Gives view_kind ((texts.kind depth).read from.old) result from.new }
{
    match from.u8()? {
        1 => Ok(Kind::Plain(Rank::Bool)),
        2 => Ok(Kind::Plain(Rank::Int32)),
        3 => Ok(Kind::Plain(Rank::Int64)),
        4 => Ok(Kind::Plain(Rank::Text)),
        5 => Ok(Kind::Plain(Rank::Bytes)),
        6 => Ok(Kind::Enum(names_at(alloc, from)?)),
        7 => Ok(Kind::Struct(fields_at(alloc, depth, from)?)),
        _ => Err(Stop::Unlike),
    }
}

/// What a struct holds that nests at most so deep.
#[cycle(kind)]
fn fields_at(alloc: Global, depth: u8, from: &mut Reader<'_>) -> Result<FieldKinds, Stop>
    ensures { Gives (map view_field) ((texts.kind_fields depth).read from.old) result from.new }
{
    if depth == 0 {
        return Err(Stop::Unlike);
    }
    deeper_at(alloc, depth - 1, from)
}

/// How many fields there are, and each of them, of kinds that nest at most so deep.
#[cycle(kind)]
fn deeper_at(alloc: Global, depth: u8, from: &mut Reader<'_>) -> Result<FieldKinds, Stop>
    ensures { Gives (map view_field) ((codec.counted codec.u16 (texts.kind_field (texts.kind depth))).read from.old)
        result from.new }
{
    let count = from.u16()?;
    counted_at(alloc, depth, count, from)
}

/// So many fields.
#[cycle(kind)]
fn counted_at(
    alloc: Global,
    depth: u8,
    count: u16,
    from: &mut Reader<'_>,
) -> Result<FieldKinds, Stop>
    ensures { Gives (map view_field) (read_times (texts.kind_field (texts.kind depth)).read count from.old) result
        from.new }
{
    let mut fields = List::new(alloc);
    for _ in 0..count {
        let field = field_at(alloc, depth, from)?;
        fields.push(field)?;
    }
    Ok(fields)
}

/// A field's number, name and kind.
#[cycle(kind)]
fn field_at(alloc: Global, depth: u8, from: &mut Reader<'_>) -> Result<(u16, Text, Kind), Stop>
    ensures { Gives view_field ((texts.kind_field (texts.kind depth)).read from.old) result from.new }
{
    let number = from.u16()?;
    let name = text_at(alloc, from)?;
    let kind = kind_at(alloc, depth, from)?;
    Ok((number, name, kind))
}

/// The names of an enum's numbers.
#[tactic(auto, unfolding(crate::specs::Texts::enum_names))]
fn names_at(alloc: Global, from: &mut Reader<'_>) -> Result<Names, Stop>
    ensures { Gives (λ names. names) (texts.enum_names.read from.old) result from.new }
{
    let count = from.u16()?;
    items_at(alloc, u32::from(count), from)
}

/// A number, and its name.
impl Reads for (i32, Text) {
    ghost use Rattle.std.specs.Prelude.{List as Listed, ℕ, ℤ};
    ghost use Rattle.lt_codecs.specs.Codec.{i32, ◌then◌};
    ghost use Rattle.lt_manifest.specs.Texts.{text16};

    ghost Seen = { ℤ × Listed ℕ };

    ghost view = { λ n. n };

    ghost reading = { (i32 then text16).read };

    fn read(alloc: Global, from: &mut Reader<'_>) -> Result<(i32, Text), Stop> {
        let number = i32_at(from)?;
        let name = text_at(alloc, from)?;
        Ok((number, name))
    }
}
