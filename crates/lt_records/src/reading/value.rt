//! Values, and the numbers and values that a struct or a change holds.
//!
//! A struct's fields are read one level deeper, and the levels are counted down, so no bytes make the recursion deep.
//! Reading takes time linear in the bytes that are taken, and each text is copied once.

ghost use Rattle.std.specs.Prelude.{◌≡◌, map};
ghost use Rattle.lt_terms.specs.Value.{is_number, rises_above};
ghost use Rattle.lt_core.specs.View.{view_setting, view_settings, view_value};
ghost use Rattle.lt_codecs.specs.Codec.{◌then◌, read_times, u16, where_true};
ghost use Rattle.lt_codecs.specs.LogCodec as log;
ghost use Rattle.lt_records.specs.Reading.{Gives};

use crate::reading::fault::Stop;
use crate::reading::field::{blob_at, flag_at, i64_at, text_at};
use lt_core::{Fields, List, Reader, Settings, Value};
use std::alloc::Global;

/// How deep the values of logs may nest.
pub const MAX_DEPTH: u8 = 4;

/// A value that nests at most so deep.
#[cycle(value)]
#[tactic(auto, unfolding(lt_codecs::specs::LogCodec::value))]
pub fn value_at(alloc: Global, depth: u8, from: &mut Reader<'_>) -> Result<Value, Stop>
    ensures { Gives view_value ((log.value depth).read from.old) result from.new }
{
    match from.u8()? {
        0 => Ok(Value::Null),
        1 => Ok(Value::Bool(flag_at(from)?)),
        2 => Ok(Value::Int(i64_at(from)?)),
        3 => Ok(Value::Text(text_at(alloc, from)?)),
        4 => Ok(Value::Bytes(blob_at(alloc, from)?)),
        5 => Ok(Value::Struct(fields_at(alloc, depth, from)?)),
        _ => Err(Stop::Unlike),
    }
}

/// What a struct holds that nests at most so deep.
#[cycle(value)]
fn fields_at(alloc: Global, depth: u8, from: &mut Reader<'_>) -> Result<Fields, Stop>
    ensures { Gives view_settings ((log.fields depth).read from.old) result from.new }
{
    if depth == 0 {
        return Err(Stop::Unlike);
    }
    settings_at(alloc, depth - 1, from)
}

/// Numbers that rise strictly, and values that nest at most so deep.
#[cycle(value)]
pub fn settings_at(alloc: Global, depth: u8, from: &mut Reader<'_>) -> Result<Settings, Stop>
    ensures { Gives view_settings ((log.settings_of (log.value depth)).read from.old) result from.new }
{
    let count = from.u16()?;
    let settings = counted_at(alloc, depth, count, from)?;
    if rise(&settings) {
        Ok(settings)
    } else {
        Err(Stop::Unlike)
    }
}

/// So many numbers and values.
#[cycle(value)]
fn counted_at(alloc: Global, depth: u8, count: u16, from: &mut Reader<'_>) -> Result<Settings, Stop>
    ensures { Gives view_settings (read_times (where_true is_number u16 then log.value depth).read count from.old)
        result from.new }
{
    let mut settings = List::new(alloc);
    for _ in 0..count {
        let setting = setting_at(alloc, depth, from)?;
        settings.push(setting)?;
    }
    Ok(settings)
}

/// A number and a value.
#[cycle(value)]
fn setting_at(alloc: Global, depth: u8, from: &mut Reader<'_>) -> Result<(u16, Value), Stop>
    ensures { Gives view_setting ((where_true is_number u16 then log.value depth).read from.old) result from.new }
{
    let number = number_at(from)?;
    let value = value_at(alloc, depth, from)?;
    Ok((number, value))
}

/// The number of a column or field.
fn number_at(from: &mut Reader<'_>) -> Result<u16, Stop>
    ensures { Gives (λ n. n) ((where_true is_number u16).read from.old) result from.new }
{
    let number = from.u16()?;
    if number == 0 {
        return Err(Stop::Unlike);
    }
    Ok(number)
}

/// Whether the numbers rise strictly from 1 on.
fn rise(settings: &Settings) -> bool
    ensures { result ≡ rises_above 0 (map (λ s. s.0) (view_settings settings.now)) }
{
    let mut low = 0;
    for (number, _) in settings.as_slice() {
        if *number <= low {
            return false;
        }
        low = *number;
    }
    true
}
