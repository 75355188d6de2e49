//! Look-ups among columns, fields and versions. Each is a plain scan: a lawful version has at most 256 columns, and a table 256 versions.

ghost use Rattle.std.specs.Prelude.{◌≡◌, ◌&&◌, map, option_map};
ghost use Rattle.std.specs.List.{list_any};
ghost use Rattle.std.specs.Option.{option_copied};
ghost use Rattle.lt_terms.specs.Kind.{kind_at, kinds_of};
ghost use Rattle.lt_tables.specs.Schema.{column_numbered, has_column, latest};
ghost use Rattle.lt_core.specs.View.{view_kind};
ghost use Rattle.lt_schema.specs.Lookups.{declared};
ghost use Rattle.lt_schema.specs.Tables.{view_registered};
ghost use Rattle.lt_schema.specs.View.{view_column, view_columns, view_fields};

use crate::table::Registered;
use crate::version::Column;
use lt_core::{Kind, Text};

/// The column with a number.
pub fn column_of(columns: &[Column], number: u16) -> Option<&Column>
    ensures { option_map view_column (option_copied result) ≡ column_numbered (view_columns columns.now) number }
{
    for column in columns {
        if column.number == number {
            return Some(column);
        }
    }
    None
}

/// A field of a struct: number, name and kind.
pub type Field = (u16, Text, Kind);

/// The kind of the field with a number.
pub fn kind_of(fields: &[Field], number: u16) -> Option<&Kind>
    ensures { option_map view_kind (option_copied result) ≡ kind_at number (view_fields fields.now) }
{
    for (named, _, kind) in fields {
        if number == *named {
            return Some(kind);
        }
    }
    None
}

/// The fields of a struct, none of another kind.
pub fn fields_of(kind: &Kind) -> &[Field]
    ensures { view_fields result.now ≡ kinds_of (view_kind kind.now) }
{
    match kind {
        Kind::Plain(_) | Kind::Enum(_) => &[],
        Kind::Struct(fields) => fields.as_slice(),
    }
}

/// The column as it was first declared.
pub fn first_declared(versions: &[Registered], number: u16) -> Option<&Column>
    ensures { option_map view_column (option_copied result) ≡ declared (map view_registered versions.now) number }
{
    for registered in versions {
        let found = column_of(registered.version.columns.as_slice(), number);
        if found.is_some() {
            return found;
        }
    }
    None
}

/// Whether some version has the column.
pub fn has_column(versions: &[Registered], number: u16) -> bool
    ensures { result ≡ list_any (has_column number) (map view_registered versions.now) }
{
    for registered in versions {
        if column_of(registered.version.columns.as_slice(), number).is_some() {
            return true;
        }
    }
    false
}

/// Whether some live version has the column.
pub fn has_live_column(versions: &[Registered], number: u16) -> bool
    ensures { result ≡ list_any (λ r. r.live && has_column number r) (map view_registered versions.now) }
{
    for registered in versions {
        if registered.live && column_of(registered.version.columns.as_slice(), number).is_some() {
            return true;
        }
    }
    false
}

/// The columns of the last version, none where there is no version.
pub fn latest(versions: &[Registered]) -> &[Column]
    ensures { view_columns result.now ≡ latest (map view_registered versions.now) }
{
    match versions.last() {
        None => &[],
        Some(registered) => registered.version.columns.as_slice(),
    }
}
