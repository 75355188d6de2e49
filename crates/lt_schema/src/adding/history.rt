//! What a version's columns may not do against the older versions of the table: come back, change between struct and
//! primitive, or give a default again.
//!
//! Looking takes time linear in what is handed in, times what the table holds. The recursion goes down a kind, as deep
//! as it nests.

ghost use Rattle.std.specs.Prelude.{◌≡◌, map};
ghost use Rattle.lt_terms.specs.Kind.{is_struct};
ghost use Rattle.lt_tables.specs.Schema.{changed_kind, clash, clash_within, default_again, reused_column};
ghost use Rattle.lt_core.specs.View.{view_kind};
ghost use Rattle.lt_schema.specs.History.{clashes, was_dropped};
ghost use Rattle.lt_schema.specs.Tables.{view_registered};
ghost use Rattle.lt_schema.specs.View.{view_column, view_columns, view_fields};

use crate::lookup::{Field, column_of, fields_of, has_column, kind_of, latest};
use crate::table::Registered;
use crate::version::Column;
use lt_core::{FieldKinds, Kind};

/// The first column that an older version has and the latest has not.
pub fn reused(versions: &[Registered], columns: &[Column]) -> Option<u16>
    ensures { result ≡ reused_column (map view_registered versions.now) (view_columns columns.now) }
{
    for column in columns {
        if was_dropped(versions, column.number) {
            return Some(column.number);
        }
    }
    None
}

fn was_dropped(versions: &[Registered], number: u16) -> bool
    ensures { result ≡ was_dropped (map view_registered versions.now) number }
{
    column_of(latest(versions), number).is_none() && has_column(versions, number)
}

/// The first column that is a struct and was none, or the reverse, or has such a field.
pub fn changed(versions: &[Registered], columns: &[Column]) -> Option<u16>
    ensures { result ≡ changed_kind (map view_registered versions.now) (view_columns columns.now) }
{
    for column in columns {
        if clashes(versions, column) {
            return Some(column.number);
        }
    }
    None
}

fn clashes(versions: &[Registered], column: &Column) -> bool
    ensures { result ≡ clashes (map view_registered versions.now) (view_column column.now) }
{
    for registered in versions {
        if let Some(older) = column_of(registered.version.columns.as_slice(), column.number) {
            if clash(&column.kind, &older.kind) {
                return true;
            }
        }
    }
    false
}

#[cycle(clash)]
fn clash(kind: &Kind, older: &Kind) -> bool
    ensures { result ≡ clash (view_kind older.now) (view_kind kind.now) }
{
    match kind {
        Kind::Plain(_) | Kind::Enum(_) => is_struct(older),
        Kind::Struct(fields) => !is_struct(older) || clash_within(fields, fields_of(older)),
    }
}

#[cycle(clash)]
fn clash_within(fields: &FieldKinds, olders: &[Field]) -> bool
    ensures { result ≡ clash_within (view_fields olders.now) (view_fields fields.now) }
{
    for (number, _, kind) in fields.as_slice() {
        if let Some(older) = kind_of(olders, *number) {
            if clash(kind, older) {
                return true;
            }
        }
    }
    false
}

fn is_struct(kind: &Kind) -> bool
    ensures { result ≡ is_struct (view_kind kind.now) }
{
    matches!(kind, Kind::Struct(_))
}

/// The first column of the latest version that gives a default again.
pub fn given_again(versions: &[Registered], columns: &[Column]) -> Option<u16>
    ensures { result ≡ default_again (map view_registered versions.now) (view_columns columns.now) }
{
    for column in columns {
        if column.fallback.is_some() && column_of(latest(versions), column.number).is_some() {
            return Some(column.number);
        }
    }
    None
}
