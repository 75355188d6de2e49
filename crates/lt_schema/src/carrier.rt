//! Carriers: kinds that take what every version of a column brings.
//!
//! Making one takes time linear in the kinds that are joined, times the fields of the older one. The recursion goes down
//! a kind, which in a lawful version nests at most 4 deep.

ghost use Rattle.std.specs.Prelude.{◌≡◌, ◌++◌, ◌<◌, ◌≤◌, [], ◌∷◌, drop, length, map, option_map, IfOk, OnOk};
ghost use Rattle.std.specs.Option.{option_copied};
ghost use Rattle.lt_terms.specs.Kind.{greater_rank, kinds_of, rank_of, rank_number};
ghost use Rattle.lt_tables.specs.Schema.{bare, bare_fields, joined, joined_all, joined_fields, kinds_given, put_kind};
ghost use Rattle.lt_core.specs.View.{view_kind};
ghost use Rattle.lt_schema.specs.Carriers.{EndsBelow, falling_fields, joined_more};
ghost use Rattle.lt_schema.specs.Tables.{view_registered};
ghost use Rattle.lt_schema.specs.View.{view_fields};

use crate::lookup::{Field, column_of, fields_of, kind_of};
use crate::table::Registered;
use lt_core::{FieldKinds, Kind, List, ListItem, Memory, Rank};
use std::alloc::Global;

/// The carrier that versions give a column; none where none of them has it.
pub fn carrier_of(versions: &[Registered], number: u16) -> Result<Option<Kind>, Memory>
    ensures { IfOk result (λ carrier. option_map view_kind carrier ≡ joined_all
        (kinds_given (map view_registered versions.now) number)) }
{
    let mut carrier = None;
    for registered in versions {
        if let Some(column) = column_of(registered.version.columns.as_slice(), number) {
            carrier = Some(widened(carrier, &column.kind)?);
        }
    }
    Ok(carrier)
}

/// The carrier after one version more.
pub fn widened(carrier: Option<Kind>, kind: &Kind) -> Result<Kind, Memory>
    ensures { IfOk result (λ wide. view_kind wide ≡ joined_more (option_map view_kind carrier) (view_kind kind.now)) }
{
    match carrier {
        None => bare(kind),
        Some(older) => join(kind, &older),
    }
}

/// The kind with each enum as its rank.
#[cycle(bare)]
fn bare(kind: &Kind) -> Result<Kind, Memory>
    ensures { IfOk result (λ copy. view_kind copy ≡ bare (view_kind kind.now)) }
{
    match kind {
        Kind::Plain(rank) => Ok(Kind::Plain(*rank)),
        Kind::Enum(_) => Ok(Kind::Plain(Rank::Int32)),
        Kind::Struct(fields) => Ok(Kind::Struct(bare_fields(fields)?)),
    }
}

#[cycle(bare)]
#[tactic(auto, using(crate::proofs::Joins::bare_done))]
fn bare_fields(fields: &FieldKinds) -> Result<FieldKinds, Memory>
    ensures { IfOk result (λ copies. view_fields copies ≡ bare_fields (view_fields fields.now)) }
{
    let mut copies = List::new(fields.allocator());
    for (number, name, kind) in fields.as_slice() {
        copies.push((*number, name.copy()?, bare(kind)?))?;
    }
    Ok(copies)
}

/// The kind with each leaf at the greater rank, and with every field of either under its later name.
#[cycle(join)]
fn join(kind: &Kind, older: &Kind) -> Result<Kind, Memory>
    ensures { IfOk result (λ wide. view_kind wide ≡ joined (view_kind older.now) (view_kind kind.now)) }
{
    match kind {
        Kind::Plain(rank) => Ok(Kind::Plain(greater(rank_of(older), *rank))),
        Kind::Enum(_) => Ok(Kind::Plain(greater(rank_of(older), Rank::Int32))),
        Kind::Struct(fields) => Ok(Kind::Struct(join_fields(fields, fields_of(older))?)),
    }
}

/// The fields are taken from the last to the first, and stand in falling order meanwhile, so that a field that comes
/// before all others goes to the end.
#[cycle(join)]
fn join_fields(fields: &FieldKinds, olders: &[Field]) -> Result<FieldKinds, Memory>
    ensures { IfOk result (λ wide. view_fields wide ≡ joined_fields (view_fields olders.now) (view_fields fields.now)) }
{
    let mut falling = Field::copy_items(fields.allocator(), olders)?.into_vec();
    falling.reverse();
    let mut left = fields.len();
    while left > 0 {
        left -= 1;
        let (number, name, kind) = &fields.as_slice()[left];
        let wide = join_onto(kind, kind_of(olders, *number))?;
        put(&mut falling, (*number, name.copy()?, wide))?;
    }
    falling.reverse();
    Ok(List::from_vec(falling))
}

/// The kind joined with the older one of its field, if there is one.
#[cycle(join)]
fn join_onto(kind: &Kind, older: Option<&Kind>) -> Result<Kind, Memory>
    ensures { IfOk result (λ wide. view_kind wide ≡ joined_more (option_map view_kind (option_copied older.entry))
        (view_kind kind.now)) }
{
    match older {
        None => bare(kind),
        Some(older) => join(kind, older),
    }
}

/// Puts a field among others in falling order, in the place of the one with its number.
fn put(falling: &mut Vec<Field>, field: Field) -> Result<(), Memory>
    ensures { OnOk result (falling_fields falling.new.items ≡ put_kind field.0 field.1 (view_kind field.2)
        (falling_fields falling.old.items)) }
{
    let at = above(falling, field.0);
    if at > 0 && falling[at - 1].0 == field.0 {
        falling[at - 1] = field;
    } else {
        falling.insert(at, field)?;
    }
    Ok(())
}

/// How many fields stand before those at the end whose numbers are lower.
fn above(falling: &[Field], number: u16) -> usize
    ensures { EndsBelow falling.now number result }
{
    let mut at = falling.len();
    while at > 0 && falling[at - 1].0 < number {
        at -= 1;
    }
    at
}

fn rank_of(kind: &Kind) -> Rank
    ensures { result ≡ rank_of (view_kind kind.now) }
{
    match kind {
        Kind::Plain(rank) => *rank,
        Kind::Enum(_) => Rank::Int32,
        Kind::Struct(_) => Rank::Bool,
    }
}

fn greater(one: Rank, other: Rank) -> Rank
    ensures { result ≡ greater_rank one other }
{
    if place(one) < place(other) {
        other
    } else {
        one
    }
}

/// The place of a rank in the chain.
fn place(rank: Rank) -> u8
    ensures { result ≡ rank_number rank }
{
    match rank {
        Rank::Bool => 1,
        Rank::Int32 => 2,
        Rank::Int64 => 3,
        Rank::Text => 4,
        Rank::Bytes => 5,
    }
}
