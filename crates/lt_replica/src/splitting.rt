//! The command that splits a partition.
//!
//! It takes time by the partitions, as many for each stream, and by what the partition holds.

ghost use Rattle.std.specs.Prelude.{◌≡◌, ◌+◌, ◌-◌, ◌<◌, ◌≤◌, IfErr, IfNone, IfOk, IfSome, None, OnOk, codes, length, map, option_map};
ghost use Rattle.std.specs.Vec.{vec_capacity};
ghost use Rattle.lt_core.specs.View.{view_part, view_parts};
ghost use Rattle.lt_tables.specs.Pump.{part_of};
ghost use Rattle.lt_machine.specs.Machine.{part_misfit};
ghost use Rattle.lt_tables.specs.Query.{bound, literal_part, parts_of};
ghost use Rattle.lt_words.specs.Reply.{wrong_literal};
ghost use Rattle.lt_tables.specs.Schema.{key_kinds, table_named};
ghost use Rattle.lt_tables.specs.Query.{do_split};
ghost use Rattle.lt_parts.specs.Parts.{IsSplit, ranges};
ghost use Rattle.lt_pending.specs.Held.{held_in};
ghost use Rattle.lt_pred.specs.View.{view_literal, view_literals};
ghost use Rattle.lt_schema.specs.View.{view_key, view_version};
ghost use Rattle.lt_replica.specs.Splitting.{HasSplit, IsOfTable, IsSplitKey, key_fault, named_key_fault, parted_at, parts_fault, upper_at};
ghost use Rattle.lt_replica.specs.Catalogues.{CommitsSplit, KeepsOthers};
ghost use Rattle.lt_replica.specs.Committing.{MayWrite, Tried};
ghost use Rattle.lt_replica.specs.Settling.{AreSettled};
ghost use Rattle.lt_pump.specs.Pumps.{streams_of};
ghost use Rattle.lt_replica.specs.Steps.{Refuses};

use crate::committing::commit;
use crate::ranges::settle;
use crate::replica::Replica;
use lt_core::{
    KeyBytes, KeyKind, KeyPart, KeyParts, MAX_KEY, Memory, Text, TextRefusal, encode_prefix,
};
use lt_disk::Disk;
use lt_parts::{MAX_PARTS, PartMap, SplitRefusal};
use lt_pending::Changes;
use lt_pred::{Literal, Literals};
use lt_reply::{Refusal, Reply};
use lt_schema::{Catalogue, KeyColumns, SchemaVersion};
use std::alloc::Global;

impl Replica {
    /// Splits the partition of a key there.
    pub(crate) fn split<D: Disk>(
        &mut self,
        table: &Text,
        key: &Literals,
        disk: &mut D,
    ) -> Result<Reply, Refusal>
        ensures { Tried (D.state disk.old) (D.state disk.new) self.old self.new
            (do_split table.now (view_literals key.now)) result }
    {
        self.test_writable()?;
        let key = key_of(self.allocator(), &self.catalogue, table, key)?;
        let (mut map, upper) = split_map(&self.map, &key)?;
        settle(&mut map, &self.pump);
        self.commit_split(map, upper, &key, disk)?;
        Ok(Reply::Split {
            upper: upper as u32,
        })
    }

    /// Commits partitions of which one was split, and parts what that held. A refusal leaves all as it was.
    fn commit_split<D: Disk>(
        &mut self,
        map: PartMap,
        upper: usize,
        key: &KeyBytes,
        disk: &mut D,
    ) -> Result<(), Refusal>
        requires may { MayWrite self.old }
        requires split { HasSplit self.old.map key.now map upper }
        requires settled { AreSettled map (streams_of self.old.pump) }
        ensures tried { CommitsSplit (D.state disk.old) (D.state disk.new) self.old self.new map (upper - 1) key.now
            result }
        ensures rest { KeepsOthers self.old self.new }
    {
        let alloc = self.allocator();
        let half = upper_half(&mut self.parts, upper - 1, key)?;
        let next = self.manifest_with(self.catalogue.copy()?, &map)?;
        // What a look-up says of the catalogue: that lawful additions made it.
        let _tables = next.catalogue.tables();
        commit(&mut self.store, disk, alloc, &next)?;
        install_halves(&mut self.parts, upper - 1, key, half);
        self.map = map;
        Ok(())
    }
}

/// The partitions with one more, and the number of the upper half.
fn split_map(map: &PartMap, key: &KeyBytes) -> Result<(PartMap, usize), Refusal>
    ensures split { IfOk result (λ split. IsSplit map.now key.now split.0 split.1) }
    ensures part { IfOk result (λ split. split.1 ≡ part_of (ranges map.now) key.now + 1) }
    ensures within { IfOk result (λ split. (1 ≤ split.1) × (split.1 ≤ 1024)) }
    ensures free { OnOk result (parts_fault map.now key.now ≡ None) }
    ensures refused { IfErr result (Refuses (parts_fault map.now key.now)) }
{
    prove!(map.len() <= MAX_PARTS);
    let mut copy = map.copy()?;
    match copy.split(key.copy()?) {
        Ok(upper) => Ok((copy, upper)),
        Err(SplitRefusal::AtEdge { part }) => Err(Refusal::AtEdge { part: part as u32 }),
        Err(SplitRefusal::TooManyParts) => Err(Refusal::TooManyParts),
        Err(SplitRefusal::Memory) => Err(Refusal::Memory),
    }
}

/// A copy of what a partition holds from a key on, and room for one partition more. An `Err` changes nothing.
#[tactic(auto, using(crate::proofs::SplitLaws::upper_held))]
fn upper_half(parts: &mut Vec<Changes>, part: usize, key: &KeyBytes) -> Result<Changes, Memory>
    requires { part < length parts.old.items }
    ensures held { parts.new.items ≡ parts.old.items }
    ensures room { OnOk result (length parts.new.items < vec_capacity parts.new) }
    ensures upper { IfOk result (λ upper. held_in upper ≡ upper_at part key.now (map held_in parts.old.items)) }
{
    parts.reserve(1)?;
    parts[part].upper_of(key)
}

/// Parts what a partition holds at a key: its upper half is put behind it. It takes no memory.
#[tactic(auto, using(crate::proofs::SplitLaws::held_split))]
fn install_halves(parts: &mut Vec<Changes>, part: usize, key: &KeyBytes, upper: Changes)
    requires part { part < length parts.old.items }
    requires room { length parts.old.items < vec_capacity parts.old }
    requires upper { held_in upper ≡ upper_at part key.now (map held_in parts.old.items) }
    ensures { map held_in parts.new.items ≡ parted_at part key.now (map held_in parts.old.items) }
{
    match parts.insert(part + 1, upper) {
        Ok(()) => parts[part].keep_below(key),
        Err(_) => unreachable!(),
    }
}

/// The bytes of the key that literals spell for the table with a name.
#[tactic(auto, using(crate::proofs::KeyOfLaws::fault_unknown, crate::proofs::KeyOfLaws::version_fault, crate::proofs::KeyOfLaws::version_key, crate::proofs::KeyOfLaws::refuses_by))]
fn key_of(
    alloc: Global,
    catalogue: &Catalogue,
    table: &Text,
    literals: &Literals,
) -> Result<KeyBytes, Refusal>
    ensures key { IfOk result (IsSplitKey catalogue.now table.now (view_literals literals.now)) }
    ensures refused { IfErr result (Refuses (named_key_fault catalogue.now table.now (view_literals literals.now))) }
{
    match first_version(catalogue, table) {
        None => Err(Refusal::UnknownTable {
            name: table.copy()?,
        }),
        Some(version) => key_in(alloc, version, literals),
    }
}

/// The bytes of the key that literals spell for the table of a version.
#[tactic(auto, using(crate::proofs::KeyOfLaws::not_as_many, crate::proofs::KeyOfLaws::first_misfit, crate::proofs::KeyOfLaws::too_long, crate::proofs::KeyOfLaws::no_fault))]
fn key_in(alloc: Global, version: &SchemaVersion, literals: &Literals) -> Result<KeyBytes, Refusal>
    ensures free { OnOk result (key_fault version.now.number (view_key version.now.key) (view_literals literals.now)
        ≡ None) }
    ensures key { IfOk result (λ key. key ≡ bound version.now.number (key_kinds (view_key version.now.key))
        (view_literals literals.now)) }
    ensures refused { IfErr result (Refuses
        (key_fault version.now.number (view_key version.now.key) (view_literals literals.now))) }
{
    if literals.len() != version.key.len() {
        return Err(Refusal::BadColumn {
            name: word_of_key(alloc)?,
        });
    }
    let parts = parts_in(alloc, &version.key, literals)?;
    let key = encode_prefix(alloc, version.number, &parts)?;
    let len = key.len();
    if len > MAX_KEY {
        return Err(Refusal::KeyTooLong { len });
    }
    Ok(key)
}

/// The word that stands for a split's key.
fn word_of_key(alloc: Global) -> Result<Text, Memory>
    ensures { IfOk result (λ word. word ≡ codes "key") }
{
    match Text::from_slice(alloc, b"key") {
        Ok(word) => Ok(word),
        Err(TextRefusal::Memory) => Err(Memory),
        Err(TextRefusal::NotUtf8) => unreachable!(),
    }
}

/// The first version of the table with a name.
#[tactic(auto, using(crate::proofs::KeyOfLaws::first_is))]
fn first_version<'a>(catalogue: &'a Catalogue, table: &Text) -> Option<&'a SchemaVersion>
    ensures some { IfSome result (λ version. IsOfTable catalogue.now table.now (view_version version.now)) }
    ensures none { IfNone result (table_named catalogue.now table.now ≡ None) }
{
    let number = catalogue.table(table.as_slice())?;
    catalogue.get(number, 1)
}

/// The parts of a key that literals are, as many as there are columns.
#[tactic(auto, using(crate::proofs::KeyOfLaws::fit_more, crate::proofs::KeyOfLaws::misfit_at, crate::proofs::KeyOfLaws::all_fit, crate::proofs::KeyOfLaws::none_fit))]
fn parts_in(alloc: Global, columns: &KeyColumns, literals: &Literals) -> Result<KeyParts, Refusal>
    requires { length literals.now ≡ length columns.now }
    ensures fit { OnOk result (part_misfit (view_key columns.now) (view_literals literals.now) ≡ None) }
    ensures parts { IfOk result (λ parts. view_parts parts ≡ parts_of (key_kinds (view_key columns.now))
        (view_literals literals.now)) }
    ensures refused { IfErr result (Refuses
        (option_map wrong_literal (part_misfit (view_key columns.now) (view_literals literals.now)))) }
{
    let mut parts = KeyParts::new(alloc);
    for (column, literal) in columns.as_slice().iter().zip(literals.as_slice()) {
        match part_in(column.kind, literal)? {
            Some(part) => parts.push(part)?,
            None => {
                return Err(Refusal::WrongType {
                    name: column.name.copy()?,
                });
            }
        }
    }
    Ok(parts)
}

/// The part of a key that a literal is, where it fits the column's kind.
fn part_in(kind: KeyKind, literal: &Literal) -> Result<Option<KeyPart>, Memory>
    ensures { IfOk result (λ part. option_map view_part part ≡ literal_part kind (view_literal literal.now)) }
{
    match (kind, literal) {
        (KeyKind::Int64, Literal::Int(number)) => Ok(Some(KeyPart::Int(*number))),
        (KeyKind::Text, Literal::Text(text)) => Ok(Some(KeyPart::Text(text.copy()?))),
        _ => Ok(None),
    }
}
