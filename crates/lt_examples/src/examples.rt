//! Computed examples of the definitions. Each function has an empty body: its contract is the example, which the check computes.

ghost use Rattle.std.specs.Prelude.{◌≡◌, ◌^◌, ◌++◌, ◌∷◌, [], None, Some, codes, length, negsuc, pos, true};
ghost use Rattle.lt_terms.specs.declared.Op.TheVariants as ops;
ghost use Rattle.lt_terms.specs.declared.Rank.TheVariants as rank;
ghost use Rattle.lt_terms.specs.Conversion.{conv};
ghost use Rattle.lt_examples.specs.Examples.{columns_two, entry_one, fresh_manifest, head, inserted, key_one, one_table, pair_kind, table_two, updated, version_at, version_one, x_alone};
ghost use Rattle.lt_tables.specs.Fair.{breaks, is_fair, late};
ghost use Rattle.lt_terms.specs.Key.{int_part, key_bytes, text_part};
ghost use Rattle.lt_terms.specs.Kind.{plain};
ghost use Rattle.lt_terms.specs.Layout.{int_cell, unset};
ghost use Rattle.lt_terms.specs.Log.{change_item, checkpoint_item, header_item, spelled};
ghost use Rattle.lt_tables.specs.Pump.{at_unfair};
ghost use Rattle.lt_words.specs.Reply.{not_safe, pump_done, refusal_text, reply_text};
ghost use Rattle.lt_tables.specs.Row.{snapshot};
ghost use Rattle.lt_tables.specs.Schema.{new_table};
ghost use Rattle.lt_storage.specs.Store.{manifest_bytes};
ghost use Rattle.lt_terms.specs.Value.{bool_value, bytes_value, field_value, int_value, no_fields, null_value, struct_value, text_value};
ghost use Rattle.lt_tables.specs.Version.{collapse, compose};

/// A text reads as a number only where it is the number's own text; a number as a truth value only where it is 0 or 1.
pub fn texts_down_the_ranks()
    ensures leading_zeros { conv (text_value (codes "007")) (plain rank.Int64) ≡ null_value }
    ensures minus_zero { conv (text_value (codes "-0")) (plain rank.Int64) ≡ null_value }
    ensures no_boolean { conv (int_value (pos 2)) (plain rank.Bool) ≡ null_value }
    ensures too_large { conv (int_value (pos (2 ^ 40))) (plain rank.Int32) ≡ null_value }
    ensures no_text { conv (bytes_value (255 ∷ [])) (plain rank.Text) ≡ null_value }
{}

/// A truth value, a number and a text read as what stands above them.
pub fn values_up_the_ranks()
    ensures number { conv (int_value (negsuc 4)) (plain rank.Text) ≡ text_value (codes "-5") }
    ensures boolean { conv (bool_value true) (plain rank.Text) ≡ text_value (codes "1") }
    ensures back { conv (text_value (codes "1")) (plain rank.Bool) ≡ bool_value true }
{}

/// A number stands with its top bit flipped; a byte 00 of a text is escaped.
pub fn bytes_of_keys()
    ensures number { key_bytes 1 (int_part (pos 1) ∷ []) ≡ key_one }
    ensures text { key_bytes 1 (text_part (97 ∷ 0 ∷ []) ∷ []) ≡ 0 ∷ 0 ∷ 0 ∷ 1 ∷ 97 ∷ 0 ∷ 255 ∷ 0 ∷ 1 ∷ [] }
{}

/// A header, a checkpoint and an insert as they stand in a log.
pub fn bytes_of_frames()
    ensures header { spelled (header_item head) ≡ 1 ∷ 0 ∷ 0 ∷ 0 ∷ 13 ∷ codes "LTLOG1" ++ 0 ∷ 0 ∷ 0 ∷ 0 ∷ 0 ∷ 0 ∷ 0 ∷ [] }
    ensures checkpoint { spelled (checkpoint_item 7) ≡ 3 ∷ 0 ∷ 0 ∷ 0 ∷ 8 ∷ 0 ∷ 0 ∷ 0 ∷ 0 ∷ 0 ∷ 0 ∷ 0 ∷ 7 ∷ [] }
    ensures insert { spelled (change_item inserted) ≡ 2 ∷ 0 ∷ 0 ∷ 0 ∷ 48 ∷ 0 ∷ 0 ∷ 0 ∷ 0 ∷ 0 ∷ 0 ∷ 0 ∷ 5 ∷ 0 ∷ 0 ∷ 0 ∷ 1 ∷ 0 ∷ 0 ∷ 0 ∷ 1 ∷ 1 ∷ 1 ∷ 1 ∷ 0 ∷ 0 ∷ 0 ∷ 0 ∷ 0 ∷ 0 ∷ 0 ∷ 1 ∷ 0 ∷ 2
        ∷ 0 ∷ 1 ∷ 2 ∷ 0 ∷ 0 ∷ 0 ∷ 0 ∷ 0 ∷ 0 ∷ 0 ∷ 10 ∷ 0 ∷ 2 ∷ 3 ∷ 0 ∷ 0 ∷ 0 ∷ 1 ∷ 120 ∷ [] }
{}

/// A stream is fair while each change stands above every earlier checkpoint; one at a checkpoint comes late.
pub fn fair_and_late()
    ensures fair { is_fair head one_table (change_item inserted ∷ checkpoint_item 6 ∷ change_item updated ∷ checkpoint_item 9 ∷ []) ≡ true }
    ensures too_late { breaks head one_table (change_item inserted ∷ checkpoint_item 8 ∷ []) (change_item updated) ≡ Some (late 8) }
{}

/// Before the insert there is no row; after the update the row has the new number and the old text.
pub fn snapshots_at_moments()
    ensures before { snapshot (inserted ∷ updated ∷ []) (new_table version_one) version_one.columns 4 ≡ [] }
    ensures after { snapshot (inserted ∷ updated ∷ []) (new_table version_one) version_one.columns 9 ≡ entry_one (int_value (pos 11) ∷ text_value (codes "x") ∷ []) }
{}

/// A column that a later version adds reads as its default in a row from before.
pub fn column_added()
    ensures by_the_new { snapshot (inserted ∷ []) table_two columns_two 6 ≡ entry_one (int_value (pos 10) ∷ text_value (codes "x") ∷ int_value (pos 9) ∷ []) }
    ensures by_the_old { snapshot (inserted ∷ []) table_two version_one.columns 6 ≡ entry_one (int_value (pos 10) ∷ text_value (codes "x") ∷ []) }
{}

/// A struct that was set whole under the older version has null in the field that was added.
pub fn struct_field_added()
    ensures { conv (x_alone 7) pair_kind ≡ struct_value (field_value 1 (int_value (pos 7)) (field_value 2 null_value no_fields)) }
{}

/// An update lays its cells over an insert; on a delete it does nothing.
pub fn versions_composed()
    ensures insert { compose (version_at 3 ops.Insert (int_cell (pos 1) ∷ int_cell (pos 2) ∷ [])) (version_at 5 ops.Update (unset ∷ int_cell (pos 9) ∷ [])) ≡ version_at 5 ops.Insert (int_cell (pos 1) ∷ int_cell (pos 9) ∷ []) }
    ensures delete { compose (version_at 3 ops.Delete (unset ∷ [])) (version_at 5 ops.Update (int_cell (pos 9) ∷ [])) ≡ version_at 5 ops.Delete (unset ∷ []) }
{}

/// Collapsing leaves the versions above the minimum, and makes one insert of those up to it, or none.
pub fn versions_collapsed()
    ensures one_insert { collapse 6 (version_at 8 ops.Update (int_cell (pos 8) ∷ []) ∷ version_at 5 ops.Update (int_cell (pos 5) ∷ []) ∷ version_at 3 ops.Insert (int_cell (pos 3) ∷ []) ∷ [])
        ≡ version_at 8 ops.Update (int_cell (pos 8) ∷ []) ∷ version_at 5 ops.Insert (int_cell (pos 5) ∷ []) ∷ [] }
    ensures nothing { collapse 6 (version_at 5 ops.Update (int_cell (pos 5) ∷ []) ∷ []) ≡ [] }
{}

/// A pump that stops, a scan that is refused, and an empty machine's status, as they are printed.
pub fn texts_of_replies()
    ensures pump { reply_text (pump_done 0 2 84 6 (at_unfair (late 6))) ≡ codes "ok pump 0 records 2 offset 84 checkpoint 6 stop Late 6\n" }
    ensures refusal { refusal_text (not_safe 0 7) ≡ codes "refused E13 NotSafe 0 7\n" }
{}

/// The manifest of a fresh store with one stream has 61 bytes.
pub fn fresh_store()
    ensures { length (manifest_bytes fresh_manifest) ≡ 61 }
{}
