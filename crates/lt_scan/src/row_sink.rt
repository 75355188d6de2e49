//! What takes rows, one by one, as their texts.

ghost use Rattle.std.specs.Prelude.{Bool, ◌≡◌, ◌∷◌, [], ℕ, List, IsErrOf, OnErr, OnOk, false};
ghost use Rattle.std.specs.Io.KnownBytes.{Appends};
ghost use Rattle.lt_core.specs.View.{view_row};
ghost use Rattle.lt_world.specs.Disk.{Rose};
ghost use Rattle.lt_world.specs.RowSink.{Given, RowSinkGoes, RowSinkState};
ghost use Rattle.lt_world.specs.Object.{IsFront};
ghost use Rattle.lt_scan.specs.Rows.{fell};
ghost use Rattle.lt_scan.specs.declared.row_sink.RowRefusal.TheVariants as refusals;

use lt_core::{Memory, Row};

/// Why a row is not taken.
#[derive(Clone, Copy, Debug, PartialEq, Eq)]
pub enum RowRefusal {
    /// A call of the outside failed; some first bytes of the row's text may stand.
    Fault,
    /// Nothing was appended.
    Memory,
}

impl From<Memory> for RowRefusal {
    ghost from_gives = { λ _ e. e ≡ refusals.Memory };

    fn from(_: Memory) -> Self {
        RowRefusal::Memory
    }
}

/// It takes the rows of an answer, one by one.
pub trait RowSink {
    /// How it spells a row, what it tells of its bytes and of its rows, and how often it failed.
    ghost state: { Self → RowSinkState };

    /// Rows led from the one to the other; and whether the last of them met a fault of the outside.
    ghost led: { Self → Self → Bool → Type 0 };

    /// Appends a row and its text.
    fn row(&mut self, row: &Row) -> Result<(), RowRefusal>
        ensures ok { OnOk result (Given (state self.old) (state self.new) (view_row row.now ∷ [])) }
        ensures fault { IsErrOf result RowRefusal.Fault → (front : List ℕ)
            × IsFront front ((state self.old).spell (view_row row.now))
            × Appends (state self.old).told (state self.new).told front }
        ensures memory { IsErrOf result RowRefusal.Memory → (state self.new).told ≡ (state self.old).told }
        ensures err { OnErr result ((state self.new).rows ≡ (state self.old).rows) }
        ensures goes { RowSinkGoes (state self.old) (state self.new) }
        ensures cause { IsErrOf result RowRefusal.Fault → Rose (state self.old).faults (state self.new).faults }
        ensures kept { OnOk result ((state self.new).faults ≡ (state self.old).faults) }
        ensures lacks { IsErrOf result RowRefusal.Memory → (state self.new).faults ≡ (state self.old).faults }
        ensures led { led self.old self.new (fell result) };

    /// No row leads nowhere.
    ghost led_nowhere: { (a : Self) → led a a false };

    /// Rows lead on from where others led without a fault.
    ghost led_on: { (a b c : Self) (fault : Bool) → led a b false → led b c fault → led a c fault };
}
