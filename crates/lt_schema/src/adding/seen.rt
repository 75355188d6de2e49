//! Names that were seen. Adding one takes time that grows by the logarithm of their number.

ghost use Rattle.std.specs.Prelude.{◌≡◌, List, [], ◌∷◌, not, ℕ, IfOk, OnOk};
ghost use Rattle.lt_tables.specs.Schema.{is_among};
ghost use Rattle.lt_schema.specs.Seen.{Holds};

use lt_core::{Memory, Text};
use std::alloc::Global;
use std::collections::BTreeSet;

/// Names, each of which stands once.
pub type Seen<'a> = BTreeSet<&'a str>;

pub fn none_seen<'a>(alloc: Global) -> Seen<'a>
    ensures { Holds result [] }
{
    BTreeSet::new(alloc)
}

/// Adds a name, and tells whether it is new.
pub fn see<'a>(seen: &mut Seen<'a>, name: &'a Text) -> Result<bool, Memory>
    ensures fresh { (before : List (List ℕ)) → Holds seen.old before
        → IfOk result (λ fresh. fresh ≡ not (is_among before name.now)) }
    ensures added { (before : List (List ℕ)) → Holds seen.old before
        → OnOk result (Holds seen.new (name.now ∷ before)) }
{
    Ok(seen.insert(name.as_str())?)
}
