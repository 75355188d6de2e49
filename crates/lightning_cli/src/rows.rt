//! What takes the rows of an answer. Each row is spelled apart and then appended, so that its time goes by its text.

ghost use Rattle.std.specs.Prelude.{◌≡◌};
ghost use Rattle.std.proofs.Common.{refl, ◌∙◌};
ghost use Rattle.lightning_cli.specs.Rows.{LeadsOut, leads_nowhere, leads_then, rows_state};

use crate::output::{add, pour};
use lt_core::List;
use lt_io::{Sink, WriteFault};
use lt_reply::put_row;
use lt_scan::{Row, RowRefusal, RowSink};
use lt_schema::SchemaVersion;

/// How much text is collected before it is written, in bytes.
const FULL: usize = 65536;

/// Writes the texts of rows, by the kinds of a version: behind a text that was collected, and as soon as there is much of it.
pub struct RowWriter<'a, K> {
    pub version: &'a SchemaVersion,
    pub text: &'a mut Vec<u8>,
    pub out: &'a mut K,
}

impl<'a, K> RowWriter<'a, K> {
    pub fn new(
        version: &'a SchemaVersion,
        text: &'a mut Vec<u8>,
        out: &'a mut K,
    ) -> RowWriter<'a, K>
        ensures version { result.version.now ≡ version.now }
        ensures text { result.text.now ≡ text.old }
        ensures out { result.out.now ≡ out.old }
        ensures same_text { result.text.ghost_name ≡ text.entry.ghost_name }
        ensures same_out { result.out.ghost_name ≡ out.entry.ghost_name }
    {
        RowWriter { version, text, out }
    }
}

impl<'a, K: Sink> RowSink for RowWriter<'a, K> {
    ghost state = { λ w. rows_state w.version.now (K.state w.out.now) w.text.now.items };

    ghost led = { λ a b fault. (b.text.ghost_name ≡ a.text.ghost_name) × (b.out.ghost_name ≡ a.out.ghost_name)
        × (b.version.now ≡ a.version.now) × LeadsOut (K.state a.out.now) (K.state b.out.now) fault };

    fn row(&mut self, row: &Row) -> Result<(), RowRefusal> {
        let alloc = *self.text.allocator();
        let mut line = List::new(alloc);
        put_row(alloc, &mut line, self.version, row)?;
        add(self.text, line.as_slice())?;
        if self.text.len() < FULL {
            return Ok(());
        }
        match pour(self.out, self.text) {
            Ok(()) => Ok(()),
            Err(WriteFault) => Err(RowRefusal::Fault),
        }
    }

    ghost led_nowhere = { λ a. (refl, refl, refl, leads_nowhere (K.state a.out.now)) };

    ghost led_on = { λ a b c fault h k. (
      k.0 ∙ h.0,
      k.1 ∙ h.1,
      k.2 ∙ h.2,
      leads_then (K.state a.out.now) (K.state b.out.now) (K.state c.out.now) fault h.3 k.3,
    ) };
}

/// It tells nothing of what it is given: for answers without rows.
#[derive(Clone, Copy, Debug)]
pub struct NoRows;

impl RowSink for NoRows {
    ghost use Rattle.std.specs.Prelude.{None, [], ⊤};

    ghost state = { λ n. record { spell = λ row. []; told = None; rows = None; faults = 0 } };

    ghost led = { λ a b fault. ⊤ };

    fn row(&mut self, _: &Row) -> Result<(), RowRefusal> {
        Ok(())
    }

    ghost led_nowhere = { λ a. tt };

    ghost led_on = { λ a b c fault h k. tt };
}
