//! A row sink that keeps the rows. It tells no bytes and never fails: what the trait says of these, it meets without doing anything.

use lt_core::{List, Memory, Row, Value};
use lt_scan::{RowRefusal, RowSink};
use std::alloc::Global;

/// The rows that were given to it. It spells none.
#[derive(Debug, Drop)]
struct Kept {
    rows: List<Row>,
}

impl RowSink for Kept {
    ghost use Rattle.std.specs.Prelude.{List, None, Some, [], map, ⊤};
    ghost use Rattle.lt_core.specs.View.{view_row};

    ghost state = { λ k. record { spell = λ row. []; told = None; rows = Some (map view_row k.rows); faults = 0 } };

    ghost led = { λ a b fault. ⊤ };

    fn row(&mut self, row: &Row) -> Result<(), RowRefusal> {
        self.rows.push(row.copy()?)?;
        Ok(())
    }

    ghost led_nowhere = { λ a. tt };

    ghost led_on = { λ a b c fault h k. tt };
}

fn row_of(alloc: Global, number: i64) -> Result<Row, Memory> {
    let mut row = List::new(alloc);
    row.push(Value::Int(number))?;
    Ok(row)
}

/// Whether the row of a number is taken.
fn is_given(alloc: Global, kept: &mut Kept, number: i64) -> bool {
    match row_of(alloc, number) {
        Ok(row) => kept.row(&row).is_ok(),
        Err(Memory) => false,
    }
}

#[test]
fn rows_are_kept_in_order(rt: HostRuntime) {
    let alloc = rt.alloc();
    let mut kept = Kept {
        rows: List::new(alloc),
    };
    for number in 0..3 {
        assert!(rt; is_given(alloc, &mut kept, number));
    }
    let numbers = kept.rows.as_slice().iter().map(|row| match row.get(0) {
        Some(Value::Int(number)) => *number,
        _ => -1,
    });
    assert!(rt; numbers.eq([0, 1, 2]));
}
