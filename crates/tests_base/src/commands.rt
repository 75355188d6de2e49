//! What commands and queries stand for.

ghost use Rattle.std.specs.Prelude.{◌≡◌, ◌∷◌, [], None, codes, IfOk};
ghost use Rattle.lt_tables.specs.Query.{all_rows, negated};
ghost use Rattle.lt_tables.specs.Query.{do_compact, do_scan, minor};
ghost use Rattle.lt_words.specs.Script.{plain_query};
ghost use Rattle.lt_command.specs.View.{view_command, view_query};

use lt_command::{Command, Mode, Pred, Query, Text};
use lt_core::{Memory, TextRefusal};
use lt_pred::{Boxed, List};
use std::alloc::Global;
use std::test::Fail;

fn compact(alloc: Global) -> Result<Command, Memory>
    ensures { IfOk result (λ c. view_command c ≡ do_compact 2 (minor (0 ∷ 7 ∷ []))) }
{
    let mut ids = List::new(alloc);
    ids.push(0)?;
    ids.push(7)?;
    Ok(Command::Compact {
        part: 2,
        mode: Mode::Minor(ids),
    })
}

fn scan(alloc: Global) -> Result<Command, TextRefusal>
    ensures { IfOk result (λ c. view_command c ≡ do_scan (plain_query (codes "t") 1 5 None)) }
{
    let table = Text::from_slice(alloc, b"t")?;
    Ok(Command::Scan(Query {
        table,
        version: 1,
        at: 5,
        columns: None,
        from: None,
        to: None,
        after: None,
        limit: None,
        filter: Pred::All,
    }))
}

fn filtered(alloc: Global) -> Result<Query, Fail>
    ensures { IfOk result (λ q. view_query q
        ≡ record (plain_query (codes "t") 1 5 None) { filter = negated all_rows }) }
{
    let filter = Pred::Not(Boxed::new(alloc, Pred::All)?);
    let table = Text::from_slice(alloc, b"t")?;
    Ok(Query {
        table,
        version: 1,
        at: 5,
        columns: None,
        from: None,
        to: None,
        after: None,
        limit: None,
        filter,
    })
}

/// Lets a value go; that there is one is what the test shows.
fn is_there<T: Drop>(_value: T) -> bool {
    true
}

/// None is refused because memory ran out; the clauses say what each is.
#[test]
fn commands_are_made(rt: HostRuntime) -> Result<(), Fail> {
    let alloc = rt.alloc();
    assert!(rt; is_there(compact(alloc)?));
    assert!(rt; is_there(scan(alloc)?));
    assert!(rt; is_there(filtered(alloc)?));
    Ok(())
}
