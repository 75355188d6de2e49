//! Which commands are answered today. All others are planned, and their lines are bad ones until they are built.

ghost use Rattle.std.specs.Prelude.{◌≡◌};
ghost use Rattle.lt_words.specs.Lines.{asks_all, is_all_rows, is_built};
ghost use Rattle.lt_command.specs.View.{view_command, view_query};
ghost use Rattle.lt_pred.specs.View.{view_pred};

use lt_command::{Command, Query};
use lt_pred::Pred;

/// Whether the command is answered.
pub fn is_built(command: &Command) -> bool
    ensures { result ≡ is_built (view_command command.now) }
{
    match command {
        Command::Schema(_)
        | Command::Retire { .. }
        | Command::Pump { .. }
        | Command::Split { .. }
        | Command::Status => true,
        Command::Scan(query) => asks_all(query),
        Command::Flush { .. }
        | Command::Compact { .. }
        | Command::JobBegin { .. }
        | Command::JobStep { .. }
        | Command::JobFinish
        | Command::JobDrop
        | Command::Retain { .. }
        | Command::Page(_)
        | Command::Deltas { .. }
        | Command::Reopen => false,
    }
}

/// All columns of all rows.
fn asks_all(query: &Query) -> bool
    ensures { result ≡ asks_all (view_query query.now) }
{
    query.columns.is_none()
        && query.from.is_none()
        && query.to.is_none()
        && query.after.is_none()
        && query.limit.is_none()
        && is_all_rows(&query.filter)
}

/// Each row meets it, by its form.
fn is_all_rows(pred: &Pred) -> bool
    ensures { result ≡ is_all_rows (view_pred pred.now) }
{
    matches!(pred, Pred::All)
}
