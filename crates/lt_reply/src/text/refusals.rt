//! Refusals in words.

ghost use Rattle.std.specs.Prelude.{◌≡◌, ◌++◌, ◌∷◌, string_bytes, IfOk};
ghost use Rattle.lt_words.specs.Reply.{bad_schema, quoted_name as quoted};
ghost use Rattle.lt_reply.specs.View.{IsCause, IsSpoken, PrintsRefusal, view_cause, view_refusal};

use crate::refusal::{Cause, Refusal};
use crate::text::cause::{cause_words, quoted_name};
use lt_core::{Memory, Text};
use std::alloc::Global;

/// A refusal's number and name, and its kept values.
pub fn refusal_words(alloc: Global, refusal: &Refusal) -> Result<String, Memory>
    requires { IsSpoken refusal.now }
    ensures { IfOk result (λ words. PrintsRefusal (string_bytes words) (view_refusal refusal.now)) }
{
    match refusal {
        Refusal::NeedsReopen => Ok(format!(in alloc; "refused E2 NeedsReopen")?),
        Refusal::Worn => Ok(format!(in alloc; "refused E33 Worn")?),
        Refusal::UnknownTable { name } => named_words(alloc, "refused E3 UnknownTable", name),
        Refusal::UnknownVersion { version } => Ok(format!(in alloc;
            "refused E4 UnknownVersion {version}"
        )?),
        Refusal::Retired { version } => Ok(format!(in alloc; "refused E5 Retired {version}")?),
        Refusal::LastVersion { version } => Ok(format!(in alloc;
            "refused E28 LastVersion {version}"
        )?),
        Refusal::BadSchema { cause } => schema_words(alloc, cause),
        Refusal::NoStream { stream } => Ok(format!(in alloc; "refused E7 NoStream {stream}")?),
        Refusal::NoPartition { part } => Ok(format!(in alloc; "refused E8 NoPartition {part}")?),
        Refusal::NoSuchDelta { id } => Ok(format!(in alloc; "refused E9 NoSuchDelta {id}")?),
        Refusal::BadColumn { name } => named_words(alloc, "refused E10 BadColumn", name),
        Refusal::WrongType { name } => named_words(alloc, "refused E11 WrongType", name),
        Refusal::KeyTooLong { len } => Ok(format!(in alloc; "refused E27 KeyTooLong {len}")?),
        Refusal::TooOld { min } => Ok(format!(in alloc; "refused E12 TooOld {min}")?),
        Refusal::NotSafe { part, checkpoint } => Ok(format!(in alloc;
            "refused E13 NotSafe {part} {checkpoint}"
        )?),
        Refusal::AboveDurable { durable } => Ok(format!(in alloc;
            "refused E14 AboveDurable {durable}"
        )?),
        Refusal::BelowMin { min } => Ok(format!(in alloc; "refused E15 BelowMin {min}")?),
        Refusal::AtEdge { part } => Ok(format!(in alloc; "refused E16 AtEdge {part}")?),
        Refusal::TooManyParts => Ok(format!(in alloc; "refused E17 TooManyParts")?),
        Refusal::TooManyDeltas => Ok(format!(in alloc; "refused E18 TooManyDeltas")?),
        Refusal::JobOpen => Ok(format!(in alloc; "refused E19 JobOpen")?),
        Refusal::NoJob => Ok(format!(in alloc; "refused E20 NoJob")?),
        Refusal::NotDone => Ok(format!(in alloc; "refused E21 NotDone")?),
        Refusal::StoreFull { need, room } => Ok(format!(in alloc;
            "refused E22 StoreFull {need} {room}"
        )?),
        Refusal::FeedFault => Ok(format!(in alloc; "refused E23 FeedFault")?),
        Refusal::DiskFault => Ok(format!(in alloc; "refused E24 DiskFault")?),
        Refusal::Damaged { place, length } => Ok(format!(in alloc;
            "refused E25 Damaged {place} {length}"
        )?),
        Refusal::OutFault => Ok(format!(in alloc; "refused E29 OutFault")?),
        Refusal::FeedMismatch { stream } => Ok(format!(in alloc;
            "refused E30 FeedMismatch {stream}"
        )?),
        Refusal::Memory => Ok(format!(in alloc; "refused E26 Memory")?),
    }
}

/// The refusal of a schema, which keeps a cause.
#[tactic(auto, using(crate::proofs::Words::cause_follows))]
fn schema_words(alloc: Global, cause: &Cause) -> Result<String, Memory>
    requires { IsCause cause.now }
    ensures { IfOk result (λ words. PrintsRefusal (string_bytes words) (bad_schema (view_cause cause.now))) }
{
    let why = cause_words(alloc, cause)?;
    Ok(format!(in alloc; "refused E6 BadSchema {why}")?)
}

/// A refusal that keeps a name.
fn named_words(alloc: Global, refused: &str, name: &Text) -> Result<String, Memory>
    ensures { IfOk result (λ words. string_bytes words ≡ refused.now ++ 32 ∷ quoted name.now) }
{
    let name = quoted_name(alloc, name)?;
    Ok(format!(in alloc; "{refused} {name}")?)
}
