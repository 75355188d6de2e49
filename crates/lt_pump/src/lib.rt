//! The pump: it takes the fair records of a feed's streams, and hands each change to the subscription of its key.
//!
//! A stream stands behind the records that were taken of it. What is handed over is behind a trait, so that who keeps the
//! changes is the caller's choice.
#![tactic(auto)]

mod ahead;
mod attach;
mod deliver;
mod names;
mod owners;
mod position;
mod pump;
mod reading;
mod refusal;
mod stop;
mod subscription;

pub use deliver::Deliver;
pub use lt_core::{KeyBytes, Memory, Range, Ts};
pub use lt_fair::{Point, Unfair};
pub use lt_io::Feed;
pub use lt_records::ChangeRecord;
pub use lt_schema::Catalogue;
pub use lt_terms::BadFrame;
pub use names::names_follow;
pub use pump::Pump;
pub use refusal::{AttachRefusal, PumpFault};
pub use stop::{Pumped, Stop};
pub use subscription::{Lows, Subscription, Subscriptions};
