//! Which records of a stream count: the test of the next one, by a small state and not by all that came before.
//!
//! A `Checker` keeps the last checkpoint, the greatest timestamp, and a window: the last timestamp of each key with a change above
//! the checkpoint. A change takes time by the record and the logarithm of the window, a checkpoint takes a constant. Besides, keys
//! that are no longer above the checkpoint are let go now and then, which takes a constant for each record. So after a checkpoint
//! up to twice as many keys are kept as an earlier window had, and `point` goes over all of them. The window of a point that is
//! handed in is gone over by each call until the next change is taken. A setting is looked up among the columns of a version by a
//! plain scan, since a lawful version has at most 256.
#![tactic(auto)]

mod above;
mod checker;
mod point;
mod refusal;
mod shape;
mod version;
mod window;

pub use checker::Checker;
pub use point::{Point, Window};
pub use refusal::{TakeRefusal, Unfair};
