//! What a call of the outside answers where it fails.

use thiserror::Error;

/// A read of a source failed.
#[derive(Clone, Copy, Debug, Drop, PartialEq, Eq, Error)]
#[error("the source has failed")]
pub struct ReadFault;

/// A write to a sink failed.
#[derive(Clone, Copy, Debug, Drop, PartialEq, Eq, Error)]
#[error("the sink has failed")]
pub struct WriteFault;

/// A call of a feed failed.
#[derive(Clone, Copy, Debug, Drop, PartialEq, Eq, Error)]
#[error("the feed has failed")]
pub struct FeedFault;
