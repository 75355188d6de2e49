//! What a call of a disk answers where it fails.

use thiserror::Error;

/// A call of a disk failed.
#[derive(Clone, Copy, Debug, Drop, PartialEq, Eq, Error)]
#[error("the disk has failed")]
pub struct DiskFault;
