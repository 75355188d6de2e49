//! Why no root is loaded, and how a commit fails.

ghost use Rattle.std.specs.Prelude.{◌≡◌};
ghost use Rattle.lt_root.specs.declared.refusal.CommitFault.TheVariants as faults;
ghost use Rattle.lt_root.specs.declared.refusal.RootRefusal.TheVariants as refusals;

use lt_disk::DiskFault;
use thiserror::Error;

/// Why no root is loaded.
#[derive(Clone, Copy, Debug, Drop, PartialEq, Eq, Error)]
pub enum RootRefusal {
    /// No gate is open.
    #[error("there is no store")]
    NoStore,
    /// An open slot is not of the format, or both are of one generation.
    #[error("damage at place {place}, in {length} bytes")]
    Damaged { place: u64, length: u64 },
    #[error("the disk has failed")]
    Disk,
}

impl From<DiskFault> for RootRefusal {
    ghost from_gives = { λ _ e. e ≡ refusals.Disk };

    fn from(_: DiskFault) -> Self {
        RootRefusal::Disk
    }
}

/// The disk failed in a commit. Only where it failed in the one read, no image has the next root.
#[derive(Clone, Copy, Debug, Drop, PartialEq, Eq, Error)]
pub enum CommitFault {
    #[error("the disk has failed in a read")]
    Read,
    #[error("the disk has failed in a write or a sync")]
    Write,
}

impl From<DiskFault> for CommitFault {
    ghost from_gives = { λ _ e. e ≡ faults.Write };

    fn from(_: DiskFault) -> Self {
        CommitFault::Write
    }
}
