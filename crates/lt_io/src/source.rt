//! Bytes that come in.

ghost use Rattle.std.specs.Prelude.{◌<◌, ◌≤◌, length, IfOk};
ghost use Rattle.std.specs.Io.KnownBytes.{ReadConsumes};
ghost use Rattle.lt_world.specs.Disk.{HasCause};
ghost use Rattle.lt_world.specs.Object.{BytesState, KeepsFirstFault, StaysTold};

use crate::faults::ReadFault;

/// Bytes that come in.
pub trait Source {
    /// What it tells of the bytes that are left, how often it failed, and how many were left when it first did.
    ghost state: { Self → BytesState };

    /// Reads some bytes into the front of the buffer, and tells how many; none only at the end.
    fn read(&mut self, buf: &mut [u8]) -> Result<usize, ReadFault>
        requires { 0 < length buf.old }
        ensures bound { IfOk result (λ n. n ≤ length buf.new) }
        ensures bytes { ReadConsumes (state self.old).told (state self.new).told result buf.new }
        ensures stays { StaysTold (state self.old).told (state self.new).told }
        ensures cause { HasCause (state self.old).faults (state self.new).faults result }
        ensures first_fault { KeepsFirstFault (state self.new).told (state self.old).failed_at
            (state self.new).failed_at result };
}
