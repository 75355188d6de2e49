//! Bytes that go out.

ghost use Rattle.std.specs.Prelude.{◌<◌, ◌≤◌, length, IfOk};
ghost use Rattle.std.specs.Io.KnownBytes.{WriteAppends};
ghost use Rattle.lt_world.specs.Disk.{HasCause};
ghost use Rattle.lt_world.specs.Object.{BytesState, KeepsFirstFault, StaysTold};

use crate::faults::WriteFault;

/// Bytes that go out.
pub trait Sink {
    /// What it tells of the bytes that it holds, how often it failed, and how many it held when it first did.
    ghost state: { Self → BytesState };

    /// Takes some of the bytes, from the first on, and tells how many: at least one.
    fn write(&mut self, bytes: &[u8]) -> Result<usize, WriteFault>
        requires { 0 < length bytes.now }
        ensures bound { IfOk result (λ n. (0 < n) × (n ≤ length bytes.now)) }
        ensures bytes { WriteAppends (state self.old).told (state self.new).told result bytes.now }
        ensures stays { StaysTold (state self.old).told (state self.new).told }
        ensures cause { HasCause (state self.old).faults (state self.new).faults result }
        ensures first_fault { KeepsFirstFault (state self.new).told (state self.old).failed_at
            (state self.new).failed_at result };
}
