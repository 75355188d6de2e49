//! The device: what its calls do to the bytes, and what a crash may leave.
//!
//! A disk has the bytes as they read, 0 past their end. Between two syncs a crash may leave any bytes in each range that was
//! written, and past the old end, also while a call runs and after one that failed; other bytes stay. After a sync that
//! succeeds it leaves what reads. The clock counts moments, so that a promise can speak of a crash at any of them.

ghost use Rattle.std.specs.Prelude.{◌≡◌, ◌<◌, ◌≤◌, ℕ, List, length, IfSome, OnOk};
ghost use Rattle.lt_world.specs.Disk.{CountsOne, DiskState, Follows, HasCause, Only, Reads, Torn};
ghost use Rattle.lt_world.specs.Disk.{DiskCalled, WritesTold};

use crate::fault::DiskFault;

/// One flat file of bytes, 0 past its end.
pub trait Disk {
    /// What it tells of its bytes as they read; how often it failed, and how often in a write or a sync; how many calls of `read_at` were
    /// made; its clock; what a crash may leave now, and what one may have left since a moment, during a call or between two.
    ghost state: { Self → DiskState };

    /// Fills the buffer with the bytes from a place on.
    fn read_at(&mut self, place: u64, buf: &mut [u8]) -> Result<(), DiskFault>
        requires { 0 < length buf.old }
        ensures bytes { OnOk result (Reads (state self.old).told place buf.new) }
        ensures same { (state self.new).told ≡ (state self.old).told }
        ensures crash { (c : List ℕ) → (state self.new).leaves c → (state self.old).leaves c }
        ensures called { DiskCalled (state self.old) (state self.new) result }
        ensures read { CountsOne (state self.old).reads (state self.new).reads }
        ensures written { (state self.new).write_faults ≡ (state self.old).write_faults };

    /// Writes the bytes from a place on. Until a sync a crash may leave any bytes there.
    fn write_at(&mut self, place: u64, bytes: &[u8]) -> Result<(), DiskFault>
        requires { 0 < length bytes.now }
        ensures bytes { WritesTold (state self.old).told (state self.new).told place bytes.now result }
        ensures crash { Follows (Torn place (length bytes.now)) (state self.old).leaves (state self.new).leaves }
        ensures called { DiskCalled (state self.old) (state self.new) result }
        ensures read { (state self.new).reads ≡ (state self.old).reads }
        ensures written { HasCause (state self.old).write_faults (state self.new).write_faults result };

    /// After it a crash leaves what a read gives.
    fn sync(&mut self) -> Result<(), DiskFault>
        ensures durable { OnOk result (IfSome (state self.new).told (λ image. Only image (state self.new).leaves)) }
        ensures same { (state self.new).told ≡ (state self.old).told }
        ensures crash { (c : List ℕ) → (state self.new).leaves c → (state self.old).leaves c }
        ensures called { DiskCalled (state self.old) (state self.new) result }
        ensures read { (state self.new).reads ≡ (state self.old).reads }
        ensures written { HasCause (state self.old).write_faults (state self.new).write_faults result };

    /// This moment is one of those since an earlier one.
    ghost counts_now: { (disk : Self) (t : ℕ) (c : List ℕ) → t ≤ (state disk).clock → (state disk).leaves c → (state disk).left_since t c };

    /// Since this moment there is no other.
    ghost only_now: { (disk : Self) (c : List ℕ) → (state disk).left_since (state disk).clock c → (state disk).leaves c };

    /// What reads is one of the images.
    ghost reads_an_image: { (disk : Self) → IfSome (state disk).told (state disk).leaves };
}
