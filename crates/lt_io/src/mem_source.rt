//! A source in memory. A read takes time by what it gives.

ghost use Rattle.std.specs.Prelude.{◌≡◌, ◌<◌, ◌≤◌, None, Some, length, min, take, is_err, IfOk, OnOk, OnErr};
ghost use Rattle.std.specs.Io.KnownBytes.{ReadConsumes};
ghost use Rattle.lt_world.specs.Disk.{HasCause};
ghost use Rattle.lt_world.specs.Object.{KeepsFirstFault, StaysTold};
ghost use Rattle.lt_io.specs.Plan.{no_plan, listing, GoesByPlan, FailsOnly};

use crate::calls::Calls;
use crate::faults::ReadFault;
use crate::source::Source;
use lt_core::{Blob, Memory};

/// A source that gives the bytes it was made of.
#[derive(Debug, Drop)]
pub struct MemSource {
    bytes: Blob,
    at: usize,
    calls: Calls,
    /// How many bytes were left when it first failed.
    failed_at: Option<usize>,
    ghost within: { at ≤ length bytes },
    pub ghost fails_only: { FailsOnly calls 0 },
}

impl MemSource {
    ghost use Rattle.lt_io.specs.Memory.{source_failed_at, source_left, source_plan};

    pub fn new(bytes: Blob) -> MemSource
        ensures left { source_left result ≡ bytes }
        ensures plan { source_plan result ≡ no_plan }
        ensures unfailed { source_failed_at result ≡ None }
    {
        let alloc = bytes.allocator();
        MemSource {
            bytes,
            at: 0,
            calls: Calls::new(alloc),
            failed_at: None,
        }
    }

    /// Lists further calls that are to fail, by their numbers from 1 over all calls since the source was made.
    pub fn fail(&mut self, calls: &[u64]) -> Result<(), Memory>
        ensures ok { OnOk result (source_plan self.new ≡ listing (source_plan self.old) calls.now) }
        ensures err { OnErr result (source_plan self.new ≡ source_plan self.old) }
        ensures left { source_left self.new ≡ source_left self.old }
        ensures failed { source_failed_at self.new ≡ source_failed_at self.old }
    {
        self.calls.list(calls)
    }
}

impl Source for MemSource {
    ghost use Rattle.lt_io.specs.Memory.{source_failed_at, source_left, source_plan};

    ghost state = { λ s. record { told = Some (source_left s); faults = (source_plan s).faults; failed_at = source_failed_at s } };

    #[tactic(auto, using(crate::proofs::Plans::cause_by_plan, crate::proofs::Streams::consumed))]
    fn read(&mut self, buf: &mut [u8]) -> Result<usize, ReadFault>
        requires { 0 < length buf.old }
        ensures bound { IfOk result (λ n. n ≤ length buf.new) }
        ensures bytes { ReadConsumes (Some (source_left self.old)) (Some (source_left self.new)) result buf.new }
        ensures stays { StaysTold (Some (source_left self.old)) (Some (source_left self.new)) }
        ensures cause { HasCause (source_plan self.old).faults (source_plan self.new).faults result }
        ensures first_fault { KeepsFirstFault (Some (source_left self.new)) (source_failed_at self.old)
            (source_failed_at self.new) result }
        ensures plan { GoesByPlan (source_plan self.old) (source_plan self.new) (is_err result) }
    {
        if self.calls.next_fails() {
            if self.failed_at.is_none() {
                self.failed_at = Some(self.bytes.len() - self.at);
            }
            return Err(ReadFault);
        }
        let (_, rest) = self.bytes.as_slice().split_at(self.at);
        let n = copy_front(rest, buf);
        self.at += n;
        Ok(n)
    }
}

/// Copies as much of the bytes as the buffer takes into its front, and tells how many bytes that is.
pub fn copy_front(bytes: &[u8], buf: &mut [u8]) -> usize
    ensures number { result ≡ min (length bytes.now) (length buf.old) }
    ensures length { length buf.new ≡ length buf.old }
    ensures front { take result buf.new ≡ take result bytes.now }
{
    let n = bytes.len().min(buf.len());
    buf[..n].copy_from_slice(&bytes[..n]);
    n
}
