//! A sink in memory. A write takes time by what it is given, on the whole.

ghost use Rattle.std.specs.Prelude.{◌≡◌, ◌<◌, ◌≤◌, [], None, Some, length, is_err, IfOk, OnOk, OnErr};
ghost use Rattle.std.specs.Io.KnownBytes.{WriteAppends};
ghost use Rattle.std.specs.Option.{option_or};
ghost use Rattle.lt_world.specs.Disk.{HasCause};
ghost use Rattle.lt_world.specs.Object.{KeepsFirstFault, StaysTold};
ghost use Rattle.lt_io.specs.Plan.{no_plan, listing, FailsOnly};

use crate::calls::Calls;
use crate::faults::WriteFault;
use crate::sink::Sink;
use lt_core::Memory;
use std::alloc::Global;

/// A sink that keeps what it was given. A write for which it finds no memory fails.
#[derive(Debug, Drop)]
pub struct MemSink {
    bytes: Vec<u8>,
    calls: Calls,
    lacks: u64,
    /// How many bytes it held when it first failed.
    failed_at: Option<usize>,
    pub ghost fails_only: { FailsOnly calls lacks },
}

impl MemSink {
    ghost use Rattle.lt_io.specs.Memory.{sink_failed_at, sink_held, sink_lacks, sink_plan};

    pub fn new(alloc: Global) -> MemSink
        ensures held { sink_held result ≡ [] }
        ensures plan { sink_plan result ≡ no_plan }
        ensures lacks { sink_lacks result ≡ 0 }
        ensures unfailed { sink_failed_at result ≡ None }
    {
        MemSink {
            bytes: Vec::new(alloc),
            calls: Calls::new(alloc),
            lacks: 0,
            failed_at: None,
        }
    }

    /// Lists further calls that are to fail, by their numbers from 1 over all calls since the sink was made.
    pub fn fail(&mut self, calls: &[u64]) -> Result<(), Memory>
        ensures ok { OnOk result (sink_plan self.new ≡ listing (sink_plan self.old) calls.now) }
        ensures err { OnErr result (sink_plan self.new ≡ sink_plan self.old) }
        ensures held { sink_held self.new ≡ sink_held self.old }
        ensures lacks { sink_lacks self.new ≡ sink_lacks self.old }
        ensures failed { sink_failed_at self.new ≡ sink_failed_at self.old }
    {
        self.calls.list(calls)
    }

    /// Keeps how many bytes it holds, where it fails for the first time.
    fn keep_first_fault(&mut self)
        ensures first { sink_failed_at self.new ≡ option_or (sink_failed_at self.old)
            (Some (length (sink_held self.old))) }
        ensures rest { self.new ≡ record self.old { failed_at = sink_failed_at self.new } }
    {
        if self.failed_at.is_none() {
            self.failed_at = Some(self.bytes.len());
        }
    }

    /// The bytes that it holds.
    pub fn bytes(&self) -> &[u8]
        ensures { result.now ≡ sink_held self.now }
    {
        self.bytes.as_slice()
    }

    /// How many writes found no memory. Where no failing call was listed, it failed only so often.
    pub fn lacks(&self) -> u64
        ensures lacks { result ≡ sink_lacks self.now }
        ensures fails_only { FailsOnly (sink_plan self.now) result }
    {
        self.lacks
    }
}

impl Sink for MemSink {
    ghost use Rattle.lt_io.specs.Memory.{sink_failed_at, sink_held, sink_lacks, sink_plan};
    ghost use Rattle.lt_io.specs.Plan.{GoesUnlessLacking};

    ghost state = { λ s. record { told = Some (sink_held s); faults = (sink_plan s).faults; failed_at = sink_failed_at s } };

    #[tactic(auto, using(crate::proofs::Plans::cause_by_plan))]
    fn write(&mut self, bytes: &[u8]) -> Result<usize, WriteFault>
        requires { 0 < length bytes.now }
        ensures bound { IfOk result (λ n. (0 < n) × (n ≤ length bytes.now)) }
        ensures bytes { WriteAppends (Some (sink_held self.old)) (Some (sink_held self.new)) result bytes.now }
        ensures stays { StaysTold (Some (sink_held self.old)) (Some (sink_held self.new)) }
        ensures cause { HasCause (sink_plan self.old).faults (sink_plan self.new).faults result }
        ensures first_fault { KeepsFirstFault (Some (sink_held self.new)) (sink_failed_at self.old)
            (sink_failed_at self.new) result }
        ensures plan { GoesUnlessLacking (sink_plan self.old) (sink_plan self.new) (sink_lacks self.old)
            (sink_lacks self.new) (is_err result) }
    {
        if self.calls.next_fails() {
            self.keep_first_fault();
            return Err(WriteFault);
        }
        if self.bytes.extend_from_slice(bytes).is_err() {
            self.calls.count_fault();
            self.lacks = self.lacks.saturating_add(1);
            self.keep_first_fault();
            return Err(WriteFault);
        }
        Ok(bytes.len())
    }
}
