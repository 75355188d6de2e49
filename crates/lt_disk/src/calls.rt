//! The calls of a disk in memory: how many were made, which of them fail, and how many failed. A call takes time by the number
//! of those that are listed.

ghost use Rattle.std.specs.Prelude.{◌≡◌, ◌≤◌, ℕ, OnOk, OnErr};
ghost use Rattle.lt_disk.specs.Plan.{no_plan, listing, stopping, fails_next, after_call, with_fault, FailsOnly};

use lt_core::Memory;
use std::alloc::Global;
use std::marker::Model;

#[derive(Debug, Drop)]
pub struct Calls {
    made: u64,
    failing: Vec<u64>,
    last: u64,
    faults: u64,
}

impl Model for Calls {
    ghost use Rattle.lt_disk.specs.Plan.{Plan};

    ghost Value = { Plan };

    ghost view = { λ c. record { made = c.made; failing = c.failing.items; last = c.last; faults = c.faults } };
}

impl Calls {
    pub fn new(alloc: Global) -> Calls
        ensures { result ≡ no_plan }
    {
        Calls {
            made: 0,
            failing: Vec::new(alloc),
            last: u64::MAX,
            faults: 0,
        }
    }

    /// Lists further calls that are to fail. An `Err` changes nothing.
    #[tactic(auto, using(crate::proofs::Plans::still_fails_only))]
    pub fn list(&mut self, calls: &[u64]) -> Result<(), Memory>
        ensures ok { OnOk result (self.new ≡ listing self.old calls.now) }
        ensures err { OnErr result (self.new ≡ self.old) }
        ensures only { (count : ℕ) → FailsOnly self.old count → FailsOnly self.new count }
    {
        self.failing.extend_from_slice(calls)?;
        Ok(())
    }

    /// After so many further calls every call fails.
    pub fn stop_after(&mut self, calls: u64)
        ensures stops { self.new ≡ stopping self.old calls }
        ensures only { (count : ℕ) → FailsOnly self.old count → FailsOnly self.new count }
    {
        self.last = self.last.min(self.made.saturating_add(calls));
    }

    /// Counts a call, and a fault where that call is to fail.
    pub fn next_fails(&mut self) -> bool
        ensures answer { result ≡ fails_next self.old }
        ensures counts { self.new ≡ after_call self.old }
        ensures later { self.old.faults ≤ self.new.faults }
    {
        self.made = self.made.saturating_add(1);
        let fails = self.last < self.made || self.failing.contains(&self.made);
        if fails {
            self.faults = self.faults.saturating_add(1);
        }
        fails
    }

    /// Counts a fault of the call that was counted last.
    pub fn count_fault(&mut self)
        ensures counts { self.new ≡ with_fault self.old }
        ensures later { self.old.faults ≤ self.new.faults }
    {
        self.faults = self.faults.saturating_add(1);
    }
}
