//! The trait calls of an object in memory: how many were made, which of them fail, and how many failed. A call takes time by
//! the number of those that are listed.

ghost use Rattle.std.specs.Prelude.{◌≡◌, ◌≤◌, ℕ, OnOk, OnErr};
ghost use Rattle.lt_io.specs.Plan.{no_plan, listing, fails_next, after_call, with_fault, FailsOnly};

use lt_core::Memory;
use std::alloc::Global;
use std::marker::Model;

#[derive(Debug, Drop)]
pub struct Calls {
    made: u64,
    failing: Vec<u64>,
    faults: u64,
}

impl Model for Calls {
    ghost use Rattle.lt_io.specs.Plan.{Plan};

    ghost Value = { Plan };

    ghost view = { λ c. record { made = c.made; failing = c.failing.items; faults = c.faults } };
}

impl Calls {
    pub fn new(alloc: Global) -> Calls
        ensures { result ≡ no_plan }
    {
        Calls {
            made: 0,
            failing: Vec::new(alloc),
            faults: 0,
        }
    }

    /// Lists further calls that are to fail. An `Err` changes nothing.
    #[tactic(auto, using(crate::proofs::Plans::still_fails_only))]
    pub fn list(&mut self, calls: &[u64]) -> Result<(), Memory>
        ensures ok { OnOk result (self.new ≡ listing self.old calls.now) }
        ensures err { OnErr result (self.new ≡ self.old) }
        ensures only { (count : ℕ) → FailsOnly self.old count → FailsOnly self.new count }
    {
        self.failing.extend_from_slice(calls)?;
        Ok(())
    }

    /// Counts a call, and a fault where that call is listed.
    pub fn next_fails(&mut self) -> bool
        ensures answer { result ≡ fails_next self.old }
        ensures counts { self.new ≡ after_call self.old }
        ensures later { self.old.faults ≤ self.new.faults }
        ensures made { self.old.made ≤ self.new.made }
    {
        self.made = self.made.saturating_add(1);
        let fails = self.failing.contains(&self.made);
        if fails {
            self.faults = self.faults.saturating_add(1);
        }
        fails
    }

    /// Counts a fault of the call that was counted last.
    pub fn count_fault(&mut self)
        ensures counts { self.new ≡ with_fault self.old }
        ensures later { self.old.faults ≤ self.new.faults }
    {
        self.faults = self.faults.saturating_add(1);
    }
}
