ghost use Rattle.std.specs.Prelude.{◌≡◌, ◌≤◌, OnOk, OnErr};
ghost use Rattle.fsim_ports.specs.Plan.{Plan, empty_plan, with_failing, is_to_fail, called};
ghost use Rattle.fsim_ports.specs.Plan.{faulted};

use fsim_base::NoMemory;
use std::alloc::Global;
use std::marker::Model;

/// Which calls are to fail, with counts of the calls and the faults so far.
#[derive(Debug, Drop)]
pub struct FaultPlan {
    calls: u64,
    failing: Vec<u64>,
    faults: u64,
}

impl Model for FaultPlan {
    ghost Value = { Plan };

    ghost view = { λ p. record { calls = p.calls; failing = p.failing.items; faults = p.faults } };
}

impl FaultPlan {
    /// A plan in which no call is to fail.
    pub fn new(alloc: Global) -> FaultPlan
        ensures empty { result ≡ empty_plan }
    {
        FaultPlan {
            calls: 0,
            failing: Vec::new(alloc),
            faults: 0,
        }
    }

    /// Adds a call to those that are to fail. Calls are counted from 1.
    pub fn fail_at(&mut self, call: u64) -> Result<(), NoMemory>
        ensures ok { OnOk result (self.new ≡ with_failing self.old call) }
        ensures err { OnErr result (self.new ≡ self.old) }
    {
        if self.failing.push(call).is_err() {
            return Err(NoMemory);
        }
        Ok(())
    }

    /// Counts a call, and answers whether it is to fail.
    pub fn next_call(&mut self) -> bool
        ensures due { result ≡ is_to_fail self.old }
        ensures counted { self.new ≡ called self.old }
    {
        self.calls = self.calls.saturating_add(1);
        self.failing.as_slice().contains(&self.calls)
    }

    /// Counts a fault.
    pub fn count_fault(&mut self)
        ensures counted { self.new ≡ faulted self.old }
        ensures kept { self.old.faults ≤ self.new.faults }
    {
        self.faults = self.faults.saturating_add(1);
    }
}
