ghost use Rattle.std.specs.Prelude.{◌≡◌, ◌≤◌, ◌<◌, ◌↔◌, [], length, Some, IsTrue, OnOk, OnErr};
ghost use Rattle.fsim_ports.specs.Files.{holding_of, IsPart};
ghost use Rattle.fsim_ports.specs.Plan.{empty_plan, with_failing};
ghost use Rattle.fsim_ports.specs.Memory.{FilesInMemory, with_file, read_fails, plan_after_read};

use crate::outside::{Files, Part};
use crate::plan::FaultPlan;
use crate::table::{NameTable, part_of};
use fsim_base::NoMemory;
use std::alloc::Global;
use std::marker::Model;

/// Files in memory whose reads fail where a list says so.
#[derive(Debug, Drop)]
pub struct MemoryFiles {
    table: NameTable,
    plan: FaultPlan,
}

impl Model for MemoryFiles {
    ghost Value = { FilesInMemory };

    ghost view = { λ m. record { names = m.table; plan = m.plan } };
}

impl MemoryFiles {
    /// No files, and no read that is to fail.
    pub fn new(alloc: Global) -> MemoryFiles
        ensures empty { result ≡ record { names = []; plan = empty_plan } }
    {
        MemoryFiles {
            table: NameTable::new(alloc),
            plan: FaultPlan::new(alloc),
        }
    }

    /// Puts bytes under a name. A name that is added again has its new bytes.
    pub fn add(&mut self, name: &str, bytes: &[u8]) -> Result<(), NoMemory>
        ensures ok { OnOk result (self.new
            ≡ record self.old { names = with_file self.old.names name.now bytes.now }) }
        ensures err { OnErr result (self.new ≡ self.old) }
    {
        self.table.add(name, bytes)
    }

    /// Lets one more call of `read` fail, at a name that is there. Calls are counted from 1.
    pub fn fail_at(&mut self, call: u64) -> Result<(), NoMemory>
        ensures ok { OnOk result (self.new
            ≡ record self.old { plan = with_failing self.old.plan call }) }
        ensures err { OnErr result (self.new ≡ self.old) }
    {
        self.plan.fail_at(call)
    }
}

impl Files for MemoryFiles {
    ghost told = { λ m. Some m.names };

    ghost faults = { λ m. m.plan.faults };

    /// As the trait says, and fails exactly where the call is in the list and the name is there.
    fn read(&mut self, name: &str, at: u64, buf: &mut [u8]) -> Part
        requires room { 0 < length buf.old }
        ensures same { Some self.new.names ≡ Some self.old.names }
        ensures count { self.old.plan.faults ≤ self.new.plan.faults }
        ensures part { IsPart (holding_of (Some self.old.names) name.now) at self.old.plan.faults
            self.new.plan.faults buf.new result }
        ensures fails { (result ≡ Part.Failed) ↔ IsTrue (read_fails self.old name.now) }
        ensures plan { self.new.plan ≡ plan_after_read self.old name.now }
    {
        let is_to_fail = self.plan.next_call();
        let Some(file) = self.table.find(name) else {
            return Part::Missing;
        };
        if is_to_fail {
            self.plan.count_fault();
            return Part::Failed;
        }
        part_of(file, at, buf)
    }
}
