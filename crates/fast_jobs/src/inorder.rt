//! The in-order machine's run.
ghost use Rattle.std.specs.Prelude.{◌≡◌, ◌≤◌, [], map};
ghost use Rattle.device_bus.specs.Bus.{device_order};
ghost use Rattle.inorder_machine.specs.Setup.{IsInorder};
ghost use Rattle.fast_jobs.specs.declared.job.Job.{Job as AnyJob};
ghost use Rattle.fast_jobs.specs.declared.job.SingleJob.{SingleJob as AnyRun};
ghost use Rattle.fast_jobs.specs.Ending.{Ends};
ghost use Rattle.fast_jobs.specs.Call.{writing_of};

use crate::early::play_inorder;
use crate::finish::finish_timed;
use crate::plan::Plan;
use crate::refusal::tell_want_of_memory;
use device_bus::Device;
use fsim_base::NoMemory;
use fsim_ports::{Failed, Sink};
use inorder_model::InorderCore;
use mono_model::Setup;
use report_text::Status;
use std::alloc::Global;

/// Plays a plan on the in-order machine, goes on to its end, and writes output and report.
pub fn run_inorder<K: Sink, D: Device>(
    alloc: Global,
    setup: &Setup,
    plan: &Plan,
    devices: Vec<D>,
    sink: &mut K,
) -> Status
    requires sound { IsInorder setup.now }
    requires order { map D.kind devices.items ≡ device_order }
    ensures count { K.faults sink.old ≤ K.faults sink.new }
    ensures ends { Ends (AnyJob.Single (AnyRun.Inorder setup.now plan.now)) []
        (writing_of K.written K.faults sink.old sink.new) result }
{
    let mut core = match InorderCore::new(alloc, setup, devices) {
        Ok(core) => core,
        Err(NoMemory) => return tell_want_of_memory(sink),
    };
    core.play(plan.events());
    match play_inorder(&mut core, setup.cycles, sink) {
        Ok(put) => {
            let last = core.committed();
            finish_timed(&last, core.output(), put, sink)
        }
        Err(Failed) => Status::WriteFault,
    }
}
