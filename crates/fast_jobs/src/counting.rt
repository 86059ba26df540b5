//! The sequential run, with a count of its instructions by address.
ghost use Rattle.std.specs.Prelude.{◌≡◌, ◌≤◌, [], true, map};
ghost use Rattle.device_bus.specs.Bus.{device_order};
ghost use Rattle.mono_model.specs.Setup.{is_setup};
ghost use Rattle.fast_jobs.specs.declared.job.Job.{Job as AnyJob};
ghost use Rattle.fast_jobs.specs.declared.job.SingleJob.{SingleJob as AnyRun};
ghost use Rattle.fast_jobs.specs.Ending.{Ends};
ghost use Rattle.fast_jobs.specs.Call.{writing_of};

use crate::refusal::tell_want_of_memory;
use device_bus::Device;
use fsim_base::NoMemory;
use fsim_ports::Sink;
use instruction_count::InstructionCounts;
use mono_model::Setup;
use report_text::Status;
use std::alloc::Global;

/// Runs alone to the end, and writes how often each address was executed.
pub fn run_count<K: Sink, D: Device>(
    alloc: Global,
    setup: &Setup,
    devices: Vec<D>,
    sink: &mut K,
) -> Status
    requires sound { is_setup setup.now ≡ true }
    requires order { map D.kind devices.items ≡ device_order }
    ensures count { K.faults sink.old ≤ K.faults sink.new }
    ensures ends { Ends (AnyJob.Single (AnyRun.Count setup.now)) []
        (writing_of K.written K.faults sink.old sink.new) result }
{
    let counts = match InstructionCounts::of_run(alloc, setup, devices) {
        Ok(counts) => counts,
        Err(NoMemory) => return tell_want_of_memory(sink),
    };
    match counts.write(sink) {
        Ok(()) => Status::Shown,
        Err(_) => Status::WriteFault,
    }
}
