//! A debugger's script: its commands, and what comes of them.
ghost use Rattle.std.specs.Prelude.{◌≡◌, ◌≤◌, [], true, map};
ghost use Rattle.device_bus.specs.Bus.{device_order};
ghost use Rattle.mono_model.specs.Setup.{is_setup};
ghost use Rattle.fast_jobs.specs.declared.job.Job.{Job as AnyJob};
ghost use Rattle.fast_jobs.specs.declared.job.SingleJob.{SingleJob as AnyRun};
ghost use Rattle.fast_jobs.specs.Ending.{Ends};
ghost use Rattle.fast_jobs.specs.Call.{writing_of};
ghost use Rattle.fast_jobs.specs.Gives.{Gives};
ghost use Rattle.fast_jobs.specs.Job.{script_in};

use crate::refusal::{Refusal, tell_want_of_memory};
use back_debug::{Debugger, Script, play};
use device_bus::Device;
use fsim_base::NoMemory;
use fsim_ports::Sink;
use mono_model::Setup;
use report_text::Status;
use std::alloc::Global;

/// The script that the bytes are.
#[tactic(auto, unfolding(crate::specs::Job::script_in))]
pub fn read_script(alloc: Global, bytes: &[u8]) -> Result<Script, Refusal>
    ensures script { Gives (script_in bytes.now) result }
{
    Ok(Script::read(alloc, bytes)?)
}

/// Plays a script on a debugger that remembers so many steps, and writes what its commands show.
pub fn run_script<K: Sink, D: Device>(
    alloc: Global,
    setup: &Setup,
    history: u32,
    script: &Script,
    devices: Vec<D>,
    sink: &mut K,
) -> Status
    requires sound { is_setup setup.now ≡ true }
    requires order { map D.kind devices.items ≡ device_order }
    ensures count { K.faults sink.old ≤ K.faults sink.new }
    ensures ends { Ends (AnyJob.Single (AnyRun.Back setup.now history script.now)) []
        (writing_of K.written K.faults sink.old sink.new) result }
{
    let mut debugger = match Debugger::new(alloc, setup, devices, history) {
        Ok(debugger) => debugger,
        Err(NoMemory) => return tell_want_of_memory(sink),
    };
    match play(&mut debugger, script, sink) {
        Ok(()) => Status::Shown,
        Err(_) => Status::WriteFault,
    }
}
