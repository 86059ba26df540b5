//! Runs on a machine, and what each address cost.
ghost use Rattle.std.specs.Prelude.{◌≡◌, ◌≤◌, [], length, map};
ghost use Rattle.mono_model.specs.Setup.{caches_params};
ghost use Rattle.device_bus.specs.Bus.{device_order};
ghost use Rattle.insight_model.specs.Cycles.{cycles, known_start};
ghost use Rattle.cycle_watch.specs.Known.{StandsAt};
ghost use Rattle.cycle_watch.specs.Profiled.{IsProfileOf};
ghost use Rattle.fast_jobs.specs.declared.job.Job.{Job as AnyJob};
ghost use Rattle.fast_jobs.specs.declared.job.SingleJob.{SingleJob as AnyRun};
ghost use Rattle.fast_jobs.specs.Ending.{Ends};
ghost use Rattle.fast_jobs.specs.Call.{writing_of};
ghost use Rattle.fast_jobs.specs.Job.{CanWatch};
ghost use Rattle.fast_jobs.specs.Played.{sight_at};

use crate::played::{Played, has_ended};
use crate::refusal::tell_want_of_memory;
use cycle_watch::Profiling;
use device_bus::Device;
use fsim_base::NoMemory;
use fsim_ports::Sink;
use inorder_laws::run_in_order_ends_once;
use inorder_model::InorderCore;
use insight_model::Pipeline;
use mono_model::Setup;
use report_text::Status;
use split_core::SplitCore;
use std::alloc::Global;

/// Runs a machine to its end, and writes what each address cost.
pub fn run_profile<K: Sink, D: Device>(
    alloc: Global,
    setup: &Setup,
    pipeline: Pipeline,
    devices: Vec<D>,
    sink: &mut K,
) -> Status
    requires can { CanWatch pipeline setup.now }
    requires order { map D.kind devices.items ≡ device_order }
    ensures count { K.faults sink.old ≤ K.faults sink.new }
    ensures ends { Ends (AnyJob.Single (AnyRun.Profile setup.now pipeline)) []
        (writing_of K.written K.faults sink.old sink.new) result }
{
    match pipeline {
        Pipeline::Window => match SplitCore::new(alloc, setup, devices) {
            Ok(core) => profile_of(alloc, setup, pipeline, core, sink),
            Err(NoMemory) => tell_want_of_memory(sink),
        },
        Pipeline::Inorder => match InorderCore::new(alloc, setup, devices) {
            Ok(core) => profile_of(alloc, setup, pipeline, core, sink),
            Err(NoMemory) => tell_want_of_memory(sink),
        },
    }
}

/// The same of a machine that stands at its start.
fn profile_of<M: Played + Drop, K: Sink>(
    alloc: Global,
    setup: &Setup,
    pipeline: Pipeline,
    core: M,
    sink: &mut K,
) -> Status
    requires kind { pipeline ≡ M.plays.pipeline }
    requires can { CanWatch pipeline setup.now }
    requires starts { M.plays.starts setup.now 0 core }
    ensures count { K.faults sink.old ≤ K.faults sink.new }
    ensures ends { Ends (AnyJob.Single (AnyRun.Profile setup.now pipeline)) []
        (writing_of K.written K.faults sink.old sink.new) result }
{
    let mut core = core;
    let mut profiling = match Profiling::new(alloc, pipeline, setup, core.side()) {
        Ok(profiling) => profiling,
        Err(NoMemory) => return tell_want_of_memory(sink),
    };
    profile_cycles(setup, &mut core, &mut profiling);
    match profiling.write(sink) {
        Ok(()) => Status::Shown,
        Err(_) => Status::WriteFault,
    }
}

/// Plays a machine from its start until its run has ended, and looks at each cycle as it begins.
fn profile_cycles<M: Played>(setup: &Setup, core: &mut M, profiling: &mut Profiling)
    requires can { CanWatch M.plays.pipeline setup.now }
    requires starts { M.plays.starts setup.now 0 core.old }
    requires stands { StandsAt M.plays.pipeline setup.now.params
        (sight_at M.plays.pipeline setup.now 0) (known_start setup.now.image.entry)
        profiling.old.heads }
    requires none { IsProfileOf setup.now.image (caches_params setup.now.params)
        M.plays.pipeline [] profiling.old }
    ensures profiled { IsProfileOf setup.now.image (caches_params setup.now.params)
        M.plays.pipeline (cycles M.plays.pipeline setup.now setup.now.cycles) profiling.new }
    ensures few { length (cycles M.plays.pipeline setup.now setup.now.cycles)
        ≤ setup.now.cycles }
{
    // The law that the in-order machine's run ends.
    run_in_order_ends_once();
    for _ in 0..setup.cycles {
        if has_ended(core) {
            return;
        }
        core.cycle_on();
        profiling.look(core.side());
    }
}
