//! Runs on a machine, and on what their cycles were spent.
ghost use Rattle.std.specs.Prelude.{◌≡◌, ◌<◌, ◌≤◌, ◌++◌, [], map};
ghost use Rattle.mono_model.specs.Report.{closed_output, joined, report_text};
ghost use Rattle.device_bus.specs.Bus.{device_order};
ghost use Rattle.fsim_ports.specs.Sink.{Puts};
ghost use Rattle.insight_model.specs.Cycles.{cycles, known_start};
ghost use Rattle.report_text.specs.StackText.{stack_lines_of};
ghost use Rattle.cycle_watch.specs.Known.{StandsAt};
ghost use Rattle.cycle_watch.specs.Counted.{IsStackOf};
ghost use Rattle.fast_jobs.specs.declared.job.Job.{Job as AnyJob};
ghost use Rattle.fast_jobs.specs.declared.job.SingleJob.{SingleJob as AnyRun};
ghost use Rattle.fast_jobs.specs.Ending.{Ends};
ghost use Rattle.fast_jobs.specs.Call.{writing_of};
ghost use Rattle.fast_jobs.specs.Job.{CanWatch};
ghost use Rattle.fast_jobs.specs.Played.{IsPlayingRun, sight_at};

use crate::finish::status_for;
use crate::played::{Played, has_ended};
use crate::refusal::tell_want_of_memory;
use cycle_watch::Stacking;
use device_bus::Device;
use fsim_base::NoMemory;
use fsim_ports::Sink;
use inorder_laws::run_in_order_ends_once;
use inorder_model::InorderCore;
use insight_model::Pipeline;
use machine_laws::run_ends_once;
use mono_model::{Final, Params, Setup};
use report_text::{StackCounts, Status, WriteFault, report, stack_lines};
use split_core::SplitCore;
use std::alloc::Global;

/// Runs a machine to its end, and writes output, report, and on what its cycles were spent.
pub fn run_stack<K: Sink, D: Device>(
    alloc: Global,
    setup: &Setup,
    pipeline: Pipeline,
    devices: Vec<D>,
    sink: &mut K,
) -> Status
    requires can { CanWatch pipeline setup.now }
    requires order { map D.kind devices.items ≡ device_order }
    ensures count { K.faults sink.old ≤ K.faults sink.new }
    ensures ends { Ends (AnyJob.Single (AnyRun.Stack setup.now pipeline)) []
        (writing_of K.written K.faults sink.old sink.new) result }
{
    match pipeline {
        Pipeline::Window => match SplitCore::new(alloc, setup, devices) {
            Ok(core) => stack_of(alloc, setup, pipeline, core, sink),
            Err(NoMemory) => tell_want_of_memory(sink),
        },
        Pipeline::Inorder => match InorderCore::new(alloc, setup, devices) {
            Ok(core) => stack_of(alloc, setup, pipeline, core, sink),
            Err(NoMemory) => tell_want_of_memory(sink),
        },
    }
}

/// The same of a machine that stands at its start.
fn stack_of<M: Played + Drop, K: Sink>(
    alloc: Global,
    setup: &Setup,
    pipeline: Pipeline,
    core: M,
    sink: &mut K,
) -> Status
    requires kind { pipeline ≡ M.plays.pipeline }
    requires can { CanWatch pipeline setup.now }
    requires starts { M.plays.starts setup.now 0 core }
    ensures count { K.faults sink.old ≤ K.faults sink.new }
    ensures ends { Ends (AnyJob.Single (AnyRun.Stack setup.now pipeline)) []
        (writing_of K.written K.faults sink.old sink.new) result }
{
    let mut core = core;
    let mut stacking = match Stacking::new(alloc, pipeline, setup, core.side()) {
        Ok(stacking) => stacking,
        Err(NoMemory) => return tell_want_of_memory(sink),
    };
    // The laws that the machine has ended at its limit.
    run_ends_once();
    run_in_order_ends_once();
    stack_cycles(setup, &mut core, &mut stacking);
    core.to_end();
    let last = core.committed();
    let counts = stacking.counts();
    match put_stack(&last, core.output(), pipeline, &setup.params, counts, sink) {
        Ok(()) => status_for(last.end),
        Err(_) => Status::WriteFault,
    }
}

/// Plays a machine from its start until its run has ended, and looks at each cycle as it begins.
fn stack_cycles<M: Played>(setup: &Setup, core: &mut M, stacking: &mut Stacking)
    requires can { CanWatch M.plays.pipeline setup.now }
    requires starts { M.plays.starts setup.now 0 core.old }
    requires stands { StandsAt M.plays.pipeline setup.now.params
        (sight_at M.plays.pipeline setup.now 0) (known_start setup.now.image.entry)
        stacking.old.heads }
    requires none { IsStackOf M.plays.pipeline setup.now.params [] stacking.old.counts }
    ensures playing { IsPlayingRun M.plays setup.now core.new }
    ensures counted { IsStackOf M.plays.pipeline setup.now.params
        (cycles M.plays.pipeline setup.now setup.now.cycles) stacking.new.counts }
{
    // The law that the in-order machine's run ends.
    run_in_order_ends_once();
    for _ in 0..setup.cycles {
        if has_ended(core) {
            return;
        }
        core.cycle_on();
        stacking.look(core.side());
    }
}

/// Writes output, report and stack of a run.
fn put_stack<K: Sink>(
    last: &Final,
    output: &[u8],
    pipeline: Pipeline,
    params: &Params,
    counts: &StackCounts,
    sink: &mut K,
) -> Result<(), WriteFault>
    requires width { params.now.core_commit < 9 }
    ensures count { K.faults sink.old ≤ K.faults sink.new }
    ensures written { Puts ((closed_output output.now ++ report_text last.now)
        ++ joined (stack_lines_of pipeline params.now counts.now))
        (K.faults sink.old) (K.faults sink.new) (K.written sink.old) (K.written sink.new) result }
{
    report(last, output, 0, sink)?;
    stack_lines(pipeline, params, counts, sink)
}
