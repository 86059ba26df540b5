//! Runs on a machine, and their traces.
ghost use Rattle.std.specs.Prelude.{◌≡◌, ◌≤◌, ◌&&◌, ℕ, [], map, nat_lt, not};
ghost use Rattle.mono_model.specs.declared.setup.Setup.{Setup as AnySetup};
ghost use Rattle.mono_model.specs.Final.{has_ended};
ghost use Rattle.device_bus.specs.Bus.{device_order};
ghost use Rattle.fsim_ports.specs.Sink.{Puts};
ghost use Rattle.insight_model.specs.Trace.{trace_text};
ghost use Rattle.cycle_watch.specs.Known.{Watches};
ghost use Rattle.cycle_watch.specs.Traced.{IsFresh};
ghost use Rattle.fast_jobs.specs.declared.job.Job.{Job as AnyJob};
ghost use Rattle.fast_jobs.specs.declared.job.SingleJob.{SingleJob as AnyRun};
ghost use Rattle.fast_jobs.specs.Ending.{Ends};
ghost use Rattle.fast_jobs.specs.Call.{writing_of};
ghost use Rattle.fast_jobs.specs.Job.{CanWatch};
ghost use Rattle.fast_jobs.specs.Played.{ComesTo, IsPlaying, sight_at};

use crate::played::{Played, has_ended};
use crate::refusal::tell_want_of_memory;
use cycle_watch::{Tracing, Watched};
use device_bus::Device;
use fsim_base::NoMemory;
use fsim_ports::Sink;
use inorder_laws::run_in_order_ends_once;
use inorder_model::InorderCore;
use insight_model::Pipeline;
use machine_laws::run_ends_once;
use mono_model::Setup;
use report_text::{Status, WriteFault};
use split_core::SplitCore;
use std::alloc::Global;

/// Writes the trace of a run from one cycle to another, as it goes.
pub fn run_trace<K: Sink, D: Device>(
    alloc: Global,
    setup: &Setup,
    pipeline: Pipeline,
    from: u64,
    to: u64,
    devices: Vec<D>,
    sink: &mut K,
) -> Status
    requires can { CanWatch pipeline setup.now }
    requires order { map D.kind devices.items ≡ device_order }
    ensures count { K.faults sink.old ≤ K.faults sink.new }
    ensures ends { Ends (AnyJob.Single (AnyRun.Trace setup.now pipeline from to)) []
        (writing_of K.written K.faults sink.old sink.new) result }
{
    match pipeline {
        Pipeline::Window => match SplitCore::new(alloc, setup, devices) {
            Ok(core) => trace_of(alloc, setup, pipeline, from, to, core, sink),
            Err(NoMemory) => tell_want_of_memory(sink),
        },
        Pipeline::Inorder => match InorderCore::new(alloc, setup, devices) {
            Ok(core) => trace_of(alloc, setup, pipeline, from, to, core, sink),
            Err(NoMemory) => tell_want_of_memory(sink),
        },
    }
}

/// The same of a machine that stands at its start.
fn trace_of<M: Played + Drop, K: Sink>(
    alloc: Global,
    setup: &Setup,
    pipeline: Pipeline,
    from: u64,
    to: u64,
    core: M,
    sink: &mut K,
) -> Status
    requires kind { pipeline ≡ M.plays.pipeline }
    requires can { CanWatch pipeline setup.now }
    requires starts { M.plays.starts setup.now 0 core }
    ensures count { K.faults sink.old ≤ K.faults sink.new }
    ensures ends { Ends (AnyJob.Single (AnyRun.Trace setup.now pipeline from to)) []
        (writing_of K.written K.faults sink.old sink.new) result }
{
    let mut core = core;
    let mut tracing = match Tracing::new(alloc, pipeline, setup, core.side()) {
        Ok(tracing) => tracing,
        Err(NoMemory) => return tell_want_of_memory(sink),
    };
    match traced(setup, from, to, &mut core, &mut tracing, sink) {
        Ok(()) => Status::Shown,
        Err(_) => Status::WriteFault,
    }
}

/// Plays a machine from its start to the start of a cycle, or to the end of its run.
fn play_to<M: Played>(from: u64, core: &mut M)
    requires playing { IsPlaying M.plays core.old }
    ensures comes { (s : AnySetup) → M.plays.starts s 0 core.old
        → ComesTo M.plays s from core.new }
{
    for _ in 0..from {
        if has_ended(core) {
            return;
        }
        core.cycle_on();
    }
}

/// Whether a machine plays on to a cycle, from the start of this one.
fn plays_on<M: Played>(core: &M, cycle: u64, last: u64) -> bool
    ensures plays { (s : AnySetup) (n : ℕ) → M.plays.starts s n core.now
        → result
        ≡ (not (has_ended (sight_at M.plays.pipeline s n).end) && nat_lt cycle last) }
{
    !has_ended(core) && cycle < last
}

/// Plays a machine from its start, and writes the trace from one cycle to another.
fn traced<M: Played, K: Sink>(
    setup: &Setup,
    from: u64,
    to: u64,
    core: &mut M,
    tracing: &mut Tracing,
    sink: &mut K,
) -> Result<(), WriteFault>
    requires can { CanWatch M.plays.pipeline setup.now }
    requires starts { M.plays.starts setup.now 0 core.old }
    requires fresh { IsFresh tracing.old }
    requires watches { Watches M.plays.pipeline setup.now.params tracing.old.last }
    ensures count { K.faults sink.old ≤ K.faults sink.new }
    ensures written { Puts (trace_text M.plays.pipeline setup.now setup.now.cycles from to)
        (K.faults sink.old) (K.faults sink.new) (K.written sink.old) (K.written sink.new) result }
{
    // The laws that the run ends.
    run_ends_once();
    run_in_order_ends_once();
    play_to(from, core);
    let first = core.side().cycle();
    let last = to.max(first);
    tracing.open(first, core.side(), sink)?;
    while plays_on(core, tracing.cycle(), last) {
        core.cycle_on();
        tracing.look(last, core.side(), sink)?;
    }
    let end = tracing.cycle();
    tracing.close(end, sink)
}
