ghost use Rattle.std.specs.Prelude.{◌≡◌, ◌≤◌, ◌/◌, [], true, false, map, take, vec_len};
ghost use Rattle.device_bus.specs.Bus.{AreSets, device_order};
ghost use Rattle.mono_model.specs.Setup.{is_setup};
ghost use Rattle.fast_jobs.specs.Ending.{Ends};
ghost use Rattle.fast_jobs.specs.Call.{writing_of};
ghost use Rattle.fast_jobs.specs.Job.{CanBegin, CanStart, is_talk, sets_for};

use crate::counting::run_count;
use crate::early::{play_alone, play_core};
use crate::finish::{finish_alone, finish_timed};
use crate::inorder::run_inorder;
use crate::job::{Job, SingleJob};
use crate::plan::Plan;
use crate::profiling::run_profile;
use crate::refusal::tell_want_of_memory;
use crate::script::run_script;
use crate::stacking::run_stack;
use crate::sweep::run_sweep;
use crate::tracing::run_trace;
use device_bus::{Device, SET_SIZE};
use fast_threads::Session;
use fsim_base::NoMemory;
use fsim_ports::{Failed, Gate, Sink};
use func_model::AloneRun;
use machine_laws::run_ends_once;
use mono_model::Setup;
use report_text::Status;
use split_core::SplitCore;
use std::alloc::Global;
use std::sync::Wait;
use std::thread::Threads;

/// Does one run on one thread, writes its output and report, and gives the answer.
pub fn run<K: Sink, D: Device>(
    alloc: Global,
    job: &SingleJob,
    devices: Vec<D>,
    sink: &mut K,
) -> Status
    requires can { CanStart job.now }
    requires order { map D.kind devices.items ≡ device_order }
    ensures count { K.faults sink.old ≤ K.faults sink.new }
    ensures ends { Ends (Job.Single job.now) []
        (writing_of K.written K.faults sink.old sink.new) result }
{
    match job {
        SingleJob::Func(setup) => run_alone(alloc, setup, devices, sink),
        SingleJob::Run(setup) => run_to_end(alloc, setup, devices, sink),
        SingleJob::Sched(setup, plan) => run_plan(alloc, setup, plan, devices, sink),
        SingleJob::Inorder(setup, plan) => run_inorder(alloc, setup, plan, devices, sink),
        SingleJob::Back(setup, history, script) => {
            run_script(alloc, setup, *history, script, devices, sink)
        }
        SingleJob::Trace(setup, pipeline, from, to) => {
            run_trace(alloc, setup, *pipeline, *from, *to, devices, sink)
        }
        SingleJob::Stack(setup, pipeline) => run_stack(alloc, setup, *pipeline, devices, sink),
        SingleJob::Profile(setup, pipeline) => run_profile(alloc, setup, *pipeline, devices, sink),
        SingleJob::Count(setup) => run_count(alloc, setup, devices, sink),
    }
}

/// Does a job, a run on the machine on two threads, and each run of a sweep on one of its own where
/// one can be made.
pub fn run_in_threads<R: Threads + Wait + Sync, K: Sink, G: Gate + Sync, D: Device + Send>(
    rt: &R,
    alloc: Global,
    job: &Job,
    devices: Vec<D>,
    sink: &mut K,
    gate: &G,
) -> Status
    requires can { CanBegin job.now }
    requires no_talk { is_talk job.now ≡ false }
    requires sets { AreSets (vec_len devices / 3) (map D.kind devices.items) }
    requires room { sets_for job.now ≤ vec_len devices / 3 }
    ensures count { K.faults sink.old ≤ K.faults sink.new }
    ensures ends { Ends job.now [] (writing_of K.written K.faults sink.old sink.new) result }
{
    match job {
        Job::Single(SingleJob::Run(setup)) => {
            run_session(rt, alloc, setup, first_set(devices), sink, gate)
        }
        Job::Single(job) => run(alloc, job, first_set(devices), sink),
        Job::Sweep(files) => run_sweep(rt, alloc, files, devices, sink),
        // A talk is played on one thread.
        Job::Gdb(_, _) => unreachable!(),
    }
}

/// The first of the sets of devices; the others are dropped.
pub fn first_set<D: Device>(devices: Vec<D>) -> Vec<D>
    requires sets { AreSets (vec_len devices / 3) (map D.kind devices.items) }
    ensures first { result.items ≡ take 3 devices.items }
    ensures order { map D.kind result.items ≡ device_order }
{
    let mut devices = devices;
    devices.truncate(SET_SIZE);
    devices
}

/// The run on the machine, on two threads.
fn run_session<R: Threads + Wait + Sync, S: Sink, G: Gate + Sync, D: Device + Send>(
    rt: &R,
    alloc: Global,
    setup: &Setup,
    devices: Vec<D>,
    sink: &mut S,
    gate: &G,
) -> Status
    requires sound { is_setup setup.now ≡ true }
    requires order { map D.kind devices.items ≡ device_order }
    ensures count { S.faults sink.old ≤ S.faults sink.new }
    ensures ends { Ends (Job.Single (SingleJob.Run setup.now)) []
        (writing_of S.written S.faults sink.old sink.new) result }
{
    let mut session = match Session::<D>::new(alloc, setup, devices) {
        Ok(session) => session,
        Err(NoMemory) => return tell_want_of_memory(sink),
    };
    session.run(rt, gate);
    // The law that the machine has ended then.
    run_ends_once();
    let last = session.result();
    finish_timed(&last, session.output(), 0, sink)
}

/// The sequential run.
fn run_alone<K: Sink, D: Device>(
    alloc: Global,
    setup: &Setup,
    devices: Vec<D>,
    sink: &mut K,
) -> Status
    requires sound { is_setup setup.now ≡ true }
    requires order { map D.kind devices.items ≡ device_order }
    ensures count { K.faults sink.old ≤ K.faults sink.new }
    ensures ends { Ends (Job.Single (SingleJob.Func setup.now)) []
        (writing_of K.written K.faults sink.old sink.new) result }
{
    let mut run = match AloneRun::new(alloc, setup, devices) {
        Ok(run) => run,
        Err(NoMemory) => return tell_want_of_memory(sink),
    };
    match play_alone(&mut run, setup.cycles, sink) {
        Ok(put) => finish_alone(&run.report(), run.output(), put, sink),
        Err(Failed) => Status::WriteFault,
    }
}

/// The run on the machine, on one thread.
fn run_to_end<K: Sink, D: Device>(
    alloc: Global,
    setup: &Setup,
    devices: Vec<D>,
    sink: &mut K,
) -> Status
    requires sound { is_setup setup.now ≡ true }
    requires order { map D.kind devices.items ≡ device_order }
    ensures count { K.faults sink.old ≤ K.faults sink.new }
    ensures ends { Ends (Job.Single (SingleJob.Run setup.now)) []
        (writing_of K.written K.faults sink.old sink.new) result }
{
    let mut core = match SplitCore::new(alloc, setup, devices) {
        Ok(core) => core,
        Err(NoMemory) => return tell_want_of_memory(sink),
    };
    match play_core(&mut core, setup.cycles, sink) {
        Ok(put) => {
            let last = core.committed();
            finish_timed(&last, core.output(), put, sink)
        }
        Err(Failed) => Status::WriteFault,
    }
}

/// The events of a plan, and the way to the next cycle boundary.
fn run_plan<K: Sink, D: Device>(
    alloc: Global,
    setup: &Setup,
    plan: &Plan,
    devices: Vec<D>,
    sink: &mut K,
) -> Status
    requires sound { is_setup setup.now ≡ true }
    requires order { map D.kind devices.items ≡ device_order }
    ensures count { K.faults sink.old ≤ K.faults sink.new }
    ensures ends { Ends (Job.Single (SingleJob.Sched setup.now plan.now)) []
        (writing_of K.written K.faults sink.old sink.new) result }
{
    let mut core = match SplitCore::new(alloc, setup, devices) {
        Ok(core) => core,
        Err(NoMemory) => return tell_want_of_memory(sink),
    };
    core.play(plan.events());
    core.to_boundary();
    let last = core.committed();
    finish_timed(&last, core.output(), 0, sink)
}
