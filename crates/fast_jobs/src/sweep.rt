//! Runs an image on each of many machines, and writes a line of each.
ghost use Rattle.std.specs.Prelude.{◌≡◌, ℕ, ◌+◌, ◌*◌, ◌≤◌, ◌/◌, ◌++◌, map, length};
ghost use Rattle.std.specs.Prelude.{[], All, vec_len, IfOk, OnOk};
ghost use Rattle.std.specs.Vec.Iter.{into_iter_items, into_iter_len};
ghost use Rattle.fsim_ports.specs.Sink.{Puts};
ghost use Rattle.device_bus.specs.Bus.{AreSets, device_order};
ghost use Rattle.fast_jobs.specs.declared.job.Job.{Job as AnyJob};
ghost use Rattle.fast_jobs.specs.Ending.{Ends};
ghost use Rattle.fast_jobs.specs.Call.{writing_of};
ghost use Rattle.fast_jobs.specs.Job.{CanSweep};
ghost use Rattle.fast_jobs.specs.SweepFiles.{AreTold, HasLine, HasSets, IsSoundOn, finals_behind};
ghost use Rattle.fast_jobs.specs.SweepFiles.{last_on, next_line, told_lines};

use crate::grow::{append, push};
use crate::refusal::{Refusal, tell_want_of_memory};
use crate::sweep_files::{NamedMachine, SweepFiles};
use crate::sweep_setup::setup_of;
use device_bus::Device;
use fast_cli::Pipeline;
use fsim_base::NoMemory;
use fsim_ports::Sink;
use mono_model::Final;
use report_text::{Status, WriteFault, sweep_line, sweep_refusal};
use std::alloc::Global;
use std::thread::Threads;
use std::vec::IntoIter;
use sweep_runs::{Job, MOST_JOBS, sweep, sweep_in_order};

/// What a sweep has of machines, in their order: of each why it has no run, if so, and what is
/// reported of those that have one.
#[derive(Drop)]
struct Told {
    refusals: Vec<Option<Refusal>>,
    finals: Vec<Final>,
}

/// Machines that are open: of each why it has no run, if so, and the jobs of those that have one.
#[derive(Drop)]
struct Batch<D: Device> {
    refusals: Vec<Option<Refusal>>,
    jobs: Vec<Job<D>>,
}

/// Does a sweep, writes its lines, and gives the answer. Nothing is written before the last run has
/// ended.
pub fn run_sweep<R: Threads + Sync, K: Sink, D: Device + Send>(
    rt: &R,
    alloc: Global,
    files: &SweepFiles,
    devices: Vec<D>,
    sink: &mut K,
) -> Status
    requires can { CanSweep files.now }
    requires sets { AreSets (vec_len devices / 3) (map D.kind devices.items) }
    requires room { length files.now.machines ≤ vec_len devices / 3 }
    ensures count { K.faults sink.old ≤ K.faults sink.new }
    ensures ends { Ends (AnyJob.Sweep files.now) []
        (writing_of K.written K.faults sink.old sink.new) result }
{
    let told = match tell_all(rt, alloc, files, devices) {
        Ok(told) => told,
        Err(NoMemory) => return tell_want_of_memory(sink),
    };
    let machines = files.machines.as_slice();
    match put_lines(
        machines,
        told.refusals.as_slice(),
        told.finals.as_slice(),
        sink,
    ) {
        Ok(()) => Status::Shown,
        Err(_) => Status::WriteFault,
    }
}

/// Opens the machines and does their runs, up to `MOST_JOBS` at a time.
fn tell_all<R: Threads + Sync, D: Device + Send>(
    rt: &R,
    alloc: Global,
    files: &SweepFiles,
    devices: Vec<D>,
) -> Result<Told, NoMemory>
    requires can { CanSweep files.now }
    requires sets { AreSets (vec_len devices / 3) (map D.kind devices.items) }
    requires room { length files.now.machines ≤ vec_len devices / 3 }
    ensures told { IfOk result (λ told.
        AreTold files.now files.now.machines told.refusals.items told.finals.items) }
    ensures lines { IfOk result (λ told. All HasLine told.refusals.items) }
{
    let mut devices = devices.into_iter();
    let mut told = Told {
        refusals: Vec::new(alloc),
        finals: Vec::new(alloc),
    };
    let mut machines = files.machines.as_slice();
    while !machines.is_empty() {
        let (next, rest) = machines.split_at(machines.len().min(MOST_JOBS));
        let batch = open_batch(alloc, files, next, &mut devices)?;
        run_batch(rt, alloc, files.pipeline, batch, &mut told)?;
        machines = rest;
    }
    Ok(told)
}

/// Does the runs of machines that are open, and adds what the sweep has of them.
fn run_batch<R: Threads + Sync, D: Device + Send>(
    rt: &R,
    alloc: Global,
    pipeline: Pipeline,
    batch: Batch<D>,
    told: &mut Told,
) -> Result<(), NoMemory>
    requires few { vec_len batch.jobs ≤ MOST_JOBS }
    requires sound { All (λ job. IsSoundOn pipeline job.setup) batch.jobs.items }
    requires order { All (λ job. map D.kind job.devices.items ≡ device_order) batch.jobs.items }
    ensures refusals { OnOk result
        (told.new.refusals.items ≡ told.old.refusals.items ++ batch.refusals.items) }
    ensures finals { OnOk result (told.new.finals.items
        ≡ told.old.finals.items ++ map (λ job. last_on pipeline job.setup) batch.jobs.items) }
{
    let Batch { mut refusals, jobs } = batch;
    let mut finals = play_jobs(rt, alloc, pipeline, jobs)?;
    append(&mut told.refusals, &mut refusals)?;
    append(&mut told.finals, &mut finals)
}

/// Does the runs of jobs on a pipeline.
fn play_jobs<R: Threads + Sync, D: Device + Send>(
    rt: &R,
    alloc: Global,
    pipeline: Pipeline,
    jobs: Vec<Job<D>>,
) -> Result<Vec<Final>, NoMemory>
    requires few { vec_len jobs ≤ MOST_JOBS }
    requires sound { All (λ job. IsSoundOn pipeline job.setup) jobs.items }
    requires order { All (λ job. map D.kind job.devices.items ≡ device_order) jobs.items }
    ensures finals { IfOk result (λ finals. finals.items
        ≡ map (λ job. last_on pipeline job.setup) jobs.items) }
{
    match pipeline {
        Pipeline::Window => sweep(rt, alloc, jobs),
        Pipeline::Inorder => sweep_in_order(rt, alloc, jobs),
    }
}

/// Opens machines, each that can run with the next set of devices.
fn open_batch<D: Device>(
    alloc: Global,
    files: &SweepFiles,
    machines: &[NamedMachine],
    devices: &mut IntoIter<D>,
) -> Result<Batch<D>, NoMemory>
    requires can { CanSweep files.now }
    requires sets { HasSets (length machines.now) (map D.kind (into_iter_items devices.old)) }
    requires count { 3 * length machines.now ≤ into_iter_len devices.old }
    ensures sets { OnOk result ((least : ℕ)
        → HasSets (length machines.now + least) (map D.kind (into_iter_items devices.old))
        → HasSets least (map D.kind (into_iter_items devices.new))) }
    ensures count { OnOk result
        (into_iter_len devices.old ≤ into_iter_len devices.new + 3 * length machines.now) }
    ensures few { IfOk result (λ batch. vec_len batch.jobs ≤ length machines.now) }
    ensures sound { IfOk result (λ batch.
        All (λ job. IsSoundOn files.now.pipeline job.setup) batch.jobs.items) }
    ensures order { IfOk result (λ batch.
        All (λ job. map D.kind job.devices.items ≡ device_order) batch.jobs.items) }
    ensures lines { IfOk result (λ batch. All HasLine batch.refusals.items) }
    ensures told { IfOk result (λ batch. AreTold files.now machines.now batch.refusals.items
        (map (λ job. last_on files.now.pipeline job.setup) batch.jobs.items)) }
{
    let mut batch = Batch {
        refusals: Vec::new(alloc),
        jobs: Vec::new(alloc),
    };
    for machine in machines {
        match setup_of(alloc, files, machine.bytes.as_slice()) {
            Ok(setup) => {
                let devices = take_set(alloc, devices)?;
                push(&mut batch.jobs, Job { setup, devices })?;
                push(&mut batch.refusals, None)?;
            }
            Err(refusal) => push(&mut batch.refusals, Some(refusal.unless_memory()?))?,
        }
    }
    Ok(batch)
}

/// Takes the next set of devices.
fn take_set<D: Device>(alloc: Global, devices: &mut IntoIter<D>) -> Result<Vec<D>, NoMemory>
    requires some { HasSets 1 (map D.kind (into_iter_items devices.old)) }
    requires count { 3 ≤ into_iter_len devices.old }
    ensures order { IfOk result (λ set. map D.kind set.items ≡ device_order) }
    ensures left { OnOk result ((least : ℕ)
        → HasSets (least + 1) (map D.kind (into_iter_items devices.old))
        → HasSets least (map D.kind (into_iter_items devices.new))) }
    ensures count { OnOk result
        (into_iter_len devices.new + 3 ≡ into_iter_len devices.old) }
{
    let console = devices.next().unwrap();
    let timer = devices.next().unwrap();
    let finisher = devices.next().unwrap();
    let mut set = Vec::new(alloc);
    push(&mut set, console)?;
    push(&mut set, timer)?;
    push(&mut set, finisher)?;
    Ok(set)
}

/// Writes the lines of machines, in their order.
fn put_lines<K: Sink>(
    machines: &[NamedMachine],
    refusals: &[Option<Refusal>],
    finals: &[Final],
    sink: &mut K,
) -> Result<(), WriteFault>
    requires lines { All HasLine refusals.now }
    ensures count { K.faults sink.old ≤ K.faults sink.new }
    ensures written { Puts (told_lines machines.now refusals.now finals.now)
        (K.faults sink.old) (K.faults sink.new) (K.written sink.old) (K.written sink.new) result }
{
    match machines {
        [] => Ok(()),
        [machine, machines @ ..] => match refusals {
            [] => Ok(()),
            [refusal, refusals @ ..] => {
                put_line(machine, refusal, finals, sink)?;
                put_lines(machines, refusals, finals_behind(refusal, finals), sink)
            }
        },
    }
}

/// Writes the line of a machine: its refusal, or the next of the reports.
fn put_line<K: Sink>(
    machine: &NamedMachine,
    refusal: &Option<Refusal>,
    finals: &[Final],
    sink: &mut K,
) -> Result<(), WriteFault>
    requires line { HasLine refusal.now }
    ensures count { K.faults sink.old ≤ K.faults sink.new }
    ensures written { Puts (next_line machine.now refusal.now finals.now)
        (K.faults sink.old) (K.faults sink.new) (K.written sink.old) (K.written sink.new) result }
{
    let name = machine.name.as_str().as_bytes();
    match refusal {
        Some(refusal) => sweep_refusal(name, refusal.status(), sink),
        None => match finals {
            [] => Ok(()),
            [last, ..] => sweep_line(name, last, sink),
        },
    }
}

/// The reports that are left behind the line of a machine.
fn finals_behind<'a>(refusal: &Option<Refusal>, finals: &'a [Final]) -> &'a [Final]
    ensures behind { result.now ≡ finals_behind refusal.now finals.now }
{
    match refusal {
        Some(_) => finals,
        None => match finals {
            [] => finals,
            [_, rest @ ..] => rest,
        },
    }
}
