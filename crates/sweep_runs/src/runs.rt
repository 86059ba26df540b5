ghost use Rattle.std.specs.Prelude.{◌≡◌, ◌≤◌, true, map, All, IfOk, Ok, vec_len};
ghost use Rattle.device_bus.specs.Bus.{device_order};
ghost use Rattle.mono_model.specs.Setup.{is_setup};
ghost use Rattle.inorder_machine.specs.Setup.{IsInorder};
ghost use Rattle.sweep_runs.specs.Sweep.{inorder_last_of, last_of};

use crate::job::{Job, play, play_in_order};
use device_bus::Device;
use fsim_base::NoMemory;
use mono_model::Final;
use std::alloc::{AllocError, Global};
use std::thread::{Threads, map_vec};

/// The most jobs of one call of `sweep`, each of which has a machine open at once.
pub const MOST_JOBS: usize = 8;

/// What is reported of each job at its end, in the order of the jobs, as the runs one after another
/// would have it. Each job is opened, played and given up in a thread of its own where one can be
/// made. Want of memory in one refuses the whole call. It takes at most `MOST_JOBS`.
pub fn sweep<R: Threads + Sync, D: Device + Send>(
    rt: &R,
    alloc: Global,
    jobs: Vec<Job<D>>,
) -> Result<Vec<Final>, NoMemory>
    requires few { vec_len jobs ≤ MOST_JOBS }
    requires sound { All (λ job. is_setup job.setup ≡ true) jobs.items }
    requires order { All (λ job. map D.kind job.devices.items ≡ device_order) jobs.items }
    ensures finals { IfOk result (λ finals. finals.items
        ≡ map (λ job. last_of job.setup) jobs.items) }
{
    let play_job = |job: Job<D>| -> Result<Final, NoMemory>
        requires sound { is_setup job.setup ≡ true }
        requires order { map D.kind job.devices.items ≡ device_order }
        ensures last { IfOk result (λ last. last ≡ last_of job.setup) }
    { play(alloc, job) };
    match map_vec(rt, jobs, &play_job) {
        Ok(played) => all_found(alloc, played.as_slice()),
        Err(AllocError) => Err(NoMemory),
    }
}

/// The same on the in-order machine.
pub fn sweep_in_order<R: Threads + Sync, D: Device + Send>(
    rt: &R,
    alloc: Global,
    jobs: Vec<Job<D>>,
) -> Result<Vec<Final>, NoMemory>
    requires few { vec_len jobs ≤ MOST_JOBS }
    requires sound { All (λ job. IsInorder job.setup) jobs.items }
    requires order { All (λ job. map D.kind job.devices.items ≡ device_order) jobs.items }
    ensures finals { IfOk result (λ finals. finals.items
        ≡ map (λ job. inorder_last_of job.setup) jobs.items) }
{
    let play_job = |job: Job<D>| -> Result<Final, NoMemory>
        requires sound { IsInorder job.setup }
        requires order { map D.kind job.devices.items ≡ device_order }
        ensures last { IfOk result (λ last. last ≡ inorder_last_of job.setup) }
    { play_in_order(alloc, job) };
    match map_vec(rt, jobs, &play_job) {
        Ok(played) => all_found(alloc, played.as_slice()),
        Err(AllocError) => Err(NoMemory),
    }
}

/// The reports, where memory was found for each job.
fn all_found(alloc: Global, played: &[Result<Final, NoMemory>]) -> Result<Vec<Final>, NoMemory>
    ensures finals { IfOk result (λ finals. map (λ last. Ok last) finals.items ≡ played.now) }
{
    let mut finals = Vec::new(alloc);
    for last in played {
        if finals.push((*last)?).is_err() {
            return Err(NoMemory);
        }
    }
    Ok(finals)
}
