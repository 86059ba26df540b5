//! The setup of a machine of a sweep.
ghost use Rattle.std.specs.Prelude.{◌≡◌, ◌≢◌, true, IfOk, IfErr};
ghost use Rattle.report_text.specs.declared.status.Status.TheVariants.{Memory};
ghost use Rattle.report_text.specs.SweepText.{is_sweep_refusal};
ghost use Rattle.fast_jobs.specs.Gives.{Gives};
ghost use Rattle.fast_jobs.specs.Job.{CanSweep};
ghost use Rattle.fast_jobs.specs.SweepFiles.{IsSoundOn, machine_setup};

use crate::refusal::Refusal;
use crate::setup::{setup_for, setup_on};
use crate::sweep_files::SweepFiles;
use crate::timed_image::timed_image;
use fsim_base::{Bytes, NoMemory};
use mono_model::Setup;
use std::alloc::Global;

/// The setup of the run on a machine.
#[tactic(auto, unfolding(crate::specs::SweepFiles::machine_setup))]
pub fn setup_of(alloc: Global, files: &SweepFiles, machine: &[u8]) -> Result<Setup, Refusal>
    requires can { CanSweep files.now }
    ensures setup { Gives (machine_setup files.now machine.now) result }
    ensures sound { IfOk result (λ setup. IsSoundOn files.now.pipeline setup) }
    ensures line { IfErr result (λ status. status ≢ Memory → is_sweep_refusal status ≡ true) }
{
    let loaded = timed_image(alloc, machine, files.image.as_slice())?;
    let input = copy_of(alloc, &files.input)?;
    let setup = setup_for(loaded.params, &files.limits, loaded.image, input);
    Ok(setup_on(files.pipeline, setup))
}

/// The same bytes once more.
fn copy_of(alloc: Global, bytes: &Bytes) -> Result<Bytes, NoMemory>
    ensures same { IfOk result (λ copy. copy ≡ bytes.now) }
{
    match bytes.as_slice().to_vec(alloc) {
        Ok(copy) => Ok(Bytes::new(copy)),
        Err(_) => Err(NoMemory),
    }
}
