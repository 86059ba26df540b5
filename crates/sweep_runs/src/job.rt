ghost use Rattle.std.specs.Prelude.{◌≡◌, true, map, IfOk};
ghost use Rattle.device_bus.specs.Bus.{device_order};
ghost use Rattle.mono_model.specs.Setup.{is_setup};
ghost use Rattle.inorder_machine.specs.Setup.{IsInorder};
ghost use Rattle.sweep_runs.specs.Sweep.{inorder_last_of, last_of};

use device_bus::Device;
use fsim_base::NoMemory;
use inorder_model::InorderCore;
use mono_model::{Final, Setup};
use split_core::SplitCore;
use std::alloc::Global;

/// A run of a sweep: its setup, and three devices of its own.
#[derive(Drop)]
pub struct Job<D: Device> {
    /// All that the run depends on.
    pub setup: Setup,
    /// Console, timer and finisher.
    pub devices: Vec<D>,
}

/// Opens a job, plays it to its end, and gives up all that it took.
pub fn play<D: Device>(alloc: Global, job: Job<D>) -> Result<Final, NoMemory>
    requires sound { is_setup job.setup ≡ true }
    requires order { map D.kind job.devices.items ≡ device_order }
    ensures last { IfOk result (λ last. last ≡ last_of job.setup) }
{
    let Job { setup, devices } = job;
    let mut core = SplitCore::new(alloc, &setup, devices)?;
    core.to_end();
    Ok(core.committed())
}

/// The same on the in-order machine.
pub fn play_in_order<D: Device>(alloc: Global, job: Job<D>) -> Result<Final, NoMemory>
    requires sound { IsInorder job.setup }
    requires order { map D.kind job.devices.items ≡ device_order }
    ensures last { IfOk result (λ last. last ≡ inorder_last_of job.setup) }
{
    let Job { setup, devices } = job;
    let mut core = InorderCore::new(alloc, &setup, devices)?;
    core.to_end();
    Ok(core.committed())
}
