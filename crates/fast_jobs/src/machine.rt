ghost use Rattle.std.specs.Prelude.{◌≡◌, ◌≢◌, true, IfOk, IfErr};
ghost use Rattle.mono_model.specs.Setup.{are_params};
ghost use Rattle.report_text.specs.declared.status.Status.TheVariants.{Memory};
ghost use Rattle.report_text.specs.SweepText.{is_sweep_refusal};
ghost use Rattle.fast_jobs.specs.Gives.{Gives};
ghost use Rattle.fast_jobs.specs.Stages.{machine_in};

use crate::refusal::Refusal;
use machine_file::read;
use mono_model::Params;
use std::alloc::Global;

/// The parameters of the machine file that the bytes are.
#[tactic(auto, unfolding(crate::specs::Stages::machine_in))]
pub fn read_machine(alloc: Global, bytes: &[u8]) -> Result<Params, Refusal>
    ensures params { Gives (machine_in bytes.now) result }
    ensures in_range { IfOk result (λ params. are_params params ≡ true) }
    ensures line { IfErr result (λ status. status ≢ Memory → is_sweep_refusal status ≡ true) }
{
    Ok(read(alloc, bytes)?)
}
