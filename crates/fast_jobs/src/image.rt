ghost use Rattle.std.specs.Prelude.{◌≡◌, ◌≢◌, true, IfOk, IfErr};
ghost use Rattle.elf_image.specs.Sound.{IsSound};
ghost use Rattle.report_text.specs.declared.status.Status.TheVariants.{Memory};
ghost use Rattle.report_text.specs.SweepText.{is_sweep_refusal};
ghost use Rattle.fast_jobs.specs.Gives.{Gives};
ghost use Rattle.fast_jobs.specs.Stages.{image_in};

use crate::refusal::Refusal;
use elf_image::{Image, read};
use fsim_base::RamRange;
use std::alloc::Global;

/// The image for this RAM that the bytes are.
#[tactic(auto, unfolding(crate::specs::Stages::image_in))]
pub fn read_image(alloc: Global, bytes: &[u8], ram: RamRange) -> Result<Image, Refusal>
    ensures image { Gives (image_in ram bytes.now) result }
    ensures sound { IfOk result (λ image. IsSound image ram) }
    ensures line { IfErr result (λ status. status ≢ Memory → is_sweep_refusal status ≡ true) }
{
    Ok(read(alloc, bytes, ram)?)
}
