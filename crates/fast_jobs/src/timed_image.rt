//! An image on the machine of a machine file, or in its RAM alone.
ghost use Rattle.std.specs.Prelude.{◌≡◌, ◌≢◌, true, option_copied, IfOk, IfErr};
ghost use Rattle.elf_image.specs.Sound.{IsSound};
ghost use Rattle.mono_model.specs.Setup.{are_params, ram_range};
ghost use Rattle.report_text.specs.declared.status.Status.TheVariants.{Memory};
ghost use Rattle.report_text.specs.SweepText.{is_sweep_refusal};
ghost use Rattle.fast_jobs.specs.Gives.{Gives};
ghost use Rattle.fast_jobs.specs.Stages.{placed_image, placed_params, timed_image};

use crate::image::read_image;
use crate::machine::read_machine;
use crate::refusal::Refusal;
use elf_image::Image;
use mono_model::Params;
use std::alloc::Global;

/// A machine, and an image for its RAM.
#[derive(Drop)]
pub struct Loaded {
    pub params: Params,
    pub image: Image,
}

/// The machine of the one file's bytes, and the image of the other's. The machine file is tested
/// before the image, since it has the range of RAM.
#[tactic(auto, unfolding(crate::specs::Stages::timed_image))]
pub fn timed_image(alloc: Global, machine: &[u8], image: &[u8]) -> Result<Loaded, Refusal>
    ensures loaded { Gives (timed_image machine.now image.now) result }
    ensures in_range { IfOk result (λ loaded. are_params loaded.params ≡ true) }
    ensures sound { IfOk result (λ loaded. IsSound loaded.image (ram_range loaded.params)) }
    ensures line { IfErr result (λ status. status ≢ Memory → is_sweep_refusal status ≡ true) }
{
    let params = read_machine(alloc, machine)?;
    let image = read_image(alloc, image, params.ram_range())?;
    Ok(Loaded { params, image })
}

/// The image of a run without a pipeline, for the RAM of the machine file, if there is one, or of
/// the plain machine. All else that the machine file says is tested, and unused.
#[tactic(auto, unfolding(crate::specs::Stages::placed_image))]
pub fn placed_image(alloc: Global, machine: Option<&[u8]>, image: &[u8]) -> Result<Loaded, Refusal>
    ensures loaded { Gives (placed_image (option_copied machine.entry) image.now) result }
    ensures in_range { IfOk result (λ loaded. are_params loaded.params ≡ true) }
    ensures sound { IfOk result (λ loaded. IsSound loaded.image (ram_range loaded.params)) }
{
    match machine {
        Some(machine) => {
            let Loaded { params, image } = timed_image(alloc, machine, image)?;
            Ok(Loaded {
                params: placed_params(&params),
                image,
            })
        }
        None => {
            let plain = Params::plain();
            let image = read_image(alloc, image, plain.ram_range())?;
            Ok(Loaded {
                params: plain,
                image,
            })
        }
    }
}

/// The plain machine with the RAM of another.
fn placed_params(params: &Params) -> Params
    requires in_range { are_params params.now ≡ true }
    ensures params { result ≡ placed_params params.now }
    ensures ram { ram_range result ≡ ram_range params.now }
    ensures in_range { are_params result ≡ true }
{
    Params {
        ram_base: params.ram_base,
        ram_size: params.ram_size,
        ..Params::plain()
    }
}
