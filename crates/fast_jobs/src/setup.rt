ghost use Rattle.std.specs.Prelude.{◌≡◌, ◌≤◌, true, length};
ghost use Rattle.elf_image.specs.Sound.{IsSound};
ghost use Rattle.mono_model.specs.Setup.{input_limit, is_setup, are_params, ram_range};
ghost use Rattle.fast_cli.specs.Ranges.{HasRanges};
ghost use Rattle.inorder_machine.specs.Setup.{IsInorder};
ghost use Rattle.fast_jobs.specs.Job.{inorder_setup, setup_for};
ghost use Rattle.fast_jobs.specs.SweepFiles.{IsSoundOn, setup_on};

use elf_image::Image;
use fast_cli::{Options, Pipeline};
use fsim_base::Bytes;
use mono_model::{Params, Setup};

/// The setup of an image on a machine, with what the console reads.
pub fn setup_for(params: Params, options: &Options, image: Image, input: Bytes) -> Setup
    requires in_range { are_params params ≡ true }
    requires sound { IsSound image (ram_range params) }
    requires ranges { HasRanges options.now }
    requires input { length input ≤ input_limit }
    ensures setup { result ≡ setup_for params options.now image input }
    ensures sound { is_setup result ≡ true }
{
    Setup {
        image,
        params,
        input,
        cycles: options.cycles,
        output: options.output,
        ring: options.ring,
    }
}

/// The setup with a window for the four stages behind Fetch of the in-order machine.
pub fn inorder_setup(setup: Setup) -> Setup
    requires sound { is_setup setup ≡ true }
    ensures setup { result ≡ inorder_setup setup }
    ensures sound { IsInorder result }
{
    let mut setup = setup;
    setup.params.core_window = 4;
    setup
}

/// The setup on a pipeline.
pub fn setup_on(pipeline: Pipeline, setup: Setup) -> Setup
    requires sound { is_setup setup ≡ true }
    ensures setup { result ≡ setup_on pipeline setup }
    ensures sound { IsSoundOn pipeline result }
{
    match pipeline {
        Pipeline::Window => setup,
        Pipeline::Inorder => inorder_setup(setup),
    }
}
