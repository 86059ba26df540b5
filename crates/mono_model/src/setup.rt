use crate::params::Params;
use device_bus::INPUT_LIMIT;
use elf_image::Image;
use fsim_base::Bytes;

/// The largest room for output that a run may have, in bytes.
pub const OUTPUT_LIMIT: u32 = 16_777_216;

/// The most cycles after which a run may end, or steps in a run without a machine file.
pub const CYCLE_LIMIT: u64 = 1 << 40;

/// The most entries that a trace may have room for.
pub const RING_LIMIT: u32 = 65_536;

/// All that a run depends on.
#[derive(Debug, Drop)]
pub struct Setup {
    /// The program, as it is loaded into RAM.
    pub image: Image,
    /// The machine that it runs on.
    pub params: Params,
    /// What the console hands over, byte by byte.
    pub input: Bytes,
    /// The run ends after so many cycles, or steps in a run without a machine file.
    pub cycles: u64,
    /// How many bytes of output have room.
    pub output: u32,
    /// How many entries the trace has room for.
    pub ring: u32,
}

impl Setup {
    ghost use Rattle.std.specs.Prelude.{◌≡◌};
    ghost use Rattle.mono_model.specs.Setup.{is_setup};

    /// Whether a run may have this setup: an image that can be loaded into RAM, parameters in the
    /// ranges of a machine file, at most [`INPUT_LIMIT`] bytes of input and [`OUTPUT_LIMIT`] of
    /// output, from 1 to [`CYCLE_LIMIT`] cycles, and a trace of 1 to [`RING_LIMIT`] entries.
    #[tactic(auto, unfolding(crate::specs::Setup::is_setup))]
    pub fn sound(&self) -> bool
        ensures sound { result ≡ is_setup self.now }
    {
        self.image.sound(self.params.ram_range())
            && self.params.in_range()
            && self.input.as_slice().len() <= INPUT_LIMIT
            && 1 <= self.cycles
            && self.cycles <= CYCLE_LIMIT
            && self.output <= OUTPUT_LIMIT
            && 1 <= self.ring
            && self.ring <= RING_LIMIT
    }
}
