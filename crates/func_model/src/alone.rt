ghost use Rattle.std.specs.Prelude.{◌≡◌, ◌+◌, ℕ, map, IfOk};
ghost use Rattle.func_model.specs.Alone.{end_left};

use crate::contents::Contents;
use crate::performed::Stepped;
use crate::trail::{end_behind, has_ended};
use device_bus::Device;
use fsim_base::NoMemory;
use mono_model::{End, Final, Setup};
use std::alloc::Global;

/// How a run alone stands after a step that left it so.
fn end_left(stepped: Stepped, is_last: bool) -> End
    ensures end { result ≡ end_left stepped is_last }
{
    match stepped {
        Stepped::On => end_behind(None, is_last),
        Stepped::Full => End::OutputFull,
        Stepped::Ended(halt) => end_behind(Some(halt), is_last),
    }
}

/// The run without a timing side, made by pieces: one instruction a step, with the step's number as
/// its time, until the program ends the run, the output has no room for a byte, or as many steps
/// were made as its limit says.
#[derive(Drop)]
pub struct AloneRun<D: Device> {
    contents: Contents<D>,
    /// How many steps were made.
    made: u64,
    /// How many timer interrupts were taken.
    taken: u64,
    /// How the run stands.
    end: End,
    /// How many steps the run may make.
    cycles: u64,
    /// How many bytes of output have room.
    limit: u32,
}

impl<D: Device> AloneRun<D> {
    ghost use Rattle.mono_model.specs.declared.setup.Setup.{Setup as RunSetup};
    ghost use Rattle.device_bus.specs.Bus.{device_order};
    ghost use Rattle.mono_model.specs.Setup.{is_setup};
    ghost use Rattle.mono_model.specs.Final.{has_ended};
    ghost use Rattle.mono_model.specs.Alone.{alone, alone_final};
    ghost use Rattle.std.specs.Prelude.{true};
    ghost use Rattle.func_model.specs.Alone.{AloneStandsFor, IsAlone};

    /// The run at its start. It takes all its memory here: RAM, the output, the decoded words, and
    /// what the devices keep; a refusal drops what it was given.
    pub fn new(alloc: Global, setup: &Setup, devices: Vec<D>) -> Result<AloneRun<D>, NoMemory>
        requires sound { is_setup setup.now ≡ true }
        requires order { map D.kind devices.items ≡ device_order }
        ensures stands { IfOk result (λ run. AloneStandsFor setup.now 0 run) }
    {
        let contents = Contents::new(alloc, setup, 0, devices)?;
        Ok(AloneRun {
            contents,
            made: 0,
            taken: 0,
            end: End::Running,
            cycles: setup.cycles,
            limit: setup.output,
        })
    }

    /// Makes so many more steps, or fewer where the run ends before.
    pub fn go_on(&mut self, steps: u64)
        requires standing { IsAlone self.old }
        ensures stands { (s : RunSetup) (n : ℕ) → AloneStandsFor s n self.old
            → AloneStandsFor s (n + steps) self.new }
    {
        if has_ended(self.end) {
            return;
        }
        let to = self.made + steps.min(self.cycles - self.made);
        let piece = self.contents.alone(self.made, self.taken, to, self.limit);
        self.made = piece.made;
        self.taken = piece.taken;
        self.end = end_left(piece.stepped, piece.made == self.cycles);
    }

    /// Whether it has ended.
    pub fn is_over(&self) -> bool
        ensures over { result ≡ has_ended self.now.end }
    {
        has_ended(self.end)
    }

    /// What is reported of it, as it stands.
    pub fn report(&self) -> Final
        ensures reported { (s : RunSetup) (n : ℕ) → AloneStandsFor s n self.now
            → result ≡ alone_final (alone s n) }
    {
        self.contents.report(self.end, self.made, self.taken)
    }

    /// The output so far.
    pub fn output(&self) -> &[u8]
        ensures output { (s : RunSetup) (n : ℕ) → AloneStandsFor s n self.now
            → result.now ≡ (alone s n).arch.output }
    {
        self.contents.output()
    }
}
