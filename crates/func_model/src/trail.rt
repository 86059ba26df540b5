ghost use Rattle.std.specs.Prelude.{◌≡◌, ◌↔◌, ◌≤◌, ◌<◌, ◌+◌, ◌-◌, ◌^◌, ℕ, Option, true, false, map};
ghost use Rattle.std.specs.Prelude.{IfOk, None};
ghost use Rattle.mono_model.specs.Final.{has_ended};
ghost use Rattle.func_model.specs.History.{end_by};

use crate::contents::Contents;
use crate::performed::PastStep;
use crate::side::{Arch, registers};
use circular_buffer::HeapCircularBuffer;
use device_bus::Device;
use fsim_base::{Halt, NoMemory};
use mono_model::{End, Setup, end_of};
use std::alloc::Global;

/// Whether a run that stands so has ended.
pub fn has_ended(end: End) -> bool
    ensures ended { result ≡ has_ended end }
{
    !matches!(end, End::Running)
}

/// How a run alone stands behind a step: the program ended it, or the step was the last one, or it
/// goes on.
pub(crate) fn end_behind(halt: Option<Halt>, is_last: bool) -> End
    ensures end { result ≡ end_by halt is_last }
{
    match halt {
        Some(halt) => end_of(halt),
        None if is_last => End::Limit,
        None => End::Running,
    }
}

/// A run alone that remembers its last steps: what the machine holds at a position, and what leads
/// back from there.
#[derive(Drop)]
pub struct Trail<D: Device> {
    pub contents: Contents<D>,
    /// What leads back from `at` to `floor`, the oldest first.
    pub steps: HeapCircularBuffer<PastStep>,
    /// How many steps are made.
    pub at: u64,
    /// How many steps are made at the oldest position that can be gone back to.
    pub floor: u64,
    /// How the run stands.
    pub end: End,
    /// How many steps the run may make.
    pub cycles: u64,
    /// How many bytes of output have room.
    pub limit: u32,
}

impl<D: Device> Trail<D> {
    ghost use Rattle.std.specs.Prelude.{[]};
    ghost use Rattle.mono_model.specs.declared.setup.Setup.{Setup as RunSetup};
    ghost use Rattle.device_bus.specs.Bus.{device_order};
    ghost use Rattle.mono_model.specs.Setup.{is_setup};
    ghost use Rattle.mono_model.specs.Arch.{Arch as State, synced};
    ghost use Rattle.func_model.specs.Contents.{ContentsStandFor};
    ghost use Rattle.circular_buffer.specs.Buffer.{buffer};
    ghost use Rattle.func_model.specs.Trail.{TrailStandsFor, IsOnTrail, IsTold, IsBack, IsOpening};
    ghost use Rattle.func_model.specs.Trail.{remembered, gone_on};
    ghost use Rattle.func_model.specs.History.{walk};
    ghost use Rattle.func_model.specs.Side.{registers_at};

    /// The trail at the start of a run, which remembers so many steps. It takes all its memory here:
    /// RAM, what leads back, the output, the decoded words, and what the devices keep; a refusal
    /// drops what it was given.
    pub fn new(
        alloc: Global,
        setup: &Setup,
        devices: Vec<D>,
        history: u32,
    ) -> Result<Trail<D>, NoMemory>
        requires sound { is_setup setup.now ≡ true }
        requires order { map D.kind devices.items ≡ device_order }
        ensures stands { IfOk result (λ trail. TrailStandsFor setup.now trail) }
        ensures opening { IfOk result (λ trail. IsOpening history trail) }
    {
        let Ok(steps) = HeapCircularBuffer::with_capacity(alloc, history as usize) else {
            return Err(NoMemory);
        };
        let contents = Contents::new(alloc, setup, 1, devices)?;
        Ok(Trail {
            contents,
            steps,
            at: 0,
            floor: 0,
            end: End::Running,
            cycles: setup.cycles,
            limit: setup.output,
        })
    }

    /// Makes one step: a pending timer interrupt, the next instruction, and behind a FENCE.I what
    /// it lets fetch see. Where there is no further step it changes nothing, and tells how the run
    /// has ended.
    #[inline(always)]
    pub fn step(&mut self) -> Option<End>
        requires standing { IsOnTrail self.old }
        ensures told { (s : RunSetup) → TrailStandsFor s self.old
            → IsTold s self.old self.new result }
    {
        if has_ended(self.end) {
            return Some(self.end);
        }
        // Most steps need no frame of what all others need.
        if self.step_computed() || self.step_access() {
            return None;
        }
        self.step_by_call()
    }

    /// Makes a step, as `step` does, where that takes no interrupt, changes at most a register and
    /// the next address, and lets fetch see nothing; and says whether it did. Nothing is done of
    /// any other.
    #[inline(always)]
    fn step_computed(&mut self) -> bool
        requires standing { IsOnTrail self.old }
        requires going { has_ended self.old.end ≡ false }
        ensures told { result ≡ true → (s : RunSetup) → TrailStandsFor s self.old
            → IsTold s self.old self.new None }
        ensures unchanged { result ≡ false → self.new ≡ self.old }
    {
        let Some(past) = self.contents.make_computed(self.at) else {
            return false;
        };
        self.go_on(past);
        true
    }

    /// Makes a step, as `step_computed` does, where its instruction is a load or a store of RAM. It
    /// stays a call: a computed step needs no frame of it.
    #[inline(never)]
    fn step_access(&mut self) -> bool
        requires standing { IsOnTrail self.old }
        requires going { has_ended self.old.end ≡ false }
        ensures told { result ≡ true → (s : RunSetup) → TrailStandsFor s self.old
            → IsTold s self.old self.new None }
        ensures unchanged { result ≡ false → self.new ≡ self.old }
    {
        let Some(past) = self.contents.make_access(self.at) else {
            return false;
        };
        self.go_on(past);
        true
    }

    /// Counts and remembers a step that was made and doesn't end the run.
    #[inline(always)]
    fn go_on(&mut self, past: PastStep)
        requires bounded { self.old.at < 2 ^ 64 - 1 }
        ensures gone { self.new ≡ gone_on past self.old }
    {
        self.at += 1;
        self.end = end_behind(None, self.at == self.cycles);
        self.note(past);
    }

    /// Makes a step, whatever it does. It stays a call: a computed step needs no frame of it.
    #[inline(never)]
    fn step_by_call(&mut self) -> Option<End>
        requires standing { IsOnTrail self.old }
        requires going { has_ended self.old.end ≡ false }
        ensures told { (s : RunSetup) → TrailStandsFor s self.old
            → IsTold s self.old self.new result }
    {
        let made = self.contents.make(self.at);
        if made.has_sent && self.contents.output().len() > self.limit as usize {
            self.contents.unmake(made.past);
            return Some(End::OutputFull);
        }
        self.at += 1;
        self.end = end_behind(made.halt, self.at == self.cycles);
        if made.is_fence {
            self.sync();
            return None;
        }
        self.note(made.past);
        None
    }

    /// Lets fetch see memory as it stands. What is behind can't be taken back any more.
    fn sync(&mut self)
        ensures contents { (s : RunSetup) (a : State) → ContentsStandFor s a self.old.contents
            → ContentsStandFor s (synced s a) self.new.contents }
        ensures room { self.new.contents.hart.room ≡ self.old.contents.hart.room }
        ensures others { self.new
            ≡ record self.old {
              contents = self.new.contents;
              steps = buffer []
                  self.old.steps.capacity;
              floor = self.old.at;
            } }
    {
        self.contents.sync();
        self.steps.clear();
        self.floor = self.at;
    }

    /// Remembers the step that was made last.
    #[inline(always)]
    fn note(&mut self, past: PastStep)
        ensures noted { self.new ≡ remembered past self.old }
    {
        self.floor = self
            .floor
            .max(self.at.saturating_sub(self.steps.capacity() as u64));
        let _ = self.steps.push_back(past);
    }

    /// Takes one step back; false, and nothing changed, exactly where the position is the oldest
    /// that can be gone back to.
    pub fn back(&mut self) -> bool
        requires standing { IsOnTrail self.old }
        ensures stands { (s : RunSetup) → TrailStandsFor s self.old → TrailStandsFor s self.new }
        ensures moved { IsBack self.old self.new result }
    {
        let Some(past) = self.steps.pop_back() else {
            return false;
        };
        self.contents.unmake(past);
        self.at -= 1;
        self.end = End::Running;
        true
    }

    /// The address of the next instruction.
    pub fn pc(&self) -> u32
        ensures pc { (s : RunSetup) → TrailStandsFor s self.now → result ≡ (walk s self.now.at).pc }
    {
        self.contents.hart.pc
    }

    /// The registers.
    pub fn arch(&self) -> Arch
        ensures arch { (s : RunSetup) → TrailStandsFor s self.now
            → result ≡ registers_at (walk s self.now.at) }
    {
        registers(&self.contents)
    }

    /// The output so far.
    pub fn output(&self) -> &[u8]
        ensures output { (s : RunSetup) → TrailStandsFor s self.now
            → result.now ≡ (walk s self.now.at).output }
    {
        self.contents.output()
    }
}
