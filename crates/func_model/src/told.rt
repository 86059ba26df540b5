//! The run alone, with what each of its instructions did.
ghost use Rattle.std.specs.Prelude.{◌≡◌, ◌<◌, ◌-◌, ◌^◌, Some, IfOk, IfSome, length, map, true};
ghost use Rattle.func_model.specs.Told.{executed_by};

use crate::contents::Contents;
use crate::trail::{end_behind, has_ended};
use device_bus::Device;
use fsim_base::NoMemory;
use mono_model::{End, Setup};
use std::alloc::Global;
use trace_entry::Entry;

/// An instruction that a run alone executed.
#[derive(Clone, Copy, Debug, PartialEq, Eq)]
pub struct Executed {
    /// Its address.
    pub addr: u32,
    /// Its word; 0 where nothing could be fetched.
    pub word: u32,
    /// Whether it trapped.
    pub has_trapped: bool,
    /// The address of the instruction after it.
    pub next: u32,
}

/// The instruction of an entry.
fn executed_by(entry: &Entry) -> Executed
    ensures executed { result ≡ executed_by entry.now }
{
    Executed {
        addr: entry.addr,
        word: entry.word,
        has_trapped: entry.cause.is_some(),
        next: entry.next,
    }
}

/// What is told of a step.
#[derive(Clone, Copy, Debug)]
struct Told {
    entry: Entry,
    /// Whether its instruction is a FENCE.I.
    is_fence: bool,
}

impl<D: Device> Contents<D> {
    ghost use Rattle.mono_model.specs.declared.setup.Setup.{Setup};
    ghost use Rattle.mono_model.specs.Arch.{Arch};
    ghost use Rattle.mono_model.specs.Alone.{with_fence};
    ghost use Rattle.mono_model.specs.Found.{is_fence_i};
    ghost use Rattle.mono_model.specs.Sequence.{entry_at, found_next};
    ghost use Rattle.func_model.specs.Contents.{ContentsStandFor, before, output_in, retired_in};
    ghost use Rattle.func_model.specs.History.{step_seq};

    /// Makes one step of a run alone, but for what a FENCE.I lets fetch see, and tells of it. The
    /// output's limit doesn't stop it.
    fn tell(&mut self, number: u64) -> Told
        requires count { retired_in self.old < 2 ^ 64 - 1 }
        requires room { length (output_in self.old) < self.old.hart.room }
        ensures stands { (s : Setup) (a : Arch) → ContentsStandFor s a self.old
            → ContentsStandFor s (step_seq s number a) self.new }
        ensures entry { (s : Setup) (a : Arch) → ContentsStandFor s a self.old
            → result.entry ≡ entry_at s (Some number) (before number a) number 0 }
        ensures fence { (s : Setup) (a : Arch) → ContentsStandFor s a self.old
            → result.is_fence ≡ is_fence_i (found_next s (before number a)) }
        ensures room { self.new.hart.room ≡ self.old.hart.room }
    {
        let _ = self.take_interrupt(number);
        let fetched = self.hart.fetch();
        let is_fence = fetched.is_fence_i();
        let (entry, _) = self.carry_out(fetched, number, 0, Some(number));
        Told { entry, is_fence }
    }

    /// Lets fetch see memory after a FENCE.I.
    fn sync_if(&mut self, is_fence: bool)
        ensures stands { (s : Setup) (a : Arch) → ContentsStandFor s a self.old
            → ContentsStandFor s (with_fence s is_fence a) self.new }
        ensures room { self.new.hart.room ≡ self.old.hart.room }
    {
        if is_fence {
            self.sync();
        }
    }
}

/// A run alone that tells of each instruction. It stands for a setup and a number of steps.
#[derive(Drop)]
pub struct ToldRun<D: Device> {
    contents: Contents<D>,
    /// How many steps were made.
    made: u64,
    /// How the run stands.
    end: End,
    /// How many steps the run may make.
    cycles: u64,
    /// How many bytes of output have room.
    limit: u32,
}

impl<D: Device> ToldRun<D> {
    ghost use Rattle.mono_model.specs.declared.setup.Setup.{Setup as RunSetup};
    ghost use Rattle.device_bus.specs.Bus.{device_order};
    ghost use Rattle.mono_model.specs.Setup.{is_setup};
    ghost use Rattle.std.specs.Prelude.{◌&&◌, nat_lt};
    ghost use Rattle.func_model.specs.Contents.{output_in};
    ghost use Rattle.func_model.specs.Told.{IsToldStanding, IsToldStep, ToldStandsFor};

    /// The run at its start. It takes all its memory here; a refusal drops what it was given.
    pub fn new(alloc: Global, setup: &Setup, devices: Vec<D>) -> Result<ToldRun<D>, NoMemory>
        requires sound { is_setup setup.now ≡ true }
        requires order { map D.kind devices.items ≡ device_order }
        ensures stands { IfOk result (λ run. ToldStandsFor setup.now run) }
        ensures start { IfOk result (λ run. run.made ≡ 0) }
    {
        let contents = Contents::new(alloc, setup, 1, devices)?;
        Ok(ToldRun {
            contents,
            made: 0,
            end: End::Running,
            cycles: setup.cycles,
            limit: setup.output,
        })
    }

    /// Makes a step: a pending timer interrupt, the next instruction, which is told, and after a
    /// FENCE.I what it lets fetch see. None where there is no further step; the run is of no more
    /// use then.
    pub fn step(&mut self) -> Option<Executed>
        requires standing { IsToldStanding self.old }
        ensures told { (s : RunSetup) → ToldStandsFor s self.old
            → IsToldStep s self.old self.new result }
        ensures standing { IfSome result (λ executed. IsToldStanding self.new) }
    {
        if has_ended(self.end) {
            return None;
        }
        let told = self.contents.tell(self.made);
        if self.is_beyond(told.entry.out.is_some()) {
            return None;
        }
        self.contents.sync_if(told.is_fence);
        self.made += 1;
        self.end = end_behind(told.entry.halt, self.made == self.cycles);
        Some(executed_by(&told.entry))
    }

    /// Whether an instruction has sent a byte for which the output has no room.
    fn is_beyond(&self, has_sent: bool) -> bool
        ensures beyond { result
            ≡ (has_sent && nat_lt self.now.limit (length (output_in self.now.contents))) }
    {
        has_sent && self.contents.output().len() > self.limit as usize
    }
}
