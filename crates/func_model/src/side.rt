ghost use Rattle.std.specs.Prelude.{◌≡◌, ◌↔◌, ◌<◌, ◌≤◌, ◌+◌, ◌^◌, ℕ, Option, Some, None, true};
ghost use Rattle.std.specs.Prelude.{false, map, IfOk, IfSome, IfNone, IsNone, length};
ghost use Rattle.mono_model.specs.declared.setup.Setup.{Setup as RunSetup};
ghost use Rattle.mono_model.specs.Arch.{Arch as State};
ghost use Rattle.func_model.specs.Contents.{ContentsStandFor};
ghost use Rattle.func_model.specs.Side.{registers_in, registers_at};

use crate::contents::Contents;
use crate::hart::compare;
use crate::walk::Walk;
use device_bus::Device;
use fsim_base::{NoMemory, Width};
use machine_csr::Csrs;
use mono_model::{End, Final, Setup, Stats};
use rollback_cmds::Order;
use std::alloc::Global;
use std::marker::Model;
use trace_entry::Entry;

/// The registers of a functional side.
#[derive(Clone, Copy, Debug, PartialEq, Eq)]
pub struct Arch {
    /// The address of the next instruction.
    pub pc: u32,
    /// The registers x0 to x31.
    pub regs: [u32; 32],
    /// The control and status registers.
    pub csrs: Csrs,
    /// mtimecmp, in cycles.
    pub cmp: u64,
}

impl Arch {
    ghost use Rattle.func_model.specs.Side.{reported_of};

    /// What is reported of a run with these registers, this end and these counts.
    pub fn reported(&self, end: End, stats: Stats) -> Final
        ensures reported { result ≡ reported_of end stats self.now }
    {
        Final {
            end,
            stats,
            pc: self.pc,
            regs: self.regs,
            csrs: self.csrs,
            cmp: self.cmp,
        }
    }
}

/// The registers of what a side holds.
pub fn registers<D: Device>(contents: &Contents<D>) -> Arch
    ensures registers { result ≡ registers_in contents.now }
    ensures state { (s : RunSetup) (a : State) → ContentsStandFor s a contents.now
        → result ≡ registers_at a }
{
    let hart = &contents.hart;
    Arch {
        pc: hart.pc,
        regs: hart.regs,
        csrs: hart.csrs,
        cmp: compare(&contents.bus),
    }
}

/// The functional side. It stands for a setup, the orders that it obeyed, and a position on their
/// path.
#[derive(Drop)]
pub struct FuncSide<D: Device> {
    walk: Walk<D>,
}

impl<D: Device> Model for FuncSide<D> {
    ghost use Rattle.std.specs.Prelude.{◌⊎◌};
    ghost use Rattle.func_model.specs.declared.walk.Walk.{Walk};
    ghost use Rattle.func_model.specs.Walk.{IsStanding, IsOver};

    ghost Value = { Walk D };

    ghost view = { λ side. side.walk };

    ghost invariant = { λ side. IsStanding side.walk ⊎ IsOver side.walk };
}

impl<D: Device> FuncSide<D> {
    ghost use Rattle.std.specs.Prelude.{List, ◌∷◌, [], min};
    ghost use Rattle.rollback_cmds.specs.declared.order.Order.{Order as SpecOrder};
    ghost use Rattle.device_bus.specs.Bus.{device_order};
    ghost use Rattle.mono_model.specs.Setup.{is_setup};
    ghost use Rattle.mono_model.specs.Path.{path};
    ghost use Rattle.mono_model.specs.Demand.{number_of};
    ghost use Rattle.func_model.specs.Contents.{output_in};
    ghost use Rattle.func_model.specs.Walk.{WalkStandsFor, IsFresh, IsForward, IsAtRest};
    ghost use Rattle.func_model.specs.Walk.{IsProduced, IsObeyed, HasRoom, entry_if};
    ghost use Rattle.func_model.specs.Side.{arch_in, word_in};

    /// The functional side at the start of a run. It takes all memory of the run here: RAM, the
    /// journal, the output, the decoded words, and what the devices keep; a refusal drops what it
    /// was given.
    pub fn new(alloc: Global, setup: &Setup, devices: Vec<D>) -> Result<FuncSide<D>, NoMemory>
        requires sound { is_setup setup.now ≡ true }
        requires order { map D.kind devices.items ≡ device_order }
        ensures stands { IfOk result (λ side. WalkStandsFor setup.now [] side) }
        ensures fresh { IfOk result IsFresh }
    {
        let walk = Walk::new(alloc, setup, devices)?;
        Ok(FuncSide { walk })
    }

    /// The next entry of its path, in its epoch, and goes on behind it. None exactly where the
    /// journal is full or the side is stopped.
    pub fn produce(&mut self) -> Option<Entry>
        requires position { self.old.position < 2 ^ 62 }
        requires epoch { self.old.epoch < 2 ^ 62 }
        ensures produced { (s : RunSetup) (os : List SpecOrder) → WalkStandsFor s os self.old
            → IsProduced s os self.old self.new result }
        ensures moved { IfSome result (λ e. IsForward self.old self.new) }
        ensures none { IsNone result ↔ IsAtRest self.old }
        ensures same { IfNone result (self.new ≡ self.old) }
    {
        let mut entry = Entry::BLANK;
        if self.produce_into(&mut entry) {
            Some(entry)
        } else {
            None
        }
    }

    /// The same, with the entry written over another one, where its reader finds it. False where
    /// none is made, and nothing written then.
    #[inline(always)]
    pub fn produce_into(&mut self, to: &mut Entry) -> bool
        requires position { self.old.position < 2 ^ 62 }
        requires epoch { self.old.epoch < 2 ^ 62 }
        ensures produced { (s : RunSetup) (os : List SpecOrder) → WalkStandsFor s os self.old
            → IsProduced s os self.old self.new (entry_if result to.new) }
        ensures moved { IfSome (entry_if result to.new) (λ e. IsForward self.old self.new) }
        ensures none { IsNone (entry_if result to.new) ↔ IsAtRest self.old }
        ensures same { IfNone (entry_if result to.new) (self.new ≡ self.old) }
        ensures stays { result ≡ false → to.new ≡ to.old }
    {
        if self.walk.is_stopped || self.walk.journal.is_full() {
            return false;
        }
        self.walk.step_into(to);
        true
    }

    /// Obeys an order of the timing side. Each but Commit goes to instruction `n`, backwards by
    /// undoing or forwards by executing; a side that is stopped goes no further. What is committed,
    /// by Commit, Interrupt or Sync, is never taken back.
    #[inline(always)]
    pub fn obey(&mut self, order: Order)
        requires reach { self.old.is_stopped ≡ true → number_of order ≤ self.old.position }
        requires from { self.old.committed ≤ number_of order }
        requires room { number_of order ≤ self.old.committed + self.old.journal.room }
        requires number { number_of order < 2 ^ 62 }
        requires position { self.old.position < 2 ^ 62 }
        requires epoch { self.old.epoch < 2 ^ 62 }
        requires within { HasRoom order self.old self.old.limit }
        ensures stands { (s : RunSetup) (os : List SpecOrder) → WalkStandsFor s os self.old
            → WalkStandsFor s (order ∷ os) self.new }
        ensures moved { IsObeyed order self.old self.new }
        ensures committed_never_falls { self.old.committed ≤ self.new.committed }
    {
        match order {
            Order::Set { n, addr } => self.walk.set(n, addr),
            Order::Commit { n } => self.walk.commit(n),
            Order::Interrupt { n } => self.walk.interrupt(n),
            Order::Time { n, v } => self.walk.serve(n, v),
            Order::Stop { n } => self.walk.stop(n),
            Order::Sync { n } => self.walk.sync(n),
        }
    }

    /// The registers.
    pub fn arch(&self) -> Arch
        ensures arch { result ≡ arch_in self.now }
    {
        registers(&self.walk.contents)
    }

    /// The output so far.
    pub fn output(&self) -> &[u8]
        ensures output { result.now ≡ output_in self.now.contents }
    {
        self.walk.contents.output()
    }

    /// What is committed of the output, as far as the side has executed what is. None of these bytes
    /// is ever taken back.
    pub fn committed_output(&self) -> &[u8]
        ensures output { (s : RunSetup) (os : List SpecOrder) → WalkStandsFor s os self.now
            → result.now ≡ (path s os (min self.now.committed self.now.position)).output }
    {
        let output = self.walk.contents.output();
        let ahead = self.walk.journal.sent() as usize;
        &output[..output.len().saturating_sub(ahead)]
    }

    /// The word of RAM at an address; None exactly where the address isn't a multiple of 4 or is
    /// outside RAM.
    pub fn word_at(&self, addr: u32) -> Option<u32>
        ensures word { result ≡ word_in self.now.contents addr }
    {
        if addr % 4 != 0 {
            return None;
        }
        self.walk.contents.hart.memory.get(addr, Width::Word)
    }

    /// Whether the side was stopped.
    pub fn stopped(&self) -> bool
        ensures stopped { result ≡ self.now.is_stopped }
    {
        self.walk.is_stopped
    }

    /// The number of the first instruction that isn't committed.
    pub fn committed(&self) -> u64
        ensures number { result ≡ self.now.committed }
    {
        self.walk.committed
    }

    /// How many instructions can be taken back.
    pub fn steps_back(&self) -> u32
        ensures count { result ≡ length self.now.journal.steps }
    {
        self.walk.journal.len()
    }
}
