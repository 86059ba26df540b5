//! What a debugger asks of a run alone. Nothing of it changes what the run does.
ghost use Rattle.std.specs.Prelude.{◌≡◌, ◌<◌, ◌≤◌, ◌-◌, ◌/◌, ◌%◌, ◌^◌, length, IsTrue, is_none, is_some};
ghost use Rattle.std.specs.Prelude.{if◌then◌else◌};
ghost use Rattle.phys_mem.specs.Ram.{range_of};
ghost use Rattle.device_bus.specs.Range.{accepts_of};
ghost use Rattle.device_bus.specs.Device.{loading};
ghost use Rattle.device_bus.specs.Bus.{answer_at, kind_at};
ghost use Rattle.func_model.specs.Position.{csr_of};

use crate::contents::Contents;
use crate::performed::PastStep;
use crate::side::Arch;
use crate::trail::{Trail, has_ended};
use device_bus::{Device, DeviceKind};
use fsim_base::{Access, Cause, Width};
use machine_csr::{Csrs, TIMER_INTERRUPT};
use mono_model::End;
use rv_decode::Insn;

/// What comes next in a run alone.
#[derive(Clone, Copy, Debug, PartialEq, Eq)]
pub enum Ahead {
    /// No step: the run has ended so.
    Ended(End),
    /// A step that makes this access: none where it traps.
    Step(Access),
}

/// What the next step of a run alone would do.
#[derive(Clone, Copy, Debug, PartialEq, Eq)]
pub struct Probe {
    /// The load or store of an instruction that retires.
    pub access: Access,
    /// Whether it sends a byte to the console.
    pub has_sent: bool,
}

/// The load or store of an instruction that retires: none where it has a cause.
fn retired_access(access: Access, cause: Option<Cause>) -> Access
    ensures access { result ≡ (if is_none cause then access else Access.Nothing) }
{
    match cause {
        None => access,
        Some(_) => Access::Nothing,
    }
}

/// What a CSR instruction reads at a time, if there is such a register.
#[tactic(auto, unfolding(machine_csr::specs::Csr::csr_access))]
fn csr_value(csrs: &Csrs, csr: u16, time: u64, cmp: u64) -> Option<u32>
    ensures value { result ≡ csr_of csrs.now csr time cmp }
{
    // CSRRS with x0, which writes nothing.
    let read = Insn::Csr {
        kind: 2,
        rd: 1,
        rs1: 0,
        csr,
    };
    match csrs.access(read, 0, time, cmp) {
        Some((value, _)) => Some(value),
        None => None,
    }
}

/// The place of the console on the bus.
const CONSOLE: u32 = 0;

/// The place of the timer.
const TIMER: u32 = 1;

/// The byte of a word at a place, the lowest at 0.
fn byte_of_word(word: u32, place: u32) -> u8
    requires place { place < 4 }
    ensures byte { result ≡ word / 256 ^ place % 256 }
{
    let shifted = match place {
        0 => word,
        1 => word / 0x100,
        2 => word / 0x1_0000,
        _ => word / 0x100_0000,
    };
    (shifted % 0x100) as u8
}

impl<D: Device> Contents<D> {
    ghost use Rattle.mono_model.specs.declared.setup.Setup.{Setup};
    ghost use Rattle.mono_model.specs.Arch.{Arch as State};
    ghost use Rattle.mono_model.specs.Effect.{note_of};
    ghost use Rattle.mono_model.specs.Sequence.{byte_in, result_at};
    ghost use Rattle.func_model.specs.Contents.{ContentsStandFor, before, output_in, retired_in};
    ghost use Rattle.func_model.specs.Hart.{arch_of};
    ghost use Rattle.func_model.specs.Position.{byte_of, device_byte_of, made_access};

    /// What a load from a device gives. It is taken back.
    fn peek(&mut self, device: u32, off: u32, width: Width, time: u64) -> u32
        requires device { device < 3 }
        requires accepted { IsTrue (accepts_of (kind_at device) off width) }
        ensures value { result
            ≡ (answer_at self.old.bus (kind_at device) (loading off width time)).value }
        ensures same { self.new ≡ self.old }
    {
        let (value, undo) = self.bus.load(device, off, width, time);
        self.bus.undo(device, undo);
        value
    }

    /// A byte of RAM or of a device, as it is looked at, at a time; none where neither is.
    pub fn byte(&mut self, addr: u32, time: u64) -> Option<u8>
        ensures byte { result ≡ byte_of (range_of self.old.hart.memory)
            (arch_of self.old.hart self.old.bus) time addr }
        ensures same { self.new ≡ self.old }
    {
        match self.hart.memory.get(addr, Width::Byte) {
            Some(byte) => Some((byte % 0x100) as u8),
            None => self.device_byte(addr, time),
        }
    }

    /// A byte of a device, as it is looked at, at a time; none where no device is.
    fn device_byte(&mut self, addr: u32, time: u64) -> Option<u8>
        ensures byte { result ≡ device_byte_of self.old.bus time addr }
        ensures same { self.new ≡ self.old }
    {
        match DeviceKind::at(addr) {
            None => None,
            Some(DeviceKind::Console) => {
                let off = addr - DeviceKind::Console.base();
                let value = self.peek(CONSOLE, off, Width::Byte, time);
                Some((value % 0x100) as u8)
            }
            Some(DeviceKind::Timer) => {
                let place = addr % 4;
                let off = addr - place - DeviceKind::Timer.base();
                let word = self.peek(TIMER, off, Width::Word, time);
                Some(byte_of_word(word, place))
            }
            Some(DeviceKind::Finisher) => Some(0),
        }
    }

    /// What the next step would do, which is made and taken back.
    pub fn probe(&mut self, number: u64) -> Probe
        requires count { retired_in self.old < 2 ^ 64 - 1 }
        requires room { length (output_in self.old) < self.old.hart.room }
        ensures stands { (s : Setup) (a : State) → ContentsStandFor s a self.old
            → ContentsStandFor s a self.new }
        ensures access { (s : Setup) (a : State) → ContentsStandFor s a self.old
            → result.access ≡ made_access (result_at s (Some number) (before number a)) }
        ensures sent { (s : Setup) (a : State) → ContentsStandFor s a self.old
            → result.has_sent
            ≡ is_some (byte_in
            (note_of (result_at s (Some number) (before number a)) (before number a))) }
        ensures room { self.new.hart.room ≡ self.old.hart.room }
    {
        let interrupted = self.take_interrupt(number);
        let fetched = self.hart.fetch();
        let (entry, past) = self.carry_out(fetched, number, 0, Some(number));
        self.unmake(PastStep { past, interrupted });
        Probe {
            access: retired_access(entry.access, entry.cause),
            has_sent: entry.out.is_some(),
        }
    }
}

impl<D: Device> Trail<D> {
    ghost use Rattle.mono_model.specs.declared.setup.Setup.{Setup as RunSetup};
    ghost use Rattle.mono_model.specs.Arch.{interrupted};
    ghost use Rattle.func_model.specs.History.{walk};
    ghost use Rattle.func_model.specs.Position.{LiesAhead, byte_at, csr_at, found, next_address};
    ghost use Rattle.func_model.specs.Side.{registers_at};
    ghost use Rattle.func_model.specs.Trail.{IsOnTrail, TrailStandsFor};

    /// Whether a timer interrupt comes before the next instruction.
    fn is_interrupted(&self) -> bool
        ensures due { (s : RunSetup) → TrailStandsFor s self.now → found s self.now.at
            ≡ (if result then interrupted (walk s self.now.at) else walk s self.now.at) }
    {
        let hart = &self.contents.hart;
        let is_pending = hart.csrs.timer_pending(self.at, self.contents.cmp);
        is_pending && !has_ended(self.end)
    }

    /// How many steps can be taken back.
    pub fn steps_back(&self) -> u64
        ensures count { (s : RunSetup) → TrailStandsFor s self.now
            → result ≡ self.now.at - self.now.floor }
        ensures most { result ≤ self.now.steps.capacity }
    {
        self.steps.len() as u64
    }

    /// The address of the next instruction to be executed: that of the handler, where a timer
    /// interrupt comes before it.
    pub fn next_address(&self) -> u32
        ensures address { (s : RunSetup) → TrailStandsFor s self.now
            → result ≡ next_address s self.now.at }
    {
        let hart = &self.contents.hart;
        if !self.is_interrupted() {
            return hart.pc;
        }
        let mut csrs = hart.csrs;
        csrs.trap(TIMER_INTERRUPT, hart.pc, 0)
    }

    /// The registers that the next instruction finds: a pending timer interrupt is taken first.
    pub fn found(&self) -> Arch
        ensures found { (s : RunSetup) → TrailStandsFor s self.now
            → result ≡ registers_at (found s self.now.at) }
    {
        let mut arch = self.arch();
        if self.is_interrupted() {
            arch.pc = arch.csrs.trap(TIMER_INTERRUPT, arch.pc, 0);
        }
        arch
    }

    /// What a CSR instruction would read; none where there is no such register.
    pub fn csr(&self, csr: u16) -> Option<u32>
        ensures value { (s : RunSetup) → TrailStandsFor s self.now
            → result ≡ csr_at s self.now.at csr }
    {
        let arch = self.found();
        csr_value(&arch.csrs, csr, self.at, arch.cmp)
    }

    /// A byte of memory or a device, as it is looked at.
    pub fn byte(&mut self, addr: u32) -> Option<u8>
        ensures byte { (s : RunSetup) → TrailStandsFor s self.old
            → result ≡ byte_at s self.old.at addr }
        ensures same { self.new ≡ self.old }
    {
        self.contents.byte(addr, self.at)
    }

    /// What comes next: how the run has ended, or what the next step loads or stores.
    pub fn ahead(&mut self) -> Ahead
        requires standing { IsOnTrail self.old }
        ensures stands { (s : RunSetup) → TrailStandsFor s self.old → TrailStandsFor s self.new }
        ensures ahead { (s : RunSetup) → TrailStandsFor s self.old → LiesAhead s self.old.at result }
        ensures others { self.new ≡ record self.old { contents = self.new.contents } }
    {
        if has_ended(self.end) {
            return Ahead::Ended(self.end);
        }
        let probe = self.contents.probe(self.at);
        if probe.has_sent && self.contents.output().len() >= self.limit as usize {
            return Ahead::Ended(End::OutputFull);
        }
        Ahead::Step(probe.access)
    }
}
