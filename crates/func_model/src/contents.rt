ghost use Rattle.std.specs.Prelude.{◌≡◌, ◌<◌, ◌≤◌, ◌+◌, ◌-◌, ◌^◌, Some, IfOk, is_none, length};
ghost use Rattle.std.specs.Prelude.{ℕ, Option, IfSome, IfNone, ◌&&◌, map, true, is_some};
ghost use Rattle.std.specs.Prelude.{if◌then◌else◌, None, false, drop, ◌==◌};
ghost use Rattle.std.specs.List.{All};
ghost use Rattle.mono_model.specs.Result.{is_time_load, is_time_read};
ghost use Rattle.func_model.specs.Hart.{found_in};
ghost use Rattle.mono_model.specs.Arch.{compare_of};
ghost use Rattle.func_model.specs.Undo.{ended_in, is_device};

use crate::found::Fetched;
use crate::hart::{Hart, StoreAccess, compare, plain};
use crate::memory::Memory;
use crate::performed::{Interrupted, Made, PastStep, Performed, Piece, Stepped};
use crate::take_back::trap_before;
use device_bus::{Bus, Device};
use fsim_base::{Access, Class, Halt, NoMemory, Spot, Width};
use machine_csr::{Csrs, TIMER_INTERRUPT};
use mono_model::{End, Final, Setup, Stats};
use std::alloc::Global;
use trace_entry::Entry;
use undo_journal::{Change, Past};

/// The address of the low half of the timer's time; the high half stands behind it.
const TIME: u32 = 0x0200_bff8;

/// How the program ended the run, where it did.
fn halt_in(stepped: Stepped) -> Option<Halt>
    ensures halt { result ≡ ended_in stepped }
{
    match stepped {
        Stepped::Ended(halt) => Some(halt),
        _ => None,
    }
}

/// Whether an access reads the timer's time.
fn is_time_load(access: Access) -> bool
    ensures load { result ≡ is_time_load access }
{
    match access {
        Access::Load {
            addr,
            width: Width::Word,
            ..
        } => addr == TIME || addr == TIME + 4,
        _ => false,
    }
}

/// Whether what was fetched, with the access that it made, reads the time and was given none.
fn is_unserved(fetched: Fetched, access: Access, time: Option<u64>) -> bool
    ensures unserved { result ≡ (is_time_read (found_in fetched) access && is_none time) }
{
    (fetched.reads_time() || is_time_load(access)) && time.is_none()
}

/// Whether the timer's interrupt would be taken once it is pending.
fn takes_interrupts(csrs: &Csrs) -> bool
    ensures on { result ≡ (csrs.now.mie && csrs.now.mtie) }
{
    // Without a branch, so that an entry's fields are read together.
    csrs.mie & csrs.mtie
}

/// mtimecmp behind a change, in cycles, with what it was before.
fn compare_behind<D: Device>(bus: &Bus<D>, change: Change, before: u64) -> u64
    ensures compare { result ≡ (if is_device change then compare_of bus.now else before) }
{
    match change {
        Change::Device { .. } => compare(bus),
        _ => before,
    }
}

/// What an entry and an undo step tell of an instruction before it is executed.
#[derive(Clone, Copy)]
struct Named {
    number: u64,
    epoch: u64,
    addr: u32,
    word: u32,
    class: Class,
    /// What the register that it writes holds before.
    value: u32,
    /// The number of that register; 0 where it writes none.
    register: u8,
}

/// What a functional side holds of the machine: the hart with its memory and output, and the
/// devices.
#[derive(Drop)]
pub struct Contents<D: Device> {
    /// mtimecmp, in cycles, as each entry tells it: asked of the devices anew only where one of
    /// them was accessed. It stands first, beside the epoch of a walk, so that the host copies both
    /// into an entry at once.
    pub cmp: u64,
    pub hart: Hart,
    pub bus: Bus<D>,
}

impl<D: Device> Contents<D> {
    ghost use Rattle.mono_model.specs.declared.setup.Setup.{Setup};
    ghost use Rattle.machine_csr.specs.Trap.{timer_pending};
    ghost use Rattle.device_bus.specs.Bus.{device_order};
    ghost use Rattle.mono_model.specs.Setup.{is_setup, ram_range};
    ghost use Rattle.mono_model.specs.Arch.{Arch, start, interrupted, synced};
    ghost use Rattle.mono_model.specs.Alone.{Alone, alone, alone_final};
    ghost use Rattle.func_model.specs.Alone.{IsAt, IsOnAt, end_left};
    ghost use Rattle.mono_model.specs.Effect.{note_of};
    ghost use Rattle.mono_model.specs.Sequence.{found_next, result_at, entry_at, seq};
    ghost use Rattle.func_model.specs.Steps.{stepped_by};
    ghost use Rattle.func_model.specs.Contents.{ContentsStandFor, retired_in, output_in};
    ghost use Rattle.func_model.specs.Contents.{after_instruction, before, GoesOn};
    ghost use Rattle.func_model.specs.Telling.{IsNextStep, IsQuiet};
    ghost use Rattle.func_model.specs.Undo.{undone, all_undone, IsRestorable};
    ghost use Rattle.func_model.specs.History.{resumed, step_undone, step_seq};
    ghost use Rattle.func_model.specs.History.{IsMade, IsPlainStep};
    ghost use Rattle.func_model.specs.Hart.{FetchedFits, next_found, IsRegister};
    ghost use Rattle.func_model.specs.Telling.{named_by, entry_by, past_by};

    /// Executes the next instruction with a time, and says how it leaves the run. It stays a call,
    /// since few instructions come to it.
    #[inline(never)]
    fn advance(&mut self, time: u64, limit: u32) -> Stepped
        requires count { retired_in self.old < 2 ^ 64 - 1 }
        requires limit { limit ≤ self.old.hart.room }
        ensures stepped { (s : Setup) (a : Arch) → s.output ≡ limit → ContentsStandFor s a self.old
            → result ≡ stepped_by s.output a.output (note_of (result_at s (Some time) a) a) }
        ensures stands { (s : Setup) (a : Arch) → s.output ≡ limit → ContentsStandFor s a self.old
            → ContentsStandFor s (after_instruction s (found_next s a) (result_at s (Some time) a)
            time a) self.new }
        ensures bound { retired_in self.new ≤ retired_in self.old + 1 }
        ensures room { self.new.hart.room ≡ self.old.hart.room }
    {
        let fetched = self.hart.fetch();
        let done = self.hart.execute(&mut self.bus, fetched, Some(time), limit);
        self.cmp = compare_behind(&self.bus, done.change, self.cmp);
        if fetched.is_fence_i() {
            self.hart.sync();
        }
        done.stepped
    }

    /// Executes the next instruction with a time where it is kept and is none that ends the run,
    /// traps, reaches a device or a control and status register, or lets fetch see memory; and says
    /// whether it did. Nothing is done of any other. Nobody reads what is told of it, so that the
    /// host doesn't put it together.
    #[inline(always)]
    fn advance_plain(&mut self, time: u64) -> bool
        requires count { retired_in self.old < 2 ^ 64 - 1 }
        ensures on { result ≡ true → GoesOn time self.old self.new }
        ensures unchanged { result ≡ false → self.new ≡ self.old }
        ensures room { self.new.hart.room ≡ self.old.hart.room }
    {
        match self.compute(time, &0) {
            Some(_) => true,
            None => self.advance_access(time),
        }
    }

    /// The same where it is a load or a store of RAM. It stays a call: beside it the loop of a run
    /// alone would keep less in the host's registers.
    #[inline(never)]
    fn advance_access(&mut self, time: u64) -> bool
        requires count { retired_in self.old < 2 ^ 64 - 1 }
        ensures on { result ≡ true → GoesOn time self.old self.new }
        ensures unchanged { result ≡ false → self.new ≡ self.old }
        ensures room { self.new.hart.room ≡ self.old.hart.room }
    {
        match self.load(time, 0, Some(time)) {
            Some(_) => true,
            None => match self.store(time, 0) {
                Some(_) => true,
                None => false,
            },
        }
    }

    /// Takes a pending timer interrupt, and counts it.
    fn interrupt(&mut self, time: u64) -> u64
        ensures pending { (s : Setup) (a : Arch) → ContentsStandFor s a self.old
            → result ≡ (if timer_pending a.csrs time (compare_of a.devices) then 1 else 0) }
        ensures one { result ≤ 1 }
        ensures stands { (s : Setup) (a : Arch) → ContentsStandFor s a self.old
            → ContentsStandFor s (before time a) self.new }
        ensures retired { retired_in self.new ≡ retired_in self.old }
        ensures output { output_in self.new ≡ output_in self.old }
        ensures room { self.new.hart.room ≡ self.old.hart.room }
    {
        u64::from(self.take_interrupt(time).is_some())
    }

    /// Takes a pending timer interrupt, and gives what takes it back, where one was taken.
    pub fn take_interrupt(&mut self, time: u64) -> Option<Interrupted>
        ensures stands { (s : Setup) (a : Arch) → ContentsStandFor s a self.old
            → ContentsStandFor s (before time a) self.new }
        ensures pending { (s : Setup) (a : Arch) → ContentsStandFor s a self.old
            → is_some result ≡ timer_pending a.csrs time (compare_of a.devices) }
        ensures back { (s : Setup) (a : Arch) → ContentsStandFor s a self.old
            → resumed result (before time a) ≡ a }
        ensures retired { retired_in self.new ≡ retired_in self.old }
        ensures output { output_in self.new ≡ output_in self.old }
        ensures room { self.new.hart.room ≡ self.old.hart.room }
    {
        if !self.hart.csrs.timer_pending(time, self.cmp) {
            return None;
        }
        let before = Interrupted {
            pc: self.hart.pc,
            trap: trap_before(&self.hart.csrs),
        };
        self.hart.trap(TIMER_INTERRUPT, 0);
        Some(before)
    }

    /// What is reported of a run that ended so after `made` steps.
    pub fn report(&self, end: End, made: u64, interrupts: u64) -> Final
        ensures reported { (s : Setup) (m : Alone) → ContentsStandFor s m.arch self.now
            → m.end ≡ end → m.interrupts ≡ interrupts → m.exceptions ≡ made - retired_in self.now
            → result ≡ alone_final m }
    {
        let stats = Stats {
            version: 0,
            cycles: 0,
            instructions: self.hart.csrs.retired,
            exceptions: made.saturating_sub(self.hart.csrs.retired),
            interrupts,
            replays: 0,
            fetched: 0,
            squashed: 0,
            branches: 0,
            mispredicted: 0,
            icache_accesses: 0,
            icache_misses: 0,
            dcache_accesses: 0,
            dcache_misses: 0,
            l2_accesses: 0,
            l2_misses: 0,
            writebacks: 0,
            output: self.hart.output.len() as u64,
        };
        Final {
            end,
            stats,
            pc: self.hart.pc,
            regs: self.hart.regs,
            csrs: self.hart.csrs,
            cmp: compare(&self.bus),
        }
    }

    /// Makes the steps from one number to another of a run alone: one instruction a step, with the
    /// step's number as its time, until the program ends the run or the output has no room for a
    /// byte. `taken` interrupts were taken before. It stays a call, one a piece: beside what its
    /// caller does the loop would keep less in the host's registers.
    #[inline(never)]
    pub fn alone(&mut self, from: u64, taken: u64, to: u64, limit: u32) -> Piece
        requires within { from ≤ to }
        requires bounded { to < 2 ^ 63 }
        requires retired { retired_in self.old ≤ from }
        requires taken { taken ≤ from }
        requires limit { limit ≤ self.old.hart.room }
        ensures stands { (s : Setup) → s.output ≡ limit → to ≤ s.cycles
            → IsOnAt s (alone s from) from taken self.old
            → IsAt s (alone s to) result.made result.taken
            (end_left result.stepped (result.made == s.cycles)) self.new }
        ensures whole { result.stepped ≡ Stepped.On → result.made ≡ to }
        ensures few { result.stepped ≡ Stepped.On → result.taken ≤ result.made }
        ensures room { self.new.hart.room ≡ self.old.hart.room }
    {
        let mut interrupts = taken;
        for made in from..to {
            interrupts += self.interrupt(made);
            // Most instructions need no frame of what all others need.
            if self.advance_plain(made) {
                continue;
            }
            match self.advance(made, limit) {
                Stepped::On => {}
                Stepped::Full => {
                    return Piece {
                        made,
                        taken: interrupts,
                        stepped: Stepped::Full,
                    };
                }
                Stepped::Ended(halt) => {
                    return Piece {
                        made: made + 1,
                        taken: interrupts,
                        stepped: Stepped::Ended(halt),
                    };
                }
            }
        }
        Piece {
            made: to,
            taken: interrupts,
            stepped: Stepped::On,
        }
    }

    /// The output so far.
    pub fn output(&self) -> &[u8]
        ensures output { result.now ≡ output_in self.now }
    {
        self.hart.output.as_slice()
    }

    /// The contents at the start of a run. They take all memory of the run here, but for the
    /// journal's: RAM, output, decoded words and what the devices keep. The output has room for
    /// `ahead` bytes beyond its limit.
    pub fn new(
        alloc: Global,
        setup: &Setup,
        ahead: u32,
        devices: Vec<D>,
    ) -> Result<Contents<D>, NoMemory>
        requires sound { is_setup setup.now ≡ true }
        requires order { map D.kind devices.items ≡ device_order }
        requires ahead { ahead ≤ 65794 }
        ensures opened { IfOk result (λ contents. ContentsStandFor setup.now (start setup.now)
            contents) }
        ensures fresh { IfOk result (λ contents. retired_in contents ≡ 0) }
        ensures room { IfOk result (λ contents. contents.hart.room ≡ setup.now.output + ahead) }
    {
        let mut bus = Bus::new(devices);
        bus.start(alloc, setup.input.as_slice())?;
        let memory = Memory::new(alloc, setup.params.ram_range(), &setup.image)?;
        let room = setup.output + ahead;
        let Ok(output) = Vec::with_capacity(alloc, room as usize) else {
            return Err(NoMemory);
        };
        let hart = Hart {
            pc: setup.image.entry,
            regs: [0; 32],
            csrs: Csrs::new(),
            memory,
            output,
            room,
        };
        let cmp = compare(&bus);
        Ok(Contents { cmp, hart, bus })
    }

    /// What stands at the next address, as its entry and its undo step name it.
    #[inline(always)]
    fn named(
        &self,
        word: u32,
        class: Class,
        destination: Option<u8>,
        number: u64,
        epoch: u64,
    ) -> Named
        requires exists { IsRegister destination }
        ensures named { result ≡ named_by self.now.hart word class destination number epoch }
    {
        let before = self.hart.before(destination);
        Named {
            number,
            epoch,
            addr: self.hart.pc,
            word,
            class,
            value: before.value,
            register: before.register,
        }
    }

    /// What is told of an instruction that did this, and what takes it back.
    #[inline(always)]
    fn told(&self, named: Named, done: Performed, unserved: bool) -> (Entry, Past)
        ensures entry { result.0 ≡ entry_by named done unserved self.now.hart self.now.cmp }
        ensures past { result.1 ≡ past_by named done }
    {
        let entry = Entry {
            number: named.number,
            epoch: named.epoch,
            addr: named.addr,
            word: named.word,
            access: done.access,
            next: self.hart.pc,
            cause: done.cause,
            class: named.class,
            unserved,
            out: done.sent,
            halt: halt_in(done.stepped),
            irq_on: takes_interrupts(&self.hart.csrs),
            cmp: self.cmp,
        };
        let past = Past {
            number: named.number,
            addr: named.addr,
            value: named.value,
            register: named.register,
            change: done.change,
            out: done.sent.is_some(),
        };
        (entry, past)
    }

    /// Executes the instruction at the next address, with its number and epoch, where it is kept
    /// and changes at most a register and the next address: what is told of it, and what takes it
    /// back. None, and nothing done, of any other. The epoch is read last, beside mtimecmp.
    #[inline(always)]
    pub fn compute(&mut self, number: u64, epoch: &u64) -> Option<(Entry, Past)>
        requires count { retired_in self.old < 2 ^ 64 - 1 }
        ensures none { IfNone result (self.new ≡ self.old) }
        ensures step { IfSome result (λ told. (s : Setup) (time : Option ℕ) (a : Arch)
            → ContentsStandFor s a self.old → IsNextStep s time number epoch.now a self.new told) }
        ensures quiet { IfSome result (IsQuiet self.old self.new) }
        ensures number { IfSome result (λ told. told.1.number ≡ number) }
        ensures restorable { IfSome result (λ told. IsRestorable told.1) }
        ensures room { self.new.hart.room ≡ self.old.hart.room }
    {
        let decoded = self.hart.known()?;
        let outcome = self.hart.computed(decoded)?;
        let (word, class, register) = (decoded.word, decoded.class, decoded.written);
        let addr = self.hart.pc;
        let value = self.hart.register(register);
        self.hart.finish_kept(register, outcome.value, outcome.next);
        let named = Named {
            number,
            epoch: *epoch,
            addr,
            word,
            class,
            value,
            register,
        };
        Some(self.told(named, plain(Change::Nothing), false))
    }

    /// Executes the instruction at the next address, with its number, epoch and time or none, where
    /// it is kept and is a load of RAM: what is told of it, and what takes it back. None, and
    /// nothing done, of any other.
    #[inline(always)]
    pub fn load(&mut self, number: u64, epoch: u64, time: Option<u64>) -> Option<(Entry, Past)>
        requires count { retired_in self.old < 2 ^ 64 - 1 }
        ensures none { IfNone result (self.new ≡ self.old) }
        ensures step { IfSome result (λ told. (s : Setup) (a : Arch)
            → ContentsStandFor s a self.old → IsNextStep s time number epoch a self.new told) }
        ensures quiet { IfSome result (IsQuiet self.old self.new) }
        ensures number { IfSome result (λ told. told.1.number ≡ number) }
        ensures restorable { IfSome result (λ told. IsRestorable told.1) }
        ensures room { self.new.hart.room ≡ self.old.hart.room }
    {
        let decoded = self.hart.known()?;
        let load = self.hart.loaded(decoded)?;
        let unserved = is_unserved(Fetched::Known(*decoded), load.access, time);
        let destination = decoded.destination;
        let named = self.named(decoded.word, decoded.class, destination, number, epoch);
        self.hart.finish(destination, load.value, load.next);
        let done = Performed {
            access: load.access,
            ..plain(Change::Nothing)
        };
        Some(self.told(named, done, unserved))
    }

    /// The same of a store to RAM, whatever its time.
    #[inline(always)]
    pub fn store(&mut self, number: u64, epoch: u64) -> Option<(Entry, Past)>
        requires count { retired_in self.old < 2 ^ 64 - 1 }
        ensures none { IfNone result (self.new ≡ self.old) }
        ensures step { IfSome result (λ told. (s : Setup) (time : Option ℕ) (a : Arch)
            → ContentsStandFor s a self.old → IsNextStep s time number epoch a self.new told) }
        ensures quiet { IfSome result (IsQuiet self.old self.new) }
        ensures number { IfSome result (λ told. told.1.number ≡ number) }
        ensures restorable { IfSome result (λ told. IsRestorable told.1) }
        ensures room { self.new.hart.room ≡ self.old.hart.room }
    {
        let decoded = self.hart.known()?;
        let store = self.hart.storing(decoded)?;
        let named = self.named(decoded.word, decoded.class, None, number, epoch);
        let old = self.hart.store_ram(store)?;
        let StoreAccess { addr, width, .. } = store;
        let spot = Spot::Ram;
        let done = Performed {
            access: Access::Store { addr, width, spot },
            ..plain(Change::Memory { addr, width, old })
        };
        Some(self.told(named, done, false))
    }

    /// Executes what was fetched at the next address, with its number, epoch and time or none: what
    /// is told of it, and what takes it back.
    #[inline(always)]
    pub fn carry_out(
        &mut self,
        fetched: Fetched,
        number: u64,
        epoch: u64,
        time: Option<u64>,
    ) -> (Entry, Past)
        requires found { found_in fetched ≡ next_found self.old.hart }
        requires fits { FetchedFits fetched }
        requires count { retired_in self.old < 2 ^ 64 - 1 }
        requires room { length (output_in self.old) < self.old.hart.room }
        ensures step { (s : Setup) (a : Arch) → ContentsStandFor s a self.old
            → IsNextStep s time number epoch a self.new result }
        ensures number { result.1.number ≡ number }
        ensures restorable { IsRestorable result.1 }
        ensures room { self.new.hart.room ≡ self.old.hart.room }
    {
        let destination = fetched.destination();
        let named = self.named(fetched.word(), fetched.class(), destination, number, epoch);
        let room = self.hart.room;
        let done = self.hart.execute(&mut self.bus, fetched, time, room);
        self.cmp = compare_behind(&self.bus, done.change, self.cmp);
        let unserved = is_unserved(fetched, done.access, time);
        self.told(named, done, unserved)
    }

    /// Takes an instruction back.
    pub fn undo(&mut self, past: Past)
        requires restorable { IsRestorable past }
        ensures stands { (s : Setup) (a : Arch) → ContentsStandFor s a self.old
            → ContentsStandFor s (undone (ram_range s.params) past a) self.new }
        ensures room { self.new.hart.room ≡ self.old.hart.room }
    {
        self.hart.restore(&mut self.bus, past);
        self.cmp = compare_behind(&self.bus, past.change, self.cmp);
    }

    /// Takes instructions back, the last one first, as far as their undo steps are plain: how many
    /// are left.
    #[inline(always)]
    pub fn undo_plain(&mut self, steps: &[Past]) -> usize
        requires restorable { All IsRestorable steps.now }
        ensures within { result ≤ length steps.now }
        ensures stands { (s : Setup) (a : Arch) → ContentsStandFor s a self.old
            → ContentsStandFor s
            (all_undone (ram_range s.params) (drop result steps.now) a) self.new }
        ensures room { self.new.hart.room ≡ self.old.hart.room }
    {
        self.hart.restore_plain(steps)
    }

    /// Goes on at another address.
    pub fn jump(&mut self, addr: u32)
        ensures stands { (s : Setup) (a : Arch) → ContentsStandFor s a self.old
            → ContentsStandFor s (record a { pc = addr }) self.new }
        ensures room { self.new.hart.room ≡ self.old.hart.room }
    {
        self.hart.pc = addr;
    }

    /// Takes the timer interrupt.
    pub fn interrupted(&mut self)
        ensures stands { (s : Setup) (a : Arch) → ContentsStandFor s a self.old
            → ContentsStandFor s (interrupted a) self.new }
        ensures room { self.new.hart.room ≡ self.old.hart.room }
    {
        self.hart.trap(TIMER_INTERRUPT, 0);
    }

    /// Lets fetch see memory as it stands.
    pub fn sync(&mut self)
        ensures stands { (s : Setup) (a : Arch) → ContentsStandFor s a self.old
            → ContentsStandFor s (synced s a) self.new }
        ensures room { self.new.hart.room ≡ self.old.hart.room }
    {
        self.hart.sync();
    }

    /// Makes one step of a run alone, but for what a FENCE.I lets fetch see: a pending timer
    /// interrupt, then the next instruction, with the step's number as its time. The output's limit
    /// doesn't stop it.
    #[inline(always)]
    pub fn make(&mut self, number: u64) -> Made
        requires count { retired_in self.old < 2 ^ 64 - 1 }
        requires room { length (output_in self.old) < self.old.hart.room }
        ensures stands { (s : Setup) (a : Arch) → ContentsStandFor s a self.old
            → ContentsStandFor s (step_seq s number a) self.new }
        ensures made { (s : Setup) (a : Arch) → ContentsStandFor s a self.old
            → IsMade s number a result }
        ensures restorable { IsRestorable result.past.past }
        ensures room { self.new.hart.room ≡ self.old.hart.room }
    {
        let interrupted = self.take_interrupt(number);
        let fetched = self.hart.fetch();
        let is_fence = fetched.is_fence_i();
        let (entry, past) = self.carry_out(fetched, number, 0, Some(number));
        Made {
            has_sent: entry.out.is_some(),
            halt: entry.halt,
            is_fence,
            past: PastStep { past, interrupted },
        }
    }

    /// Makes one step, as `make` does, where no timer interrupt is pending, and the instruction is
    /// kept and changes at most a register and the next address: what takes the step back. None,
    /// and nothing done, of any other step.
    #[inline(always)]
    pub fn make_computed(&mut self, number: u64) -> Option<PastStep>
        requires count { retired_in self.old < 2 ^ 64 - 1 }
        ensures none { IfNone result (self.new ≡ self.old) }
        ensures step { IfSome result (IsPlainStep number self.old self.new) }
        ensures room { self.new.hart.room ≡ self.old.hart.room }
    {
        if self.hart.csrs.timer_pending(number, self.cmp) {
            return None;
        }
        let (_, past) = self.compute(number, &0)?;
        Some(PastStep::plain(past))
    }

    /// Makes one step, as `make_computed` does, where the instruction is a load or a store of RAM.
    #[inline(always)]
    pub fn make_access(&mut self, number: u64) -> Option<PastStep>
        requires count { retired_in self.old < 2 ^ 64 - 1 }
        ensures none { IfNone result (self.new ≡ self.old) }
        ensures step { IfSome result (IsPlainStep number self.old self.new) }
        ensures room { self.new.hart.room ≡ self.old.hart.room }
    {
        if self.hart.csrs.timer_pending(number, self.cmp) {
            return None;
        }
        if let Some((_, past)) = self.load(number, 0, Some(number)) {
            return Some(PastStep::plain(past));
        }
        let (_, past) = self.store(number, 0)?;
        Some(PastStep::plain(past))
    }

    /// Takes a step of a run alone back.
    pub fn unmake(&mut self, past: PastStep)
        requires restorable { IsRestorable past.past }
        ensures stands { (s : Setup) (a : Arch) → ContentsStandFor s a self.old
            → ContentsStandFor s (step_undone (ram_range s.params) past a) self.new }
        ensures room { self.new.hart.room ≡ self.old.hart.room }
    {
        self.undo(past.past);
        if let Some(before) = past.interrupted {
            self.hart.pc = before.pc;
            self.hart.put_trap(before.trap);
        }
    }
}
