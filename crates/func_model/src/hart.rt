ghost use Rattle.std.specs.Prelude.{◌≡◌, ◌≤◌, ◌<◌, ◌^◌, ◌+◌, ◌-◌, ◌%◌, ℕ, None, Some};
ghost use Rattle.std.specs.Prelude.{slice_index, vec_capacity, unwrap_or, if◌then◌else◌};
ghost use Rattle.std.specs.Prelude.{Option, IfSome, IfNone, true, false};
ghost use Rattle.mono_model.specs.Arch.{compare_of};
ghost use Rattle.mono_model.specs.Found.{is_csr_insn, is_mret_insn, is_fence_i};
ghost use Rattle.mono_model.specs.Result.{attempted, csr_value};
ghost use Rattle.mono_model.specs.Sequence.{byte_in};
ghost use Rattle.func_model.specs.Steps.{plain_with, is_load, is_store};
ghost use Rattle.func_model.specs.Undo.{flags_before, trap_before};
ghost use Rattle.rv_exec.specs.Load.{loaded_value};

use crate::found::{Decoded, Fetched};
use crate::memory::Memory;
use crate::performed::{OldRegister, Performed, Stepped};
use crate::take_back::{csr_before, flags_before, trap_before};
use device_bus::{Bus, Device, Note};
use fsim_base::{Access, Cause, Spot, Width, wrap_add};
use machine_csr::{Csrs, reads_time};
use rv_decode::Insn;
use rv_exec::{Outcome, Reach, eval, extend};
use undo_journal::Change;

/// The registers, memory and output of the hart, changed in place by each instruction.
#[derive(Drop)]
pub struct Hart {
    pub pc: u32,
    pub regs: [u32; 32],
    pub csrs: Csrs,
    pub memory: Memory,
    /// The bytes sent to the console.
    pub output: Vec<u8>,
    /// How many of them have room.
    pub room: u32,
    ghost holds: { room ≤ vec_capacity output },
}

/// A load, by its address, and the address of the instruction behind it.
#[derive(Clone, Copy)]
struct LoadAccess {
    next: u32,
    addr: u32,
    width: Width,
    signed: bool,
}

/// A store, by its address and value, and the address of the instruction behind it.
#[derive(Clone, Copy)]
pub struct StoreAccess {
    pub next: u32,
    pub addr: u32,
    pub width: Width,
    pub value: u32,
}

/// What a load of RAM does: what it writes to its register, its access, and the address of the
/// instruction behind it.
#[derive(Clone, Copy)]
pub struct Loaded {
    pub next: u32,
    pub value: u32,
    pub access: Access,
}

/// The bytes of a load, as a number, where it can be made; where they lie; and what takes an access
/// to a device back.
#[derive(Clone, Copy)]
struct Read {
    raw: Option<u32>,
    spot: Spot,
    change: Change,
}

/// Whether the instruction is one of Zicsr.
fn is_csr(insn: Insn) -> bool
    ensures csr { result ≡ is_csr_insn insn }
{
    matches!(insn, Insn::Csr { .. })
}

fn is_mret(insn: Insn) -> bool
    ensures mret { result ≡ is_mret_insn insn }
{
    matches!(insn, Insn::Mret)
}

/// Whether the instruction is a load.
fn is_load(insn: Insn) -> bool
    ensures load { result ≡ is_load insn }
{
    matches!(insn, Insn::Load { .. })
}

/// Whether the instruction is a store.
fn is_store(insn: Insn) -> bool
    ensures store { result ≡ is_store insn }
{
    matches!(insn, Insn::Store { .. })
}

/// What a load writes to its register; a word as it is.
#[inline(always)]
fn extended(raw: u32, width: Width, signed: bool) -> u32
    ensures value { result ≡ loaded_value width signed raw }
{
    match width {
        Width::Word => raw,
        _ => extend(raw, width, signed),
    }
}

/// The timer's place on the bus, and the numbers that are the halves of its mtimecmp.
const TIMER: u32 = 1;

const COMPARE_LOW_SLOT: u32 = 0;

const COMPARE_HIGH_SLOT: u32 = 1;

/// mtimecmp, in cycles.
pub fn compare<D: Device>(bus: &Bus<D>) -> u64
    ensures compare { result ≡ compare_of bus.now }
{
    let low = u64::from(bus.number(TIMER, COMPARE_LOW_SLOT));
    low + (u64::from(bus.number(TIMER, COMPARE_HIGH_SLOT)) << 32)
}

/// A load or store as it is attempted where it is misaligned.
fn attempted(reach: Reach) -> Access
    ensures access { result ≡ attempted reach }
{
    match reach {
        Reach::Nothing => Access::Nothing,
        Reach::Load { addr, width, .. } => Access::Load {
            addr,
            width,
            spot: Spot::Nowhere,
        },
        Reach::Store { addr, width, .. } => Access::Store {
            addr,
            width,
            spot: Spot::Nowhere,
        },
    }
}

/// The byte that is sent, if one is.
fn byte_in(note: Note) -> Option<u8>
    ensures byte { result ≡ byte_in note }
{
    match note {
        Note::Out(byte) => Some(byte),
        _ => None,
    }
}

/// What a CSR instruction that read this gives at a time or none.
fn csr_value(insn: Insn, time: Option<u64>, value: u32) -> u32
    ensures value { result ≡ csr_value insn time value }
{
    if reads_time(insn) && time.is_none() {
        0
    } else {
        value
    }
}

/// What an instruction did that reached neither memory nor a device.
pub fn plain(change: Change) -> Performed
    ensures done { result ≡ plain_with change }
{
    Performed {
        stepped: Stepped::On,
        sent: None,
        access: Access::Nothing,
        cause: None,
        change,
    }
}

impl Hart {
    ghost use Rattle.device_bus.specs.Bus.{Devices};
    ghost use Rattle.fsim_base.specs.Cause.{cause_number};
    ghost use Rattle.fsim_base.specs.Width.{width_bytes};
    ghost use Rattle.mono_model.specs.Arch.{Arch, register_value, with_register, trapped};
    ghost use Rattle.mono_model.specs.Found.{known};
    ghost use Rattle.mono_model.specs.Result.{raw_at, spot_of, loaded_at, stored_at};
    ghost use Rattle.mono_model.specs.Result.{csr_result, evaluated};
    ghost use Rattle.mono_model.specs.Sequence.{seen_in};
    ghost use Rattle.machine_csr.specs.Csr.{csr_access};
    ghost use Rattle.rv_decode.specs.Class.{dest_of};
    ghost use Rattle.phys_mem.specs.Ram.{ram_of, text_of, exec_of, range_of, text_from};
    ghost use Rattle.func_model.specs.Steps.{failed_with, finished, read_devices, load_made};
    ghost use Rattle.func_model.specs.Steps.{stepped_by, concluded, store_made, outcome_made};
    ghost use Rattle.func_model.specs.Steps.{AlignedBy, csr_made, mret_made};
    ghost use Rattle.func_model.specs.Steps.{behind, result_of, plain_outcome, Told, load_with};
    ghost use Rattle.func_model.specs.Steps.{store_with};
    ghost use Rattle.func_model.specs.Hart.{found_in, DecodedFits, FetchedFits, found_by};
    ghost use Rattle.func_model.specs.Hart.{arch_of, next_found, IsRegister, IsWritten};
    ghost use Rattle.func_model.specs.Undo.{TakesBack, IsRestorableChange};
    ghost use Rattle.func_model.specs.Undo.{IsOfLoad, devices_back};
    ghost use Rattle.func_model.specs.Undo.{register_before};
    ghost use Rattle.fsim_base.specs.declared.access.RamRange.{RamRange};
    ghost use Rattle.undo_journal.specs.declared.past.Change.TheVariants.{Csr};

    /// What stands at the next address.
    #[inline(always)]
    pub fn fetch(&mut self) -> Fetched
        ensures found { found_in result
            ≡ found_by (exec_of self.old.memory) (text_of self.old.memory) self.old.pc }
        ensures fits { FetchedFits result }
        ensures others { self.new ≡ self.old }
    {
        self.memory.fetch(self.pc)
    }

    /// The instruction at the next address, where it is kept.
    #[inline(always)]
    pub fn known(&self) -> Option<&Decoded>
        ensures found { IfSome result (λ decoded.
            known decoded.now.word decoded.now.insn ≡ next_found self.now) }
        ensures fits { IfSome result (λ decoded. DecodedFits decoded.now) }
    {
        self.memory.known(self.pc)
    }

    /// The value of a register.
    pub fn register(&self, number: u8) -> u32
        requires exists { number < 32 }
        ensures value { result ≡ slice_index self.now.regs number }
    {
        self.regs[number as usize]
    }

    /// The value of a source register, and 0 where there is none.
    pub fn operand(&self, source: Option<u8>) -> u32
        requires exists { IsRegister source }
        ensures value { result ≡ register_value (λ r. slice_index self.now.regs r) source }
    {
        match source {
            None => 0,
            Some(register) => self.regs[register as usize],
        }
    }

    /// Takes a trap at the next address.
    #[tactic(auto, unfolding(crate::specs::Hart::arch_of, mono_model::specs::Arch::trapped))]
    pub fn trap(&mut self, cause: u32, mtval: u32)
        ensures arch { (d : Devices)
            → arch_of self.new d ≡ trapped cause mtval self.old.pc (arch_of self.old d) }
        ensures memory { self.new.memory ≡ self.old.memory }
        ensures room { self.new.room ≡ self.old.room }
    {
        self.pc = self.csrs.trap(cause, self.pc, mtval);
    }

    /// Takes the trap of an instruction, with the access that it attempted.
    #[tactic(auto, unfolding(crate::specs::Hart::arch_of, mono_model::specs::Arch::trapped))]
    #[inline(always)]
    fn fail(&mut self, access: Access, cause: Cause, mtval: u32) -> Performed
        ensures done { result ≡ failed_with access cause self.old.csrs }
        ensures back { (range : RamRange) (d : Devices)
            → TakesBack range result (arch_of self.old d) (arch_of self.new d) }
        ensures arch { (d : Devices)
            → arch_of self.new d
            ≡ trapped (cause_number cause) mtval self.old.pc (arch_of self.old d) }
        ensures memory { self.new.memory ≡ self.old.memory }
        ensures room { self.new.room ≡ self.old.room }
    {
        let before = trap_before(&self.csrs);
        self.trap(cause.number(), mtval);
        Performed {
            stepped: Stepped::On,
            sent: None,
            access,
            cause: Some(cause),
            change: Change::Trap(before),
        }
    }

    /// Writes the destination register, if there is one.
    fn write(&mut self, destination: Option<u8>, value: u32)
        requires exists { IsRegister destination }
        ensures regs { (λ r. slice_index self.new.regs r)
            ≡ with_register destination value (λ r. slice_index self.old.regs r) }
        ensures others { self.new ≡ record self.old { regs = self.new.regs } }
    {
        // Asked as `before` asks it, so that the host tests it once for both.
        match destination {
            None => {}
            Some(register) => self.regs[register as usize] = value,
        }
    }

    /// Retires an instruction: writes its register, if any, and goes on at an address.
    #[tactic(auto, unfolding(crate::specs::Hart::arch_of))]
    pub fn finish(&mut self, destination: Option<u8>, value: u32, next: u32)
        requires exists { IsRegister destination }
        requires count { self.old.csrs.retired < 2 ^ 64 - 1 }
        ensures arch { (d : Devices)
            → arch_of self.new d ≡ finished destination value next (arch_of self.old d) }
        ensures memory { self.new.memory ≡ self.old.memory }
        ensures room { self.new.room ≡ self.old.room }
        ensures output { self.new.output ≡ self.old.output }
    {
        self.write(destination, value);
        self.pc = next;
        self.csrs.retired += 1;
    }

    /// Writes a register, where it isn't x0: that is written back, which takes the host less than a
    /// test.
    fn write_kept(&mut self, register: u8, value: u32)
        requires exists { register < 32 }
        ensures regs { (λ r. slice_index self.new.regs r)
            ≡ with_register (Some 0) (slice_index self.old.regs 0)
            (with_register (Some register) value (λ r. slice_index self.old.regs r)) }
        ensures others { self.new ≡ record self.old { regs = self.new.regs } }
    {
        let zero = self.regs[0];
        self.regs[register as usize] = value;
        self.regs[0] = zero;
    }

    /// Retires an instruction, as `finish` does, by the number of its register, which is 0 where it
    /// writes none.
    #[tactic(auto, unfolding(crate::specs::Hart::arch_of))]
    pub fn finish_kept(&mut self, register: u8, value: u32, next: u32)
        requires exists { register < 32 }
        requires count { self.old.csrs.retired < 2 ^ 64 - 1 }
        ensures arch { (destination : Option ℕ) (d : Devices) → IsWritten destination register
            → arch_of self.new d ≡ finished destination value next (arch_of self.old d) }
        ensures memory { self.new.memory ≡ self.old.memory }
        ensures room { self.new.room ≡ self.old.room }
        ensures output { self.new.output ≡ self.old.output }
    {
        self.write_kept(register, value);
        self.pc = next;
        self.csrs.retired += 1;
    }

    /// The bytes of an aligned load at a time; without a time a device sees time 0.
    #[tactic(auto, unfolding(crate::specs::Hart::arch_of))]
    fn read<D: Device>(
        &mut self,
        bus: &mut Bus<D>,
        addr: u32,
        width: Width,
        time: Option<u64>,
    ) -> Read
        requires aligned { addr % width_bytes width ≡ 0 }
        ensures raw { result.raw
            ≡ raw_at (seen_in time (arch_of self.old bus.old)) addr width
            (spot_of (range_of self.old.memory) addr width) }
        ensures spot { result.spot ≡ spot_of (range_of self.old.memory) addr width }
        ensures devices { bus.new
            ≡ read_devices result.raw (range_of self.old.memory) addr width bus.old }
        ensures back { devices_back result.change bus.new ≡ bus.old }
        ensures exists { IsRestorableChange result.change }
        ensures of_load { IsOfLoad result.change }
        ensures same { self.new ≡ self.old }
    {
        if let Some(raw) = self.memory.get(addr, width) {
            return Read {
                raw: Some(raw),
                spot: Spot::Ram,
                change: Change::Nothing,
            };
        }
        let Some(place) = bus.find(addr, width) else {
            return Read {
                raw: None,
                spot: Spot::Nowhere,
                change: Change::Nothing,
            };
        };
        if !place.accepted {
            return Read {
                raw: None,
                spot: Spot::Device,
                change: Change::Nothing,
            };
        }
        let (raw, undo) = bus.load(place.device, place.off, width, time.unwrap_or(0));
        Read {
            raw: Some(raw),
            spot: Spot::Device,
            change: Change::Device {
                device: place.device,
                undo,
            },
        }
    }

    /// An aligned load at a time, with the register that it writes.
    #[tactic(auto, unfolding(crate::specs::Hart::arch_of, mono_model::specs::Arch::trapped))]
    #[inline(always)]
    fn load<D: Device>(
        &mut self,
        bus: &mut Bus<D>,
        destination: Option<u8>,
        access: LoadAccess,
        time: Option<u64>,
    ) -> Performed
        requires exists { IsRegister destination }
        requires count { self.old.csrs.retired < 2 ^ 64 - 1 }
        requires aligned { access.addr % width_bytes access.width ≡ 0 }
        ensures told { (limit : ℕ)
            → Told limit (loaded_at access.next access.addr access.width access.signed
            (seen_in time (arch_of self.old bus.old))
            (spot_of (range_of self.old.memory) access.addr access.width))
            (arch_of self.old bus.old) result }
        ensures arch { arch_of self.new bus.new
            ≡ load_made (range_of self.old.memory) destination access.next access.addr access.width
            access.signed time (arch_of self.old bus.old) }
        ensures back { TakesBack (range_of self.old.memory) result (arch_of self.old bus.old)
            (arch_of self.new bus.new) }
        ensures memory { self.new.memory ≡ self.old.memory }
        ensures room { self.new.room ≡ self.old.room }
    {
        let read = self.read(bus, access.addr, access.width, time);
        let made = Access::Load {
            addr: access.addr,
            width: access.width,
            spot: read.spot,
        };
        match read.raw {
            None => self.fail(made, Cause::LoadAccess, access.addr),
            Some(raw) => {
                let value = extend(raw, access.width, access.signed);
                self.finish(destination, value, access.next);
                Performed {
                    access: made,
                    ..plain(read.change)
                }
            }
        }
    }

    /// What an aligned load does, at whatever time. None where it isn't inside RAM.
    #[tactic(auto, unfolding(crate::specs::Hart::arch_of))]
    #[inline(always)]
    fn read_ram(&self, next: u32, addr: u32, width: Width, signed: bool) -> Option<Loaded>
        requires aligned { addr % width_bytes width ≡ 0 }
        ensures told { IfSome result (λ load. (limit : ℕ) (time : Option ℕ) (d : Devices)
            → Told limit (loaded_at next addr width signed (seen_in time (arch_of self.now d))
            (spot_of (range_of self.now.memory) addr width)) (arch_of self.now d)
            (load_with load.access)) }
        ensures made { IfSome result (λ load. (destination : Option ℕ) (time : Option ℕ)
            (d : Devices) → finished destination load.value load.next (arch_of self.now d)
            ≡ load_made (range_of self.now.memory) destination next addr width signed time
            (arch_of self.now d)) }
    {
        let raw = self.memory.get(addr, width)?;
        let spot = Spot::Ram;
        Some(Loaded {
            next,
            value: extended(raw, width, signed),
            access: Access::Load { addr, width, spot },
        })
    }

    /// Ends a store that does this outside its device: sends a byte, if there is room for it, or
    /// ends the run.
    #[tactic(auto, unfolding(crate::specs::Hart::arch_of))]
    fn conclude(&mut self, note: Note, next: u32, limit: u32) -> Stepped
        requires count { self.old.csrs.retired < 2 ^ 64 - 1 }
        requires limit { limit ≤ self.old.room }
        ensures stepped { result ≡ stepped_by limit self.old.output.items note }
        ensures arch { (d : Devices)
            → arch_of self.new d ≡ concluded limit note next (arch_of self.old d) }
        ensures memory { self.new.memory ≡ self.old.memory }
        ensures room { self.new.room ≡ self.old.room }
    {
        match note {
            Note::Nothing => {
                self.finish(None, 0, next);
                Stepped::On
            }
            Note::Out(byte) => {
                if self.output.len() >= limit as usize {
                    return Stepped::Full;
                }
                self.output.push_reserved(byte);
                self.finish(None, 0, next);
                Stepped::On
            }
            Note::End(halt) => {
                self.finish(None, 0, next);
                Stepped::Ended(halt)
            }
        }
    }

    /// An aligned store, with an output limit.
    #[tactic(auto, unfolding(crate::specs::Hart::arch_of))]
    #[inline(always)]
    fn store<D: Device>(&mut self, bus: &mut Bus<D>, access: StoreAccess, limit: u32) -> Performed
        requires count { self.old.csrs.retired < 2 ^ 64 - 1 }
        requires aligned { access.addr % width_bytes access.width ≡ 0 }
        requires limit { limit ≤ self.old.room }
        ensures told { Told limit (stored_at access.next access.addr access.width access.value
            (spot_of (range_of self.old.memory) access.addr access.width))
            (arch_of self.old bus.old) result }
        ensures arch { arch_of self.new bus.new
            ≡ store_made (range_of self.old.memory) limit access.next access.addr access.width
            access.value (arch_of self.old bus.old) }
        ensures back { TakesBack (range_of self.old.memory) result (arch_of self.old bus.old)
            (arch_of self.new bus.new) }
        ensures range { range_of self.new.memory ≡ range_of self.old.memory }
        ensures exec { exec_of self.new.memory ≡ exec_of self.old.memory }
        ensures room { self.new.room ≡ self.old.room }
    {
        let StoreAccess {
            next,
            addr,
            width,
            value,
        } = access;
        if let Some(old) = self.memory.set(addr, width, value) {
            self.finish(None, 0, next);
            let spot = Spot::Ram;
            return Performed {
                access: Access::Store { addr, width, spot },
                ..plain(Change::Memory { addr, width, old })
            };
        }
        let Some(place) = bus.find(addr, width) else {
            let spot = Spot::Nowhere;
            let tried = Access::Store { addr, width, spot };
            return self.fail(tried, Cause::StoreAccess, addr);
        };
        let spot = Spot::Device;
        let made = Access::Store { addr, width, spot };
        if !place.accepted {
            return self.fail(made, Cause::StoreAccess, addr);
        }
        let (note, undo) = bus.store(place.device, place.off, width, value);
        Performed {
            stepped: self.conclude(note, next, limit),
            sent: byte_in(note),
            access: made,
            cause: None,
            change: Change::Device {
                device: place.device,
                undo,
            },
        }
    }

    /// Makes an aligned store to RAM, and gives the value that it replaces. None, and nothing done,
    /// where it isn't inside RAM.
    #[tactic(auto, unfolding(crate::specs::Hart::arch_of))]
    #[inline(always)]
    pub fn store_ram(&mut self, access: StoreAccess) -> Option<u32>
        requires count { self.old.csrs.retired < 2 ^ 64 - 1 }
        requires aligned { access.addr % width_bytes access.width ≡ 0 }
        ensures none { IfNone result (self.new ≡ self.old) }
        ensures told { IfSome result (λ old. (limit : ℕ) (d : Devices)
            → Told limit (stored_at access.next access.addr access.width access.value
            (spot_of (range_of self.old.memory) access.addr access.width)) (arch_of self.old d)
            (store_with access.addr access.width old)) }
        ensures arch { IfSome result (λ old. (limit : ℕ) (d : Devices)
            → arch_of self.new d
            ≡ store_made (range_of self.old.memory) limit access.next access.addr access.width
            access.value (arch_of self.old d)) }
        ensures back { IfSome result (λ old. (d : Devices)
            → TakesBack (range_of self.old.memory) (store_with access.addr access.width old)
            (arch_of self.old d) (arch_of self.new d)) }
        ensures range { range_of self.new.memory ≡ range_of self.old.memory }
        ensures exec { exec_of self.new.memory ≡ exec_of self.old.memory }
        ensures room { self.new.room ≡ self.old.room }
    {
        let old = self.memory.set(access.addr, access.width, access.value)?;
        self.finish(None, 0, access.next);
        Some(old)
    }

    /// Does what an instruction does whose outcome this is, with an output limit.
    #[tactic(auto, unfolding(crate::specs::Hart::arch_of))]
    #[inline(always)]
    fn reach<D: Device>(
        &mut self,
        bus: &mut Bus<D>,
        destination: Option<u8>,
        outcome: Outcome,
        time: Option<u64>,
        limit: u32,
    ) -> Performed
        requires exists { IsRegister destination }
        requires count { self.old.csrs.retired < 2 ^ 64 - 1 }
        requires aligned { AlignedBy outcome.cause outcome.reach }
        requires limit { limit ≤ self.old.room }
        ensures told { Told limit (evaluated (range_of self.old.memory)
            (seen_in time (arch_of self.old bus.old)) outcome) (arch_of self.old bus.old) result }
        ensures arch { arch_of self.new bus.new
            ≡ outcome_made (range_of self.old.memory) limit destination outcome time
            (arch_of self.old bus.old) }
        ensures back { TakesBack (range_of self.old.memory) result (arch_of self.old bus.old)
            (arch_of self.new bus.new) }
        ensures range { range_of self.new.memory ≡ range_of self.old.memory }
        ensures exec { exec_of self.new.memory ≡ exec_of self.old.memory }
        ensures room { self.new.room ≡ self.old.room }
    {
        if let Some((cause, mtval)) = outcome.cause {
            return self.fail(attempted(outcome.reach), cause, mtval);
        }
        let next = outcome.next;
        match outcome.reach {
            Reach::Nothing => {
                self.finish(destination, outcome.value, next);
                plain(Change::Nothing)
            }
            Reach::Load {
                addr,
                width,
                signed,
            } => {
                let access = LoadAccess {
                    next,
                    addr,
                    width,
                    signed,
                };
                self.load(bus, destination, access, time)
            }
            Reach::Store { addr, width, value } => {
                let access = StoreAccess {
                    next,
                    addr,
                    width,
                    value,
                };
                self.store(bus, access, limit)
            }
        }
    }

    /// Reads and writes a control and status register, or traps where the access is illegal.
    /// Without a time, a register that shows it reads 0.
    #[tactic(auto, unfolding(crate::specs::Hart::arch_of))]
    #[inline(always)]
    fn access_csr(
        &mut self,
        word: u32,
        insn: Insn,
        x: u32,
        time: Option<u64>,
        cmp: u64,
    ) -> Performed
        requires exists { IsRegister (dest_of insn) }
        requires count { self.old.csrs.retired < 2 ^ 64 - 1 }
        ensures told { (limit : ℕ) (d : Devices)
            → Told limit (csr_result word insn self.old.pc time
            (csr_access self.old.csrs insn x (unwrap_or time 0) cmp)) (arch_of self.old d) result }
        ensures arch { (d : Devices)
            → arch_of self.new d
            ≡ csr_made word insn time (csr_access self.old.csrs insn x (unwrap_or time 0) cmp)
            (arch_of self.old d) }
        ensures back { (range : RamRange) (d : Devices)
            → TakesBack range result (arch_of self.old d) (arch_of self.new d) }
        ensures memory { self.new.memory ≡ self.old.memory }
        ensures room { self.new.room ≡ self.old.room }
    {
        match self.csrs.access(insn, x, time.unwrap_or(0), cmp) {
            None => self.fail(Access::Nothing, Cause::IllegalInstruction, word),
            Some((value, write)) => {
                let before = csr_before(&self.csrs, write);
                self.csrs.apply(write);
                let next = wrap_add(self.pc, 4);
                self.finish(insn.dest(), csr_value(insn, time, value), next);
                plain(Change::Csr(before))
            }
        }
    }

    /// Leaves a trap, as MRET does.
    #[tactic(auto, unfolding(crate::specs::Hart::arch_of))]
    #[inline(always)]
    fn leave(&mut self) -> Performed
        requires count { self.old.csrs.retired < 2 ^ 64 - 1 }
        ensures done { result ≡ plain_with (Csr (flags_before self.old.csrs)) }
        ensures back { (range : RamRange) (d : Devices)
            → TakesBack range result (arch_of self.old d) (arch_of self.new d) }
        ensures arch { (d : Devices) → arch_of self.new d ≡ mret_made (arch_of self.old d) }
        ensures memory { self.new.memory ≡ self.old.memory }
        ensures room { self.new.room ≡ self.old.room }
    {
        let before = flags_before(&self.csrs);
        let next = self.csrs.leave();
        self.finish(None, 0, next);
        plain(Change::Csr(before))
    }

    /// The outcome of an instruction that changes at most a register and the next address, and lets
    /// fetch see nothing. None of any other, and where it traps.
    #[inline(always)]
    pub fn computed(&self, decoded: &Decoded) -> Option<Outcome>
        requires fits { DecodedFits decoded.now }
        ensures outcome { IfSome result (λ outcome. Some outcome
            ≡ plain_outcome decoded.now.insn self.now.pc (λ r. slice_index self.now.regs r)) }
        ensures no_fence { IfSome result (λ outcome.
            is_fence_i (known decoded.now.word decoded.now.insn) ≡ false) }
        ensures none { IfNone result ((if is_fence_i (known decoded.now.word decoded.now.insn)
            then None else plain_outcome decoded.now.insn self.now.pc
            (λ r. slice_index self.now.regs r)) ≡ None) }
    {
        let outcome = decoded.bare.eval(
            self.pc,
            self.register(decoded.first),
            self.register(decoded.second),
        )?;
        match outcome.cause {
            None => Some(outcome),
            Some(_) => None,
        }
    }

    /// What a load of RAM does, at whatever time. None where the instruction is none, traps, or
    /// reaches a device.
    #[inline(always)]
    pub fn loaded(&self, decoded: &Decoded) -> Option<Loaded>
        requires fits { DecodedFits decoded.now }
        ensures load { IfSome result (λ load. is_load decoded.now.insn ≡ true) }
        ensures told { IfSome result (λ load. (limit : ℕ) (time : Option ℕ) (d : Devices)
            → Told limit (result_of (range_of self.now.memory)
            (known decoded.now.word decoded.now.insn) time (arch_of self.now d))
            (arch_of self.now d) (load_with load.access)) }
        ensures made { IfSome result (λ load. (limit : ℕ) (time : Option ℕ) (d : Devices)
            → finished decoded.now.destination load.value load.next (arch_of self.now d)
            ≡ behind limit (known decoded.now.word decoded.now.insn)
            (result_of (range_of self.now.memory) (known decoded.now.word decoded.now.insn) time
            (arch_of self.now d)) time (arch_of self.now d)) }
    {
        if !is_load(decoded.insn) {
            return None;
        }
        let outcome = eval(
            decoded.insn,
            self.pc,
            self.register(decoded.first),
            self.register(decoded.second),
        );
        if outcome.cause.is_some() {
            return None;
        }
        match outcome.reach {
            Reach::Load {
                addr,
                width,
                signed,
            } => self.read_ram(outcome.next, addr, width, signed),
            _ => None,
        }
    }

    /// The store that an instruction makes, wherever that reaches, and at whatever time. None where
    /// the instruction is none, and where it traps.
    #[inline(always)]
    pub fn storing(&self, decoded: &Decoded) -> Option<StoreAccess>
        requires fits { DecodedFits decoded.now }
        ensures store { IfSome result (λ store. is_store decoded.now.insn ≡ true) }
        ensures aligned { IfSome result (λ store. store.addr % width_bytes store.width ≡ 0) }
        ensures comes_to { IfSome result (λ store. (time : Option ℕ) (d : Devices)
            → stored_at store.next store.addr store.width store.value
            (spot_of (range_of self.now.memory) store.addr store.width)
            ≡ result_of (range_of self.now.memory) (known decoded.now.word decoded.now.insn) time
            (arch_of self.now d)) }
        ensures made { IfSome result (λ store. (limit : ℕ) (time : Option ℕ) (d : Devices)
            → store_made (range_of self.now.memory) limit store.next store.addr store.width
            store.value (arch_of self.now d)
            ≡ behind limit (known decoded.now.word decoded.now.insn)
            (result_of (range_of self.now.memory) (known decoded.now.word decoded.now.insn) time
            (arch_of self.now d)) time (arch_of self.now d)) }
    {
        if !is_store(decoded.insn) {
            return None;
        }
        let outcome = eval(
            decoded.insn,
            self.pc,
            self.register(decoded.first),
            self.register(decoded.second),
        );
        if outcome.cause.is_some() {
            return None;
        }
        match outcome.reach {
            Reach::Store { addr, width, value } => {
                let next = outcome.next;
                Some(StoreAccess {
                    next,
                    addr,
                    width,
                    value,
                })
            }
            _ => None,
        }
    }

    /// Executes an instruction with a time or none and an output limit.
    #[tactic(auto, unfolding(crate::specs::Hart::arch_of))]
    #[inline(always)]
    fn perform<D: Device>(
        &mut self,
        bus: &mut Bus<D>,
        decoded: Decoded,
        time: Option<u64>,
        limit: u32,
    ) -> Performed
        requires fits { DecodedFits decoded }
        requires count { self.old.csrs.retired < 2 ^ 64 - 1 }
        requires limit { limit ≤ self.old.room }
        ensures told { Told limit (result_of (range_of self.old.memory)
            (known decoded.word decoded.insn) time (arch_of self.old bus.old))
            (arch_of self.old bus.old) result }
        ensures arch { arch_of self.new bus.new
            ≡ behind limit (known decoded.word decoded.insn)
            (result_of (range_of self.old.memory) (known decoded.word decoded.insn) time
            (arch_of self.old bus.old)) time (arch_of self.old bus.old) }
        ensures back { TakesBack (range_of self.old.memory) result (arch_of self.old bus.old)
            (arch_of self.new bus.new) }
        ensures range { range_of self.new.memory ≡ range_of self.old.memory }
        ensures exec { exec_of self.new.memory ≡ exec_of self.old.memory }
        ensures room { self.new.room ≡ self.old.room }
    {
        let insn = decoded.insn;
        let (first, second) = insn.sources();
        let x = self.operand(first);
        if is_csr(insn) {
            return self.access_csr(decoded.word, insn, x, time, compare(bus));
        }
        if is_mret(insn) {
            return self.leave();
        }
        let y = self.operand(second);
        let outcome = eval(insn, self.pc, x, y);
        self.reach(bus, decoded.destination, outcome, time, limit)
    }

    /// Executes what was fetched, with a time or none. Where the output already has as many bytes
    /// as the limit, an instruction that sends one isn't executed.
    #[tactic(auto, unfolding(crate::specs::Hart::arch_of))]
    #[inline(always)]
    pub fn execute<D: Device>(
        &mut self,
        bus: &mut Bus<D>,
        fetched: Fetched,
        time: Option<u64>,
        limit: u32,
    ) -> Performed
        requires fits { FetchedFits fetched }
        requires count { self.old.csrs.retired < 2 ^ 64 - 1 }
        requires limit { limit ≤ self.old.room }
        ensures told { Told limit (result_of (range_of self.old.memory) (found_in fetched) time
            (arch_of self.old bus.old)) (arch_of self.old bus.old) result }
        ensures arch { arch_of self.new bus.new
            ≡ behind limit (found_in fetched)
            (result_of (range_of self.old.memory) (found_in fetched) time
            (arch_of self.old bus.old)) time (arch_of self.old bus.old) }
        ensures back { TakesBack (range_of self.old.memory) result (arch_of self.old bus.old)
            (arch_of self.new bus.new) }
        ensures range { range_of self.new.memory ≡ range_of self.old.memory }
        ensures exec { exec_of self.new.memory ≡ exec_of self.old.memory }
        ensures room { self.new.room ≡ self.old.room }
    {
        match fetched {
            Fetched::Refused(cause) => self.fail(Access::Nothing, cause, self.pc),
            Fetched::Unknown(word) => {
                self.fail(Access::Nothing, Cause::IllegalInstruction, word)
            }
            Fetched::Known(decoded) => self.perform(bus, decoded, time, limit),
        }
    }

    /// Lets fetch see memory as it stands.
    #[tactic(auto, unfolding(crate::specs::Hart::arch_of))]
    pub fn sync(&mut self)
        ensures arch { (d : Devices)
            → arch_of self.new d
            ≡ record (arch_of self.old d) {
              text = text_from (exec_of self.old.memory)
                  (ram_of self.old.memory);
            } }
        ensures range { range_of self.new.memory ≡ range_of self.old.memory }
        ensures exec { exec_of self.new.memory ≡ exec_of self.old.memory }
        ensures room { self.new.room ≡ self.old.room }
        ensures csrs { self.new.csrs ≡ self.old.csrs }
    {
        self.memory.sync();
    }

    /// The register that an instruction writes, as it is before; x0 where it writes none.
    pub fn before(&self, destination: Option<u8>) -> OldRegister
        requires exists { IsRegister destination }
        ensures before { result ≡ register_before destination (λ r. slice_index self.now.regs r) }
    {
        match destination {
            None => OldRegister {
                register: 0,
                value: self.regs[0],
            },
            Some(register) => OldRegister {
                register,
                value: self.regs[register as usize],
            },
        }
    }
}
