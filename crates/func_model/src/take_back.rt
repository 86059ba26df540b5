//! What takes an instruction back: what it changes as it is before, and how that is put back.
ghost use Rattle.std.specs.Prelude.{◌≡◌, ◌≤◌, ◌<◌, ◌-◌, Some};
ghost use Rattle.std.specs.Prelude.{slice_index};
ghost use Rattle.std.specs.Prelude.{length, drop};
ghost use Rattle.std.specs.List.{All};
ghost use Rattle.func_model.specs.Undo.{csr_back, flags_before, trap_before};
ghost use Rattle.machine_csr.specs.Csr.{csr_written};

use crate::hart::Hart;
use device_bus::{Bus, Device};
use machine_csr::address::{MCAUSE, MEPC, MSCRATCH, MTVAL, MTVEC};
use machine_csr::{CsrWrite, Csrs};
use undo_journal::{Change, OldCsr, OldTrap, Past};

/// What a trap changes, as it is before.
pub fn trap_before(csrs: &Csrs) -> OldTrap
    ensures before { result ≡ trap_before csrs.now }
{
    OldTrap {
        mie: csrs.mie,
        mpie: csrs.mpie,
        mepc: csrs.mepc,
        mcause: csrs.mcause,
        mtval: csrs.mtval,
    }
}

/// The flags, as they are before.
pub fn flags_before(csrs: &Csrs) -> OldCsr
    ensures before { result ≡ flags_before csrs.now }
{
    OldCsr::Flags {
        mie: csrs.mie,
        mpie: csrs.mpie,
        mtie: csrs.mtie,
    }
}

/// What a write changes, as it is before.
#[tactic(auto, unfolding(machine_csr::specs::Csr::csr_written, machine_csr::specs::Csr::row_at))]
pub fn csr_before(csrs: &Csrs, write: CsrWrite) -> OldCsr
    ensures back { csr_back result (csr_written write csrs.now) ≡ csrs.now }
{
    let CsrWrite::Put { csr, .. } = write else {
        return flags_before(csrs);
    };
    match csr {
        MTVEC => OldCsr::Mtvec(csrs.mtvec),
        MSCRATCH => OldCsr::Mscratch(csrs.mscratch),
        MEPC => OldCsr::Mepc(csrs.mepc),
        MCAUSE => OldCsr::Mcause(csrs.mcause),
        MTVAL => OldCsr::Mtval(csrs.mtval),
        _ => flags_before(csrs),
    }
}

impl Hart {
    ghost use Rattle.device_bus.specs.Bus.{Devices};
    ghost use Rattle.mono_model.specs.Arch.{with_register};
    ghost use Rattle.phys_mem.specs.Ram.{exec_of, range_of};
    ghost use Rattle.func_model.specs.Hart.{arch_of};
    ghost use Rattle.func_model.specs.Undo.{undone, IsRestorable, IsRestorableChange};
    ghost use Rattle.func_model.specs.Undo.{uncounted, changed_back};
    ghost use Rattle.func_model.specs.Undo.{trap_back, all_undone};
    ghost use Rattle.func_model.specs.Undo.{all_registers_back};
    ghost use Rattle.fsim_base.specs.declared.access.RamRange.{RamRange};
    ghost use Rattle.undo_journal.specs.declared.past.Change.TheVariants.{Csr};
    ghost use Rattle.undo_journal.specs.Journal.{IsPlain};

    /// Takes back what an instruction changed beside its register and the output.
    #[tactic(auto, unfolding(crate::specs::Hart::arch_of))]
    fn take_back<D: Device>(&mut self, bus: &mut Bus<D>, change: Change)
        requires restorable { IsRestorableChange change }
        ensures arch { arch_of self.new bus.new
            ≡ changed_back (range_of self.old.memory) change (arch_of self.old bus.old) }
        ensures range { range_of self.new.memory ≡ range_of self.old.memory }
        ensures exec { exec_of self.new.memory ≡ exec_of self.old.memory }
        ensures room { self.new.room ≡ self.old.room }
    {
        match change {
            Change::Nothing => self.uncount(),
            Change::Memory { addr, width, old } => {
                let _ = self.memory.set(addr, width, old);
                self.uncount();
            }
            Change::Device { device, undo } => {
                bus.undo(device, undo);
                self.uncount();
            }
            Change::Trap(before) => self.put_trap(before),
            Change::Csr(before) => {
                self.put_csr(before);
                self.uncount();
            }
        }
    }

    /// Puts back what a trap changed of the control and status registers.
    pub fn put_trap(&mut self, before: OldTrap)
        ensures put { self.new ≡ record self.old { csrs = trap_back before self.old.csrs } }
    {
        self.csrs.mie = before.mie;
        self.csrs.mpie = before.mpie;
        self.csrs.mepc = before.mepc;
        self.csrs.mcause = before.mcause;
        self.csrs.mtval = before.mtval;
    }

    /// Puts back what an instruction changed of the control and status registers.
    fn put_csr(&mut self, before: OldCsr)
        ensures put { self.new ≡ record self.old { csrs = csr_back before self.old.csrs } }
    {
        match before {
            OldCsr::Flags { mie, mpie, mtie } => {
                self.csrs.mie = mie;
                self.csrs.mpie = mpie;
                self.csrs.mtie = mtie;
            }
            OldCsr::Mtvec(old) => self.csrs.mtvec = old,
            OldCsr::Mscratch(old) => self.csrs.mscratch = old,
            OldCsr::Mepc(old) => self.csrs.mepc = old,
            OldCsr::Mcause(old) => self.csrs.mcause = old,
            OldCsr::Mtval(old) => self.csrs.mtval = old,
        }
    }

    /// One instruction fewer retired.
    fn uncount(&mut self)
        ensures uncounted { self.new ≡ record self.old { csrs = uncounted self.old.csrs } }
    {
        self.csrs.retired = self.csrs.retired.saturating_sub(1);
    }

    /// Puts back what a register was.
    #[inline(always)]
    fn put_register(&mut self, register: u8, value: u32)
        requires exists { register < 32 }
        ensures regs { (λ r. slice_index self.new.regs r)
            ≡ with_register (Some register) value (λ r. slice_index self.old.regs r) }
        ensures others { self.new ≡ record self.old { regs = self.new.regs } }
    {
        self.regs[register as usize] = value;
    }

    /// Puts back the registers of instructions, the last one first, as far as their undo steps are
    /// plain: how many are left.
    #[inline(always)]
    fn put_registers(&mut self, steps: &[Past]) -> usize
        requires restorable { All IsRestorable steps.now }
        ensures within { result ≤ length steps.now }
        ensures plain { All IsPlain (drop result steps.now) }
        ensures regs { (λ r. slice_index self.new.regs r)
            ≡ all_registers_back (drop result steps.now) (λ r. slice_index self.old.regs r) }
        ensures others { self.new ≡ record self.old { regs = self.new.regs } }
    {
        let mut left = steps.len();
        while left > 0 && steps[left - 1].is_plain() {
            left -= 1;
            let past = &steps[left];
            self.put_register(past.register, past.value);
        }
        left
    }

    /// Takes instructions back, the last one first, as far as their undo steps are plain: how many
    /// are left. The next address and the count of retired instructions are put back once for all.
    #[tactic(auto, unfolding(crate::specs::Hart::arch_of))]
    #[inline(always)]
    pub fn restore_plain(&mut self, steps: &[Past]) -> usize
        requires restorable { All IsRestorable steps.now }
        ensures within { result ≤ length steps.now }
        ensures plain { All IsPlain (drop result steps.now) }
        ensures arch { (range : RamRange) (d : Devices) → arch_of self.new d
            ≡ all_undone range (drop result steps.now) (arch_of self.old d) }
        ensures memory { self.new.memory ≡ self.old.memory }
        ensures room { self.new.room ≡ self.old.room }
    {
        let left = self.put_registers(steps);
        if left < steps.len() {
            self.pc = steps[left].addr;
            let count = (steps.len() - left) as u64;
            self.csrs.retired = self.csrs.retired.saturating_sub(count);
        }
        left
    }

    /// Takes an instruction back.
    #[tactic(auto, unfolding(crate::specs::Hart::arch_of, crate::specs::Undo::undone))]
    pub fn restore<D: Device>(&mut self, bus: &mut Bus<D>, past: Past)
        requires restorable { IsRestorable past }
        ensures arch { arch_of self.new bus.new
            ≡ undone (range_of self.old.memory) past (arch_of self.old bus.old) }
        ensures range { range_of self.new.memory ≡ range_of self.old.memory }
        ensures exec { exec_of self.new.memory ≡ exec_of self.old.memory }
        ensures room { self.new.room ≡ self.old.room }
    {
        if past.out {
            self.output.truncate(self.output.len().saturating_sub(1));
        }
        self.regs[past.register as usize] = past.value;
        self.pc = past.addr;
        self.take_back(bus, past.change);
    }
}
