use crate::address::{
    CYCLE, CYCLEH, INSTRET, INSTRETH, MARCHID, MCAUSE, MCONFIGPTR, MCOUNTINHIBIT, MCYCLE, MCYCLEH,
    MEPC, MHARTID, MIE, MIMPID, MINSTRET, MINSTRETH, MIP, MISA, MSCRATCH, MSTATUS, MSTATUSH, MTVAL,
    MTVEC, MVENDORID, PMPADDR0, PMPCFG0, TIME, TIMEH,
};
use crate::flags::{MIE_BIT, MPIE_BIT, MPP, TIMER_BIT};
use crate::form::{combine, does_read, does_write, is_allowed, operand};
use fsim_base::wrap_add;
use rv_decode::Insn;

/// The cause number of the machine timer interrupt: the interrupt bit and code 7.
pub const TIMER_INTERRUPT: u32 = 0x8000_0007;

/// The machine-mode registers that hold state, and the count of retired instructions.
#[derive(Clone, Copy, Debug, PartialEq, Eq)]
pub struct Csrs {
    /// MIE of mstatus: interrupts are on.
    pub mie: bool,
    /// MPIE of mstatus: interrupts were on before the trap.
    pub mpie: bool,
    /// MTIE of the register mie: the timer interrupt is on.
    pub mtie: bool,
    /// The address of the trap handler, with the mode of its entry in bit 0.
    pub mtvec: u32,
    /// A word for trap handlers.
    pub mscratch: u32,
    /// The address that MRET goes back to.
    pub mepc: u32,
    /// The latest trap's cause, bit 31 set for an interrupt, or what was written since.
    pub mcause: u32,
    /// The latest trap's address or word, or what was written since.
    pub mtval: u32,
    /// How many instructions retired, as minstret and minstreth show it.
    pub retired: u64,
}

/// What a CSR instruction writes.
#[derive(Clone, Copy, Debug, PartialEq, Eq)]
pub enum CsrWrite {
    Nothing,
    /// The whole value at this address, before the register keeps the bits that it has.
    Put { csr: u16, value: u32 },
}

impl Csrs {
    ghost use Rattle.std.specs.Prelude.{◌≡◌, ◌*◌, ◌/◌, ◌↔◌, IsTrue, IsSome, option_map};
    ghost use Rattle.machine_csr.specs.Csr.{opening_csrs, shown, row_at, is_legal, csr_access};
    ghost use Rattle.machine_csr.specs.Csr.{csr_written};
    ghost use Rattle.machine_csr.specs.Trap.{timer_pending, trap_entered, handler_of, trap_left};
    ghost use Rattle.machine_csr.specs.Trap.{return_address};

    /// The registers at the start: all 0.
    pub fn new() -> Csrs
        ensures opening { result ≡ opening_csrs }
    {
        Csrs {
            mie: false,
            mpie: false,
            mtie: false,
            mtvec: 0,
            mscratch: 0,
            mepc: 0,
            mcause: 0,
            mtval: 0,
            retired: 0,
        }
    }

    /// What a CSR instruction reads, for rd, and what it writes; None exactly where it is illegal.
    ///
    /// `a` is the value of rs1, `time` the cycle number and `cmp` the timer's mtimecmp. Where CSRRW
    /// or CSRRWI with rd = x0 doesn't read, the value is 0. An instruction of another kind accesses
    /// nothing, so that is None too.
    #[tactic(auto, unfolding(crate::specs::Csr::csr_access))]
    pub fn access(&self, insn: Insn, a: u32, time: u64, cmp: u64) -> Option<(u32, CsrWrite)>
        ensures legal { IsSome result ↔ IsTrue (is_legal insn) }
        ensures access { result ≡ csr_access self.now insn a time cmp }
    {
        let Insn::Csr { kind, rd, rs1, csr } = insn else {
            return None;
        };
        if !is_allowed(kind, rs1, csr) {
            return None;
        }
        let old = self.read(csr, time, cmp)?;
        let value = if does_read(kind, rd) { old } else { 0 };
        let write = if does_write(kind, rs1) {
            CsrWrite::Put {
                csr,
                value: combine(kind, old, operand(kind, rs1, a)),
            }
        } else {
            CsrWrite::Nothing
        };
        Some((value, write))
    }

    /// Makes a write: the register keeps the bits that it has. At an address without a register
    /// nothing happens.
    #[tactic(auto, using(crate::proofs::Bits::bit_1_cleared), unfolding(crate::specs::Csr::csr_written, crate::specs::Csr::row_at))]
    pub fn apply(&mut self, w: CsrWrite)
        ensures written { self.new ≡ csr_written w self.old }
        ensures retired { self.new.retired ≡ self.old.retired }
    {
        let CsrWrite::Put { csr, value } = w else {
            return;
        };
        match csr {
            MSTATUS => {
                self.mie = value >> MIE_BIT & 1 == 1;
                self.mpie = value >> MPIE_BIT & 1 == 1;
            }
            MIE => self.mtie = value >> TIMER_BIT & 1 == 1,
            MTVEC => self.mtvec = value & !2,
            MSCRATCH => self.mscratch = value,
            MEPC => self.mepc = value & !3,
            MCAUSE => self.mcause = value,
            MTVAL => self.mtval = value,
            _ => {}
        }
    }

    /// Whether the timer interrupt is to be taken at this time, with this mtimecmp.
    pub fn timer_pending(&self, time: u64, cmp: u64) -> bool
        ensures pending { result ≡ timer_pending self.now time cmp }
    {
        self.mie && self.mtie && time >= cmp
    }

    /// Enters a trap with this cause at this address, with this value for mtval, and gives the
    /// handler's address.
    pub fn trap(&mut self, cause: u32, addr: u32, value: u32) -> u32
        ensures entered { self.new ≡ trap_entered cause addr value self.old }
        ensures handler { result ≡ handler_of cause self.old }

        // MRET would go on there, with interrupts on exactly where they were.
        ensures returns { return_address self.new ≡ addr / 4 * 4 }
        ensures resumes { (trap_left self.new).mie ≡ self.old.mie }
    {
        self.mpie = self.mie;
        self.mie = false;
        self.mepc = addr & !3;
        self.mcause = cause;
        self.mtval = value;
        let base = self.mtvec & !3;
        if cause == TIMER_INTERRUPT && self.mtvec & 1 != 0 {
            wrap_add(base, 4 * 7)
        } else {
            base
        }
    }

    /// Leaves a trap, as MRET does, and gives the address to go on at.
    pub fn leave(&mut self) -> u32
        ensures left { self.new ≡ trap_left self.old }
        ensures address { result ≡ return_address self.old }
    {
        self.mie = self.mpie;
        self.mpie = true;
        self.mepc
    }

    /// What the register at an address shows, or None where no register has that address.
    #[tactic(auto, unfolding(crate::specs::Csr::row_at))]
    fn read(&self, csr: u16, time: u64, cmp: u64) -> Option<u32>
        ensures value { result ≡ option_map (λ r. shown r.shows self.now time cmp) (row_at csr) }
    {
        match csr {
            MSTATUS => Some(
                MPP | u32::from(self.mpie) << MPIE_BIT | u32::from(self.mie) << MIE_BIT,
            ),
            MIE => Some(u32::from(self.mtie) << TIMER_BIT),
            MTVEC => Some(self.mtvec),
            MSCRATCH => Some(self.mscratch),
            MEPC => Some(self.mepc),
            MCAUSE => Some(self.mcause),
            MTVAL => Some(self.mtval),
            MIP => Some(u32::from(time >= cmp) << TIMER_BIT),
            MCYCLE | CYCLE | TIME => Some((time & 0xffff_ffff) as u32),
            MCYCLEH | CYCLEH | TIMEH => Some((time >> 32) as u32),
            MINSTRET | INSTRET => Some((self.retired & 0xffff_ffff) as u32),
            MINSTRETH | INSTRETH => Some((self.retired >> 32) as u32),
            MISA | MSTATUSH | MCOUNTINHIBIT | PMPCFG0 | PMPADDR0 => Some(0),
            MVENDORID | MARCHID | MIMPID | MHARTID | MCONFIGPTR => Some(0),
            _ => None,
        }
    }
}
