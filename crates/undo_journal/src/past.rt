ghost use Rattle.std.specs.Prelude.{◌↔◌, IsTrue};
ghost use Rattle.undo_journal.specs.Journal.{IsPlain};

use device_bus::DevUndo;
use fsim_base::Width;

/// What an instruction changed beside its register, with what takes that back.
#[derive(Clone, Copy, Debug, PartialEq, Eq)]
pub enum Change {
    /// The count of retired instructions alone.
    Nothing,
    /// That count, and bytes of RAM, whose value was `old` before.
    Memory { addr: u32, width: Width, old: u32 },
    /// That count, and the device at this place on the bus.
    Device { device: u32, undo: DevUndo },
    /// What a trap changes of the control and status registers.
    Trap(OldTrap),
    /// That count, and what an instruction for control and status registers changes of them.
    Csr(OldCsr),
}

/// What a trap changes of the control and status registers, as it was before.
#[derive(Clone, Copy, Debug, PartialEq, Eq)]
pub struct OldTrap {
    /// MIE of mstatus.
    pub mie: bool,
    /// MPIE of mstatus.
    pub mpie: bool,
    /// The address that MRET goes back to.
    pub mepc: u32,
    /// A trap's cause.
    pub mcause: u32,
    /// A trap's address or word.
    pub mtval: u32,
}

/// What an instruction for control and status registers changes of them, as it was before.
#[derive(Clone, Copy, Debug, PartialEq, Eq)]
pub enum OldCsr {
    /// Flags of mstatus and of the register mie, or nothing.
    Flags { mie: bool, mpie: bool, mtie: bool },
    Mtvec(u32),
    Mscratch(u32),
    Mepc(u32),
    Mcause(u32),
    Mtval(u32),
}

/// What restores the state before one instruction.
#[derive(Clone, Copy, Debug, PartialEq, Eq)]
pub struct Past {
    /// The instruction's number.
    pub number: u64,
    /// The instruction's address.
    pub addr: u32,
    /// What the register that it writes held before, also where it traps. It is no struct with the
    /// register's number, which the host would put together in one of its own registers first.
    pub value: u32,
    /// The number of that register; 0 where it writes none.
    pub register: u8,
    // The fields from here on are empty for most instructions: they stand side by side, so that the
    // host writes them together.
    /// Whether it sent a byte to the output.
    pub out: bool,
    /// What else it changed.
    pub change: Change,
}

impl Past {
    /// What stands in a place that no step was written to yet.
    pub const BLANK: Past = Past {
        number: 0,
        addr: 0,
        value: 0,
        register: 0,
        out: false,
        change: Change::Nothing,
    };

    /// Whether the instruction changed nothing beside its register and the count of retired
    /// instructions.
    #[inline(always)]
    pub fn is_plain(&self) -> bool
        ensures plain { IsTrue result ↔ IsPlain self.now }
    {
        match self.change {
            Change::Nothing => !self.out,
            _ => false,
        }
    }
}
