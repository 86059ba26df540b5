//! The bits that registers show (RISC-V privileged manual, sections 3.1.6 "Machine Status" and 3.1.9
//! "Machine Interrupt").

/// MIE of mstatus is this bit: interrupts are on.
pub const MIE_BIT: u32 = 3;

/// MPIE of mstatus is this bit: interrupts were on before the trap.
pub const MPIE_BIT: u32 = 7;

/// MPP of mstatus where both of its bits are set, as they always are: the mode before the trap was
/// machine mode.
pub const MPP: u32 = 0x1800;

/// MTIE of the register mie and MTIP of mip are this bit: the timer interrupt.
pub const TIMER_BIT: u32 = 7;
