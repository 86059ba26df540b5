//! The addresses of the registers (RISC-V privileged manual, section 2.2 "CSR Listing").

/// mstatus: machine status register.
pub const MSTATUS: u16 = 0x300;

/// misa: ISA and extensions.
pub const MISA: u16 = 0x301;

/// mie: machine interrupt-enable register.
pub const MIE: u16 = 0x304;

/// mtvec: machine trap-handler base address.
pub const MTVEC: u16 = 0x305;

/// mstatush: additional machine status register, of 32-bit harts alone.
pub const MSTATUSH: u16 = 0x310;

/// mcountinhibit: machine counter-inhibit register.
pub const MCOUNTINHIBIT: u16 = 0x320;

/// mscratch: scratch register for machine trap handlers.
pub const MSCRATCH: u16 = 0x340;

/// mepc: machine exception program counter.
pub const MEPC: u16 = 0x341;

/// mcause: machine trap cause.
pub const MCAUSE: u16 = 0x342;

/// mtval: machine trap value, a bad address or instruction.
pub const MTVAL: u16 = 0x343;

/// mip: machine interrupt pending.
pub const MIP: u16 = 0x344;

/// pmpcfg0: physical memory protection configuration.
pub const PMPCFG0: u16 = 0x3A0;

/// pmpaddr0: physical memory protection address register.
pub const PMPADDR0: u16 = 0x3B0;

/// mcycle: machine cycle counter.
pub const MCYCLE: u16 = 0xB00;

/// minstret: machine instructions-retired counter.
pub const MINSTRET: u16 = 0xB02;

/// mcycleh: upper 32 bits of mcycle.
pub const MCYCLEH: u16 = 0xB80;

/// minstreth: upper 32 bits of minstret.
pub const MINSTRETH: u16 = 0xB82;

/// cycle: cycle counter for the instruction RDCYCLE.
pub const CYCLE: u16 = 0xC00;

/// time: timer for the instruction RDTIME.
pub const TIME: u16 = 0xC01;

/// instret: instructions-retired counter for the instruction RDINSTRET.
pub const INSTRET: u16 = 0xC02;

/// cycleh: upper 32 bits of cycle.
pub const CYCLEH: u16 = 0xC80;

/// timeh: upper 32 bits of time.
pub const TIMEH: u16 = 0xC81;

/// instreth: upper 32 bits of instret.
pub const INSTRETH: u16 = 0xC82;

/// mvendorid: vendor ID.
pub const MVENDORID: u16 = 0xF11;

/// marchid: architecture ID.
pub const MARCHID: u16 = 0xF12;

/// mimpid: implementation ID.
pub const MIMPID: u16 = 0xF13;

/// mhartid: hardware thread ID.
pub const MHARTID: u16 = 0xF14;

/// mconfigptr: pointer to configuration data structure.
pub const MCONFIGPTR: u16 = 0xF15;
