//! What the functional side tells the timing side of one instruction.
#![tactic(auto)]

use fsim_base::{Access, Cause, Class, Halt};

/// One instruction of the functional side's path: all that timing depends on, addresses among it.
/// Of stored values it has only the byte that is sent (the timing side reads whether there is one),
/// the finisher's code, and mtimecmp.
///
/// In the FAST split (Chiou et al., MICRO 2007) these are the entries of the trace buffer.
#[derive(Clone, Copy, Debug, PartialEq, Eq)]
pub struct Entry {
    /// The instruction's number along its path, counted from 0.
    pub number: u64,
    /// How many orders that open an epoch the functional side had obeyed when it made the entry.
    pub epoch: u64,
    /// mtimecmp after it, in cycles.
    pub cmp: u64,
    /// The instruction's address.
    pub addr: u32,
    /// The instruction's word; 0 where nothing could be fetched, which is exactly where the cause
    /// is an instruction address misaligned or an instruction access fault on a word of 0.
    pub word: u32,
    /// The address of the instruction behind it: the handler, where it has a cause.
    pub next: u32,
    /// Which unit it waits for.
    pub class: Class,
    /// Whether MIE and MTIE are both set after it.
    pub irq_on: bool,
    // The fields from here on are empty for an instruction that only computes: they stand side by
    // side, so that the host writes them together.
    /// It reads the time, and no time was given to it.
    pub unserved: bool,
    /// The load or store as it was attempted, also where it has a cause.
    pub access: Access,
    /// How it ends the run.
    pub halt: Option<Halt>,
    /// Why it traps, if it does.
    pub cause: Option<Cause>,
    /// The byte that it sends to the console.
    pub out: Option<u8>,
}

impl Entry {
    /// What stands in a place that no entry was written to yet.
    pub const BLANK: Entry = Entry {
        number: 0,
        epoch: 0,
        cmp: 0,
        addr: 0,
        word: 0,
        next: 0,
        class: Class::Alu,
        irq_on: false,
        unserved: false,
        access: Access::Nothing,
        halt: None,
        cause: None,
        out: None,
    };
}
