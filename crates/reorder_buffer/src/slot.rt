use fsim_base::{Access, Cause, Class, Halt};

/// How far an instruction in the window has come.
#[derive(Clone, Copy, Debug, PartialEq, Eq)]
pub enum SlotState {
    /// It waits for its operands or a unit.
    Waiting,
    /// It executes until this cycle.
    Until(u64),
    /// Its result is there.
    Done,
}

/// An instruction in the window: what was told of it, and how far it has come. It holds no value
/// (Hennessy and Patterson, Computer Architecture, section 3.6, the reorder buffer).
#[derive(Clone, Copy, Debug, PartialEq, Eq)]
pub struct Slot {
    /// The instruction's number along its path.
    pub number: u64,
    /// Its address.
    pub addr: u32,
    /// Its word; 0 where nothing could be fetched.
    pub word: u32,
    /// Which unit it waits for.
    pub class: Class,
    /// Its load or store, as it was attempted.
    pub access: Access,
    /// The address of the instruction behind it: the handler, where it has a cause.
    pub next: u32,
    /// The address that was predicted to follow it.
    pub predicted: u32,
    /// Why it traps, if it does.
    pub cause: Option<Cause>,
    /// It reads the time, and no time was given to it.
    pub unserved: bool,
    /// It sends a byte to the console.
    pub sends: bool,
    /// How it ends the run.
    pub halt: Option<Halt>,
    /// Whether the timer interrupt is enabled behind it.
    pub irq_on: bool,
    /// mtimecmp behind it, in cycles.
    pub cmp: u64,
    /// The cycle in which it was fetched.
    pub fetched: u64,
    /// How far it has come.
    pub state: SlotState,
}
