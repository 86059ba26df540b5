/// What a cycle was spent on: why the oldest instruction wasn't done as the cycle began, or that it
/// was.
#[derive(Clone, Copy, Debug, PartialEq, Eq)]
pub enum CycleCause {
    /// It was done, and left.
    Commit,
    /// A unit executed it.
    Alu,
    Mul,
    Div,
    Load,
    Store,
    /// It loads from a device, or is of the CSR instructions, and executes only as the oldest.
    Device,
    Serial,
    /// In order alone: it came late, since a source had no value yet.
    Operand,
    /// It waited for a line of the data cache.
    Dcache,
    /// It waited for a line of the instruction cache.
    Icache,
    /// It was fetched late, since the window or the stations were full.
    Window,
    Stations,
    /// It was fetched after a flush, by what flushed.
    Mispredict,
    Trap,
    Interrupt,
    Replay,
    Fence,
    /// It was the first of the run.
    Start,
}
