ghost use Rattle.std.specs.Prelude.{◌≡◌};
ghost use Rattle.mono_model.specs.Final.{end_of};

use fsim_base::Halt;
use machine_csr::Csrs;

/// How a run stands or ended.
#[derive(Clone, Copy, Debug, PartialEq, Eq)]
pub enum End {
    /// The program stored the word of a pass to the finisher.
    Pass,
    /// The program stored a failure with this code to the finisher.
    Fail(u16),
    /// The limit of cycles, or of steps, was reached.
    Limit,
    /// The program sent a byte when the output had no room left.
    OutputFull,
    /// The run has not ended.
    Running,
}

/// The end that a store to the finisher brings.
pub fn end_of(halt: Halt) -> End
    ensures end { result ≡ end_of halt }
{
    match halt {
        Halt::Pass => End::Pass,
        Halt::Fail(code) => End::Fail(code),
    }
}

/// What is counted in a run.
#[derive(Clone, Copy, Debug, Default, PartialEq, Eq)]
pub struct Stats {
    /// The version of the machine file: 1 or 2, and 0 for a run without one.
    pub version: u32,
    /// Cycles, or steps in a run without a machine file.
    pub cycles: u64,
    /// Instructions that retired: those committed without a trap.
    pub instructions: u64,
    /// Instructions committed with a trap.
    pub exceptions: u64,
    /// Timer interrupts taken.
    pub interrupts: u64,
    /// Time reads that were sent back to fetch to be given a time.
    pub replays: u64,
    /// Instructions that were fetched into the window, on wrong paths too.
    pub fetched: u64,
    /// Instructions that were taken out of the window by a flush.
    pub squashed: u64,
    /// Branches, jumps and MRETs that retired.
    pub branches: u64,
    /// Instructions whose next address wasn't the predicted one, found at their completion.
    pub mispredicted: u64,
    /// Accesses of the instruction cache.
    pub icache_accesses: u64,
    /// Those of them that missed.
    pub icache_misses: u64,
    /// Accesses of the data cache.
    pub dcache_accesses: u64,
    /// Those of them that missed.
    pub dcache_misses: u64,
    /// Accesses of the second level, write-backs among them.
    pub l2_accesses: u64,
    /// Those of them that missed.
    pub l2_misses: u64,
    /// Dirty lines of the data cache that were dropped.
    pub writebacks: u64,
    /// Bytes of output.
    pub output: u64,
}

/// What is reported of a run: its end, its counts, and the committed registers.
#[derive(Clone, Copy, Debug, PartialEq, Eq)]
pub struct Final {
    /// How the run stands or ended.
    pub end: End,
    /// Its counts.
    pub stats: Stats,
    /// The address of the next instruction to commit.
    pub pc: u32,
    /// The registers x0 to x31.
    pub regs: [u32; 32],
    /// The control and status registers.
    pub csrs: Csrs,
    /// mtimecmp, in cycles.
    pub cmp: u64,
}
