use fsim_base::{Access, Cause, Halt};
use undo_journal::{Change, OldTrap, Past};

/// How an instruction leaves the run.
#[derive(Clone, Copy, Debug, PartialEq, Eq)]
pub enum Stepped {
    /// It goes on.
    On,
    /// The output has no room for the byte that the instruction sends; it wasn't executed.
    Full,
    /// The program ended it.
    Ended(Halt),
}

/// How a piece of a run alone left it.
#[derive(Clone, Copy, Debug, PartialEq, Eq)]
pub struct Piece {
    /// How many steps of the run were made.
    pub made: u64,
    /// How many timer interrupts were taken.
    pub taken: u64,
    /// How its last step left the run; it goes on where all steps of the piece were made.
    pub stepped: Stepped,
}

/// What is told of an instruction once it is executed: how it leaves the run, what its entry needs,
/// and what takes back what it changed beside its register.
#[derive(Clone, Copy, Debug, PartialEq, Eq)]
pub struct Performed {
    pub stepped: Stepped,
    /// The byte that it sends to the console.
    pub sent: Option<u8>,
    /// The load or store as it was attempted, also where it has a cause.
    pub access: Access,
    pub cause: Option<Cause>,
    /// What it changed beside its register.
    pub change: Change,
}

/// The value of a register before an instruction that writes it.
#[derive(Clone, Copy, Debug, PartialEq, Eq)]
pub struct OldRegister {
    /// The number of the register.
    pub register: u8,
    /// Its value.
    pub value: u32,
}

/// What a timer interrupt changes, as it was before.
#[derive(Clone, Copy, Debug, PartialEq, Eq)]
pub struct Interrupted {
    pub pc: u32,
    pub trap: OldTrap,
}

/// What takes one step of a run alone back.
#[derive(Clone, Copy, Debug, PartialEq, Eq)]
pub struct PastStep {
    /// What takes its instruction back, to where its interrupt left off.
    pub past: Past,
    /// What takes its timer interrupt back, where one was taken.
    pub interrupted: Option<Interrupted>,
}

impl PastStep {
    ghost use Rattle.std.specs.Prelude.{◌≡◌};
    ghost use Rattle.func_model.specs.History.{uninterrupted};

    /// What takes a step back that took no timer interrupt.
    #[inline(always)]
    pub fn plain(past: Past) -> PastStep
        ensures plain { result ≡ uninterrupted past }
    {
        PastStep {
            past,
            interrupted: None,
        }
    }
}

/// What one step of a run alone did.
#[derive(Clone, Copy, Debug, PartialEq, Eq)]
pub struct Made {
    /// Whether it sent a byte to the console.
    pub has_sent: bool,
    /// How the program ended the run, where it did.
    pub halt: Option<Halt>,
    /// Whether its instruction is a FENCE.I.
    pub is_fence: bool,
    pub past: PastStep,
}
