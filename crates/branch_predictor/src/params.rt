ghost use Rattle.std.specs.Prelude.{◌↔◌, IsTrue};

use fsim_base::Flow;

/// How the direction of a conditional branch is predicted.
#[derive(Clone, Copy, Debug, PartialEq, Eq)]
pub enum PredKind {
    /// Never taken.
    Static,
    /// By a two-bit counter that the branch's address selects.
    Bimodal,
    /// By a two-bit counter that the address and the latest outcomes of all branches select
    /// together.
    Gshare,
}

/// The sizes of a predictor.
#[derive(Clone, Copy, Debug, PartialEq, Eq)]
pub struct PredParams {
    pub kind: PredKind,
    /// How many two-bit counters there are: a power of two from 1 to 65,536.
    pub counters: u32,
    /// How many outcomes `PredKind::Gshare` looks back at: 0 to 16.
    pub history: u32,
    /// How many places the target buffer has: 0, or a power of two up to 65,536.
    pub targets: u32,
}

impl PredParams {
    ghost use Rattle.branch_predictor.specs.Params.{IsInRange};

    /// Whether each size is one that a predictor can have.
    pub fn is_in_range(&self) -> bool
        ensures in_range { IsTrue result ↔ IsInRange self.now }
    {
        self.counters.is_power_of_two()
            && self.counters <= 65536
            && self.history <= 16
            && (self.targets == 0 || self.targets.is_power_of_two())
            && self.targets <= 65536
    }
}

/// What the target buffer knows of an instruction that went elsewhere than to the one behind it.
#[derive(Clone, Copy, Debug, PartialEq, Eq)]
pub struct Target {
    /// The address of the instruction.
    pub addr: u32,
    /// Whether it is a branch, whose direction has to be predicted too, or a jump.
    pub flow: Flow,
    /// Where it went.
    pub next: u32,
}
