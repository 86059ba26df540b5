/// Which unit an instruction waits for, and how long it takes there.
#[derive(Clone, Copy, Debug, PartialEq, Eq)]
pub enum Class {
    Alu,
    Mul,
    Div,
    Load,
    Store,
    /// CSR instructions and MRET, which issue only as the oldest instruction.
    Serial,
}

/// What a predictor may learn from an instruction.
#[derive(Clone, Copy, Debug, PartialEq, Eq)]
pub enum Flow {
    /// The next instruction is always the one behind it.
    Plain,
    /// A conditional branch.
    Branch,
    /// A jump, MRET included.
    Jump,
}

/// How a store to the finisher ends the run.
#[derive(Clone, Copy, Debug, PartialEq, Eq)]
pub enum Halt {
    Pass,
    /// A failure with the code that the program gave.
    Fail(u16),
}
