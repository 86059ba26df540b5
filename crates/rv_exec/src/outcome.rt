use fsim_base::{Cause, Width};

/// What an instruction asks of memory or a device.
#[derive(Clone, Copy, Debug, PartialEq, Eq)]
pub enum Reach {
    Nothing,
    /// `signed` says that the register gets the bytes with their sign extended.
    Load {
        addr: u32,
        width: Width,
        signed: bool,
    },
    /// `value` has the low bytes that are stored, and zeros above them.
    Store {
        addr: u32,
        width: Width,
        value: u32,
    },
}

/// What an instruction does with its operands.
#[derive(Clone, Copy, Debug, PartialEq, Eq)]
pub struct Outcome {
    /// What `rd` gets; 0 for what writes none, and for loads and CSR instructions, whose values
    /// come later.
    pub value: u32,
    /// The address of the next instruction; that of the next word where there is a cause.
    pub next: u32,
    /// The access as it was attempted, also where it is misaligned.
    pub reach: Reach,
    /// Why the instruction traps, with `mtval`.
    pub cause: Option<(Cause, u32)>,
}
