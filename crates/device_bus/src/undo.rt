use fsim_base::Halt;

/// What takes back one access to a device: the slot of the number that it changed, and the number
/// from before it.
#[derive(Clone, Copy, Debug, PartialEq, Eq)]
pub struct DevUndo {
    /// None where the access changed no number; `old` then says nothing.
    pub slot: Option<u32>,
    pub old: u32,
}

impl DevUndo {
    /// Takes back an access that changed no number.
    pub const NOTHING: DevUndo = DevUndo { slot: None, old: 0 };
}

/// What a store to a device does outside it.
#[derive(Clone, Copy, Debug, PartialEq, Eq)]
pub enum Note {
    Nothing,
    /// A byte for the output.
    Out(u8),
    /// The run ends.
    End(Halt),
}
