use crate::hex_bytes::HexBytes;

/// How many bytes of content a packet may have, either way.
pub const CONTENT_LIMIT: usize = 4096;

/// What a point stops a run at: one of the five types of GDB's `Z` packets.
#[derive(Clone, Copy, Debug, PartialEq, Eq)]
pub enum PointKind {
    /// An instruction that the debugger would replace by a breakpoint instruction.
    Software,
    /// An instruction.
    Hardware,
    /// A store.
    Written,
    /// A load.
    Read,
    /// A load or a store.
    Accessed,
}

/// A breakpoint or a watchpoint: what it stops a run at, and the bytes that it is for.
#[derive(Clone, Copy, Debug, PartialEq, Eq)]
pub struct Point {
    pub kind: PointKind,
    pub address: u64,
    pub size: u64,
}

/// What a packet asks for.
#[derive(Drop)]
pub enum Packet<'a> {
    /// `?`: why the run has stopped.
    Reason,
    /// `g`: the registers x0 to x31 and pc.
    Registers,
    /// `pN`: a register.
    Register(u64),
    /// `PN=H`: a register is to have these bytes.
    WriteRegister(u64, HexBytes<'a>),
    /// `mA,L`: so many bytes from an address on.
    Memory {
        address: u64,
        size: u64,
    },
    /// `MA,L:H`: so many bytes from an address on are to be these.
    WriteMemory {
        address: u64,
        size: u64,
        bytes: HexBytes<'a>,
    },
    /// `vCont?`: which actions there are.
    Actions,
    /// `c`, `vCont;c`: forwards.
    Continue,
    /// `s`, `vCont;s`: a step forwards.
    Step,
    /// `vCont;rA,B`: forwards within the addresses from A to below B.
    StepRange {
        start: u64,
        end: u64,
    },
    /// `bc`: backwards.
    ContinueBack,
    /// `bs`: a step backwards.
    StepBack,
    /// `ZT,A,L`: a point is set.
    SetPoint(Point),
    /// `zT,A,L`: a point is cleared.
    ClearPoint(Point),
    /// `D`: the debugger leaves.
    Detach,
    /// `k`: the debugger ends the run.
    Kill,
    /// `qSupported`: what is supported.
    Supported,
    /// `QStartNoAckMode`: no acknowledgments are wanted from now on.
    NoAcks,
    /// `qXfer:features:read:target.xml:A,L`: so many bytes of the target description from a place
    /// on.
    Description {
        place: u64,
        size: u64,
    },
    /// `qRcmd,H`: a command for the target's monitor.
    Monitor(HexBytes<'a>),
    /// No such packet is known, or it has more content than there is room for.
    Unknown,
    /// The packet is known, and its argument isn't of its form.
    Malformed,
}
