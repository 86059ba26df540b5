use crate::destination::Destination;
use crate::source::Source;

/// How far an instruction in the window has come.
#[derive(Clone, Copy, Debug, PartialEq, Eq)]
pub enum Mark {
    /// It waits for its operands or a unit.
    Waiting,
    /// It executes.
    Issued,
    /// It is done: its destination has a value.
    Done,
    /// It is done with a fault: its destination has no value.
    Faulted,
}

impl Mark {
    ghost use Rattle.std.specs.Prelude.{◌≡◌};
    ghost use Rattle.reservation_stations.specs.Readiness.{is_waiting, is_done};

    /// Whether the instruction waits.
    pub(crate) fn is_waiting(self) -> bool
        ensures { result ≡ is_waiting self }
    {
        self == Mark::Waiting
    }

    /// Whether its destination has a value.
    pub(crate) fn is_done(self) -> bool
        ensures { result ≡ is_done self }
    {
        self == Mark::Done
    }
}

/// The registers of an instruction, by number.
#[derive(Clone, Copy, Debug, PartialEq, Eq)]
pub struct Registers {
    /// Those that it reads.
    pub sources: (Source, Source),
    /// The one that it writes.
    pub destination: Destination,
}

impl Registers {
    ghost use Rattle.std.specs.Prelude.{◌≡◌, None};

    /// Those of an instruction that reads and writes none.
    pub fn none() -> Registers
        ensures none { result ≡ record { sources = (None, None); destination = None } }
    {
        Registers {
            sources: (Source::none(), Source::none()),
            destination: Destination::none(),
        }
    }
}

/// What the reservation stations keep of an instruction in the window: its index, its registers by
/// number, and its mark.
#[derive(Clone, Copy, Debug, PartialEq, Eq)]
pub struct Station {
    /// Where it stands in the tables, from its entering to its leaving: the position of its slot in
    /// the window.
    pub index: u32,
    /// The register of its first operand, if it reads one.
    pub first: Option<u8>,
    /// The register of its second operand, if it reads one.
    pub second: Option<u8>,
    /// The register that it writes, if it writes one.
    pub destination: Option<u8>,
    /// How far it has come.
    pub mark: Mark,
}
