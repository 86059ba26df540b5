ghost use Rattle.std.specs.Prelude.{◌≡◌};
ghost use Rattle.gdb_packets.specs.Stream.{acknowledgment, is_answered};

/// How a packet has come.
#[derive(Clone, Copy, Debug, PartialEq, Eq)]
pub enum Arrival {
    /// With the sum of its bytes.
    Whole,
    /// With another sum, or none.
    Damaged,
}

impl Arrival {
    /// What acknowledges the packet: `+` or `-`, and nothing once none are wanted (`quiet`).
    pub fn acknowledgment(self, quiet: bool) -> &'static [u8]
        ensures text { result.now ≡ acknowledgment quiet self }
    {
        match self {
            _ if quiet => b"",
            Arrival::Whole => b"+",
            Arrival::Damaged => b"-",
        }
    }

    /// Whether the packet is to be answered. The sender of a damaged one sends it again, unless no
    /// acknowledgments are wanted (`quiet`).
    pub fn is_answered(self, quiet: bool) -> bool
        ensures answered { result ≡ is_answered quiet self }
    {
        quiet || matches!(self, Arrival::Whole)
    }
}
