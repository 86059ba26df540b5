/// The addresses within which a run goes on.
#[derive(Clone, Copy, Debug, PartialEq, Eq)]
pub enum Range {
    /// Everywhere.
    All,
    /// Nowhere: it makes one step.
    None,
    /// From an address to below another.
    Within { start: u64, end: u64 },
}

impl Range {
    ghost use Rattle.std.specs.Prelude.{◌≡◌};
    ghost use Rattle.gdb_session.specs.Standing.{range_in};

    /// Whether an address is among them.
    pub fn contains(self, address: u32) -> bool
        ensures inside { result ≡ range_in self address }
    {
        let address = u64::from(address);
        match self {
            Range::All => true,
            Range::None => false,
            Range::Within { start, end } => start <= address && address < end,
        }
    }
}
