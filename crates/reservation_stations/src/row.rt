use crate::station::{Mark, Registers};

/// What an index of the window keeps of the station that holds it.
#[derive(Clone, Copy, Debug, PartialEq, Eq)]
pub struct Row {
    pub registers: Registers,
    pub mark: Mark,
    /// Its place plus how many stations retired, modulo 256.
    pub turn: u8,
}

impl Row {
    ghost use Rattle.std.specs.Prelude.{◌≡◌};
    ghost use Rattle.reservation_stations.specs.AreTables.{free_row};

    /// The row of an index that no station held yet.
    pub fn free() -> Row
        ensures free { result ≡ free_row }
    {
        Row {
            registers: Registers::none(),
            mark: Mark::Done,
            turn: 0,
        }
    }
}
