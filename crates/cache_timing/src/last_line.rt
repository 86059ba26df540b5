ghost use Rattle.std.specs.Prelude.{◌≡◌, ◌≢◌, ◌/◌, ◌==◌, ◌||◌, IsTrue};
ghost use Rattle.std.specs.Int.{is_power_of_two};

/// The line that was accessed last: an access of it again is known without a look at the cache.
#[derive(Clone, Copy, Debug, PartialEq, Eq)]
pub struct LastLine {
    /// An address in it.
    addr: u32,
    /// How many bytes it has: 0 where there is no such line.
    length: u32,
    ghost power: { IsTrue (length == 0 || is_power_of_two length) },
}

impl LastLine {
    /// No line.
    pub fn none() -> LastLine
        ensures { result.length ≡ 0 }
    {
        LastLine { addr: 0, length: 0 }
    }

    /// The line of this length that an address lies in.
    pub fn around(addr: u32, length: u32) -> LastLine
        requires power { IsTrue (is_power_of_two length) }
        ensures addr { result.addr ≡ addr }
        ensures length { result.length ≡ length }
    {
        LastLine { addr, length }
    }

    /// Whether an address lies in the line: it differs in no bit that numbers lines.
    #[inline(always)]
    pub fn holds(&self, addr: u32) -> bool
        ensures some { IsTrue result → self.now.length ≢ 0 }
        ensures same { IsTrue result →
            self.now.addr / self.now.length ≡ addr / self.now.length }
    {
        (addr ^ self.addr) < self.length
    }
}
