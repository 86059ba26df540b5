ghost use Rattle.std.specs.Prelude.{◌≡◌};

/// How many bytes a load or a store touches.
#[derive(Clone, Copy, Debug, PartialEq, Eq)]
pub enum Width {
    Byte,
    /// Two bytes.
    Half,
    /// Four bytes.
    Word,
}

impl Width {
    ghost use Rattle.fsim_base.specs.Width.{width_bytes};

    /// The width in bytes: 1, 2 or 4.
    pub fn bytes(self) -> u32
        ensures count { result ≡ width_bytes self }
    {
        match self {
            Width::Byte => 1,
            Width::Half => 2,
            Width::Word => 4,
        }
    }
}

/// Where the bytes of an access lie.
#[derive(Clone, Copy, Debug, PartialEq, Eq)]
pub enum Spot {
    /// Aligned and inside RAM.
    Ram,
    /// Aligned and inside a device's range, whether or not the device accepts it.
    Device,
    /// Anywhere else, and every misaligned access.
    Nowhere,
}

/// What an instruction does to memory or a device.
#[derive(Clone, Copy, Debug, PartialEq, Eq)]
pub enum Access {
    Nothing,
    Load { addr: u32, width: Width, spot: Spot },
    Store { addr: u32, width: Width, spot: Spot },
}

/// The addresses of RAM: `size` bytes from `base`.
#[derive(Clone, Copy, Debug, PartialEq, Eq)]
pub struct RamRange {
    /// The first address of RAM.
    pub base: u32,
    /// How many bytes RAM has.
    pub size: u32,
}

impl RamRange {
    ghost use Rattle.std.specs.Prelude.{◌↔◌, IsTrue};
    ghost use Rattle.fsim_base.specs.Range.{IsInside};

    /// Whether `count` bytes from `addr` all lie in RAM. Sums don't wrap.
    pub fn contains(self, addr: u32, count: u32) -> bool
        ensures inside { IsTrue result ↔ IsInside self addr count }
    {
        let end = u64::from(self.base) + u64::from(self.size);
        self.base <= addr && u64::from(addr) + u64::from(count) <= end
    }
}
