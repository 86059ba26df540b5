ghost use Rattle.std.specs.Prelude.{◌≡◌, ◌↔◌, IsTrue, IfSome, IfNone};

use fsim_base::Width;

/// Which of the three devices a device is.
#[derive(Clone, Copy, Debug, PartialEq, Eq)]
pub enum DeviceKind {
    /// A UART that a driver polls: it hands over the input and takes the output.
    Console,
    /// The machine timer: the time, and the time at which it interrupts.
    Timer,
    /// The register by which a program ends the run.
    Finisher,
}

impl DeviceKind {
    ghost use Rattle.device_bus.specs.Range.{range_of, has_width, accepts_of, IsInRange};

    /// The first address of the device's range.
    pub fn base(self) -> u32
        ensures base { result ≡ (range_of self).base }
    {
        match self {
            DeviceKind::Console => 0x1000_0000,
            DeviceKind::Timer => 0x0200_0000,
            DeviceKind::Finisher => 0x0010_0000,
        }
    }

    /// How many bytes the device's range has.
    pub fn size(self) -> u32
        ensures size { result ≡ (range_of self).size }
    {
        match self {
            DeviceKind::Console => 0x100,
            DeviceKind::Timer => 0x1_0000,
            DeviceKind::Finisher => 0x1000,
        }
    }

    /// The device whose range has the address, if there is one.
    pub fn at(addr: u32) -> Option<DeviceKind>
        ensures inside { IfSome result (λ kind. IsInRange kind addr) }
        ensures outside { IfNone result ((kind : DeviceKind) → ¬ IsInRange kind addr) }
    {
        if DeviceKind::Console.contains(addr) {
            Some(DeviceKind::Console)
        } else if DeviceKind::Timer.contains(addr) {
            Some(DeviceKind::Timer)
        } else if DeviceKind::Finisher.contains(addr) {
            Some(DeviceKind::Finisher)
        } else {
            None
        }
    }

    /// Whether the address lies in the device's range.
    fn contains(self, addr: u32) -> bool
        ensures inside { IsTrue result ↔ IsInRange self addr }
    {
        self.base() <= addr && addr - self.base() < self.size()
    }

    /// Whether a device of this kind has accesses of this width.
    fn has_width(self, width: Width) -> bool
        ensures width { result ≡ has_width self width }
    {
        match self {
            DeviceKind::Timer => width == Width::Word,
            DeviceKind::Console | DeviceKind::Finisher => true,
        }
    }

    /// Whether a device of this kind accepts an access at an offset of its range: one of a width
    /// that it has, aligned, and whole inside the range.
    #[tactic(auto, unfolding(crate::specs::Range::accepts_of))]
    pub fn accepts(self, off: u32, width: Width) -> bool
        ensures accepted { result ≡ accepts_of self off width }
    {
        let bytes = width.bytes();
        self.has_width(width) && off % bytes == 0 && off < self.size() && bytes <= self.size() - off
    }
}
