ghost use Rattle.std.specs.Prelude.{◌≡◌};
ghost use Rattle.timer_irq.specs.Pending.{is_pending};

/// What decides whether the timer interrupt is taken in front of an instruction (RISC-V privileged
/// manual, section 3.2.1 "Machine Timer Registers").
#[derive(Clone, Copy, Debug, PartialEq, Eq)]
pub struct IrqView {
    /// Whether the timer interrupt is enabled: MIE of mstatus and MTIE of mie are both set.
    pub on: bool,
    /// mtimecmp, in cycles.
    pub cmp: u64,
}

impl IrqView {
    /// Whether the timer interrupt is pending and enabled in this cycle, whose number is also the
    /// time mtime.
    pub fn pending(&self, cycle: u64) -> bool
        ensures due { result ≡ is_pending self.now.on self.now.cmp cycle }
    {
        self.on && cycle >= self.cmp
    }
}
