use crate::orders::Orders;
use crate::state::TimingCore;
use rollback_cmds::Order;

impl TimingCore {
    ghost use Rattle.std.specs.Prelude.{◌≡◌};
    ghost use Rattle.mono_model.specs.declared.setup.Setup.{Setup};
    ghost use Rattle.timing_side.specs.Timing.{Timing};
    ghost use Rattle.timing_side.specs.Interrupt.{timing_interrupt};
    ghost use Rattle.timing_core.specs.Small.{IsSmall};
    ghost use Rattle.timing_core.specs.Orders.{orders_in};
    ghost use Rattle.timing_core.specs.CoreStandsFor.{CoreStandsFor};

    /// The first phase of a cycle: the timer interrupt, taken before the next instruction to
    /// commit.
    #[inline(always)]
    pub fn interrupt(&mut self) -> Orders
        ensures kept { (s : Setup) (t : Timing) → CoreStandsFor s t self.old → IsSmall t
            → CoreStandsFor s (timing_interrupt t).timing self.new }
        ensures orders { (s : Setup) (t : Timing) → CoreStandsFor s t self.old → IsSmall t
            → orders_in result ≡ (timing_interrupt t).orders }
    {
        if !self.irq.pending(self.cycle) {
            return Orders::none();
        }
        self.flush(0);
        self.irq.on = false;
        self.counts.interrupts = self.counts.interrupts.wrapping_add(1);
        Orders::one(Order::Interrupt { n: self.to_commit })
    }
}
