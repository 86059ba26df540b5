ghost use Rattle.std.specs.Prelude.{◌≡◌, List};
ghost use Rattle.rollback_cmds.specs.declared.order.Order.{Order};
ghost use Rattle.mono_model.specs.declared.setup.Setup.{Setup};

use crate::rounds::{MOST_SPINS, MOST_WAITS};
use fsim_ports::Gate;
use std::sync::Wait;
use std::{hint, thread};

/// A side at its end of the queues. Both sides work turn by turn, each with a turn of its own.
pub trait Worker: Drop {
    // the setup of its run, which a turn keeps
    ghost setup: { Self → Setup };

    // whether it has obeyed these orders of the run, the newest first, and maybe others after them
    ghost has_gone_on: { List Order → Self → Type 0 };

    /// Whether it has nothing more to do in the run.
    fn is_over(&self) -> bool;

    /// Calls its turn of the gate.
    fn pass<G: Gate>(gate: &G);

    /// A turn. Says whether there was anything to do.
    fn turn<R: Wait>(&mut self, rt: &R) -> bool
        ensures setup { setup self.new ≡ setup self.old }
        ensures kept { (orders : List Order) → has_gone_on orders self.old
            → has_gone_on orders self.new };

    /// Makes a turn, unless it is over. Says whether there was anything to do.
    final fn take_turn<R: Wait, G: Gate>(&mut self, rt: &R, gate: &G) -> bool
        ensures setup { setup self.new ≡ setup self.old }
        ensures kept { (orders : List Order) → has_gone_on orders self.old
            → has_gone_on orders self.new }
    {
        if self.is_over() {
            return false;
        }
        Self::pass(gate);
        self.turn(rt)
    }

    /// Works until it is over, or there was nothing to do for so many turns in a row that the other
    /// side is likely not to run at all.
    final fn work<R: Wait, G: Gate>(&mut self, rt: &R, gate: &G)
        ensures setup { setup self.new ≡ setup self.old }
        ensures kept { (orders : List Order) → has_gone_on orders self.old
            → has_gone_on orders self.new }
    {
        let mut idle = 0;
        let mut waits = 0;
        for _ in rt.forever() {
            if self.is_over() || waits >= MOST_WAITS {
                break;
            }
            if self.take_turn(rt, gate) {
                idle = 0;
            } else if idle < MOST_SPINS {
                idle += 1;
                hint::spin_loop();
            } else {
                waits += 1;
                thread::yield_now();
            }
        }
    }
}
