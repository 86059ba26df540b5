ghost use Rattle.std.specs.Prelude.{◌≡◌, true, Some, None, IfOk};

use crate::worker::Worker;
use fsim_base::NoMemory;
use fsim_ports::Gate;
use mono_model::{End, Setup, Stats};
use rollback_cmds::Order;
use std::alloc::Global;
use std::marker::Model;
use std::sync::Wait;
use time_model::{TimeSide, Turn};
use trace_ring::TimeEnd;

/// The timing side at its end of the queues.
#[derive(Drop)]
pub struct TimeWorker {
    end: TimeEnd,
    side: TimeSide,
    /// The order that was told and not sent yet.
    hand: Option<Order>,
    /// Whether the run is over and its last order sent.
    is_halted: bool,
}

impl Model for TimeWorker {
    ghost use Rattle.fast_threads.specs.Workers.{TimeWork, time_work, IsTimeAt};

    ghost Value = { TimeWork };

    ghost view = { λ worker. time_work worker.end.setup worker.side worker.hand worker.is_halted };

    ghost invariant = { λ worker. IsTimeAt worker.end worker.side worker.hand worker.is_halted };
}

impl TimeWorker {
    ghost use Rattle.mono_model.specs.Setup.{is_setup};
    ghost use Rattle.mono_model.specs.Cycle.{mono};
    ghost use Rattle.mono_model.specs.Machine.{stats_of};
    ghost use Rattle.time_model.specs.OutOfOrder.{core_piped};
    ghost use Rattle.time_model.specs.Standing.{wants_in};
    ghost use Rattle.trace_ring.specs.Ends.{time_start};

    /// The timing side at the start of a run, with its end of the queues. All memory of the side is
    /// taken here; a refusal drops what it was given.
    pub fn new(alloc: Global, setup: &Setup, end: TimeEnd) -> Result<TimeWorker, NoMemory>
        requires sound { is_setup setup.now ≡ true }
        requires end { end ≡ time_start setup.now }
        ensures setup { IfOk result (λ worker. worker.setup ≡ setup.now) }
    {
        let side = TimeSide::new(alloc, setup)?;
        Ok(TimeWorker {
            end,
            side,
            hand: None,
            is_halted: false,
        })
    }

    /// Whether the run is over and its last order sent.
    pub fn halted(&self) -> bool
        ensures halted { result ≡ self.now.is_halted }
    {
        self.is_halted
    }

    /// How the run ended, once the side is halted.
    pub fn end(&self) -> End
        ensures end { self.now.is_halted ≡ true →
            result ≡ (mono self.now.setup self.now.setup.cycles).end }
    {
        self.side.end()
    }

    /// What was counted in the run, once the side is halted.
    pub fn stats(&self) -> Stats
        ensures stats { self.now.is_halted ≡ true →
            result ≡ stats_of self.now.setup (mono self.now.setup self.now.setup.cycles) }
    {
        self.side.stats()
    }

    /// Sends the order in hand, if the queue has room for it.
    fn send<R: Wait>(&mut self, rt: &R, order: Order) -> bool
        requires hand { self.old.hand ≡ Some order }
        ensures setup { self.new.setup ≡ self.old.setup }
    {
        let sent = self.end.push(rt, order).is_ok();
        if sent {
            self.hand = None;
            // Nor was it halted while an order was in hand.
            self.is_halted = false;
        }
        sent
    }

    /// Takes the next entry, if there is one, and makes the try that needs it. It is let go where
    /// its number isn't the wanted one, or it is of another epoch. Where there is none, the orders
    /// that were sent go into the queue.
    fn take<R: Wait>(&mut self, rt: &R) -> bool
        requires wants { wants_in core_piped self.old.side ≡ true }
        requires none { self.old.hand ≡ None }
        ensures setup { self.new.setup ≡ self.old.setup }
    {
        let Some(entry) = self.end.next(rt) else {
            self.end.flush(rt);
            return false;
        };
        if entry.number == self.side.next_number() {
            let turn = self.side.feed(&entry);
            self.hand = turn.order();
        }
        true
    }

    /// Makes steps of the side up to the next order or want, at most as many as one call makes,
    /// where no order is in hand. Says whether there was anything to do: not so where the run is
    /// over and its last orders found no room.
    fn step<R: Wait>(&mut self, rt: &R) -> bool
        requires none { self.old.hand ≡ None }
        ensures setup { self.new.setup ≡ self.old.setup }
    {
        match self.side.run() {
            Turn::Ordered(order) => self.hand = Some(order),
            Turn::Halted => {
                self.end.flush(rt);
                self.is_halted = true;
            }
            Turn::Moved => {}
            Turn::Want => {}
            Turn::CycleEnd => {}
        }
        true
    }
}

impl Worker for TimeWorker {
    ghost setup = { λ worker. worker.setup };

    // it obeys none
    ghost has_gone_on = { λ orders worker. Unit {0} };

    fn is_over(&self) -> bool {
        self.halted()
    }

    fn pass<G: Gate>(gate: &G) {
        gate.time_turn();
    }

    /// A turn: the order in hand is sent, or else the entry taken that the side needs, or steps are
    /// made. Says whether there was anything to do.
    fn turn<R: Wait>(&mut self, rt: &R) -> bool {
        if let Some(order) = self.hand {
            return self.send(rt, order);
        }
        if self.side.wants() {
            return self.take(rt);
        }
        self.step(rt)
    }
}
