ghost use Rattle.std.specs.Prelude.{◌≡◌, ◌≤◌, ◌+◌, OnOk, OnErr, IfErr, IfSome, IfNone};

use crate::inlet::Inlet;
use crate::laws::{EntryLaw, OrderLaw};
use crate::outlet::Outlet;
use rollback_cmds::Order;
use std::marker::Model;
use std::sync::Wait;
use trace_entry::Entry;

/// The timing thread's end of both queues: it pushes orders and takes entries. Contracts see its
/// setup, how many it has pushed and taken, epoch and number of the last entry taken, how many
/// orders wait here, and how many are known to be handed out.
#[derive(Drop)]
pub struct TimeEnd {
    pub(crate) entries: Inlet<Entry, EntryLaw>,
    pub(crate) orders: Outlet<Order, OrderLaw>,
}

impl Model for TimeEnd {
    ghost use Rattle.trace_ring.specs.Ends.{TimeAt, time_at, IsTimeEnd};

    ghost Value = { TimeAt };

    ghost view = { λ end. time_at end.orders end.entries };

    ghost invariant = { λ end. IsTimeEnd end.orders end.entries };
}

impl TimeEnd {
    ghost use Rattle.trace_ring.specs.Ring.{IsNamed, Follows};
    ghost use Rattle.trace_ring.specs.Orders.{IsInPlace};
    ghost use Rattle.trace_ring.specs.Ends.{time_pushed, time_read, time_flushed, time_taken};

    /// Hands over an order: the one in the place after those pushed so far. A `Commit` waits here
    /// until there are as many as go together, an order comes that opens an epoch, or a flush. An
    /// order comes back only if 64 were pushed and not handed out, as was read in this call, and
    /// nothing has changed then.
    pub fn push<R: Wait>(&mut self, rt: &R, order: Order) -> Result<(), Order>
        requires in_place { IsInPlace self.old.setup self.old.pushed order }
        ensures pushed { OnOk result
            (self.new ≡ time_pushed self.old self.new.known self.new.waiting) }
        ensures within { self.new.pushed ≤ self.new.known + 64 }
        ensures back { IfErr result (λ back. back ≡ order) }
        ensures same { OnErr result (self.new ≡ time_read self.old self.new.known) }
        ensures full { OnErr result (self.old.pushed ≡ self.new.known + 64) }
    {
        self.orders.push(rt, order)?;
        if order.opens_epoch() {
            self.orders.flush(rt);
        }
        Ok(())
    }

    /// Puts the orders that wait into the queue.
    pub fn flush<R: Wait>(&mut self, rt: &R)
        ensures flushed { self.new ≡ time_flushed self.old }
    {
        self.orders.flush(rt);
    }

    /// The next entry, with its name; None if there is none now, which no clause says.
    pub fn next<R: Wait>(&mut self, rt: &R) -> Option<Entry>
        ensures named { IfSome result (λ e. IsNamed self.old.setup e) }
        ensures follows { IfSome result (λ e. Follows self.old.setup self.old.last e.epoch
            e.number) }
        ensures taken { IfSome result (λ e. self.new ≡ time_taken self.old e) }
        ensures same { IfNone result (self.new ≡ self.old) }
    {
        self.entries.next(rt)
    }
}
