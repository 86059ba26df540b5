ghost use Rattle.std.specs.Prelude.{◌≡◌, ◌≤◌, ◌+◌, true, OnOk, OnErr, IfErr, IfSome, IfNone, OnSome};

use crate::inlet::Inlet;
use crate::laws::{EntryLaw, OrderLaw};
use crate::outlet::Outlet;
use rollback_cmds::Order;
use std::marker::Model;
use std::sync::Wait;
use trace_entry::Entry;

/// The functional thread's end of both queues: it pushes entries and takes orders. Contracts see
/// its setup, how many it has pushed and taken, epoch and number of the last entry pushed, how many
/// entries wait here, and how many are known to be handed out.
#[derive(Drop)]
pub struct FuncEnd {
    pub(crate) entries: Outlet<Entry, EntryLaw>,
    pub(crate) orders: Inlet<Order, OrderLaw>,
}

impl Model for FuncEnd {
    ghost use Rattle.trace_ring.specs.Ends.{FuncAt, func_at, IsFuncEnd};

    ghost Value = { FuncAt };

    ghost view = { λ end. func_at end.entries end.orders };

    ghost invariant = { λ end. IsFuncEnd end.entries end.orders };
}

impl FuncEnd {
    ghost use Rattle.trace_ring.specs.Ring.{IsNamed, Follows};
    ghost use Rattle.trace_ring.specs.Orders.{IsInPlace};
    ghost use Rattle.trace_ring.specs.Ends.{func_pushed, func_read, func_flushed, func_taken};

    /// Hands over an entry: the one that its epoch and number name, after the last one in the
    /// chain. It waits here until there are as many as go together, or until a flush. It comes back
    /// only if as many as the run's `ring` were pushed and not handed out, as was read in this
    /// call, and nothing has changed then.
    pub fn push<R: Wait>(&mut self, rt: &R, entry: Entry) -> Result<(), Entry>
        requires named { IsNamed self.old.setup entry }
        requires follows { Follows self.old.setup self.old.last entry.epoch entry.number }
        ensures pushed { OnOk result
            (self.new ≡ func_pushed self.old entry self.new.known self.new.waiting) }
        ensures within { self.new.pushed ≤ self.new.known + self.new.setup.ring }
        ensures back { IfErr result (λ back. back ≡ entry) }
        ensures same { OnErr result (self.new ≡ func_read self.old self.new.known) }
        ensures full { OnErr result (self.old.pushed ≡ self.new.known + self.old.setup.ring) }
    {
        self.entries.push(rt, entry)
    }

    /// Puts the entries that wait into the ring.
    pub fn flush<R: Wait>(&mut self, rt: &R)
        ensures flushed { self.new ≡ func_flushed self.old }
    {
        self.entries.flush(rt);
    }

    /// Whether the timing thread has taken all entries. Both threads pay for the look: it takes a
    /// line of memory from the other one.
    pub fn is_drained(&mut self) -> bool
        ensures read { self.new ≡ func_read self.old self.new.known }
        ensures drained { result ≡ true → self.new.known ≡ self.old.pushed }
    {
        self.entries.is_drained()
    }

    /// The next order, in its place; None if there is none now, which no clause says.
    pub fn next<R: Wait>(&mut self, rt: &R) -> Option<Order>
        ensures order { IfSome result (λ o. IsInPlace self.old.setup self.old.taken o) }
        ensures taken { OnSome result (self.new ≡ func_taken self.old) }
        ensures same { IfNone result (self.new ≡ self.old) }
    {
        self.orders.next(rt)
    }
}
