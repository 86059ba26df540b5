use crate::line::Law;
use rollback_cmds::Order;
use trace_entry::Entry;

/// Entries go over in a chain.
pub struct EntryLaw;

impl Law<Entry> for EntryLaw {
    ghost use Rattle.trace_ring.specs.Ring.{MayFollow};

    ghost allows = { MayFollow };
}

/// Orders go over in their places.
pub struct OrderLaw;

impl Law<Order> for OrderLaw {
    ghost use Rattle.trace_ring.specs.Orders.{IsNext};

    ghost allows = { IsNext };
}
