ghost use Rattle.std.specs.Prelude.{◌≡◌};
ghost use Rattle.time_model.specs.Turns.{order_told};

use rollback_cmds::Order;

/// What a step did.
#[derive(Clone, Copy, Debug, PartialEq, Eq)]
pub enum Turn {
    /// It made a phase, or one try of fetch, and tells no order.
    Moved,
    /// It tells this order. Where its phase gave two, the next step tells the other.
    Ordered(Order),
    /// Nothing, since it needs the entry of the instruction to fetch next.
    Want,
    /// It ended a cycle.
    CycleEnd,
    /// Nothing, since the run is over and its last order told.
    Halted,
}

impl Turn {
    /// The order that it tells, if it tells one.
    #[inline(always)]
    pub fn order(self) -> Option<Order>
        ensures told { result ≡ order_told self }
    {
        match self {
            Turn::Ordered(order) => Some(order),
            Turn::Moved | Turn::Want | Turn::CycleEnd | Turn::Halted => None,
        }
    }
}
