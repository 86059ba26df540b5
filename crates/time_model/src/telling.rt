ghost use Rattle.std.specs.Prelude.{◌≡◌, None, Some, if◌then◌else◌};
ghost use Rattle.time_model.specs.Telling.{told_behind};

use rollback_cmds::Order;
use timing_core::Orders;
use trace_entry::Entry;

/// What a timing side keeps between its turns and the steps that tell of them.
#[derive(Drop)]
pub struct Telling {
    /// The order of the last turn that was not told yet.
    pub owed: Option<Order>,
    /// How many orders that open an epoch were told.
    pub epoch: u64,
    /// The entry of the instruction to fetch next, once it has arrived.
    pub held: Option<Entry>,
}

impl Telling {
    ghost use Rattle.time_model.specs.Telling.{telling_start};

    /// Before the first turn.
    pub fn new() -> Telling
        ensures start { result ≡ telling_start }
    {
        Telling {
            owed: None,
            epoch: 0,
            held: None,
        }
    }

    /// Tells the first of a turn's orders, and owes the second, if there is one. Entries made
    /// before an order that opens an epoch are of no use behind it, so the held one is dropped.
    pub fn tell(&mut self, orders: Orders) -> Option<Order>
        requires none { self.old.owed ≡ None }
        ensures told { result ≡ orders.first }
        ensures behind { self.new ≡ told_behind orders self.old }
    {
        let order = orders.first?;
        if orders.second.is_some() {
            self.owed = orders.second;
        }
        if order.opens_epoch() {
            self.epoch = self.epoch.saturating_add(1);
            self.held = None;
        }
        Some(order)
    }

    /// The held entry was tried: it is spent where its instruction was appended.
    #[inline(always)]
    pub(crate) fn spend(&mut self, appended: bool)
        ensures spent { self.new
            ≡ record self.old { held = if appended then None else self.old.held } }
    {
        if appended {
            self.held = None;
        }
    }

    /// An entry was tried at once: it is held where its instruction wasn't appended.
    #[inline(always)]
    pub(crate) fn keep(&mut self, entry: &Entry, appended: bool)
        ensures kept { self.new
            ≡ record self.old { held = if appended then self.old.held else Some entry.now } }
    {
        if !appended {
            self.held = Some(*entry);
        }
    }
}
