ghost use Rattle.std.specs.Prelude.{◌≡◌};
ghost use Rattle.timing_side.specs.Fetch.{is_fetch_cause, is_fetchable};

use crate::orders::Orders;
use crate::state::TimingCore;
use fsim_base::{Cause, wrap_add};
use rollback_cmds::Order;
use trace_entry::Entry;

/// What a try of fetch made.
#[derive(Clone, Copy, Debug, PartialEq, Eq)]
pub struct Tried {
    /// The orders that it made.
    pub orders: Orders,
    /// The instruction was appended to the window; else its cache miss is waited for.
    pub appended: bool,
    /// The next try may follow in this cycle.
    pub goes_on: bool,
}

/// Whether the cause is one of instruction fetch.
fn is_fetch_cause(cause: Option<Cause>) -> bool
    ensures cause { result ≡ is_fetch_cause cause }
{
    match cause {
        Some(Cause::InstructionMisaligned | Cause::InstructionAccess) => true,
        _ => false,
    }
}

/// Whether there was something to fetch.
fn is_fetchable(entry: &Entry) -> bool
    ensures fetchable { result ≡ is_fetchable entry.now }
{
    !(entry.word == 0 && is_fetch_cause(entry.cause))
}

impl TimingCore {
    ghost use Rattle.std.specs.Prelude.{ℕ, ◌+◌, ◌==◌, ◌<◌, ◌^◌, ◌∷◌, ◌&&◌, [], not, nat_le, nat_lt};
    ghost use Rattle.std.specs.Prelude.{true, length, IfSome, if◌then◌else◌};
    ghost use Rattle.reorder_buffer.specs.Window.{youngest};
    ghost use Rattle.rollback_cmds.specs.declared.order.Order.TheVariants.{Set};
    ghost use Rattle.mono_model.specs.declared.setup.Setup.{Setup};
    ghost use Rattle.timing_side.specs.Slots.{waiting_count};
    ghost use Rattle.timing_side.specs.Timing.{Timing};
    ghost use Rattle.timing_side.specs.Fetch.{may_fetch, cache_read, predicted_next, missed};
    ghost use Rattle.timing_side.specs.Fetch.{appended, timing_try};
    ghost use Rattle.timing_core.specs.Small.{IsSmall};
    ghost use Rattle.timing_core.specs.Orders.{orders_in};
    ghost use Rattle.timing_core.specs.CoreStandsFor.{CoreStandsFor};

    /// Whether the fifth phase of a cycle may try to fetch: it isn't waiting for a miss, and window
    /// and stations have room.
    pub fn may_fetch(&self) -> bool
        ensures may { (s : Setup) (t : Timing) → CoreStandsFor s t self.now
            → result ≡ may_fetch s t }
        ensures room { result ≡ true → length self.now.flight.slots < self.now.flight.capacity }
    {
        self.has_resumed() && self.has_room()
    }

    /// Whether fetch isn't waiting for a miss.
    pub fn has_resumed(&self) -> bool
        ensures resumed { (s : Setup) (t : Timing) → CoreStandsFor s t self.now
            → result ≡ nat_le t.resume t.cycle }
    {
        self.resume <= self.cycle
    }

    /// Whether window and stations have room.
    #[inline(always)]
    pub(crate) fn has_room(&self) -> bool
        ensures both { (s : Setup) (t : Timing) → CoreStandsFor s t self.now
            → result ≡ (nat_lt (length t.slots) s.params.core_window
            && nat_lt (waiting_count t.slots) s.params.core_stations) }
        ensures room { result ≡ true → length self.now.flight.slots < self.now.flight.capacity }
    {
        !self.flight.is_full() && self.flight.waiting() < self.params.core_stations
    }

    /// One try of the fifth phase: the next instruction on the predicted path is appended, unless
    /// its fetch misses the cache, which is waited for.
    #[inline(always)]
    pub fn fetch(&mut self, entry: &Entry) -> Tried
        requires room { length self.old.flight.slots < self.old.flight.capacity }
        requires next { IfSome (youngest self.old.flight.slots)
            (λ last. entry.now.number ≡ last.number + 1) }
        ensures kept { (s : Setup) (t : Timing) → CoreStandsFor s t self.old → IsSmall t
            → CoreStandsFor s (timing_try s entry.now t).phase.timing self.new }
        ensures orders { (s : Setup) (t : Timing) → CoreStandsFor s t self.old → IsSmall t
            → orders_in result.orders ≡ (timing_try s entry.now t).phase.orders }
        ensures appended { (s : Setup) (t : Timing) → CoreStandsFor s t self.old → IsSmall t →
            result.appended
            ≡ not ((timing_try s entry.now t).phase.timing.counts.fetched == t.counts.fetched) }
        ensures goes_on { (s : Setup) (t : Timing) → CoreStandsFor s t self.old → IsSmall t
            → result.goes_on ≡ (timing_try s entry.now t).goes_on }
    {
        let predicted = self.predictor.predict(entry.addr);
        let cycles = self.read_cache(entry);
        if cycles > 0 {
            self.wait(cycles);
            return Tried {
                orders: Orders::none(),
                appended: false,
                goes_on: false,
            };
        }
        self.append(entry, predicted);
        Tried {
            orders: self.path_orders(entry, predicted),
            appended: true,
            goes_on: predicted == wrap_add(entry.addr, 4),
        }
    }

    /// The access of the instruction cache, unless the miss was waited for or there is nothing to
    /// fetch. The result is the cycles that it adds.
    #[inline(always)]
    fn read_cache(&mut self, entry: &Entry) -> u32
        ensures flight { self.new.flight ≡ self.old.flight }
        ensures cycles { (s : Setup) (t : Timing) → CoreStandsFor s t self.old
            → result ≡ (cache_read s entry.now t).cycles }
        ensures kept { (s : Setup) (t : Timing) → CoreStandsFor s t self.old
            → CoreStandsFor s (record t { caches = (cache_read s entry.now t).state }) self.new }
    {
        if !is_fetchable(entry) || self.paid {
            return 0;
        }
        self.caches.fetch(entry.addr)
    }

    /// A miss adds so many cycles, for which fetch waits.
    fn wait(&mut self, cycles: u32)
        ensures kept { (s : Setup) (t : Timing) → CoreStandsFor s t self.old → t.cycle < 2 ^ 63
            → CoreStandsFor s (missed cycles t.caches t) self.new }
    {
        self.resume = self.cycle.wrapping_add(u64::from(cycles));
        self.paid = true;
    }

    /// The instruction is appended to the window.
    #[inline(always)]
    fn append(&mut self, entry: &Entry, predicted: u32)
        requires room { length self.old.flight.slots < self.old.flight.capacity }
        requires next { IfSome (youngest self.old.flight.slots)
            (λ last. entry.now.number ≡ last.number + 1) }
        ensures kept { (s : Setup) (t : Timing) → CoreStandsFor s t self.old
            → t.counts.fetched < 2 ^ 63 → predicted ≡ predicted_next s entry.now t →
            CoreStandsFor s (appended s entry.now t.caches t) self.new }
    {
        self.flight.append(entry, predicted, self.cycle);
        self.paid = false;
        self.counts.fetched = self.counts.fetched.wrapping_add(1);
    }

    /// The order to follow the prediction, where the youngest slot's instruction goes elsewhere.
    fn path_orders(&self, entry: &Entry, predicted: u32) -> Orders
        ensures path { (s : Setup) (t : Timing) → CoreStandsFor s t self.now
            → t.to_commit < 2 ^ 63 →
            orders_in result
            ≡ (if entry.now.next == predicted then [] else Set (t.to_commit + length t.slots)
            predicted ∷ []) }
    {
        if entry.next == predicted {
            return Orders::none();
        }
        Orders::one(Order::Set {
            n: self.to_commit.wrapping_add(u64::from(self.flight.len())),
            addr: predicted,
        })
    }
}
