ghost use Rattle.std.specs.Prelude.{◌≡◌, true};
ghost use Rattle.timing_core.specs.Turns.{OnlyComputes};

use crate::loads::load_cycles;
use crate::orders::Orders;
use crate::state::TimingCore;
use crate::units::{Used, latency_of};
use fsim_base::{Access, Class, Spot};
use in_flight::Sought;
use reorder_buffer::{Slot, SlotState};
use rollback_cmds::Order;

impl TimingCore {
    ghost use Rattle.std.specs.Prelude.{ℕ, ◌-◌, ◌<◌, ◌^◌, true, Some, length, slice_get, slice_set};
    ghost use Rattle.reorder_buffer.specs.declared.slot.Slot.{Slot as HeldSlot};
    ghost use Rattle.std.specs.Prelude.{[], ◌∷◌, ◌+◌, ◌≤◌, IfSome, IfNone};
    ghost use Rattle.reorder_buffer.specs.declared.slot.SlotState.TheVariants.{Waiting, Until};
    ghost use Rattle.rollback_cmds.specs.declared.order.Order.TheVariants.{Time};
    ghost use Rattle.mono_model.specs.declared.setup.Setup.{Setup};
    ghost use Rattle.mono_model.specs.Issue.{cached};
    ghost use Rattle.timing_side.specs.Timing.{Timing};
    ghost use Rattle.timing_side.specs.Issue.{is_past_front, class_allows, may_begin, turn_of};
    ghost use Rattle.timing_side.specs.Issue.{wants_time, replayed, issued, timing_issue};
    ghost use Rattle.in_flight.specs.Flight.{older_at, may_start_at};
    ghost use Rattle.timing_core.specs.Small.{IsSmall};
    ghost use Rattle.timing_core.specs.Orders.{orders_in};
    ghost use Rattle.timing_core.specs.CoreStandsFor.{CoreStandsFor};
    ghost use Rattle.timing_core.specs.Turns.{OnlyComputes, KeepsTurn, CountsTurn};
    ghost use Rattle.timing_core.specs.Units.{used_in, kind_count};

    /// The fourth phase of a cycle: slots whose operands are there and that have a unit begin to
    /// execute, from the oldest to the youngest. But where the oldest reads the time and was given
    /// none, it is sent back to fetch for it.
    #[inline(always)]
    pub fn issue(&mut self) -> Orders
        ensures kept { (s : Setup) (t : Timing) → CoreStandsFor s t self.old → IsSmall t
            → CoreStandsFor s (timing_issue s t).timing self.new }
        ensures orders { (s : Setup) (t : Timing) → CoreStandsFor s t self.old → IsSmall t
            → orders_in result ≡ (timing_issue s t).orders }
    {
        // Where none waits, none begins, and none is sent back.
        if self.flight.waiting() == 0 {
            return Orders::none();
        }
        if self.wants_time() {
            return self.replay();
        }
        self.issue_all();
        Orders::none()
    }

    /// The oldest slot is sent back to fetch to be given this cycle as its time.
    pub fn replay(&mut self) -> Orders
        ensures kept { (s : Setup) (t : Timing) → CoreStandsFor s t self.old → IsSmall t
            → CoreStandsFor s (replayed t) self.new }
        ensures order { (s : Setup) (t : Timing) → CoreStandsFor s t self.old → IsSmall t
            → orders_in result ≡ Time t.to_commit t.cycle ∷ [] }
    {
        self.flush(0);
        self.counts.replays = self.counts.replays.wrapping_add(1);
        Orders::one(Order::Time {
            n: self.to_commit,
            v: self.cycle,
        })
    }

    /// The slot at a place, which waits, executes until a cycle.
    #[inline(always)]
    pub fn begin(&mut self, place: u32, until: u64)
        requires within { place < length self.old.flight.slots }
        requires waiting { IfSome (slice_get self.old.flight.slots place)
            (λ slot. slot.state ≡ Waiting) }
        ensures kept { (s : Setup) (t : Timing) (slot : HeldSlot) → CoreStandsFor s t self.old
            → slice_get t.slots place ≡ Some slot →
            CoreStandsFor s (record t {
              slots = slice_set t.slots place
                  (record slot { state = Until until });
            }) self.new }
    {
        self.flight.begin(place, until);
    }

    /// The access of a slot that goes to memory: a load of RAM without a cause accesses the data
    /// cache, on wrong paths too. The result is the cycles that this adds.
    pub fn access(&mut self, slot: &Slot) -> u32
        ensures cycles { (s : Setup) (t : Timing) → CoreStandsFor s t self.old
            → result ≡ (cached s slot.now.cause slot.now.access t.caches).cycles }
        ensures kept { (s : Setup) (t : Timing) → CoreStandsFor s t self.old
            → CoreStandsFor s (record t {
              caches = (cached s slot.now.cause slot.now.access t.caches).state;
            }) self.new }
        ensures flight { self.new.flight ≡ self.old.flight }
        ensures cycle { self.new.cycle ≡ self.old.cycle }
        ensures params { self.new.params ≡ self.old.params }
    {
        load_cycles(&mut self.caches, slot)
    }

    /// Whether the oldest slot has passed the front, and reads the time and was given none. Few do,
    /// so that is looked at first.
    #[inline(always)]
    fn wants_time(&self) -> bool
        ensures wanted { (s : Setup) (t : Timing) → CoreStandsFor s t self.now
            → result ≡ wants_time s t }
    {
        match self.flight.oldest() {
            Some(slot) => slot.unserved && self.is_past_front(&slot),
            None => false,
        }
    }

    /// Whether a slot waits and has passed the front of the pipeline.
    #[inline(always)]
    fn is_past_front(&self, slot: &Slot) -> bool
        ensures passed { result ≡ is_past_front self.now.params self.now.cycle slot.now }
    {
        match self.latest_past_front() {
            Some(latest) => slot.state == SlotState::Waiting && slot.fetched <= latest,
            None => false,
        }
    }

    /// The latest cycle such that what was fetched in it has passed the front of the pipeline,
    /// where there is one.
    #[inline(always)]
    fn latest_past_front(&self) -> Option<u64>
        ensures latest { IfSome result
            (λ latest. latest + self.now.params.core_front ≡ self.now.cycle) }
        ensures none { IfNone result (self.now.cycle < self.now.params.core_front) }
    {
        self.cycle.checked_sub(u64::from(self.params.core_front))
    }

    /// Whether the class of the slot at a place allows it to begin: device loads and serial
    /// instructions only as the oldest, other loads only when all older stores are done.
    #[inline(always)]
    pub fn class_allows(&self, place: u32, slot: &Slot) -> bool
        requires within { place < length self.now.flight.slots }
        ensures allowed { result
            ≡ class_allows slot.now.class slot.now.access (older_at self.now.flight.slots place) }
    {
        let from_device = matches!(
            slot.access,
            Access::Load {
                spot: Spot::Device,
                ..
            }
        );
        match slot.class {
            Class::Alu | Class::Mul | Class::Div | Class::Store => true,
            Class::Load if !from_device => self.flight.stores_done(place),
            Class::Load | Class::Serial => place == 0,
        }
    }

    /// Whether the slot at a place, which waits and has its operands, begins in this cycle.
    #[inline(always)]
    fn may_begin(&self, place: u32, slot: &Slot, latest: u64, busy: u32, used: Used) -> bool
        requires there { slice_get self.now.flight.slots place ≡ Some slot.now }
        requires ready { may_start_at self.now.flight.slots place ≡ true }
        requires latest { latest + self.now.params.core_front ≡ self.now.cycle }
        ensures begins { result
            ≡ may_begin self.now.params self.now.cycle busy (older_at self.now.flight.slots place)
            slot.now (used_in used) }
        ensures countable { result ≡ true → kind_count slot.now.class used < 2 ^ 32 - 1 }
    {
        slot.fetched <= latest
            && self.class_allows(place, slot)
            && used.has_unit(&self.params, busy, slot.class)
    }

    /// Whether the slot at a place begins in this cycle, which waits, has its operands and only
    /// computes in the ALU: its class allows it.
    #[inline(always)]
    fn may_compute(&self, place: u32, slot: &Slot, latest: u64, busy: u32, used: Used) -> bool
        requires there { slice_get self.now.flight.slots place ≡ Some slot.now }
        requires ready { may_start_at self.now.flight.slots place ≡ true }
        requires plain { OnlyComputes slot.now }
        requires latest { latest + self.now.params.core_front ≡ self.now.cycle }
        ensures begins { result
            ≡ may_begin self.now.params self.now.cycle busy (older_at self.now.flight.slots place)
            slot.now (used_in used) }
        ensures countable { result ≡ true → used.alu < 2 ^ 32 - 1 }
    {
        slot.fetched <= latest && used.alu < self.params.alu_count
    }

    /// The slot at a place, which waits and has its operands, begins where it may. The result is
    /// the units used then.
    #[inline(always)]
    fn turn(&mut self, place: u32, slot: &Slot, latest: u64, busy: u32, used: Used) -> Used
        requires there { slice_get self.old.flight.slots place ≡ Some slot.now }
        requires ready { may_start_at self.old.flight.slots place ≡ true }
        requires latest { latest + self.old.params.core_front ≡ self.old.cycle }
        ensures kept { KeepsTurn place busy used self.old self.new }
        ensures used { CountsTurn place busy used self.old result }
        ensures size { length self.new.flight.slots ≡ length self.old.flight.slots }
        ensures params { self.new.params ≡ self.old.params }
        ensures cycle { self.new.cycle ≡ self.old.cycle }
        ensures behind { (k : ℕ) → place < k → may_start_at self.new.flight.slots k
            ≡ may_start_at self.old.flight.slots k }
    {
        if is_plain(slot) {
            self.turn_plain(place, slot, latest, busy, used)
        } else {
            self.turn_any(place, slot, latest, busy, used)
        }
    }

    /// The same, of a slot that only computes in the ALU. Most are such, so they have a way of
    /// their own, on which nothing is asked of their class.
    #[inline(always)]
    fn turn_plain(&mut self, place: u32, slot: &Slot, latest: u64, busy: u32, used: Used) -> Used
        requires there { slice_get self.old.flight.slots place ≡ Some slot.now }
        requires ready { may_start_at self.old.flight.slots place ≡ true }
        requires plain { OnlyComputes slot.now }
        requires latest { latest + self.old.params.core_front ≡ self.old.cycle }
        ensures kept { KeepsTurn place busy used self.old self.new }
        ensures used { CountsTurn place busy used self.old result }
        ensures size { length self.new.flight.slots ≡ length self.old.flight.slots }
        ensures params { self.new.params ≡ self.old.params }
        ensures cycle { self.new.cycle ≡ self.old.cycle }
        ensures behind { (k : ℕ) → place < k → may_start_at self.new.flight.slots k
            ≡ may_start_at self.old.flight.slots k }
    {
        if !self.may_compute(place, slot, latest, busy, used) {
            return used;
        }
        let latency = u64::from(self.params.alu_latency);
        self.flight.begin(place, self.cycle.wrapping_add(latency));
        used.with_alu()
    }

    /// The same, of any slot.
    #[inline(always)]
    fn turn_any(&mut self, place: u32, slot: &Slot, latest: u64, busy: u32, used: Used) -> Used
        requires there { slice_get self.old.flight.slots place ≡ Some slot.now }
        requires ready { may_start_at self.old.flight.slots place ≡ true }
        requires latest { latest + self.old.params.core_front ≡ self.old.cycle }
        ensures kept { KeepsTurn place busy used self.old self.new }
        ensures used { CountsTurn place busy used self.old result }
        ensures size { length self.new.flight.slots ≡ length self.old.flight.slots }
        ensures params { self.new.params ≡ self.old.params }
        ensures cycle { self.new.cycle ≡ self.old.cycle }
        ensures behind { (k : ℕ) → place < k → may_start_at self.new.flight.slots k
            ≡ may_start_at self.old.flight.slots k }
    {
        if !self.may_begin(place, slot, latest, busy, used) {
            return used;
        }
        let added = load_cycles(&mut self.caches, slot);
        let latency = u64::from(latency_of(&self.params, slot.class));
        let until = self
            .cycle
            .wrapping_add(latency)
            .wrapping_add(u64::from(added));
        self.flight.begin(place, until);
        used.with(slot.class)
    }

    /// Slots begin, from the oldest to the youngest.
    #[inline(always)]
    fn issue_all(&mut self)
        ensures kept { (s : Setup) (t : Timing) → CoreStandsFor s t self.old → IsSmall t
            → CoreStandsFor s (issued s t) self.new }
    {
        prove!(self.flight.len() <= 256);
        if let Some(latest) = self.latest_past_front() {
            self.issue_fetched(latest);
        }
    }

    /// Slots begin, from the oldest to the youngest: of those that were fetched in cycle `latest`
    /// or before, as no others have passed the front of the pipeline. Behind the first that was
    /// fetched later, none was fetched earlier.
    #[inline(always)]
    fn issue_fetched(&mut self, latest: u64)
        requires latest { latest + self.old.params.core_front ≡ self.old.cycle }
        requires few { length self.old.flight.slots ≤ 256 }
        ensures kept { (s : Setup) (t : Timing) → CoreStandsFor s t self.old → IsSmall t
            → CoreStandsFor s (issued s t) self.new }
    {
        let busy = self.flight.dividing();
        let mut ready = self.flight.snapshot(Sought::Ready);
        let mut used = Used::none();
        let mut from = 0;
        while let Some(place) = self.flight.next(Sought::Ready, &mut ready, from) {
            let slot = self.flight.at(place);
            if slot.fetched > latest {
                return;
            }
            used = self.turn(place, &slot, latest, busy, used);
            from = place + 1;
        }
    }
}

/// Whether a slot only computes in the ALU: it goes to no memory.
#[inline(always)]
fn is_plain(slot: &Slot) -> bool
    ensures plain { result ≡ true → OnlyComputes slot.now }
{
    slot.class == Class::Alu && matches!(slot.access, Access::Nothing)
}
