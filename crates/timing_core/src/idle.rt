//! Cycles in which nothing happens.
ghost use Rattle.std.specs.Prelude.{◌≡◌, ◌≤◌, ℕ};
ghost use Rattle.reorder_buffer.specs.declared.slot.SlotState.TheVariants.{Until};

use crate::state::TimingCore;
use crate::units::Used;
use in_flight::Sought;
use reorder_buffer::SlotState;

impl TimingCore {
    ghost use Rattle.std.specs.Prelude.{ℕ, ◌<◌, ◌≤◌, true, false, Some, length};
    ghost use Rattle.std.specs.Prelude.{slice_get};
    ghost use Rattle.reorder_buffer.specs.declared.slot.Slot.{Slot as HeldSlot};
    ghost use Rattle.reorder_buffer.specs.declared.slot.SlotState.TheVariants.{Until};
    ghost use Rattle.mono_model.specs.declared.setup.Setup.{Setup};
    ghost use Rattle.timing_side.specs.Timing.{Timing};
    ghost use Rattle.timing_side.specs.Fetch.{may_fetch};
    ghost use Rattle.in_flight.specs.Flight.{may_start_at};
    ghost use Rattle.timing_core.specs.CoreStandsFor.{CoreStandsFor};
    ghost use Rattle.timing_core.specs.Idle.{IsIdle, is_held_up, could_begin};

    /// Passes over cycles behind this one in which nothing happens, and stands in the last of them:
    /// while the oldest slot executes for long, or fetch waits for its instruction and there is
    /// none.
    #[inline(always)]
    pub fn pass_idle(&mut self)
        ensures same { self.new ≡ record self.old { cycle = self.new.cycle } }
        ensures on { self.old.cycle ≤ self.new.cycle }
        ensures idle { (s : Setup) (t : Timing) (cycle : ℕ) → self.old.cycle < cycle
            → cycle ≤ self.new.cycle
            → CoreStandsFor s t (record self.old { cycle = cycle }) → IsIdle s t }
    {
        if self.is_stalled() {
            self.cycle = self.last_idle();
        }
    }

    /// Whether the oldest slot executes for some cycles more, or there is none and fetch waits for
    /// some more.
    #[inline(always)]
    fn is_stalled(&self) -> bool
        ensures held { result ≡ true → is_held_up self.now.flight.slots ≡ true }
    {
        let soon = self.cycle.saturating_add(2);
        match self.flight.oldest() {
            Some(slot) => match slot.state {
                SlotState::Until(end) => end > soon,
                SlotState::Waiting | SlotState::Done => false,
            },
            None => self.resume > soon,
        }
    }

    /// The last cycle up to which nothing happens behind this one; this one, where there is none.
    #[inline(never)]
    fn last_idle(&self) -> u64
        requires held { is_held_up self.now.flight.slots ≡ true }
        ensures on { self.now.cycle ≤ result }
        ensures idle { (s : Setup) (t : Timing) (cycle : ℕ) → self.now.cycle < cycle
            → cycle ≤ result
            → CoreStandsFor s t (record self.now { cycle = cycle }) → IsIdle s t }
    {
        if self.has_ended() || !self.none_could_begin() {
            return self.cycle;
        }
        self.next_event().saturating_sub(1).max(self.cycle)
    }

    /// The first cycle in which something may happen, where no slot could begin before.
    fn next_event(&self) -> u64
        ensures ends { (place : ℕ) (slot : HeldSlot) (end : ℕ)
            → slice_get self.now.flight.slots place ≡ Some slot → slot.state ≡ Until end
            → result ≤ end }
        ensures limit { result ≤ self.now.cycle_limit }
        ensures interrupt { self.now.irq.on ≡ true → result ≤ self.now.irq.cmp }
        ensures fetch { (s : Setup) (t : Timing) (cycle : ℕ) → CoreStandsFor s t self.now
            → cycle < result → may_fetch s (record t { cycle = cycle }) ≡ false }
    {
        self.first_end()
            .min(self.cycle_limit)
            .min(self.interrupt_event())
            .min(self.fetch_event())
    }

    /// The first cycle in which a slot that executes is done.
    fn first_end(&self) -> u64
        ensures ends { (place : ℕ) (slot : HeldSlot) (end : ℕ)
            → slice_get self.now.flight.slots place ≡ Some slot → slot.state ≡ Until end
            → result ≤ end }
    {
        let mut first = u64::MAX;
        if self.flight.len() == 0 {
            return first;
        }
        let mut executes = self.flight.snapshot(Sought::Executing);
        let mut from = 0;
        while let Some(place) = self.flight.next(Sought::Executing, &mut executes, from) {
            first = first.min(done_cycle(self.flight.at(place).state));
            from = place + 1;
        }
        first
    }

    /// The first cycle in which the timer interrupt is due.
    fn interrupt_event(&self) -> u64
        ensures interrupt { self.now.irq.on ≡ true → result ≤ self.now.irq.cmp }
    {
        if self.irq.on { self.irq.cmp } else { u64::MAX }
    }

    /// The first cycle in which fetch may make a try.
    fn fetch_event(&self) -> u64
        ensures fetch { (s : Setup) (t : Timing) (cycle : ℕ) → CoreStandsFor s t self.now
            → cycle < result → may_fetch s (record t { cycle = cycle }) ≡ false }
    {
        if self.has_room() {
            self.resume
        } else {
            u64::MAX
        }
    }

    /// Whether of the slots that wait and have their operands none could begin, once it has passed
    /// the front.
    fn none_could_begin(&self) -> bool
        ensures none { result ≡ true → (place : ℕ) (slot : HeldSlot)
            → slice_get self.now.flight.slots place ≡ Some slot
            → may_start_at self.now.flight.slots place ≡ true
            → could_begin self.now.params self.now.flight.slots place slot ≡ false }
    {
        if self.flight.len() == 0 {
            return true;
        }
        let mut ready = self.flight.snapshot(Sought::Ready);
        let mut from = 0;
        while let Some(place) = self.flight.next(Sought::Ready, &mut ready, from) {
            if self.could_begin(place) {
                return false;
            }
            from = place + 1;
        }
        true
    }

    /// Whether the class of the slot at a place, and the units, let it begin.
    fn could_begin(&self, place: u32) -> bool
        requires within { place < length self.now.flight.slots }
        ensures could { (slot : HeldSlot) → slice_get self.now.flight.slots place ≡ Some slot
            → result ≡ could_begin self.now.params self.now.flight.slots place slot }
    {
        let slot = self.flight.at(place);
        let busy = self.flight.dividing();
        self.class_allows(place, &slot) && Used::none().has_unit(&self.params, busy, slot.class)
    }
}

/// The cycle in which a slot in this state is done, where it executes; and else the last there is.
fn done_cycle(state: SlotState) -> u64
    ensures end { (end : ℕ) → state ≡ Until end → result ≤ end }
{
    match state {
        SlotState::Until(end) => end,
        SlotState::Waiting | SlotState::Done => u64::MAX,
    }
}
