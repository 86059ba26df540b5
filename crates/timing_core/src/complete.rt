ghost use Rattle.std.specs.Prelude.{◌≡◌, ◌≤◌, ◌+◌, length, IfSome};
ghost use Rattle.in_flight.specs.Flight.{executes_at};
ghost use Rattle.in_flight.specs.Snapshot.{IsSnapshot};
ghost use Rattle.timing_side.specs.Complete.{is_finishing, is_mispredicted, completes};
ghost use Rattle.timing_core.specs.Finishing.{completed_from, completed_in, IsFirst};

use crate::orders::Orders;
use crate::state::TimingCore;
use in_flight::{InFlight, PlaceSet, Sought};
use reorder_buffer::{Slot, SlotState};
use rollback_cmds::Order;

/// A flush behind a mispredicted slot.
#[derive(Clone, Copy, Debug, PartialEq, Eq)]
pub struct Redirect {
    /// How many slots stay, the mispredicted one being the last.
    pub kept: u32,
    /// The address behind that.
    pub addr: u32,
}

/// Whether the slot's latency is over in this cycle.
fn is_finishing(state: SlotState, cycle: u64) -> bool
    ensures due { result ≡ is_finishing cycle state }
{
    match state {
        SlotState::Until(end) => end == cycle,
        SlotState::Waiting | SlotState::Done => false,
    }
}

/// Whether the slot went elsewhere than predicted; one with a cause never counts.
fn is_mispredicted(slot: &Slot) -> bool
    ensures mispredicted { result ≡ is_mispredicted slot.now }
{
    slot.cause.is_none() && slot.next != slot.predicted
}

/// Slots whose latency is over are done, the oldest first, up to the first mispredicted one, behind
/// which the rest is to be flushed.
#[inline(always)]
fn finish_due(flight: &mut InFlight, cycle: u64) -> Option<Redirect>
    ensures room { flight.new.capacity ≡ flight.old.capacity }
    ensures count { length flight.new.slots ≡ length flight.old.slots }
    ensures within { IfSome result (λ r. r.kept ≤ length flight.new.slots) }
    ensures all { completes cycle flight.old.slots ≡ completed_in result flight.new.slots }
{
    if flight.len() == 0 {
        return None;
    }
    prove!(flight.len() <= 256);
    let executes = flight.snapshot(Sought::Executing);
    finish_from(flight, executes, 0, cycle)
}

/// The same of the slots from a place on, of which the set has those that execute.
#[inline(always)]
fn finish_from(flight: &mut InFlight, set: PlaceSet, start: u32, cycle: u64) -> Option<Redirect>
    requires few { length flight.old.slots ≤ 256 }
    requires all { IsSnapshot (executes_at flight.old.slots) start set }
    ensures room { flight.new.capacity ≡ flight.old.capacity }
    ensures count { length flight.new.slots ≡ length flight.old.slots }
    ensures within { IfSome result (λ r. r.kept ≤ length flight.new.slots) }
    ensures all { completed_from cycle start flight.old.slots
        ≡ completed_in result flight.new.slots }
{
    let mut executes = set;
    let mut from = start;
    while let Some(place) = flight.next(Sought::Executing, &mut executes, from) {
        let slot = flight.at(place);
        if is_finishing(slot.state, cycle) {
            let wrong = is_mispredicted(&slot);
            let addr = slot.next;
            flight.finish(place);
            if wrong {
                return Some(Redirect {
                    kept: place + 1,
                    addr,
                });
            }
        }
        from = place + 1;
    }
    None
}

/// The same of all slots, where the first that executes is known and is due. It isn't looked for
/// anew, nor are those in front of it.
#[inline(always)]
fn finish_first(
    flight: &mut InFlight,
    place: u32,
    slot: &Slot,
    later: PlaceSet,
    cycle: u64,
) -> Option<Redirect>
    requires few { length flight.old.slots ≤ 256 }
    requires first { IsFirst flight.old.slots place slot.now cycle }
    requires all { IsSnapshot (executes_at flight.old.slots) (place + 1) later }
    ensures room { flight.new.capacity ≡ flight.old.capacity }
    ensures count { length flight.new.slots ≡ length flight.old.slots }
    ensures within { IfSome result (λ r. r.kept ≤ length flight.new.slots) }
    ensures all { completes cycle flight.old.slots ≡ completed_in result flight.new.slots }
{
    let kept = place + 1;
    if is_mispredicted(slot) {
        flight.finish(place);
        return Some(Redirect {
            kept,
            addr: slot.next,
        });
    }
    flight.finish(place);
    finish_from(flight, later, kept, cycle)
}

impl TimingCore {
    ghost use Rattle.mono_model.specs.declared.setup.Setup.{Setup};
    ghost use Rattle.timing_side.specs.Timing.{Timing};
    ghost use Rattle.timing_side.specs.Complete.{completed_phase, timing_complete};
    ghost use Rattle.timing_core.specs.Small.{IsSmall};
    ghost use Rattle.timing_core.specs.Orders.{orders_in};
    ghost use Rattle.timing_core.specs.CoreStandsFor.{CoreStandsFor};

    /// The third phase of a cycle: slots whose latency is over are done, and the first mispredicted
    /// one flushes all younger slots.
    #[inline(always)]
    pub fn complete(&mut self) -> Orders
        ensures kept { (s : Setup) (t : Timing) → CoreStandsFor s t self.old → IsSmall t
            → CoreStandsFor s (timing_complete t).timing self.new }
        ensures orders { (s : Setup) (t : Timing) → CoreStandsFor s t self.old → IsSmall t
            → orders_in result ≡ (timing_complete t).orders }
    {
        self.complete_until(self.cycle)
    }

    /// Slots that execute until this cycle are done, and the first mispredicted one flushes all
    /// younger slots.
    #[inline(always)]
    pub fn complete_until(&mut self, until: u64) -> Orders
        ensures kept { (s : Setup) (t : Timing) → CoreStandsFor s t self.old → IsSmall t
            → CoreStandsFor s (completed_phase (completes until t.slots) t).timing self.new }
        ensures orders { (s : Setup) (t : Timing) → CoreStandsFor s t self.old → IsSmall t
            → orders_in result ≡ (completed_phase (completes until t.slots) t).orders }
    {
        let redirect = finish_due(&mut self.flight, until);
        self.redirect(redirect)
    }

    /// The same, where the first slot that executes is known, with those behind it that do, and
    /// executes until this cycle.
    #[inline(always)]
    pub fn complete_first(&mut self, place: u32, slot: &Slot, later: PlaceSet, until: u64) -> Orders
        requires first { IsFirst self.old.flight.slots place slot.now until }
        requires all { IsSnapshot (executes_at self.old.flight.slots) (place + 1) later }
        ensures kept { (s : Setup) (t : Timing) → CoreStandsFor s t self.old → IsSmall t
            → CoreStandsFor s (completed_phase (completes until t.slots) t).timing self.new }
        ensures orders { (s : Setup) (t : Timing) → CoreStandsFor s t self.old → IsSmall t
            → orders_in result ≡ (completed_phase (completes until t.slots) t).orders }
    {
        prove!(self.flight.len() <= 256);
        let redirect = finish_first(&mut self.flight, place, slot, later, until);
        self.redirect(redirect)
    }

    /// Fetch goes on elsewhere behind slots that are done, where one of them was mispredicted: all
    /// younger ones are flushed.
    #[inline(always)]
    fn redirect(&mut self, to: Option<Redirect>) -> Orders
        requires within { IfSome to (λ r. r.kept ≤ length self.old.flight.slots) }
        ensures kept { (s : Setup) (t : Timing) → IsSmall t
            → CoreStandsFor s (record t { slots = self.old.flight.slots }) self.old
            → length self.old.flight.slots ≡ length t.slots
            → CoreStandsFor s
            (completed_phase (completed_in to self.old.flight.slots) t).timing self.new }
        ensures orders { (s : Setup) (t : Timing) → IsSmall t
            → CoreStandsFor s (record t { slots = self.old.flight.slots }) self.old
            → length self.old.flight.slots ≡ length t.slots
            → orders_in result
            ≡ (completed_phase (completed_in to self.old.flight.slots) t).orders }
    {
        let Some(redirect) = to else {
            return Orders::none();
        };
        self.flush(redirect.kept);
        self.counts.mispredicted = self.counts.mispredicted.wrapping_add(1);
        Orders::one(Order::Set {
            n: self.to_commit.wrapping_add(u64::from(redirect.kept)),
            addr: redirect.addr,
        })
    }
}
