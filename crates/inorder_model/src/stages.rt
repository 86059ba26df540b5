//! Which slots stand in a stage, and how long an instruction stays there.
ghost use Rattle.std.specs.Prelude.{◌≡◌, ◌<◌, ◌+◌, ℕ, false, nat_lt, IsTrue, IfSome, IfNone};
ghost use Rattle.timing_side.specs.Slots.{is_done_state};
ghost use Rattle.timing_core.specs.Finishing.{IsFirst};
ghost use Rattle.in_flight.specs.Flight.{executes_at};
ghost use Rattle.in_flight.specs.Snapshot.{IsSnapshot};
ghost use Rattle.inorder_machine.specs.Execute.{memory_latency};
ghost use Rattle.inorder_machine.specs.Issue.{is_load_class, execute_latency};
ghost use Rattle.inorder_side.specs.Timing.{done_count, in_execute};
ghost use Rattle.inorder_side.specs.Issue.{is_past_fetch};
ghost use Rattle.inorder_model.specs.Stages.{executing_in};

use fsim_base::Class;
use in_flight::{InFlight, PlaceSet, Sought};
use mono_model::Params;
use reorder_buffer::{Slot, SlotState};
use timing_core::latency_of;

/// The slot in Execute.
#[derive(Clone, Copy, Debug)]
pub(crate) struct Executing {
    /// Its place among the slots in flight.
    pub place: u32,
    pub slot: Slot,
    /// Those behind it that execute too, of the first 64 places: none in a run.
    pub later: PlaceSet,
    /// The cycle from which on it may go on to Memory.
    pub from: u64,
}

/// The slot in Execute, if there is one. It goes inline, so that of a slot that stays there no more
/// than its state is read.
#[inline(always)]
pub(crate) fn in_execute(flight: &InFlight) -> Option<Executing>
    ensures executing { executing_in result ≡ in_execute flight.now.slots }
    ensures first { IfSome result (λ x. IsFirst flight.now.slots x.place x.slot x.from) }
    ensures all { IfSome result (λ x.
        IsSnapshot (executes_at flight.now.slots) (x.place + 1) x.later) }
{
    let mut later = flight.snapshot(Sought::Executing);
    let Some(place) = flight.next(Sought::Executing, &mut later, 0) else {
        return None;
    };
    let slot = flight.at(place);
    match slot.state {
        SlotState::Until(from) => Some(Executing {
            place,
            slot,
            later,
            from,
        }),
        SlotState::Waiting | SlotState::Done => None,
    }
}

/// The first place whose slot executes, if there is one.
#[inline(always)]
pub(crate) fn executing_place(flight: &InFlight) -> Option<u32>
    ensures found { IfSome result (λ place. IsTrue (executes_at flight.now.slots place)) }
    ensures first { IfSome result (λ place. (k : ℕ) → k < place
        → executes_at flight.now.slots k ≡ false) }
    ensures none { IfNone result ((k : ℕ) → executes_at flight.now.slots k ≡ false) }
{
    let mut executes = flight.snapshot(Sought::Executing);
    flight.next(Sought::Executing, &mut executes, 0)
}

/// Whether a slot is done. In a run that is the oldest, which is looked at first.
#[inline(always)]
pub(crate) fn one_is_done(flight: &InFlight) -> bool
    ensures one { result ≡ nat_lt 0 (done_count flight.now.slots) }
{
    match flight.oldest() {
        Some(slot) if is_done(&slot) => true,
        _ => more_are_done(flight, 0),
    }
}

/// Whether two slots are done. In a run those are the oldest, which are looked at first.
#[inline(always)]
pub(crate) fn two_are_done(flight: &InFlight) -> bool
    ensures two { result ≡ nat_lt 1 (done_count flight.now.slots) }
{
    if flight.len() < 2 {
        return more_are_done(flight, 1);
    }
    match flight.oldest() {
        Some(slot) if is_done(&slot) && is_done(&flight.at(1)) => true,
        _ => more_are_done(flight, 1),
    }
}

/// Whether more slots than so many are done, wherever they stand.
#[inline(never)]
fn more_are_done(flight: &InFlight, than: u32) -> bool
    ensures more { result ≡ nat_lt than (done_count flight.now.slots) }
{
    let mut left = than;
    for place in 0..flight.len() {
        if is_done(&flight.at(place)) {
            if left == 0 {
                return true;
            }
            left -= 1;
        }
    }
    false
}

/// Whether the slot is done.
#[inline(always)]
fn is_done(slot: &Slot) -> bool
    ensures done { result ≡ is_done_state slot.now.state }
{
    matches!(slot.state, SlotState::Done)
}

/// Whether an instruction of the class loads.
pub(crate) fn is_load(class: Class) -> bool
    ensures load { result ≡ is_load_class class }
{
    matches!(class, Class::Load)
}

/// Whether a slot is in Decode and was fetched in an earlier cycle.
pub(crate) fn is_past_fetch(slot: &Slot, cycle: u64) -> bool
    ensures passed { result ≡ is_past_fetch cycle slot.now }
{
    slot.state == SlotState::Waiting && slot.fetched < cycle
}

/// How many cycles an instruction of the class stays in Execute: a load or a store computes its
/// address there.
pub(crate) fn execute_latency(params: &Params, class: Class) -> u32
    ensures latency { result ≡ execute_latency params.now class }
{
    match class {
        Class::Load | Class::Store => 1,
        Class::Alu | Class::Serial | Class::Mul | Class::Div => latency_of(params, class),
    }
}

/// How many cycles it stays in Memory, without what a miss adds.
pub(crate) fn memory_latency(params: &Params, class: Class) -> u32
    ensures latency { result ≡ memory_latency params.now class }
{
    match class {
        Class::Load | Class::Store => params.mem_latency,
        Class::Alu | Class::Serial | Class::Mul | Class::Div => 1,
    }
}
