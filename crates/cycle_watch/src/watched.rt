ghost use Rattle.std.specs.Prelude.{◌≡◌, ◌+◌, ◌<◌, ◌==◌, ◌&&◌, drop, length, nat_lt, slice_get, Some};
ghost use Rattle.reorder_buffer.specs.declared.slot.Slot.{Slot as AnySlot};
ghost use Rattle.timing_side.specs.Slots.{is_done_state};
ghost use Rattle.inorder_side.specs.Timing.{done_count};
ghost use Rattle.insight_model.specs.Sight.{Outcome};
ghost use Rattle.cycle_watch.specs.Shown.{progress_in, shown_in};
ghost use Rattle.cycle_watch.specs.SeenIn.{inorder_slot_progress, slot_as, slot_outcome};
ghost use Rattle.cycle_watch.specs.SeenIn.{slot_progress, slot_word};

use crate::shown::{Progress, Shown};
use fsim_base::Cause;
use in_flight::InFlight;
use inorder_model::InorderSide;
use mono_model::End;
use reorder_buffer::{Slot, SlotState};
use time_model::{Pipeline, TimeSide, TimingSide};
use timing_core::{Counts, TimingCore};

/// What is seen of a machine as a cycle begins.
pub trait Watched {
    ghost use Rattle.std.specs.Prelude.{◌≡◌, ◌<◌, length, option_map, slice_get, Some};
    ghost use Rattle.insight_model.specs.Sight.{Sight};
    ghost use Rattle.insight_model.specs.Stack.{waiting_in};
    ghost use Rattle.timing_core.specs.Counts.{counts_in};
    ghost use Rattle.cycle_watch.specs.Shown.{progress_of, shown_in};

    ghost sight: { Self → Sight };

    /// The number of the cycle, counted from 0.
    fn cycle(&self) -> u64
        ensures cycle { result ≡ (sight self.now).cycle };

    /// How many instructions retired.
    fn retired(&self) -> u64
        ensures retired { result ≡ (sight self.now).retired };

    /// What the phases counted.
    fn counts(&self) -> Counts
        ensures counts { counts_in result ≡ (sight self.now).counts };

    /// How the run stands or ended.
    fn end(&self) -> End
        ensures end { result ≡ (sight self.now).end };

    /// The cycle from which on fetch goes on after a miss.
    fn resume(&self) -> u64
        ensures resume { result ≡ (sight self.now).resume };

    /// The address to fetch next, if its miss was counted.
    fn missing(&self) -> Option<u32>
        ensures missing { result ≡ (sight self.now).missing };

    /// How many instructions are under way.
    fn len(&self) -> usize
        ensures count { result ≡ length (sight self.now).window };

    /// How many of them wait.
    fn waiting(&self) -> u32
        ensures count { result ≡ waiting_in (sight self.now).window };

    /// The instruction at a place, counted from the oldest at 0.
    fn shown(&self, place: usize) -> Shown
        requires within { place < length (sight self.now).window }
        ensures shown { slice_get (sight self.now).window place ≡ Some (shown_in result) };

    /// How far it has come.
    fn progress(&self, place: usize) -> Progress
        requires within { place < length (sight self.now).window }
        ensures progress { option_map progress_of (slice_get (sight self.now).window place)
            ≡ Some result };
}

/// How far a slot has come.
#[inline(always)]
fn progress_of(state: SlotState) -> Progress
    ensures progress { (o : Outcome) → progress_in result o ≡ slot_progress state o }
{
    match state {
        SlotState::Waiting => Progress::Waiting,
        SlotState::Until(end) => Progress::Executing(end),
        SlotState::Done => Progress::Done,
    }
}

/// The word of a slot, if there is one to be fetched.
fn word_of(slot: &Slot) -> Option<u32>
    ensures word { result ≡ slot_word slot.now }
{
    match slot.cause {
        Some(Cause::InstructionMisaligned | Cause::InstructionAccess) if slot.word == 0 => None,
        _ => Some(slot.word),
    }
}

/// A slot that has come so far.
#[inline(always)]
fn shown_of(slot: &Slot, progress: Progress) -> Shown
    ensures shown { shown_in result
        ≡ slot_as slot.now (progress_in progress (slot_outcome slot.now)) }
{
    Shown {
        addr: slot.addr,
        word: word_of(slot),
        predicted: slot.predicted,
        since: slot.fetched,
        next: slot.next,
        access: slot.access,
        cause: slot.cause,
        progress,
    }
}

/// The slot at a place.
#[inline(always)]
fn slot_at(flight: &InFlight, place: usize) -> Slot
    requires within { place < length flight.now.slots }
    ensures slot { slice_get flight.now.slots place ≡ Some result }
{
    // So few are under way that the place fits.
    let _count = flight.len();
    flight.at(place as u32)
}

/// Whether a slot is done.
fn is_done(state: SlotState) -> bool
    ensures done { result ≡ is_done_state state }
{
    matches!(state, SlotState::Done)
}

/// Whether one of the slots after a place is done.
fn has_done_after(flight: &InFlight, place: usize) -> bool
    requires within { place < length flight.now.slots }
    ensures done { result ≡ nat_lt 0 (done_count (drop (place + 1) flight.now.slots)) }
{
    let count = flight.len() as usize;
    for younger in place + 1..count {
        if is_done(slot_at(flight, younger).state) {
            return true;
        }
    }
    false
}

/// Whether the slot at a place is the youngest that is done.
fn is_youngest_done(flight: &InFlight, place: usize) -> bool
    requires within { place < length flight.now.slots }
    ensures youngest { (slot : AnySlot) → slice_get flight.now.slots place ≡ Some slot
        → result
        ≡ (is_done_state slot.state && done_count (drop (place + 1) flight.now.slots) == 0) }
{
    is_done(slot_at(flight, place).state) && !has_done_after(flight, place)
}

/// How far the slot at a place has come in order: the youngest that is done is in Memory, if that
/// has one.
fn inorder_progress(flight: &InFlight, memory: Option<u64>, place: usize) -> Progress
    requires within { place < length flight.now.slots }
    ensures progress { (slot : AnySlot) (o : Outcome) → slice_get flight.now.slots place ≡ Some slot
        → progress_in result o ≡ inorder_slot_progress memory
        (done_count (drop (place + 1) flight.now.slots)) slot.state o }
{
    let progress = progress_of(slot_at(flight, place).state);
    match memory {
        Some(end) => {
            if is_youngest_done(flight, place) {
                Progress::Accessing(end)
            } else {
                progress
            }
        }
        None => progress,
    }
}

/// The parts of a pipeline that both machines have.
fn core_of<P: Pipeline>(side: &TimingSide<P>) -> &TimingCore
    ensures core { result.now ≡ P.piped.core side.now.pipeline }
{
    side.pipeline().core()
}

impl Watched for TimeSide {
    ghost use Rattle.cycle_watch.specs.SeenIn.{time_sight};

    ghost sight = { time_sight };

    fn cycle(&self) -> u64 {
        core_of(self).cycle()
    }

    fn retired(&self) -> u64 {
        core_of(self).retired()
    }

    fn counts(&self) -> Counts {
        core_of(self).counts()
    }

    fn end(&self) -> End {
        core_of(self).end()
    }

    fn resume(&self) -> u64 {
        core_of(self).resume()
    }

    fn missing(&self) -> Option<u32> {
        TimingSide::missing(self)
    }

    fn len(&self) -> usize {
        core_of(self).flight().len() as usize
    }

    fn waiting(&self) -> u32 {
        core_of(self).flight().waiting()
    }

    fn shown(&self, place: usize) -> Shown {
        let slot = slot_at(core_of(self).flight(), place);
        shown_of(&slot, progress_of(slot.state))
    }

    #[inline(always)]
    fn progress(&self, place: usize) -> Progress {
        progress_of(slot_at(core_of(self).flight(), place).state)
    }
}

impl Watched for InorderSide {
    ghost use Rattle.cycle_watch.specs.SeenIn.{inorder_side_sight};

    ghost sight = { inorder_side_sight };

    fn cycle(&self) -> u64 {
        core_of(self).cycle()
    }

    fn retired(&self) -> u64 {
        core_of(self).retired()
    }

    fn counts(&self) -> Counts {
        core_of(self).counts()
    }

    fn end(&self) -> End {
        core_of(self).end()
    }

    fn resume(&self) -> u64 {
        core_of(self).resume()
    }

    fn missing(&self) -> Option<u32> {
        TimingSide::missing(self)
    }

    fn len(&self) -> usize {
        core_of(self).flight().len() as usize
    }

    fn waiting(&self) -> u32 {
        core_of(self).flight().waiting()
    }

    fn shown(&self, place: usize) -> Shown {
        let flight = core_of(self).flight();
        let progress = inorder_progress(flight, self.pipeline().memory, place);
        shown_of(&slot_at(flight, place), progress)
    }

    fn progress(&self, place: usize) -> Progress {
        inorder_progress(core_of(self).flight(), self.pipeline().memory, place)
    }
}
