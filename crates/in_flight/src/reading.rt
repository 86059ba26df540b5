//! What is read of one slot.
ghost use Rattle.std.specs.Prelude.{◌≡◌, ◌<◌, ◌≤◌, true, Some, length, slice_get};
ghost use Rattle.reorder_buffer.specs.Window.{IsConsecutive, HasOwnPositions, room_of, position_of};
ghost use Rattle.in_flight.specs.Step.{is_store, mark_in};
ghost use Rattle.reorder_buffer.specs.declared.slot.SlotState.TheVariants.{Done};
ghost use Rattle.reservation_stations.specs.declared.station.Mark.TheVariants as Mark;

use fsim_base::Class;
use reorder_buffer::{Slot, SlotState, Window};

/// Whether the slot's instruction stores.
pub fn is_store(slot: &Slot) -> bool
    ensures { result ≡ is_store slot.now }
{
    slot.class == Class::Store
}

/// Whether the slot's instruction is done and has no cause.
#[inline(always)]
pub fn gave_value(slot: &Slot) -> bool
    ensures mark { result ≡ true → mark_in slot.now.state slot.now.cause ≡ Mark.Done }
    ensures done { result ≡ true → slot.now.state ≡ Done }
{
    matches!(slot.state, SlotState::Done) && slot.cause.is_none()
}

/// The position of the slot at a place of a window, and the slot. The window's slots have numbers
/// one after the other and positions of their own.
#[inline(always)]
pub fn slot_at(window: &Window, place: u32) -> (u32, Slot)
    requires within { place < length window.now.slots }
    ensures slot { slice_get window.now.slots place ≡ Some result.1 }
    ensures position { result.0 ≡ position_of (room_of window.now.capacity) result.1.number }
    ensures consecutive { IsConsecutive window.now.slots }
    ensures apart { HasOwnPositions (room_of window.now.capacity) window.now.slots }
    ensures room { length window.now.slots ≤ window.now.capacity }
{
    prove!(place < window.len());
    (window.position(place), window.slot(place))
}
