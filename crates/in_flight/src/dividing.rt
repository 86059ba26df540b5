//! The count of the divisions that execute, as one slot goes on, and of slots that are cut.
ghost use Rattle.std.specs.Prelude.{◌≡◌, ◌+◌, ◌-◌, ◌<◌, ◌≤◌, ◌^◌, ℕ, if◌then◌else◌, length, take};
ghost use Rattle.reorder_buffer.specs.declared.slot.SlotState.TheVariants.{Until};
ghost use Rattle.timing_side.specs.Issue.{is_busy_division, busy_divisions};

use crate::reading::slot_at;
use fsim_base::Class;
use reorder_buffer::{Slot, SlotState, Window};

/// Whether the slot is a division that executes. Most are no division, so that is looked at first.
#[inline(always)]
fn divides(slot: &Slot) -> bool
    ensures { result ≡ is_busy_division slot.now.class slot.now.state }
{
    slot.class == Class::Div && matches!(slot.state, SlotState::Until(_))
}

/// Counts an instruction of this class that begins to execute, where it is a division.
#[inline(always)]
pub fn note_division(dividing: &mut u32, class: Class)
    requires room { dividing.old < 2 ^ 32 - 1 }
    ensures noted { (until : ℕ) → dividing.new
        ≡ dividing.old + (if is_busy_division class (Until until) then 1 else 0) }
{
    if class == Class::Div {
        *dividing += 1;
    }
}

/// Counts the slot no longer, where it was a division that executes.
#[inline(always)]
pub fn forget_division(dividing: &mut u32, slot: &Slot)
    requires counted { (if is_busy_division slot.now.class slot.now.state then 1 else 0)
        ≤ dividing.old }
    ensures forgotten { dividing.new
        ≡ dividing.old - (if is_busy_division slot.now.class slot.now.state then 1 else 0) }
{
    if divides(slot) {
        *dividing -= 1;
    }
}

/// How many divisions that execute the slot counts as: one or none.
fn divisions_in(slot: &Slot) -> u32
    ensures { result ≡ (if is_busy_division slot.now.class slot.now.state then 1 else 0) }
{
    if divides(slot) { 1 } else { 0 }
}

/// How many of the window's slots from a place on are divisions that execute, where `dividing` are
/// among all. Mostly none is, and then no slot is looked at.
#[inline(always)]
pub fn divisions_cut(window: &Window, from: u32, dividing: u32) -> u32
    requires within { from ≤ length window.now.slots }
    requires counted { dividing ≡ busy_divisions window.now.slots }
    ensures divisions { result + busy_divisions (take from window.now.slots)
        ≡ busy_divisions window.now.slots }
{
    if dividing == 0 {
        return 0;
    }
    divisions_from(window, from)
}

/// How many of the window's slots from a place on are divisions that execute.
fn divisions_from(window: &Window, from: u32) -> u32
    requires within { from ≤ length window.now.slots }
    ensures divisions { result + busy_divisions (take from window.now.slots)
        ≡ busy_divisions window.now.slots }
{
    let mut divisions = 0;
    for place in (from..window.len()).rev() {
        let (_, slot) = slot_at(window, place);
        divisions += divisions_in(&slot);
    }
    divisions
}
