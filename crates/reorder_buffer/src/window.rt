ghost use Rattle.std.specs.Prelude.{◌≡◌, ℕ, ◌+◌, ◌<◌, ◌≤◌, ◌^◌};
ghost use Rattle.std.specs.Int.{IsPowerOfTwo};
ghost use Rattle.reorder_buffer.specs.Window.{index_of, position_of};

use crate::held::Held;
use crate::slot::{Slot, SlotState};
use fsim_base::NoMemory;
use std::alloc::Global;
use std::marker::Model;
use trace_entry::Entry;

/// The instructions in the window, the oldest first, with numbers one after the other and a fixed
/// room (Hennessy and Patterson, Computer Architecture, section 3.6, the reorder buffer).
#[derive(Debug, Drop)]
pub struct Window {
    /// What each position keeps: a power of two of them, at least `capacity`. A slot's position is
    /// its number modulo that power, so what the window holds begins at `first`, and goes on at 0
    /// behind the last position.
    held: Vec<Held>,
    /// How many slots have room.
    capacity: u32,
    /// The last position: the bits of a number that make its position.
    mask: u32,
    /// The position of the oldest slot, where there is one.
    first: u32,
    /// How many slots the window holds.
    count: u32,
}

impl Model for Window {
    ghost use Rattle.std.specs.Prelude.{vec_len};
    ghost use Rattle.reorder_buffer.specs.Held.{slots_in};
    ghost use Rattle.reorder_buffer.specs.Window.{Contents, IsWindow, ring_slots};

    ghost Value = { Contents };

    ghost view = { λ w. record {
      capacity = w.capacity;
      slots = ring_slots (slots_in w.held.items) w.first w.count;
    } };

    ghost invariant = { λ w.
        IsWindow (vec_len w.held) w.capacity w.mask w.first w.count
        (ring_slots (slots_in w.held.items) w.first w.count) };
}

impl Window {
    ghost use Rattle.std.specs.Prelude.{◌≡◌, ◌≢◌, ◌↔◌, ◌+◌, ◌<◌, ◌≤◌, ◌++◌, ◌∷◌, [], length, drop};
    ghost use Rattle.std.specs.Prelude.{All, Some, IsTrue, IsNone, IfOk, IfSome, slice_get};
    ghost use Rattle.std.specs.Prelude.{slice_set};
    ghost use Rattle.reorder_buffer.specs.declared.slot.SlotState.TheVariants.{Waiting};
    ghost use Rattle.reorder_buffer.specs.Held.{slot_from};
    ghost use Rattle.std.specs.Int.{IsNextPowerOfTwo};
    ghost use Rattle.reorder_buffer.specs.Window.{IsConsecutive, HasOwnIndices, youngest, index_of};
    ghost use Rattle.reorder_buffer.specs.Window.{HasOwnPositions, room_of, position_of};
    ghost use Rattle.reorder_buffer.specs.Window.{below_number, count_from};

    /// An empty window with room for `capacity` slots. All its memory is taken here. It is refused
    /// for want of memory alone, as which a capacity above 2^31 counts.
    pub fn new(alloc: Global, capacity: u32) -> Result<Window, NoMemory>
        ensures opening { IfOk result (λ w. w ≡ record { capacity = capacity; slots = [] }) }
    {
        let Some(room) = capacity.checked_next_power_of_two() else {
            return Err(NoMemory);
        };
        match vec![in alloc; Held::free(); room as usize] {
            Ok(held) => Ok(Window {
                held,
                capacity,
                mask: room - 1,
                first: 0,
                count: 0,
            }),
            Err(_) => Err(NoMemory),
        }
    }

    /// How many slots the window holds.
    #[tactic(auto, using(crate::proofs::Consecutive::own_indices))]
    pub fn len(&self) -> u32
        ensures count { result ≡ length self.now.slots }
        ensures within { result ≤ self.now.capacity }
        ensures consecutive { IsConsecutive self.now.slots }
        ensures apart { HasOwnIndices self.now.capacity self.now.slots }
    {
        self.count
    }

    /// Whether there is no room for a further slot.
    pub fn is_full(&self) -> bool
        ensures full { IsTrue result ↔ (length self.now.slots ≡ self.now.capacity) }
        ensures within { length self.now.slots ≤ self.now.capacity }
    {
        self.count == self.capacity
    }

    /// Adds the slot of an instruction that waits behind the others and gives its index, which no
    /// other slot has. There is room, and its number is the one behind the youngest slot's.
    #[inline(always)]
    pub fn append(&mut self, entry: &Entry, predicted: u32, fetched: u64) -> u32
        requires room { length self.old.slots < self.old.capacity }
        requires next { IfSome (youngest self.old.slots)
            (λ last. entry.now.number ≡ last.number + 1) }
        ensures appended { self.new
            ≡ record self.old {
              slots = self.old.slots ++ slot_from entry.now predicted fetched Waiting ∷ [];
            } }
        ensures index { result ≡ index_of self.old.capacity entry.now.number }
        ensures below { result < self.old.capacity }
        ensures free { All (λ held. index_of self.old.capacity held.number ≢ result)
            self.old.slots }
    {
        let index = index_in(self.capacity, entry.number);
        let position = position_in(entry.number, self.mask);
        if self.count == 0 {
            self.first = position;
        }
        self.held[position as usize].put(entry, predicted, fetched);
        self.count += 1;
        index
    }

    /// How many positions there are: the least power of two that is the capacity or more.
    pub fn room(&self) -> u32
        ensures room { result ≡ room_of self.now.capacity }
        ensures power { IsNextPowerOfTwo self.now.capacity result }
    {
        self.mask + 1
    }

    /// The position that the slot of this number gets, which no slot has. There is room, and the
    /// number is the one behind the youngest slot's.
    #[inline(always)]
    pub fn free_position(&self, number: u64) -> u32
        requires room { length self.now.slots < self.now.capacity }
        requires next { IfSome (youngest self.now.slots) (λ last. number ≡ last.number + 1) }
        ensures position { result ≡ position_of (room_of self.now.capacity) number }
        ensures below { result < room_of self.now.capacity }
        ensures free { All (λ held. position_of (room_of self.now.capacity) held.number ≢ result)
            self.now.slots }
    {
        position_in(number, self.mask)
    }

    /// The position of the slot at a place, counted from the oldest at 0. No other slot has it.
    #[inline(always)]
    pub fn position(&self, place: u32) -> u32
        requires place { place < length self.now.slots }
        ensures position { IfSome (slice_get self.now.slots place)
            (λ slot. result ≡ position_of (room_of self.now.capacity) slot.number) }
        ensures below { result < room_of self.now.capacity }
        ensures apart { HasOwnPositions (room_of self.now.capacity) self.now.slots }
    {
        position_behind(self.first, place, self.mask)
    }

    /// The index and the slot at a place, counted from the oldest at 0.
    #[inline(always)]
    pub fn at(&self, place: u32) -> (u32, Slot)
        requires place { place < length self.now.slots }
        ensures slot { slice_get self.now.slots place ≡ Some result.1 }
        ensures index { result.0 ≡ index_of self.now.capacity result.1.number }
        ensures below { result.0 < self.now.capacity }
    {
        let position = position_behind(self.first, place, self.mask);
        let held = &self.held[position as usize];
        (index_in(self.capacity, held.entry.number), held.slot())
    }

    /// The slot at a place, counted from the oldest at 0.
    #[inline(always)]
    pub fn slot(&self, place: u32) -> Slot
        requires place { place < length self.now.slots }
        ensures slot { slice_get self.now.slots place ≡ Some result }
    {
        self.at(place).1
    }

    /// Sets the state of the slot at a place, counted from the oldest at 0, and nothing else.
    pub fn mark(&mut self, place: u32, state: SlotState)
        requires place { place < length self.old.slots }
        ensures marked { IfSome (slice_get self.old.slots place)
            (λ s. self.new ≡ record self.old
            { slots = slice_set self.old.slots place (record s { state = state }) }) }
    {
        let position = position_behind(self.first, place, self.mask);
        self.held[position as usize].state = state;
    }

    /// The oldest slot; None where there is none.
    #[tactic(auto, using(crate::proofs::Consecutive::oldest_none))]
    #[inline(always)]
    pub fn oldest(&self) -> Option<Slot>
        ensures oldest { result ≡ slice_get self.now.slots 0 }
        ensures empty { IsNone result ↔ (self.now.slots ≡ []) }
    {
        if self.count == 0 {
            return None;
        }
        Some(self.held[self.first as usize].slot())
    }

    /// Removes the oldest slot. There is one.
    pub fn pop(&mut self)
        requires some { 0 < length self.old.slots }
        ensures popped { self.new ≡ record self.old { slots = drop 1 self.old.slots } }
    {
        self.first = position_behind(self.first, 1, self.mask);
        self.count -= 1;
    }

    /// Removes the slots of this number and above, and gives how many they were.
    #[tactic(auto, using(crate::proofs::Consecutive::count_others))]
    pub fn cut_from(&mut self, number: u64) -> u32
        ensures kept { self.new ≡ record self.old { slots = below_number number self.old.slots } }
        ensures count { result ≡ count_from number self.old.slots }
    {
        let kept = self.count_below(number);
        let cut = self.count - kept;
        self.count = kept;
        cut
    }

    /// How many slots have numbers below this one. They stand first, and their numbers follow one
    /// another.
    fn count_below(&self, number: u64) -> u32
        ensures count { result ≡ length (below_number number self.now.slots) }
        ensures within { result ≤ length self.now.slots }
    {
        match self.oldest() {
            Some(oldest) => {
                u64::from(self.count).min(number.saturating_sub(oldest.number)) as u32
            }
            None => 0,
        }
    }
}

/// The index of the slot that an instruction of this number has in a window of this capacity. It
/// goes inline, as `append` and `at` do, so that nothing is divided where no index is asked for,
/// and by a remainder that is checked, so that nothing is tested there either.
#[inline(always)]
fn index_in(capacity: u32, number: u64) -> u32
    requires some { 0 < capacity }
    ensures index { result ≡ index_of capacity number }
    ensures below { result < capacity }
{
    number.checked_rem(u64::from(capacity)).unwrap_or(0) as u32
}

/// The position of the slot of an instruction of this number, where `mask` is the last position.
#[tactic(auto, using(crate::proofs::Positions::masked_position))]
#[inline(always)]
fn position_in(number: u64, mask: u32) -> u32
    requires power { IsPowerOfTwo (mask + 1) }
    ensures position { result ≡ position_of (mask + 1) number }
    ensures below { result ≤ mask }
{
    (number & u64::from(mask)) as u32
}

/// The position so many places behind one, where `mask` is the last position.
#[tactic(auto, using(crate::proofs::Positions::masked_position))]
#[inline(always)]
fn position_behind(position: u32, places: u32, mask: u32) -> u32
    requires power { IsPowerOfTwo (mask + 1) }
    requires fits { position + places < 2 ^ 32 }
    ensures behind { result ≡ position_of (mask + 1) (position + places) }
    ensures below { result ≤ mask }
{
    (position + places) & mask
}
