use crate::appending::append_known;
use crate::dividing::{divisions_cut, forget_division, note_division};
use crate::queueing::{finish_store, pop_oldest};
use crate::reading::{gave_value, slot_at};
use crate::registers::WordRegisters;
use fsim_base::NoMemory;
use known_words::{KnownWords, OfWord};
use load_store_queue::StoreQueue;
use reorder_buffer::{Slot, SlotState, Window};
use reservation_stations::{PlaceSet, Sought, Stations};
use std::alloc::Global;
use std::marker::Model;
use trace_entry::Entry;

/// The instructions in flight, the oldest first, with numbers one after the other: each has a slot
/// in the window and a reservation station, and a store has a place in the store queue (Hennessy
/// and Patterson, Computer Architecture, section 3.6).
#[derive(Debug, Drop)]
pub struct InFlight {
    window: Window,
    stations: Stations,
    stores: StoreQueue,
    /// How many divisions execute.
    dividing: u32,
    /// Words whose registers need not be read again: no part of what is in flight.
    known: KnownWords<WordRegisters>,
}

impl Model for InFlight {
    ghost use Rattle.reorder_buffer.specs.Window.{Contents};

    ghost Value = { Contents };

    ghost use Rattle.in_flight.specs.Step.{IsInStep};

    ghost view = { λ f. f.window };

    ghost invariant = { λ f. IsInStep f.window f.stations f.stores f.dividing };
}

impl InFlight {
    ghost use Rattle.std.specs.Prelude.{◌≡◌, ◌↔◌, ℕ, ◌+◌, ◌-◌, ◌<◌, ◌≤◌, ◌++◌, ◌∷◌, [], false};
    ghost use Rattle.std.specs.Prelude.{length, take, drop, Some, IsTrue, IfOk, IfSome, IfNone};
    ghost use Rattle.std.specs.Prelude.{slice_get, slice_set};
    ghost use Rattle.reorder_buffer.specs.declared.slot.SlotState.TheVariants.{Waiting, Until};
    ghost use Rattle.reorder_buffer.specs.declared.slot.SlotState.TheVariants.{Done};
    ghost use Rattle.reorder_buffer.specs.Held.{slot_from};
    ghost use Rattle.reorder_buffer.specs.Window.{IsConsecutive, youngest};
    ghost use Rattle.timing_side.specs.Slots.{waiting_count};
    ghost use Rattle.timing_side.specs.Issue.{busy_divisions, are_stores_done};
    ghost use Rattle.mono_model.specs.Found.{destination_in};
    ghost use Rattle.timing_side.specs.Slots.{found_in};
    ghost use Rattle.in_flight.specs.Flight.{older_at, is_sought_at, IsExecuting, reads_from};
    ghost use Rattle.in_flight.specs.Snapshot.{IsSnapshot};

    /// No instructions, with room for `capacity`, at most 256. All memory is taken here; want of it
    /// is the one refusal.
    pub fn new(alloc: Global, capacity: u32) -> Result<InFlight, NoMemory>
        requires limit { capacity ≤ 256 }
        ensures opening { IfOk result (λ f. f ≡ record { capacity = capacity; slots = [] }) }
    {
        let window = Window::new(alloc, capacity)?;
        let stations = Stations::new(alloc, window.room())?;
        let stores = StoreQueue::new(alloc, capacity)?;
        let known = KnownWords::new(alloc)?;
        Ok(InFlight {
            window,
            stations,
            stores,
            dividing: 0,
            known,
        })
    }

    /// How many instructions there are.
    pub fn len(&self) -> u32
        ensures count { result ≡ length self.now.slots }
        ensures within { result ≤ self.now.capacity }
        ensures limit { self.now.capacity ≤ 256 }
        ensures consecutive { IsConsecutive self.now.slots }
    {
        self.window.len()
    }

    /// Whether there is no room for a further one.
    pub fn is_full(&self) -> bool
        ensures full { IsTrue result ↔ (length self.now.slots ≡ self.now.capacity) }
        ensures within { length self.now.slots ≤ self.now.capacity }
    {
        self.window.is_full()
    }

    /// How many wait for operands or a unit.
    pub fn waiting(&self) -> u32
        ensures count { result ≡ waiting_count self.now.slots }
    {
        self.stations.waiting()
    }

    /// How many divisions execute.
    pub fn dividing(&self) -> u32
        ensures count { result ≡ busy_divisions self.now.slots }
    {
        self.dividing
    }

    /// The slot of the oldest instruction; None where there is none.
    #[inline(always)]
    pub fn oldest(&self) -> Option<Slot>
        ensures oldest { result ≡ slice_get self.now.slots 0 }
    {
        self.window.oldest()
    }

    /// The slot at a place, counted from the oldest at 0.
    #[inline(always)]
    pub fn at(&self, place: u32) -> Slot
        requires within { place < length self.now.slots }
        ensures slot { slice_get self.now.slots place ≡ Some result }
    {
        self.window.slot(place)
    }

    /// Adds an instruction that waits, behind the others. There is room, and its number is the one
    /// behind the youngest one's. It goes inline where an instruction is fetched: most words are
    /// known, and then it makes no call.
    #[inline(always)]
    pub fn append(&mut self, entry: &Entry, predicted: u32, fetched: u64)
        requires room { length self.old.slots < self.old.capacity }
        requires next { IfSome (youngest self.old.slots)
            (λ last. entry.now.number ≡ last.number + 1) }
        ensures appended { self.new
            ≡ record self.old {
              slots = self.old.slots ++ slot_from entry.now predicted fetched Waiting ∷ [];
            } }
    {
        match self.known.find(entry.addr, entry.word) {
            Some(known) => append_known(
                &mut self.window,
                &mut self.stations,
                &mut self.stores,
                entry,
                predicted,
                fetched,
                &known.registers,
            ),
            None => self.append_new(entry, predicted, fetched),
        }
    }

    /// The same, of a word whose registers are read anew. It stays a call: few words come to it,
    /// and all others need no frame of it.
    #[inline(never)]
    fn append_new(&mut self, entry: &Entry, predicted: u32, fetched: u64)
        requires room { length self.old.slots < self.old.capacity }
        requires next { IfSome (youngest self.old.slots)
            (λ last. entry.now.number ≡ last.number + 1) }
        ensures appended { self.new
            ≡ record self.old {
              slots = self.old.slots ++ slot_from entry.now predicted fetched Waiting ∷ [];
            } }
    {
        let told = self.known.told(entry.addr, entry.word);
        append_known(
            &mut self.window,
            &mut self.stations,
            &mut self.stores,
            entry,
            predicted,
            fetched,
            &told.registers,
        );
    }

    /// The oldest instruction leaves, in whatever state. There is one. Most gave their value: their
    /// slot is read where a caller read it, and nothing else is looked up.
    #[inline(always)]
    pub fn leave(&mut self)
        requires some { 0 < length self.old.slots }
        ensures left { self.new ≡ record self.old { slots = drop 1 self.old.slots } }
    {
        match self.window.oldest() {
            Some(slot) if gave_value(&slot) => {
                pop_oldest(&mut self.stores, &self.window);
                self.stations.retire_done();
                self.window.pop();
            }
            _ => self.leave_valueless(),
        }
    }

    /// The same, whether or not it gave its value.
    #[inline(never)]
    fn leave_valueless(&mut self)
        requires some { 0 < length self.old.slots }
        ensures left { self.new ≡ record self.old { slots = drop 1 self.old.slots } }
    {
        let (position, slot) = slot_at(&self.window, 0);
        pop_oldest(&mut self.stores, &self.window);
        forget_division(&mut self.dividing, &slot);
        self.stations.retire(position);
        self.window.pop();
    }

    /// Removes the instructions from a place on, and gives how many they were: none where there is
    /// none at the place.
    pub fn cut_to(&mut self, place: u32) -> u32
        ensures kept { self.new ≡ record self.old { slots = take place self.old.slots } }
        ensures count { result ≡ length self.old.slots - place }
    {
        if place >= self.window.len() {
            return 0;
        }
        let (_, slot) = slot_at(&self.window, place);
        let number = slot.number;
        self.dividing -= divisions_cut(&self.window, place, self.dividing);
        self.stations.keep(place);
        self.stores.cut_from(number);
        self.window.cut_from(number)
    }

    /// The first place from a place on at which an instruction is sought; None where there is none.
    /// It stays a call: a walk through a window of at most 64 slots makes none.
    #[inline(never)]
    pub fn first(&self, sought: Sought, from: u32) -> Option<u32>
        ensures behind { IfSome result (λ place. from ≤ place) }
        ensures found { IfSome result (λ place. IsTrue (is_sought_at sought self.now.slots place)) }
        ensures first { IfSome result (λ place. (k : ℕ) → from ≤ k → k < place →
            is_sought_at sought self.now.slots k ≡ false) }
        ensures none { IfNone result ((k : ℕ) → from ≤ k →
            is_sought_at sought self.now.slots k ≡ false) }
    {
        self.stations.first(sought, from)
    }

    /// Whether the instruction at a place is sought.
    #[inline(always)]
    pub fn is_sought(&self, sought: Sought, place: u32) -> bool
        ensures sought { result ≡ is_sought_at sought self.now.slots place }
    {
        if place <= 192 {
            return self.stations.among(sought, place as u8).has_first();
        }
        match self.first(sought, place) {
            Some(first) => first == place,
            None => false,
        }
    }

    /// Those of the first 64 places at which an instruction is sought.
    #[inline(always)]
    pub fn snapshot(&self, sought: Sought) -> PlaceSet
        ensures all { IsSnapshot (is_sought_at sought self.now.slots) 0 result }
    {
        self.stations.among(sought, 0)
    }

    /// The first place from a place on at which an instruction is sought; None where there is none.
    /// It is taken out of a snapshot, which has such places of the first 64.
    #[inline(always)]
    pub fn next(&self, sought: Sought, snapshot: &mut PlaceSet, from: u32) -> Option<u32>
        requires all { IsSnapshot (is_sought_at sought self.now.slots) from snapshot.old }
        ensures behind { IfSome result (λ place. from ≤ place) }
        ensures found { IfSome result (λ place. IsTrue (is_sought_at sought self.now.slots place)) }
        ensures first { IfSome result (λ place. (k : ℕ) → from ≤ k → k < place →
            is_sought_at sought self.now.slots k ≡ false) }
        ensures none { IfNone result ((k : ℕ) → from ≤ k →
            is_sought_at sought self.now.slots k ≡ false) }
        ensures left { IfSome result (λ place.
            IsSnapshot (is_sought_at sought self.now.slots) (place + 1) snapshot.new) }
    {
        if let Some(place) = snapshot.take_first() {
            return Some(place);
        }
        if self.len() <= 64 {
            return None;
        }
        self.first(sought, from.max(64))
    }

    /// Whether all stores older than the instruction at a place are done. It stays a call: only a
    /// load asks, and inline a run would be so large that the kit's compiler leaves it a call.
    #[inline(never)]
    pub fn stores_done(&self, place: u32) -> bool
        requires within { place < length self.now.slots }
        ensures done { result ≡ are_stores_done (older_at self.now.slots place) }
    {
        let (_, slot) = slot_at(&self.window, place);
        self.stores.older_done(slot.number)
    }

    /// Whether the instruction at a place reads what the one at another place writes.
    pub fn reads_from(&self, place: u32, other: u32) -> bool
        requires within { place < length self.now.slots }
        requires there { other < length self.now.slots }
        ensures reads { IfSome (slice_get self.now.slots place) (λ slot.
            IfSome (slice_get self.now.slots other) (λ writer.
            result ≡ reads_from (found_in slot) (destination_in (found_in writer)))) }
    {
        let reader = WordRegisters::of_word(self.window.slot(place).word).registers;
        let writer = WordRegisters::of_word(self.window.slot(other).word).registers;
        let (first, second) = reader.sources;
        match writer.destination.register() {
            Some(register) => {
                first.register() == Some(register) || second.register() == Some(register)
            }
            None => false,
        }
    }

    /// Lets the instruction at a place, which waits, execute until a cycle.
    #[inline(always)]
    pub fn begin(&mut self, place: u32, until: u64)
        requires within { place < length self.old.slots }
        requires waiting { IfSome (slice_get self.old.slots place) (λ slot. slot.state ≡ Waiting) }
        ensures begun { IfSome (slice_get self.old.slots place)
            (λ slot. self.new ≡ record self.old
            { slots = slice_set self.old.slots place (record slot { state = Until until }) }) }
    {
        let (position, slot) = slot_at(&self.window, place);
        self.window.mark(place, SlotState::Until(until));
        note_division(&mut self.dividing, slot.class);
        self.stations.issue(position);
    }

    /// Ends the execution of the instruction at a place. Without a cause, it wakes those that wait
    /// for its value.
    pub fn finish(&mut self, place: u32)
        requires within { place < length self.old.slots }
        requires executing { IfSome (slice_get self.old.slots place)
            (λ slot. IsExecuting slot.state) }
        ensures finished { IfSome (slice_get self.old.slots place)
            (λ slot. self.new ≡ record self.old
            { slots = slice_set self.old.slots place (record slot { state = Done }) }) }
    {
        let (position, slot) = slot_at(&self.window, place);
        self.window.mark(place, SlotState::Done);
        forget_division(&mut self.dividing, &slot);
        self.stations.wake(position, slot.cause.is_some());
        finish_store(&mut self.stores, &slot);
    }
}
