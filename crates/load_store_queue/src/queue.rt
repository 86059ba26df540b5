ghost use Rattle.std.specs.Prelude.{◌≡◌, ◌<◌, ◌≤◌, true, length, IfSome, slice_get, slice_set};
ghost use Rattle.load_store_queue.specs.Queue.{done_in_a_row};

use crate::queued::Queued;
use circular_buffer::HeapCircularBuffer;
use fsim_base::NoMemory;
use std::alloc::Global;
use std::marker::Model;

/// The stores in the window, the oldest first, with rising numbers and a fixed room. A load waits
/// until the older ones are done (Hennessy and Patterson, Computer Architecture, section 3.6).
#[derive(Debug, Drop)]
pub struct StoreQueue {
    stores: HeapCircularBuffer<Queued>,
    /// How many of the oldest stores are done in a row. So the next one, if there is one, is the
    /// oldest that isn't.
    settled: usize,
}

impl Model for StoreQueue {
    ghost use Rattle.load_store_queue.specs.Queue.{Contents, IsInOrder};

    ghost Value = { Contents };

    ghost view = { λ q. record { capacity = q.stores.capacity; stores = q.stores.items } };

    ghost invariant = { λ q. IsInOrder q.stores.capacity q.settled q.stores.items };
}

impl StoreQueue {
    ghost use Rattle.std.specs.Prelude.{◌≡◌, ◌↔◌, ◌<◌, ◌≤◌, ◌++◌, ◌∷◌, [], false, length, drop};
    ghost use Rattle.std.specs.Prelude.{Any, IsTrue, IfOk, IfSome, nat_lt};
    ghost use Rattle.std.specs.List.{prefix_len};
    ghost use Rattle.load_store_queue.specs.Queue.{IsRising, AreOlderDone, youngest, marked};
    ghost use Rattle.load_store_queue.specs.Queue.{below_number};

    /// An empty queue with room for `capacity` stores. All its memory is taken here; want of it is
    /// the one refusal.
    pub fn new(alloc: Global, capacity: u32) -> Result<StoreQueue, NoMemory>
        ensures opening { IfOk result (λ q. q ≡ record { capacity = capacity; stores = [] }) }
    {
        match HeapCircularBuffer::with_capacity(alloc, capacity as usize) {
            Ok(stores) => Ok(StoreQueue { stores, settled: 0 }),
            Err(_) => Err(NoMemory),
        }
    }

    /// How many stores the queue holds.
    pub fn len(&self) -> u32
        ensures count { result ≡ length self.now.stores }
        ensures within { result ≤ self.now.capacity }
        ensures rising { IsRising self.now.stores }
    {
        self.stores.len() as u32
    }

    /// Adds a store that isn't done, behind the others. There is room, and its number is above the
    /// youngest one's.
    #[tactic(auto, using(crate::proofs::Rising::rising_with_one_more, crate::proofs::Settled::row_with_open))]
    pub fn put(&mut self, number: u64)
        requires room { length self.old.stores < self.old.capacity }
        requires above { IfSome (youngest self.old.stores) (λ last. last.number < number) }
        ensures added { self.new ≡ record self.old {
          stores = self.old.stores ++ record { number = number; is_done = false } ∷ [];
        } }
    {
        // There is room, so this is Ok.
        let _ = self.stores.try_push_back(Queued {
            number,
            is_done: false,
        });
    }

    /// Marks the store of this number as done. The queue holds it, done or not.
    pub fn done(&mut self, number: u64)
        requires held { Any (λ q. q.number ≡ number) self.old.stores }
        ensures marked { self.new ≡ record self.old { stores = marked number self.old.stores } }
    {
        let place = self.count_below(number);
        finish(&mut self.stores, place);
        self.settled = settled_from(&self.stores, self.settled);
    }

    /// Whether each store with a number below this one is done.
    #[tactic(auto, using(crate::proofs::Settled::oldest_open, crate::proofs::Settled::all_done, crate::proofs::Settled::none_behind))]
    pub fn older_done(&self, number: u64) -> bool
        ensures done { IsTrue result ↔ AreOlderDone number self.now.stores }
    {
        match self.stores.get(self.settled) {
            Some(waiting) => number <= waiting.number,
            None => true,
        }
    }

    /// Removes the oldest store, done or not. There is one.
    pub fn pop(&mut self)
        requires some { 0 < length self.old.stores }
        ensures popped { self.new ≡ record self.old { stores = drop 1 self.old.stores } }
    {
        let _ = self.stores.pop_front();
        self.settled = settled_from(&self.stores, self.settled.saturating_sub(1));
    }

    /// Removes the stores of this number and above.
    pub fn cut_from(&mut self, number: u64)
        ensures kept { self.new ≡ record self.old { stores = below_number number self.old.stores } }
    {
        let kept = self.count_below(number);
        self.stores.truncate_back(kept);
        self.settled = self.settled.min(kept);
    }

    /// How many stores have numbers below this one. They stand first.
    #[tactic(auto, using(crate::proofs::Rising::below_place, crate::proofs::Rising::above_place, crate::proofs::Rising::count_within))]
    fn count_below(&self, number: u64) -> usize
        ensures count { result ≡ prefix_len (λ q. nat_lt q.number number) self.now.stores }
        ensures within { result ≤ length self.now.stores }
    {
        let (mut low, mut high) = (0, self.stores.len());
        while low < high {
            let middle = low + (high - low) / 2;
            match self.stores.get(middle) {
                Some(store) if store.number < number => low = middle + 1,
                _ => high = middle,
            }
        }
        low
    }
}

/// Marks the store at a place as done.
fn finish(stores: &mut HeapCircularBuffer<Queued>, place: usize)
    requires within { place < length stores.old.items }
    ensures finished { IfSome (slice_get stores.old.items place)
        (λ s. stores.new ≡ record stores.old
        { items = slice_set stores.old.items place (record s { is_done = true }) }) }
{
    if let Some(store) = stores.get_mut(place) {
        store.is_done = true;
    }
}

/// How many of the oldest stores are done in a row, where the first `from` are known to be.
#[tactic(auto, using(crate::proofs::Settled::done_next, crate::proofs::Settled::row_ends, crate::proofs::Settled::row_within))]
fn settled_from(stores: &HeapCircularBuffer<Queued>, from: usize) -> usize
    requires known { from ≤ done_in_a_row stores.now.items }
    ensures row { result ≡ done_in_a_row stores.now.items }
{
    for place in from..stores.len() {
        match stores.get(place) {
            Some(store) if store.is_done => {}
            _ => return place,
        }
    }
    stores.len()
}
