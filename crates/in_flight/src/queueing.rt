//! What the store queue has of the window's slots, as these change.
ghost use Rattle.std.specs.Prelude.{◌≡◌, ◌<◌, ℕ, true, Any, IfSome, length, drop};
ghost use Rattle.reorder_buffer.specs.declared.slot.SlotState.TheVariants.{Waiting};
ghost use Rattle.reorder_buffer.specs.Held.{slot_from};
ghost use Rattle.load_store_queue.specs.Queue.{youngest};
ghost use Rattle.in_flight.specs.Step.{queue_of, is_store, put_in, finished_in};

use crate::reading::is_store;
use fsim_base::Class;
use load_store_queue::StoreQueue;
use reorder_buffer::{Slot, Window};
use trace_entry::Entry;

/// Puts an instruction into the queue, if it stores: as its slot, whatever else that has.
pub fn put_store(stores: &mut StoreQueue, entry: &Entry)
    requires room { length stores.old.stores < stores.old.capacity }
    requires above { IfSome (youngest stores.old.stores)
        (λ last. last.number < entry.now.number) }
    ensures put { (predicted fetched : ℕ) → stores.new ≡ record stores.old {
      stores = put_in (slot_from entry.now predicted fetched Waiting) stores.old.stores;
    } }
{
    if entry.class == Class::Store {
        stores.put(entry.number);
    }
}

/// Takes the oldest slot of the window, which is about to leave, out of the queue, if it stores.
pub fn pop_oldest(stores: &mut StoreQueue, window: &Window)
    requires some { 0 < length window.now.slots }
    requires queued { stores.old ≡ queue_of window.now.capacity window.now.slots }
    ensures left { stores.new ≡ queue_of window.now.capacity (drop 1 window.now.slots) }
{
    if let Some(slot) = window.oldest() {
        if is_store(&slot) {
            stores.pop();
        }
    }
}

/// Marks a slot as done in the queue, if it stores.
pub fn finish_store(stores: &mut StoreQueue, slot: &Slot)
    requires held { is_store slot.now ≡ true
        → Any (λ q. q.number ≡ slot.now.number) stores.old.stores }
    ensures finished { stores.new ≡ record stores.old {
      stores = finished_in slot.now stores.old.stores;
    } }
{
    if is_store(slot) {
        stores.done(slot.number);
    }
}
