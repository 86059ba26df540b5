//! One more instruction: its slot, its station and its place in the store queue.
ghost use Rattle.std.specs.Prelude.{◌≡◌, ◌+◌, ◌<◌, ◌≤◌, ◌++◌, ◌∷◌, [], IfSome, length};
ghost use Rattle.reorder_buffer.specs.declared.slot.SlotState.TheVariants.{Waiting};
ghost use Rattle.reorder_buffer.specs.Held.{slot_from};
ghost use Rattle.reorder_buffer.specs.Window.{youngest, room_of};
ghost use Rattle.in_flight.specs.Registers.{registers_of};
ghost use Rattle.in_flight.specs.Step.{stations_of, queue_of};

use crate::queueing::put_store;
use load_store_queue::StoreQueue;
use reorder_buffer::Window;
use reservation_stations::{Registers, Stations};
use trace_entry::Entry;

/// Adds an instruction whose registers are known, behind the others. These are read where
/// `InFlight` keeps them, so it takes the parts that stand beside them.
#[inline(always)]
pub fn append_known(
    window: &mut Window,
    stations: &mut Stations,
    stores: &mut StoreQueue,
    entry: &Entry,
    predicted: u32,
    fetched: u64,
    registers: &Registers,
)
    requires room { length window.old.slots < window.old.capacity }
    requires next { IfSome (youngest window.old.slots)
        (λ last. entry.now.number ≡ last.number + 1) }
    requires known { registers.now ≡ registers_of entry.now.word }
    requires limit { window.old.capacity ≤ 256 }
    requires stations { stations.old ≡ stations_of (room_of window.old.capacity) window.old.slots }
    requires stores { stores.old ≡ queue_of window.old.capacity window.old.slots }
    ensures appended { window.new
        ≡ record window.old {
          slots = window.old.slots ++ slot_from entry.now predicted fetched Waiting ∷ [];
        } }
    ensures stations { stations.new ≡ stations_of (room_of window.new.capacity) window.new.slots }
    ensures stores { stores.new ≡ queue_of window.new.capacity window.new.slots }
{
    prove!(window.len() < 256);
    let position = window.free_position(entry.number);
    window.append(entry, predicted, fetched);
    put_store(stores, entry);
    stations.enter(position, registers);
}
