ghost use Rattle.std.specs.Prelude.{◌≡◌};
ghost use Rattle.reorder_buffer.specs.declared.slot.SlotState.TheVariants.{Waiting};
ghost use Rattle.reorder_buffer.specs.Held.{slot_in};

use crate::slot::{Slot, SlotState};
use trace_entry::Entry;

/// What a position of the window keeps of an instruction: the entry as it came, which is copied
/// whole, and what the window adds to it.
#[derive(Clone, Copy, Debug)]
pub(crate) struct Held {
    /// What was told of it.
    pub entry: Entry,
    /// The address that was predicted to follow it.
    pub predicted: u32,
    /// The cycle in which it was fetched.
    pub fetched: u64,
    /// How far it has come.
    pub state: SlotState,
}

impl Held {
    /// What a position that held no instruction yet keeps.
    pub(crate) fn free() -> Held {
        Held {
            entry: Entry::BLANK,
            predicted: 0,
            fetched: 0,
            state: SlotState::Done,
        }
    }

    /// Its slot, of which a caller reads what it uses.
    #[inline(always)]
    pub(crate) fn slot(&self) -> Slot
        ensures slot { result ≡ slot_in self.now }
    {
        Slot {
            number: self.entry.number,
            addr: self.entry.addr,
            word: self.entry.word,
            class: self.entry.class,
            access: self.entry.access,
            next: self.entry.next,
            predicted: self.predicted,
            cause: self.entry.cause,
            unserved: self.entry.unserved,
            sends: self.entry.out.is_some(),
            halt: self.entry.halt,
            irq_on: self.entry.irq_on,
            cmp: self.entry.cmp,
            fetched: self.fetched,
            state: self.state,
        }
    }

    /// Holds an instruction that waits, in place of what was held.
    #[inline(always)]
    pub(crate) fn put(&mut self, entry: &Entry, predicted: u32, fetched: u64)
        ensures put { self.new ≡ record {
          entry = entry.now;
          predicted = predicted;
          fetched = fetched;
          state = Waiting;
        } }
    {
        self.entry = *entry;
        self.predicted = predicted;
        self.fetched = fetched;
        self.state = SlotState::Waiting;
    }
}
