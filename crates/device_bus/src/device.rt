ghost use Rattle.std.specs.Prelude.{◌≡◌, ◌<◌, ◌≤◌, length, IsTrue, OnOk, slice_index};
ghost use Rattle.device_bus.specs.declared.kind.DeviceKind.{DeviceKind};
ghost use Rattle.device_bus.specs.Range.{accepts_of};
ghost use Rattle.device_bus.specs.Device.{DeviceState, opening_state, slots_of, loading, storing};
ghost use Rattle.device_bus.specs.Device.{answer_of, state_after};
ghost use Rattle.device_bus.specs.Undo.{NamesSlot, Undoes, state_undone};

use crate::kind::DeviceKind;
use crate::undo::{DevUndo, Note};
use fsim_base::{NoMemory, Width};
use std::alloc::Global;

/// The largest input that a run may have, in bytes.
pub const INPUT_LIMIT: usize = 0x100_0000;

/// A device, as contracts see it: its kind, what it was given of the input, and its numbers.
///
/// Loads and stores take constant time and no memory. Each changes at most one number, and tells
/// how to take that back. Offsets are in bytes from the base of the device's range.
pub trait Device: Drop {
    ghost kind: { Self → DeviceKind };

    ghost state: { Self → DeviceState };

    /// Which device it is.
    fn kind(&self) -> DeviceKind
        ensures kind { result ≡ kind self.now };

    /// Makes the device ready for a run with this input, of which the console keeps a copy.
    ///
    /// Its one refusal is want of memory, which leaves the device unfit for a run.
    fn start(&mut self, alloc: Global, input: &[u8]) -> Result<(), NoMemory>
        requires input { length input.now ≤ INPUT_LIMIT }
        ensures kind { kind self.new ≡ kind self.old }
        ensures opening { OnOk result (state self.new ≡ opening_state (kind self.old) input.now) };

    /// Whether it accepts an access at an offset.
    fn accepts(&self, off: u32, width: Width) -> bool
        ensures accepted { result ≡ accepts_of (kind self.now) off width }
    {
        self.kind().accepts(off, width)
    }

    /// A load at a time: its value, and what takes it back.
    fn load(&mut self, off: u32, width: Width, time: u64) -> (u32, DevUndo)
        requires accepted { IsTrue (accepts_of (kind self.old) off width) }
        ensures kind { kind self.new ≡ kind self.old }
        ensures value { result.0
            ≡ (answer_of (kind self.old) (state self.old) (loading off width time)).value }
        ensures state { state self.new
            ≡ state_after (kind self.old) (state self.old) (loading off width time) }
        ensures undoes { Undoes (kind self.old) result.1 (state self.old) (state self.new) };

    /// A store of the low bytes of a value: what it does outside the device, and what takes it
    /// back.
    fn store(&mut self, off: u32, width: Width, value: u32) -> (Note, DevUndo)
        requires accepted { IsTrue (accepts_of (kind self.old) off width) }
        ensures kind { kind self.new ≡ kind self.old }
        ensures note { result.0
            ≡ (answer_of (kind self.old) (state self.old) (storing off width value)).note }
        ensures state { state self.new
            ≡ state_after (kind self.old) (state self.old) (storing off width value) }
        ensures undoes { Undoes (kind self.old) result.1 (state self.old) (state self.new) };

    /// Sets back the number that an access changed, and changes nothing else.
    fn undo(&mut self, undo: DevUndo)
        requires slot { NamesSlot (kind self.old) undo }
        ensures kind { kind self.new ≡ kind self.old }
        ensures state { state self.new ≡ state_undone (state self.old) undo };

    /// One of the device's numbers.
    fn number(&self, slot: u32) -> u32
        requires slot { slot < slots_of (kind self.now) }
        ensures number { result ≡ slice_index (state self.now).numbers slot };
}

impl Device for Box<dyn Device + Send> {
    ghost kind = { λ b. (Device-box b).kind b.value };

    ghost state = { λ b. (Device-box b).state b.value };

    fn kind(&self) -> DeviceKind {
        (**self).kind()
    }

    fn start(&mut self, alloc: Global, input: &[u8]) -> Result<(), NoMemory> {
        (**self).start(alloc, input)
    }

    fn accepts(&self, off: u32, width: Width) -> bool {
        (**self).accepts(off, width)
    }

    fn load(&mut self, off: u32, width: Width, time: u64) -> (u32, DevUndo) {
        (**self).load(off, width, time)
    }

    fn store(&mut self, off: u32, width: Width, value: u32) -> (Note, DevUndo) {
        (**self).store(off, width, value)
    }

    fn undo(&mut self, undo: DevUndo) {
        (**self).undo(undo)
    }

    fn number(&self, slot: u32) -> u32 {
        (**self).number(slot)
    }
}
