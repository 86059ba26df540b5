use crate::console::Console;
use crate::device::Device;
use crate::finisher::Finisher;
use crate::kind::DeviceKind;
use crate::timer::Timer;
use crate::undo::{DevUndo, Note};
use fsim_base::{NoMemory, Width};
use std::alloc::Global;

/// Any of the three devices. It is no trait object, so that each call goes directly to the device's
/// own code: behind calls that may come to a trait object the compiler puts tests.
#[derive(Debug, Drop)]
pub enum AnyDevice {
    Console(Console),
    Timer(Timer),
    Finisher(Finisher),
}

impl Device for AnyDevice {
    ghost use Rattle.device_bus.specs.AnyDevice.{kind_of_any, state_of_any};

    ghost kind = { kind_of_any };

    ghost state = { state_of_any };

    fn kind(&self) -> DeviceKind {
        match self {
            AnyDevice::Console(console) => console.kind(),
            AnyDevice::Timer(timer) => timer.kind(),
            AnyDevice::Finisher(finisher) => finisher.kind(),
        }
    }

    fn start(&mut self, alloc: Global, input: &[u8]) -> Result<(), NoMemory> {
        match self {
            AnyDevice::Console(console) => console.start(alloc, input),
            AnyDevice::Timer(timer) => timer.start(alloc, input),
            AnyDevice::Finisher(finisher) => finisher.start(alloc, input),
        }
    }

    fn load(&mut self, off: u32, width: Width, time: u64) -> (u32, DevUndo) {
        match self {
            AnyDevice::Console(console) => console.load(off, width, time),
            AnyDevice::Timer(timer) => timer.load(off, width, time),
            AnyDevice::Finisher(finisher) => finisher.load(off, width, time),
        }
    }

    fn store(&mut self, off: u32, width: Width, value: u32) -> (Note, DevUndo) {
        match self {
            AnyDevice::Console(console) => console.store(off, width, value),
            AnyDevice::Timer(timer) => timer.store(off, width, value),
            AnyDevice::Finisher(finisher) => finisher.store(off, width, value),
        }
    }

    fn undo(&mut self, undo: DevUndo) {
        match self {
            AnyDevice::Console(console) => console.undo(undo),
            AnyDevice::Timer(timer) => timer.undo(undo),
            AnyDevice::Finisher(finisher) => finisher.undo(undo),
        }
    }

    fn number(&self, slot: u32) -> u32 {
        match self {
            AnyDevice::Console(console) => console.number(slot),
            AnyDevice::Timer(timer) => timer.number(slot),
            AnyDevice::Finisher(finisher) => finisher.number(slot),
        }
    }
}
