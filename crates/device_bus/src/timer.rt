ghost use Rattle.std.specs.Prelude.{◌≡◌, []};
ghost use Rattle.device_bus.specs.Device.{opening_state};

use crate::device::Device;
use crate::kind::DeviceKind;
use crate::undo::{DevUndo, Note};
use fsim_base::{NoMemory, Width};
use std::alloc::Global;
use std::marker::Model;

/// The machine timer: it shows the time and holds mtimecmp, the time from which on it interrupts.
#[derive(Debug, Drop)]
pub struct Timer {
    compare_low: u32,
    compare_high: u32,
}

impl Model for Timer {
    ghost use Rattle.std.specs.Prelude.{[], ◌∷◌};
    ghost use Rattle.device_bus.specs.Device.{DeviceState};

    ghost Value = { DeviceState };

    ghost view = { λ t. record { given = []; numbers = t.compare_low ∷ t.compare_high ∷ [] } };
}

/// Offset of the low half of mtimecmp.
const COMPARE_LOW: u32 = 0x4000;

/// Offset of the high half of mtimecmp.
const COMPARE_HIGH: u32 = 0x4004;

/// Offset of the low half of the time.
const TIME_LOW: u32 = 0xbff8;

/// Offset of the high half of the time.
const TIME_HIGH: u32 = 0xbffc;

/// Slot of the low half of mtimecmp among the numbers.
const COMPARE_LOW_SLOT: u32 = 0;

/// Slot of the high half of mtimecmp among the numbers.
const COMPARE_HIGH_SLOT: u32 = 1;

impl Timer {
    /// A timer with mtimecmp at 2^64 - 1, a time that no run reaches.
    pub fn new() -> Timer
        ensures opened { result ≡ opening_state DeviceKind.Timer [] }
    {
        Timer {
            compare_low: u32::MAX,
            compare_high: u32::MAX,
        }
    }
}

impl Device for Timer {
    ghost use Rattle.device_bus.specs.declared.kind.DeviceKind.{DeviceKind};

    ghost kind = { λ _. DeviceKind.Timer };

    ghost state = { λ t. t };

    fn kind(&self) -> DeviceKind {
        DeviceKind::Timer
    }

    fn start(&mut self, _alloc: Global, _input: &[u8]) -> Result<(), NoMemory> {
        self.compare_low = u32::MAX;
        self.compare_high = u32::MAX;
        Ok(())
    }

    #[tactic(auto, unfolding(crate::specs::Device::dev))]
    fn load(&mut self, off: u32, _width: Width, time: u64) -> (u32, DevUndo) {
        let value = match off {
            COMPARE_LOW => self.compare_low,
            COMPARE_HIGH => self.compare_high,
            TIME_LOW => (time & 0xffff_ffff) as u32,
            TIME_HIGH => (time >> 32) as u32,
            _ => 0,
        };
        (value, DevUndo::NOTHING)
    }

    #[tactic(auto, unfolding(crate::specs::Device::dev))]
    fn store(&mut self, off: u32, _width: Width, value: u32) -> (Note, DevUndo) {
        let undo = match off {
            COMPARE_LOW => DevUndo {
                slot: Some(COMPARE_LOW_SLOT),
                old: std::mem::replace(&mut self.compare_low, value),
            },
            COMPARE_HIGH => DevUndo {
                slot: Some(COMPARE_HIGH_SLOT),
                old: std::mem::replace(&mut self.compare_high, value),
            },
            _ => DevUndo::NOTHING,
        };
        (Note::Nothing, undo)
    }

    fn undo(&mut self, undo: DevUndo) {
        match undo.slot {
            Some(COMPARE_LOW_SLOT) => self.compare_low = undo.old,
            Some(COMPARE_HIGH_SLOT) => self.compare_high = undo.old,
            _ => {}
        }
    }

    fn number(&self, slot: u32) -> u32 {
        if slot == COMPARE_LOW_SLOT {
            self.compare_low
        } else {
            self.compare_high
        }
    }
}
