ghost use Rattle.std.specs.Prelude.{◌≡◌, [], IsOkAnd, IsTrue};
ghost use Rattle.device_bus.specs.Device.{opening_state};

use crate::device::Device;
use crate::kind::DeviceKind;
use crate::undo::{DevUndo, Note};
use fsim_base::{NoMemory, Width};
use std::alloc::Global;
use std::marker::Model;

/// A UART that a driver polls: its receiver hands over the run's input, and what it transmits is
/// the output.
#[derive(Debug, Drop)]
pub struct Console {
    input: Vec<u8>,
    /// How many bytes of the input were received.
    place: u32,
    /// The line control register. An undo may put any number there, so it isn't held as a byte.
    line_control: u32,
}

impl Model for Console {
    ghost use Rattle.std.specs.Prelude.{◌≤◌, [], ◌∷◌, length};
    ghost use Rattle.device_bus.specs.Device.{DeviceState};
    ghost use Rattle.device_bus.specs.declared.device.TheConstants.{INPUT_LIMIT};

    ghost Value = { DeviceState };

    ghost view = { λ c. record { given = c.input.items; numbers = c.line_control ∷ c.place ∷ [] } };

    ghost invariant = { λ c. length c.input.items ≤ INPUT_LIMIT };
}

/// Offset of the receiver buffer, which is loaded, and the transmitter holding register, which is
/// stored.
const TRANSFER: u32 = 0;

/// Offset of the line control register.
const LINE_CONTROL: u32 = 3;

/// Offset of the line status register.
const LINE_STATUS: u32 = 5;

/// Slot of the line control register among the numbers.
const LINE_CONTROL_SLOT: u32 = 0;

/// Slot of the input place among the numbers.
const PLACE_SLOT: u32 = 1;

/// Line status with an empty transmitter and no byte to receive.
const TRANSMITTER_EMPTY: u32 = 0x60;

/// The bit of the line status that says that a byte can be received.
const DATA_READY: u32 = 0x01;

impl Console {
    ghost use Rattle.device_bus.specs.Device.{has_latch, has_input, receive_answer, renumbered};
    ghost use Rattle.device_bus.specs.Undo.{Undoes};

    /// A console with no input. It takes no memory before its start.
    pub fn new(alloc: Global) -> Result<Console, NoMemory>
        ensures opened { IsOkAnd result (λ console. console ≡ opening_state DeviceKind.Console []) }
    {
        Ok(Console {
            input: Vec::new(alloc),
            place: 0,
            line_control: 0,
        })
    }

    /// Whether the divisor latch hides the transfer register.
    fn has_latch(&self) -> bool
        ensures latch { result ≡ has_latch self.now.numbers }
    {
        (self.line_control >> 7) & 1 == 1
    }

    /// Whether a byte can be received.
    fn has_input(&self) -> bool
        ensures input { result ≡ has_input self.now.given self.now.numbers }
    {
        (self.place as usize) < self.input.len()
    }

    /// Receives the next byte of the input.
    fn receive(&mut self) -> (u32, DevUndo)
        requires input { IsTrue (has_input self.old.given self.old.numbers) }
        ensures value { result.0 ≡ (receive_answer self.old.given self.old.numbers).value }
        ensures state { self.new
            ≡ renumbered self.old (receive_answer self.old.given self.old.numbers).numbers }
        ensures undoes { Undoes DeviceKind.Console result.1 self.old self.new }
    {
        let place = self.place;
        self.place += 1;
        let undo = DevUndo {
            slot: Some(PLACE_SLOT),
            old: place,
        };
        (u32::from(self.input[place as usize]), undo)
    }
}

impl Device for Console {
    ghost use Rattle.device_bus.specs.declared.kind.DeviceKind.{DeviceKind};

    ghost kind = { λ _. DeviceKind.Console };

    ghost state = { λ c. c };

    fn kind(&self) -> DeviceKind {
        DeviceKind::Console
    }

    fn start(&mut self, alloc: Global, input: &[u8]) -> Result<(), NoMemory> {
        match input.to_vec(alloc) {
            Ok(copy) => self.input = copy,
            Err(_) => return Err(NoMemory),
        }
        self.place = 0;
        self.line_control = 0;
        Ok(())
    }

    #[tactic(auto, unfolding(crate::specs::Device::dev))]
    fn load(&mut self, off: u32, _width: Width, _time: u64) -> (u32, DevUndo) {
        match off {
            TRANSFER if !self.has_latch() && self.has_input() => self.receive(),
            LINE_CONTROL => (self.line_control, DevUndo::NOTHING),
            LINE_STATUS if self.has_input() => (TRANSMITTER_EMPTY | DATA_READY, DevUndo::NOTHING),
            LINE_STATUS => (TRANSMITTER_EMPTY, DevUndo::NOTHING),
            _ => (0, DevUndo::NOTHING),
        }
    }

    #[tactic(auto, unfolding(crate::specs::Device::dev))]
    fn store(&mut self, off: u32, _width: Width, value: u32) -> (Note, DevUndo) {
        let byte = (value & 0xff) as u8;
        match off {
            TRANSFER if !self.has_latch() => (Note::Out(byte), DevUndo::NOTHING),
            LINE_CONTROL => {
                let undo = DevUndo {
                    slot: Some(LINE_CONTROL_SLOT),
                    old: std::mem::replace(&mut self.line_control, u32::from(byte)),
                };
                (Note::Nothing, undo)
            }
            _ => (Note::Nothing, DevUndo::NOTHING),
        }
    }

    fn undo(&mut self, undo: DevUndo) {
        match undo.slot {
            Some(LINE_CONTROL_SLOT) => self.line_control = undo.old,
            Some(PLACE_SLOT) => self.place = undo.old,
            _ => {}
        }
    }

    fn number(&self, slot: u32) -> u32 {
        if slot == LINE_CONTROL_SLOT {
            self.line_control
        } else {
            self.place
        }
    }
}
